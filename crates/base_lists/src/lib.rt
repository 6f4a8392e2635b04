// Definitions and laws on lists for several crates, in specs/ and proofs/; no code.
#![tactic(auto)]
