// How lent buffers are read and written: definitions and laws in specs/ and proofs/, no code.
#![tactic(auto)]
