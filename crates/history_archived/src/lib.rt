// The rows that an archive keeps for an input: definitions and theorems, no code.
#![tactic(auto)]
