// Archive block files: definitions and theorems, no code.
#![tactic(auto)]
