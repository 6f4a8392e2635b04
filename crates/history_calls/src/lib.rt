// Whole histories of the code's own states, from the contracts of its calls: definitions and theorems, no code.
#![tactic(auto)]
