// The rows of a history alone, and what closes in it: definitions and theorems, no code.
#![tactic(auto)]
