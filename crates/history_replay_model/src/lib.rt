// What a replay of calls writes: definitions and theorems, no code.
#![tactic(auto)]
