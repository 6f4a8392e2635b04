// The yearly report: definitions and theorems, no code.
#![tactic(auto)]
