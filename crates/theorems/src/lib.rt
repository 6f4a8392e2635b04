// What is proved, on one page: no code.
#![tactic(auto)]
