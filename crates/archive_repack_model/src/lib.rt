// Salvage of a damaged archive and removal of identities: definitions and theorems, no code.
#![tactic(auto)]
