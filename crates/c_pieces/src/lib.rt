// Archives in pieces of whole blocks, on plain numbers and bytes, as other languages call them. Between two pieces, lent arrays hold what is known.
#![tactic(auto)]

pub mod adding;
pub mod packer;
pub mod scan;
