// The types that the collector shows to its callers. What it does is in specs/; what holds for every history is in specs/History.antt.
#![tactic(auto)]

use base_refusal::Refusal;

// Each total is the number of such answers in the history; received counts all but 8 (document 01, "Merging").
#[derive(Clone, Copy)]
pub struct Totals {
    pub received: u64,
    pub kept: u64,
    pub copies: u64,
    pub loose: u64,
    pub damaged: u64,
    pub late: u64,
}

// The answer to a reception.
#[derive(Clone, Copy)]
pub enum Answer {
    // The reception opens a telegram.
    Kept,
    // It is a copy of an open telegram.
    Copy,
    // 64 telegrams are open: the reception is reported, but opens nothing.
    Loose,
    // Damaged, late, or not taken.
    Refused(Refusal),
}
