// The decisions of the plant's journal: what is in the block with the last row that a state counts, how many leftovers agree with the new rows, and
// how many blocks from there on read as an archive. Definitions and the crash theorems are in journal_model.
#![tactic(auto)]

pub mod block;
pub mod rows;
pub mod scan;

// The block with the last row that a state counts: it is the state's copy; it is the copy with more rows after it; a write of it was torn; or it
// belongs to another archive.
#[derive(Clone, Copy, Debug, PartialEq, Eq)]
pub enum Judgement {
    Same,
    Longer,
    Torn,
    Other,
}

// Blocks that are read as an archive in files of `limit` blocks: the number that the next one must have, how many were read, how many rows they have,
// and whether the run has ended.
#[derive(Clone, Copy, Debug, PartialEq, Eq)]
pub struct Run {
    pub limit: usize,
    pub place: usize,
    pub blocks: usize,
    pub rows: usize,
    pub ended: bool,
}
