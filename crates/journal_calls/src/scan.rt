// How many blocks read as an archive, in pieces of whole blocks: each one is sound and has the right number, and only the last one may be short.
ghost use Rattle.std.specs.Prelude.{◌≡◌, true, ◌+◌, ◌/◌, ◌≤◌, ◌<◌, length};
ghost use Rattle.base_refusal.specs.Number.{outcome_number};
ghost use Rattle.block_layout.specs.Block.{block_length};
ghost use Rattle.archive_model.specs.Buffer.{blocks_in, max_blocks};
ghost use Rattle.journal_calls.specs.Run.{run_of, run_at, run_numbers, is_dense, is_run, run_block, run_blocks, run_call};

use crate::{Run, block};
use archive_file::MAX_BLOCKS;
use base_refusal::Refusal;
use block_layout::{BLOCK_LENGTH, CELLS_PER_BLOCK};

// How many blocks a file has, the number that the next block must have, how many blocks were read, how many rows they have, and a number that is not
// 0 if the run has ended.
pub const NUMBERS: usize = 5;

// Reads the blocks of a piece. Refused: 11 for numbers that no run has, 16 for a piece that isn't whole blocks, or if there are then more than 2^32
// blocks; then every number is unchanged.
pub fn feed(numbers: &mut [u64; NUMBERS], piece: &[u8]) -> Result<(), Refusal>
    ensures { record { number = outcome_number result; numbers = numbers.new }
        ≡ run_call numbers.old piece.now }
{
    let r = Run::from(*numbers);
    if !is_run(r) {
        return Err(Refusal::NotAccepted);
    }
    if piece.len() % BLOCK_LENGTH != 0 {
        return Err(Refusal::Size);
    }
    let passed = r.blocks;
    if MAX_BLOCKS < passed + piece.len() / BLOCK_LENGTH {
        return Err(Refusal::Size);
    }
    let next = run_blocks(r, piece);
    *numbers = next.into();
    Ok(())
}

// The run in five numbers.
impl From<[u64; NUMBERS]> for Run {
    ghost from_gives = { λ numbers r. run_of r ≡ run_at numbers };

    fn from(numbers: [u64; NUMBERS]) -> Run {
        Run {
            limit: numbers[0] as usize,
            place: numbers[1] as usize,
            blocks: numbers[2] as usize,
            rows: numbers[3] as usize,
            ended: numbers[4] != 0,
        }
    }
}

// The numbers of a run.
impl From<Run> for [u64; NUMBERS] {
    ghost from_gives = { λ r numbers. numbers ≡ run_numbers (run_of r) };

    fn from(r: Run) -> [u64; NUMBERS] {
        [
            r.limit as u64,
            r.place as u64,
            r.blocks as u64,
            r.rows as u64,
            u64::from(r.ended),
        ]
    }
}

// Whether some blocks give this run.
fn is_run(r: Run) -> bool
    ensures { result ≡ is_run (run_of r) }
{
    let limit = r.limit;
    let blocks = r.blocks;
    if MAX_BLOCKS < limit {
        return false;
    }
    if limit <= r.place {
        return false;
    }
    if MAX_BLOCKS < blocks {
        return false;
    }
    is_dense(r.ended, blocks, r.rows)
}

// Whether this many blocks can have this many rows: all are full, or the run has ended with a short one.
fn is_dense(ended: bool, blocks: usize, rows: usize) -> bool
    requires { blocks ≤ max_blocks }
    ensures { result ≡ is_dense ended blocks rows }
{
    let most = CELLS_PER_BLOCK * blocks;
    if most < rows {
        return false;
    }
    if ended {
        return most < rows + CELLS_PER_BLOCK;
    }
    most <= rows
}

// Reads every whole block of a piece.
fn run_blocks(r: Run, piece: &[u8]) -> Run
    requires { (is_run (run_of r) ≡ true) × (r.blocks + length piece.now / block_length ≤ max_blocks) }
    ensures { run_of result ≡ run_blocks (run_of r) (blocks_in piece.now) }
{
    let mut at = r;
    for block in piece.chunks_exact(BLOCK_LENGTH) {
        at = run_block(at, block);
    }
    at
}

// Reads one more block.
fn run_block(r: Run, block: &[u8]) -> Run
    requires { (length block.now ≡ block_length) × (is_run (run_of r) ≡ true) × (r.blocks < max_blocks) }
    ensures { run_of result ≡ run_block (run_of r) block.now }
{
    if r.ended {
        return r;
    }
    let limit = r.limit;
    let place = r.place;
    let used = archive_file::sound(block);
    if used == 0 {
        return Run { ended: true, ..r };
    }
    if block::number_of(block) != place as u64 {
        return Run { ended: true, ..r };
    }
    Run {
        limit,
        place: (place + 1) % limit,
        blocks: r.blocks + 1,
        rows: r.rows + used,
        ended: used < CELLS_PER_BLOCK,
    }
}
