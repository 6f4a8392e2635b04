// A whole start of the plant's tool with an archive of one file, on the bytes of its files. It makes the calls that the tool makes (docs/CRASH.md).
// The model of the disk and the crash theorems are in journal_model.
#![tactic(auto)]

ghost use Rattle.std.specs.Prelude.{◌≡◌, [], ◌+◌, ◌-◌, ◌≤◌, ◌<◌, length, get_or};
ghost use Rattle.base_refusal.specs.Number.{outcome_number};
ghost use Rattle.block_layout.specs.Block.{block_length};
ghost use Rattle.archive_model.specs.Buffer.{blocks_for, max_blocks, max_rows};
ghost use Rattle.archive_model.specs.Append.{block_at};
ghost use Rattle.archive_fill.specs.Claims.{with_block};
ghost use Rattle.journal_model.specs.Disk.{whole_blocks};
ghost use Rattle.journal_calls.specs.Claims.{mended_by};
ghost use Rattle.journal_state.specs.State.{kept};
ghost use Rattle.journal_state.specs.Lawful.{image_rows};
ghost use Rattle.journal_recovery.specs.Start.{is_one_file, start_result};
ghost use Rattle.journal_recovery.specs.Private.{IsCounted, lost_at, Finds, IsThere, Sweeps, Settles};

use archive_file::MAX_BLOCKS;
use base_refusal::Refusal;
use block_layout::{BLOCK_LENGTH, CELLS_PER_BLOCK};
use collector_checkpoint::IMAGE_LENGTH;
use journal_calls::{Judgement, block, scan};
use journal_state::{NAME_LENGTH, NUMBERS, TAIL_LENGTH, lawful};

// Starts on the bytes of a state file and of an archive: mends a torn block from the state's copy, keeps leftovers, writes their number to `left`,
// and clears what comes after them. Refused: 16 for an archive of more than 2^32 blocks; 16 and 11 as `accept` answers; 10 for a state without an
// archive, or if the collector had counted rows when the file began; 12 for an archive that is not the state's; then everything is unchanged. In
// every case, bytes after the last whole block are unchanged.
pub fn start(state: &[u8], file: &mut [u8], left: &mut usize) -> Result<(), Refusal>
    ensures { record { number = outcome_number result; archive = file.new; left = left.new }
        ≡ start_result state.now file.old left.old }
{
    if MAX_BLOCKS < file.len() / BLOCK_LENGTH {
        return Err(Refusal::Size);
    }
    let mut numbers = [0u64; NUMBERS];
    let mut name = [0u8; NAME_LENGTH];
    let mut last = [0u8; BLOCK_LENGTH];
    let mut image = [0u8; IMAGE_LENGTH];
    let mut tail = [0u8; TAIL_LENGTH];
    journal_state::accept(
        state,
        &mut numbers,
        &mut name,
        &mut last,
        &mut image,
        &mut tail,
    )?;
    if !is_one_file(&numbers) {
        return Err(Refusal::Argument);
    }
    let rows = counted(&numbers, &image);
    settle(file, rows, &last, left)
}

// Whether the state has an archive, and the collector began with its file.
fn is_one_file(numbers: &[u64; NUMBERS]) -> bool
    ensures { result ≡ is_one_file (kept numbers.now [] [] [] []) }
{
    (numbers[4] != 0) & (numbers[1] == 0)
}

// How many rows a state counts in the file: those that the file had, and those of the collector.
fn counted(numbers: &[u64; NUMBERS], image: &[u8; IMAGE_LENGTH]) -> usize
    requires { IsCounted numbers.now image.now }
    ensures { result ≡ get_or numbers.now 2 0 + image_rows image.now }
{
    let seen = lawful::rows_of(image).unwrap();
    let had = numbers[2];
    (had + seen) as usize
}

// The same for a state that counts `rows` rows, and has a copy of the block with the last of them.
fn settle(
    file: &mut [u8],
    rows: usize,
    last: &[u8; BLOCK_LENGTH],
    left: &mut usize,
) -> Result<(), Refusal>
    requires { (rows ≤ max_rows) × (whole_blocks file.old ≤ max_blocks) × (length last.now ≡ block_length) }
    ensures { Settles rows last.now file.old left.old
        (record { number = outcome_number result; archive = file.new; left = left.new }) }
{
    let found = find(file, rows, last);
    if let Judgement::Other = found {
        return Err(Refusal::Mismatch);
    }
    mend(file, last_used(rows), last, found);
    *left = sweep(file, rows);
    Ok(())
}

// The number of the block with the last row that is counted.
fn last_used(rows: usize) -> usize
    ensures { result ≡ blocks_for rows - 1 }
{
    rows.saturating_sub(1) / CELLS_PER_BLOCK
}

// Judges that block by the state's copy. It is another archive's if blocks before it are not full and sound.
fn find(file: &[u8], rows: usize, last: &[u8; BLOCK_LENGTH]) -> Judgement
    requires { rows ≤ max_rows }
    ensures { Finds rows last.now file.now result }
{
    if rows == 0 {
        return Judgement::Same;
    }
    let at = last_used(rows);
    if is_lost(file, at) {
        return Judgement::Other;
    }
    let from = BLOCK_LENGTH * at;
    block::judge(
        last,
        rows - CELLS_PER_BLOCK * at,
        &file[from..from + BLOCK_LENGTH],
    )
}

// Whether block `at` is missing, or the blocks before it are not an archive of full blocks.
fn is_lost(file: &[u8], at: usize) -> bool
    requires { at < max_blocks }
    ensures { result ≡ lost_at at file.now }
{
    if file.len() / BLOCK_LENGTH <= at {
        return true;
    }
    match archive_file::open(&file[0..BLOCK_LENGTH * at]) {
        Ok(n) => n != CELLS_PER_BLOCK * at,
        Err(_) => true,
    }
}

// Writes a torn block from the copy.
fn mend(file: &mut [u8], at: usize, last: &[u8; BLOCK_LENGTH], found: Judgement)
    requires { IsThere found at file.old }
    ensures { file.new
        ≡ with_block at (mended_by found last.now (block_at at file.old)) file.old }
{
    if let Judgement::Torn = found {
        let from = BLOCK_LENGTH * at;
        file[from..from + BLOCK_LENGTH].copy_from_slice(last);
    }
}

// Clears the blocks after those that read as an archive, from the last counted one on. Returns how many leftovers there are.
fn sweep(file: &mut [u8], rows: usize) -> usize
    requires { (rows ≤ max_rows) × (whole_blocks file.old ≤ max_blocks) × (blocks_for rows ≤ whole_blocks file.old) }
    ensures { Sweeps rows file.old result file.new }
{
    let at = last_used(rows);
    let end = BLOCK_LENGTH * (file.len() / BLOCK_LENGTH);
    let mut run = [MAX_BLOCKS as u64, at as u64, 0, 0, 0];
    scan::feed(&mut run, &file[BLOCK_LENGTH * at..end]).unwrap();
    let behind = at + run[2] as usize;
    block_layout::clear(&mut file[BLOCK_LENGTH * behind..end]);
    (run[3] as usize).saturating_sub(rows - CELLS_PER_BLOCK * at)
}
