// A batch of the plant's tool with an archive of one file, on the bytes of its files. It makes the calls that the tool makes (docs/CRASH.md, "A
// commit"): it compares leftovers, writes the rows to the archive, then writes the state.
#![tactic(auto)]

ghost use Rattle.std.specs.Prelude.{◌≡◌, true, cond, ◌<◌, replicate};
ghost use Rattle.base_refusal.specs.Number.{outcome_number};
ghost use Rattle.block_layout.specs.Block.{block_length};
ghost use Rattle.archive_fill.specs.Claims.{with_block};
ghost use Rattle.journal_model.specs.Disk.{whole_blocks};
ghost use Rattle.journal_state.specs.State.{kept};
ghost use Rattle.journal_batch.specs.Batch.{batch_put_of, filled_of, commit_of};

use base_refusal::Refusal;
use block_layout::{BLOCK_LENGTH, CELLS_PER_BLOCK};
use collector_checkpoint::IMAGE_LENGTH;
use journal_calls::rows;
use journal_state::{LENGTH, NAME_LENGTH, NUMBERS, TAIL_LENGTH};

// Adds rows `count`, count + 1 and so on to the archive, all in one block, and writes the state that counts them. `moments` and `left` are the
// leftovers at the positions of these rows; rows that are already there are not written again. `last` is the copy of the block with the last row.
// Refused: 16; 12 if leftovers must be put aside first; the number of `put_rows`; 6 if the archive does not have that block; 11 for a state that is
// not lawful; then everything is unchanged.
pub fn commit(
    count: usize,
    times: &[u64],
    records: &[u8],
    moments: &[u64],
    left: &[u8],
    numbers: &[u64; NUMBERS],
    name: &[u8; NAME_LENGTH],
    image: &[u8; IMAGE_LENGTH],
    tail: &[u8; TAIL_LENGTH],
    last: &mut [u8; BLOCK_LENGTH],
    file: &mut [u8],
    state: &mut [u8; LENGTH],
) -> Result<(), Refusal>
    ensures { record {
      number = outcome_number result;
      last = last.new;
      archive = file.new;
      state = state.new;
    }
        ≡ commit_of count times.now records.now moments.now left.now
        (λ block. kept numbers.now name.now block image.now tail.now)
        last.old file.old state.old }
{
    let compared = rows::compare(times, records, moments, left)?;
    if compared.going != 0 {
        return Err(Refusal::Mismatch);
    }
    let mut block = [0u8; BLOCK_LENGTH];
    fill(&mut block, last, count, times, records)?;
    let added = compared.agreed < times.len();
    if added & (file.len() / BLOCK_LENGTH <= count / CELLS_PER_BLOCK) {
        return Err(Refusal::ShortOutput);
    }
    let mut next = [0u8; LENGTH];
    journal_state::write(numbers, name, &block, image, tail, &mut next)?;
    put_block(file, count / CELLS_PER_BLOCK, &block, added);
    *last = block;
    *state = next;
    Ok(())
}

// The block with the new rows: a blank one if the last one is full, else the copy of the last one.
fn fill(
    block: &mut [u8; BLOCK_LENGTH],
    last: &[u8; BLOCK_LENGTH],
    count: usize,
    times: &[u64],
    records: &[u8],
) -> Result<(), Refusal>
    requires { block.old ≡ replicate block_length 0 }
    ensures { record { number = outcome_number result; block = block.new }
        ≡ filled_of last.now count times.now records.now }
{
    if times.len() == 0 {
        *block = *last;
        return Ok(());
    }
    if count % CELLS_PER_BLOCK == 0 {
        return put(block, count, times, records);
    }
    *block = *last;
    put(block, count, times, records)
}

// Puts rows into a block.
fn put(
    block: &mut [u8; BLOCK_LENGTH],
    count: usize,
    times: &[u64],
    records: &[u8],
) -> Result<(), Refusal>
    ensures { record { number = outcome_number result; block = block.new }
        ≡ batch_put_of block.old count times.now records.now }
{
    match archive_fill::put_rows(block, count, times, records) {
        Ok(()) => Ok(()),
        Err(e) => Err(e.why),
    }
}

// Writes a block of the archive, if it has new rows.
fn put_block(file: &mut [u8], at: usize, block: &[u8; BLOCK_LENGTH], added: bool)
    requires { added ≡ true → at < whole_blocks file.old }
    ensures { file.new
        ≡ cond added (with_block at block.now file.old) file.old }
{
    if !added {
        return;
    }
    let from = BLOCK_LENGTH * at;
    file[from..from + BLOCK_LENGTH].copy_from_slice(block);
}
