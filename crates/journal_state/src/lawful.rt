// Whether a state is lawful: only a lawful state is written or accepted.
ghost use Rattle.std.specs.Prelude.{◌≡◌, [], ◌∷◌, length};
ghost use Rattle.journal_state.specs.State.{kept, max_name, max_tail};
ghost use Rattle.journal_state.specs.Lawful.{is_last_of, is_file, is_attached, is_placed, is_printed, is_lawful_state};
ghost use Rattle.journal_state.specs.Calls.{counted_by};
ghost use Rattle.journal_state.specs.Private.{Sized};

use crate::{NAME_LENGTH, NUMBERS, TAIL_LENGTH};
use archive_file::MAX_ROWS;
use block_layout::CELLS_PER_BLOCK;
use collector_state::Collector;
use journal_calls::block;

// Whether the image is accepted, and numbers and bytes are right for the archive's file, the position in a log and the file for rows, each of which
// may be missing.
pub(crate) fn is_lawful(
    numbers: &[u64; NUMBERS],
    name: &[u8],
    last: &[u8],
    image: &[u8],
    tail: &[u8],
) -> bool
    requires { Sized (kept numbers.now name.now last.now image.now tail.now) }
    ensures { result ≡ is_lawful_state (kept numbers.now name.now last.now
        image.now tail.now) }
{
    let Some(counted) = rows_of(image) else {
        return false;
    };
    if !is_attached(numbers, name, last, counted) {
        return false;
    }
    if !is_placed(numbers, tail) {
        return false;
    }
    is_printed(numbers)
}

// How many rows an image counts, if it is accepted.
pub fn rows_of(image: &[u8]) -> Option<u64>
    ensures { result ≡ counted_by image.now }
{
    match collector_checkpoint::restore(Collector::fresh(), image) {
        Ok(next) => {
            let totals = next.summary.totals;
            Some(totals.kept + totals.loose)
        }
        Err(_) => None,
    }
}

// Whether the archive's name and its file are right, where the collector counts `counted` rows.
fn is_attached(numbers: &[u64; NUMBERS], name: &[u8], last: &[u8], counted: u64) -> bool
    requires { length name.now ≡ max_name }
    ensures { result ≡ is_attached (kept numbers.now name.now last.now [] [])
        counted }
{
    if (NAME_LENGTH as u64) < numbers[4] {
        return false;
    }
    let used = numbers[4] as usize;
    if !block_layout::is_blank(&name[used..NAME_LENGTH]) {
        return false;
    }
    if used == 0 {
        return (numbers[1] == 0)
            & (numbers[2] == 0)
            & (numbers[3] == 0)
            & block_layout::is_blank(last);
    }
    is_file(numbers[1], numbers[2], last, counted)
}

// Whether the file of an archive is right, which had `had` rows when the collector had counted `began`.
fn is_file(began: u64, had: u64, last: &[u8], counted: u64) -> bool
    ensures { result ≡ is_file (kept (0 ∷ began ∷ had ∷ []) [] last.now [] []) counted }
{
    if counted < began {
        return false;
    }
    let since = counted - began;
    if (MAX_ROWS as u64) < had {
        return false;
    }
    if MAX_ROWS as u64 - had < since {
        return false;
    }
    is_last(had + since, last)
}

// Whether a block is the one with the last of `rows` rows of a file.
fn is_last(rows: u64, block: &[u8]) -> bool
    ensures { result ≡ is_last_of rows block.now }
{
    if rows == 0 {
        return block_layout::is_blank(block);
    }
    let used = archive_file::sound(block) as u64;
    if used == 0 {
        return false;
    }
    let k = rows - 1;
    let per = CELLS_PER_BLOCK as u64;
    (block::number_of(block) == k / per) & (used == k % per + 1)
}

// Whether the position in the log is right.
fn is_placed(numbers: &[u64; NUMBERS], tail: &[u8]) -> bool
    requires { length tail.now ≡ max_tail }
    ensures { result ≡ is_placed (kept numbers.now [] [] [] tail.now) }
{
    if (TAIL_LENGTH as u64) < numbers[9] {
        return false;
    }
    let used = numbers[9] as usize;
    if !block_layout::is_blank(&tail[used..TAIL_LENGTH]) {
        return false;
    }
    if numbers[5] == 0 {
        return (numbers[6] == 0) & (numbers[7] == 0) & (numbers[8] == 0) & (numbers[9] == 0);
    }
    (numbers[5] == 1) & (numbers[9] == numbers[6].min(TAIL_LENGTH as u64))
}

// Whether the file for rows is right.
fn is_printed(numbers: &[u64; NUMBERS]) -> bool
    ensures { result ≡ is_printed (kept numbers.now [] [] [] []) }
{
    if numbers[10] == 0 {
        return (numbers[11] == 0) & (numbers[12] == 0) & (numbers[13] == 0);
    }
    numbers[10] == 1
}
