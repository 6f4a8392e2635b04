// Lines of text for a collector in five lent arrays, with their rows as text and their rows for an archive, as other languages call it.
#![tactic(auto)]

pub mod formats;

ghost use Rattle.std.specs.Prelude.{◌≡◌, List, [], ◌∷◌, ℕ, length};
ghost use Rattle.collector_model.specs.Exact.{Fits};
ghost use Rattle.c_collector.specs.State.{arrays, arrays_in, SameLoans, summary_in, state_at};
ghost use Rattle.c_lines.specs.Calls.{are_rows_sized, Lines, first_number, first_used, ReadLine, Skipped};

// Kept (code): the C interface: its calls answer by numbers.
use base_refusal::Refusal;
use c_collector::{Lent, NUMBERS};
use c_layout::WRONG_SIZE;
use collector_state::Summary;
use radio_telegram::repeater::MAX_SETTING;

// A row without its time: a byte that is not 0 for LOOSE, its length, and 21 bytes.
const ROW_LENGTH: usize = 23;

// The answer for a line without a level or a reception; and for a line that has not ended.
const BAD_LINE: u8 = 3;

const NO_LINE: u8 = 4;

// The numbers of characters used, of characters written, of rows, and of lines.
pub const DONE: usize = 4;

// The largest number of bytes of a reception in a line.
pub const MAX_BYTES: usize = text_lines::MAX_BYTES;

// How many numbers the calls write: the characters of a first line; time, length and characters of a line; characters and number of skipped lines.
pub const FIRST: usize = 1;

pub const READ: usize = 3;

pub const SKIPPED: usize = 2;

// Kept (twin): the C interface has `lines` and `lines_as` as two calls, each with outputs of its own and in a library of its own.
// Takes whole lines from the start of the input, at most `most`, with one test of the state. Refused: 11, then 255, then 10; then everything is
// unchanged.
pub fn lines(
    state: &mut Lent,
    setting: u8,
    input: &[u8],
    most: usize,
    out: &mut [u8],
    moments: &mut [u64],
    rows: &mut [u8],
    done: &mut [u64; DONE],
) -> u8
    ensures lines { Lines (arrays_in state.old) setting input.now most out.old moments.old rows.old done.old
        result (arrays_in state.new) out.new moments.new rows.new done.new }
    ensures same_loans { SameLoans state.old state.new }
{
    if !state.held().is_acceptable() {
        return base_refusal::number(Refusal::NotAccepted);
    }
    if !is_sized(moments.len(), rows.len()) {
        return WRONG_SIZE;
    }
    if MAX_SETTING < setting {
        return base_refusal::number(Refusal::Argument);
    }
    let summary = summary_of(state.copies, state.numbers);
    let mut entries = collector_state::Lent {
        times: &mut *state.times,
        lens: &mut *state.lengths,
        bytes: &mut *state.bytes,
        copies: &mut *state.copies,
        summary,
    };
    let taken = text_collect::take_rows(
        true,
        setting,
        &mut entries,
        input,
        most,
        out,
        moments,
        rows,
    );
    c_collector::store(entries.summary, state.numbers);
    *done = [
        taken.used as u64,
        taken.written as u64,
        taken.rows as u64,
        taken.lines as u64,
    ];
    0
}

// Whether there is a record for each time.
fn is_sized(moments: usize, rows: usize) -> bool
    ensures { result ≡ are_rows_sized moments rows }
{
    rows / ROW_LENGTH == moments && rows % ROW_LENGTH == 0
}

// The summary of a state. Its contract also says that the numbers have the bits of their types: this is known for a slice, but not for a lent array.
fn summary_of(copies: &[u16], numbers: &[u64; NUMBERS]) -> Summary
    ensures { (result ≡ summary_in numbers.now)
        × ((times lengths bytes : List ℕ)
        → Fits (state_at (arrays times lengths bytes copies.now numbers.now))) }
{
    c_collector::summary_in(numbers)
}

// The level in the first line of a text, 3 for any other line, 4 if no newline ends it; and how many characters it has with its newline.
pub fn first_line(input: &[u8], done: &mut [u64; FIRST]) -> u8
    ensures { (result ≡ first_number input.now) × (done.new ≡ first_used input.now ∷ []) }
{
    let end = input.len();
    let n = base_bytes::find(input, 0, end, 10);
    if end <= n {
        *done = [0];
        return NO_LINE;
    }
    *done = [n as u64 + 1];
    text_lines::parse_setting(&input[0..n]).unwrap_or(BAD_LINE)
}

// Reads the line at the start of a text: 0 for a reception, whose bytes are at the front of `bytes`, filled with zeros; 3 for any other line, 4 if no
// newline ends it, both with zeros for time, length and bytes.
pub fn read_line(input: &[u8], bytes: &mut [u8; MAX_BYTES], done: &mut [u64; READ]) -> u8
    ensures { ReadLine input.now result bytes.new done.new }
{
    let Some(l) = text_lines::parse(input, bytes) else {
        *done = [0; READ];
        return NO_LINE;
    };
    let Some(h) = l.heard else {
        *done = [0, 0, l.used as u64];
        return BAD_LINE;
    };
    *done = [h.time, h.len as u64, l.used as u64];
    0
}

// Skips whole lines at the start of a text, at most `most`. `done` gets how many characters they have, and how many lines there are.
pub fn skip_lines(input: &[u8], most: usize, done: &mut [u64; SKIPPED])
    ensures { Skipped input.now most done.new }
{
    let end = input.len();
    let mut at = 0;
    let mut left = most;
    while 0 < left {
        let n = base_bytes::find(input, at, end, 10);
        if end <= n {
            break;
        }
        at = n + 1;
        left -= 1;
    }
    *done = [at as u64, (most - left) as u64];
}
