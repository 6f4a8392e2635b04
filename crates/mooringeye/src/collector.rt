// The collector, in five lent arrays that are changed in place: the times, lengths, bytes and numbers of copies of the entries, and eight numbers.
// Kept (group): the C interface lends the arrays one by one.
ghost use Rattle.std.specs.Prelude.{◌≡◌, [], ◌∷◌};
ghost use Rattle.collector_model.specs.Image.{checkpoint_of};
ghost use Rattle.c_collector.specs.State.{arrays, state_at};
ghost use Rattle.c_collector.specs.Calls.{Fresh, totals_call, copies_call};
ghost use Rattle.c_checkpoint.specs.Calls.{Restores};
ghost use Rattle.c_lines.specs.Calls.{first_number, first_used, ReadLine, Skipped};

use c_collector::{BYTES, CAPACITY, Held, Lent, NUMBERS, TOTALS};
use c_lines::{FIRST, MAX_BYTES, READ, SKIPPED};

// A collector with no telegram open and nothing counted.
#[unsafe(no_mangle)]
pub extern "C" fn mooringeye_collector_fresh(
    times: &mut [u64; CAPACITY],
    lengths: &mut [u8; CAPACITY],
    bytes: &mut [u8; BYTES],
    copies: &mut [u16; CAPACITY],
    numbers: &mut [u64; NUMBERS],
)
    ensures { Fresh (arrays times.new lengths.new bytes.new copies.new
        numbers.new) }
{
    let mut state = Lent {
        times,
        lengths,
        bytes,
        copies,
        numbers,
    };
    state.clear();
}

// The six totals.
#[unsafe(no_mangle)]
pub extern "C" fn mooringeye_collector_totals<'a>(
    times: &'a [u64; CAPACITY],
    lengths: &'a [u8; CAPACITY],
    bytes: &'a [u8; BYTES],
    copies: &'a [u16; CAPACITY],
    numbers: &'a [u64; NUMBERS],
    totals: &'a mut [u64; TOTALS],
) -> u8
    ensures { record { number = result; values = totals.new }
        ≡ totals_call (state_at (arrays times.now lengths.now bytes.now
        copies.now numbers.now))
        totals.old }
{
    let state = Held {
        times,
        lengths,
        bytes,
        copies,
        numbers,
    };
    state.totals(totals)
}

// How often the telegram of an entry was received again.
#[unsafe(no_mangle)]
pub extern "C" fn mooringeye_collector_copies<'a>(
    times: &'a [u64; CAPACITY],
    lengths: &'a [u8; CAPACITY],
    bytes: &'a [u8; BYTES],
    copies: &'a [u16; CAPACITY],
    numbers: &'a [u64; NUMBERS],
    entry: usize,
    heard: &'a mut u64,
) -> u8
    ensures { record { number = result; copies = heard.new }
        ≡ copies_call (state_at (arrays times.now lengths.now bytes.now
        copies.now numbers.now)) entry heard.old }
{
    let state = Held {
        times,
        lengths,
        bytes,
        copies,
        numbers,
    };
    state.copies_of(entry, heard)
}

// Writes the image of the state into the first 2,560 bytes.
#[unsafe(no_mangle)]
pub extern "C" fn mooringeye_collector_checkpoint<'a>(
    times: &'a [u64; CAPACITY],
    lengths: &'a [u8; CAPACITY],
    bytes: &'a [u8; BYTES],
    copies: &'a [u16; CAPACITY],
    numbers: &'a [u64; NUMBERS],
    out: &'a mut [u8],
) -> u8
    ensures { record { number = result; output = out.new }
        ≡ checkpoint_of (state_at
        (arrays times.now lengths.now bytes.now copies.now
        numbers.now)) out.old }
{
    let state = Held {
        times,
        lengths,
        bytes,
        copies,
        numbers,
    };
    c_checkpoint::checkpoint(state, out)
}

// Restores the state of an image.
#[unsafe(no_mangle)]
pub extern "C" fn mooringeye_collector_restore(
    times: &mut [u64; CAPACITY],
    lengths: &mut [u8; CAPACITY],
    bytes: &mut [u8; BYTES],
    copies: &mut [u16; CAPACITY],
    numbers: &mut [u64; NUMBERS],
    image: &[u8],
) -> u8
    ensures { Restores (arrays times.old lengths.old bytes.old
        copies.old numbers.old) image.now result
        (arrays times.new lengths.new bytes.new copies.new
        numbers.new) }
{
    let mut state = Lent {
        times,
        lengths,
        bytes,
        copies,
        numbers,
    };
    c_checkpoint::restore(&mut state, image)
}

// The level in the first line of a text, and the number of characters of that line.
#[unsafe(no_mangle)]
pub extern "C" fn mooringeye_first_line(input: &[u8], done: &mut [u64; FIRST]) -> u8
    ensures { (result ≡ first_number input.now) × (done.new ≡ first_used input.now ∷ []) }
{
    c_lines::first_line(input, done)
}

// Reads the line at the start of a text: its time, its bytes, and its number of characters.
#[unsafe(no_mangle)]
pub extern "C" fn mooringeye_read_line(
    input: &[u8],
    bytes: &mut [u8; MAX_BYTES],
    done: &mut [u64; READ],
) -> u8
    ensures { ReadLine input.now result bytes.new done.new }
{
    c_lines::read_line(input, bytes, done)
}

// Skips whole lines at the start of a text.
#[unsafe(no_mangle)]
pub extern "C" fn mooringeye_skip_lines(input: &[u8], most: usize, done: &mut [u64; SKIPPED])
    ensures { Skipped input.now most done.new }
{
    c_lines::skip_lines(input, most, done);
}
