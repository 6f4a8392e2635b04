// The call that takes lines, for C, Rust and Python, in a crate of its own: compiled by itself, what it calls is inlined.
// Kept (group): the C interface lends the arrays one by one.
#![tactic(auto)]

ghost use Rattle.c_collector.specs.State.{arrays};
ghost use Rattle.c_lines.specs.Calls.{Lines};

use c_collector::{BYTES, CAPACITY, Lent, NUMBERS};
use c_lines::DONE;

// Takes whole lines of text from the start of the input, with the text of their rows and the rows that an archive keeps.
#[unsafe(no_mangle)]
pub extern "C" fn mooringeye_collector_lines(
    times: &mut [u64; CAPACITY],
    lengths: &mut [u8; CAPACITY],
    bytes: &mut [u8; BYTES],
    copies: &mut [u16; CAPACITY],
    numbers: &mut [u64; NUMBERS],
    setting: u8,
    input: &[u8],
    most: usize,
    out: &mut [u8],
    moments: &mut [u64],
    rows: &mut [u8],
    done: &mut [u64; DONE],
) -> u8
    ensures { Lines (arrays times.old lengths.old bytes.old
        copies.old numbers.old)
        setting input.now most out.old moments.old rows.old
        done.old result
        (arrays times.new lengths.new bytes.new copies.new
        numbers.new)
        out.new moments.new rows.new done.new }
{
    let mut state = Lent {
        times,
        lengths,
        bytes,
        copies,
        numbers,
    };
    c_lines::lines(&mut state, setting, input, most, out, moments, rows, done)
}
