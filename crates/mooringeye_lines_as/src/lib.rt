// The call that takes lines and writes their rows in a format, for C, Rust and Python, in a crate of its own: compiled by itself, what it calls is
// inlined.
// Kept (group): the C interface lends the arrays one by one.
#![tactic(auto)]

ghost use Rattle.c_collector.specs.State.{arrays};
ghost use Rattle.c_lines.specs.Formats.{LinesAs};

use c_collector::{BYTES, CAPACITY, Lent, NUMBERS};
use c_lines::formats;

// Takes whole lines as `mooringeye_collector_lines` does, with their rows in a format, and with what they close.
#[unsafe(no_mangle)]
pub extern "C" fn mooringeye_collector_lines_as(
    times: &mut [u64; CAPACITY],
    lengths: &mut [u8; CAPACITY],
    bytes: &mut [u8; BYTES],
    copies: &mut [u16; CAPACITY],
    numbers: &mut [u64; NUMBERS],
    setting: u8,
    format: u8,
    input: &[u8],
    most: usize,
    out: &mut [u8],
    moments: &mut [u64],
    rows: &mut [u8],
    closed: &mut [u8],
    done: &mut [u64; formats::DONE],
) -> u8
    ensures { LinesAs (arrays times.old lengths.old bytes.old
        copies.old numbers.old)
        setting format input.now most out.old moments.old rows.old
        closed.old done.old result
        (arrays times.new lengths.new bytes.new copies.new
        numbers.new)
        out.new moments.new rows.new closed.new done.new }
{
    let mut state = Lent {
        times,
        lengths,
        bytes,
        copies,
        numbers,
    };
    formats::lines_as(
        &mut state, setting, format, input, most, out, moments, rows, closed, done,
    )
}
