// The call that takes a burst, for C, Rust and Python, in a crate of its own: compiled by itself, what it calls is inlined.
// Kept (group): the C interface lends the arrays one by one.
#![tactic(auto)]

ghost use Rattle.c_collector.specs.State.{arrays};
ghost use Rattle.c_burst.specs.Calls.{Bursts};

use c_collector::{BYTES, CAPACITY, Lent, NUMBERS};

// Takes receptions that are handed over in one list, and writes the replies into a second list.
#[unsafe(no_mangle)]
pub extern "C" fn mooringeye_collector_burst(
    times: &mut [u64; CAPACITY],
    lengths: &mut [u8; CAPACITY],
    bytes: &mut [u8; BYTES],
    copies: &mut [u16; CAPACITY],
    numbers: &mut [u64; NUMBERS],
    setting: u8,
    moments: &[u64],
    records: &[u8],
    replies: &mut [u8],
) -> u8
    ensures { Bursts (arrays times.old lengths.old bytes.old
        copies.old numbers.old)
        setting moments.now records.now replies.old result
        (arrays times.new lengths.new bytes.new copies.new
        numbers.new) replies.new }
{
    let mut state = Lent {
        times,
        lengths,
        bytes,
        copies,
        numbers,
    };
    c_burst::burst(&mut state, setting, moments, records, replies)
}
