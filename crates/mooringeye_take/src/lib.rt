// The calls that take one reception, for C, Rust and Python, in a crate of their own: compiled by itself, what they call is inlined.
// Kept (group): the C interface lends the arrays one by one.
#![tactic(auto)]

ghost use Rattle.std.specs.Prelude.{true};
ghost use Rattle.c_collector.specs.State.{arrays};
ghost use Rattle.c_collector.specs.Calls.{Takes, TakesTold};

use c_collector::{BYTES, CAPACITY, Lent, NUMBERS};

// Takes one reception.
#[unsafe(no_mangle)]
pub extern "C" fn mooringeye_collector_take<'a>(
    times: &'a mut [u64; CAPACITY],
    lengths: &'a mut [u8; CAPACITY],
    bytes: &'a mut [u8; BYTES],
    copies: &'a mut [u16; CAPACITY],
    numbers: &'a mut [u64; NUMBERS],
    received: &'a [u8],
    time: u64,
) -> u16
    ensures { Takes (arrays times.old lengths.old bytes.entry.now
        copies.old numbers.old)
        (record { bytes = received.now; time = time }) result
        (arrays times.new lengths.new bytes.exit.now copies.new
        numbers.new) }
{
    let mut state = Lent {
        times,
        lengths,
        bytes,
        copies,
        numbers,
    };
    state.take(received, time)
}

// Takes one reception, with a state that was tested: the caller says that the state is acceptable.
#[unsafe(no_mangle)]
pub extern "C" fn mooringeye_collector_take_tested<'a>(
    times: &'a mut [u64; CAPACITY],
    lengths: &'a mut [u8; CAPACITY],
    bytes: &'a mut [u8; BYTES],
    copies: &'a mut [u16; CAPACITY],
    numbers: &'a mut [u64; NUMBERS],
    received: &'a [u8],
    time: u64,
) -> u16
    ensures { TakesTold true (arrays times.old lengths.old bytes.entry.now
        copies.old numbers.old)
        (record { bytes = received.now; time = time }) result
        (arrays times.new lengths.new bytes.exit.now copies.new
        numbers.new) }
{
    let mut state = Lent {
        times,
        lengths,
        bytes,
        copies,
        numbers,
    };
    state.take_told(true, received, time)
}
