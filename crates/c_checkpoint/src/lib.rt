// The checkpoint of a collector in five lent arrays and its restore, as other languages call them.
// Kept (code): the C interface: the calls answer by numbers.
#![tactic(auto)]

ghost use Rattle.std.specs.Prelude.{◌≡◌};
ghost use Rattle.collector_model.specs.Image.{checkpoint_of};
ghost use Rattle.c_collector.specs.State.{arrays_held, arrays_in, SameLoans, state_at, arrays_of};
ghost use Rattle.c_checkpoint.specs.Calls.{Restores};

use base_refusal::Refusal;
use c_collector::{Held, Lent};
use collector_state::Collector;

// Writes the image of the state into the first 2,560 bytes; those after them are unchanged. Refused: 11, 6.
pub fn checkpoint(state: Held, out: &mut [u8]) -> u8
    ensures { record { number = result; output = out.new }
        ≡ checkpoint_of (state_at (arrays_held state.entry)) out.old }
{
    let entries = collector_state::Held {
        times: state.times,
        lens: state.lengths,
        bytes: state.bytes,
        copies: state.copies,
        summary: c_collector::summary_in(state.numbers),
    };
    base_refusal::outcome_number(collector_checkpoint::checkpoint_at(entries, out))
}

// Restores the state of an image. Refused: 11, and then everything is unchanged.
pub fn restore(state: &mut Lent, image: &[u8]) -> u8
    ensures restores { Restores (arrays_in state.old) image.now result (arrays_in state.new) }
    ensures same_loans { SameLoans state.old state.new }
{
    if !state.held().is_acceptable() {
        return base_refusal::number(Refusal::NotAccepted);
    }
    match collector_checkpoint::restore(Collector::fresh(), image) {
        Ok(next) => {
            put_state(next, state);
            0
        }
        Err(_) => base_refusal::number(Refusal::NotAccepted),
    }
}

// Puts a state into the arrays.
// Kept (conversion): an array that is a field is stored by way of a variable; the check does not take `*times = c.times`.
fn put_state(c: Collector, state: &mut Lent)
    ensures put { arrays_in state.new ≡ arrays_of c }
    ensures same_loans { SameLoans state.old state.new }
{
    let times = c.times;
    let lens = c.lens;
    let bytes = c.bytes;
    let copies = c.copies;
    *state.times = times;
    *state.lengths = lens;
    *state.bytes = bytes;
    *state.copies = copies;
    c_collector::store(c.summary, state.numbers);
}
