// The same with the calls by value, which take a collector and return the next. Its record equals that of the calls on lent arrays, and so does every
// element of the state after it.
ghost use Rattle.std.specs.Prelude.{◌≡◌, [], ◌≤◌, length};
ghost use Rattle.c_collector.specs.State.{arrays_of};
ghost use Rattle.history_replay_model.specs.Replay.{call_size, size_of_all};
ghost use Rattle.history_replay.specs.Calls.{call_length, call_in, calls_in};
ghost use Rattle.history_replay.specs.Replay.{Resumes, Replays};
ghost use Rattle.history_replay.specs.Private.{Called};

use crate::{Replayed, reading, value_calls};
use base_refusal::Refusal;
use collector_state::Collector;

// The state after the calls, and how many bytes were written for them.
#[derive(Clone, Copy)]
pub struct Left {
    pub next: Collector,
    pub replayed: Replayed,
}

// Writes what a collector started fresh shows for all the calls.
pub fn replay<'a>(calls: &'a [u8], lent: &'a [u8], out: &'a mut [u8]) -> Left
    ensures { Replays (calls_in lent.now calls.now)
        out.old out.new result.replayed (arrays_of result.next) }
{
    resume(Collector::fresh(), calls, lent, out)
}

// The same for a collector in any state.
pub fn resume<'a>(c: Collector, calls: &'a [u8], lent: &'a [u8], out: &'a mut [u8]) -> Left
    ensures { Resumes (arrays_of c) (calls_in lent.now calls.now)
        out.old out.new result.replayed (arrays_of result.next) }
{
    if !crate::fits(calls, out.len()) {
        return Left {
            next: c,
            replayed: Replayed {
                written: 0,
                answer: Err(Refusal::ShortOutput),
            },
        };
    }
    all(c, calls, lent, out)
}

// Makes all calls, one after the other.
fn all<'a>(c: Collector, calls: &'a [u8], lent: &'a [u8], out: &'a mut [u8]) -> Left
    requires { size_of_all (calls_in [] calls.now) ≤ length out.old }
    ensures { Resumes (arrays_of c) (calls_in lent.now calls.now)
        out.old out.new result.replayed (arrays_of result.next) }
{
    let mut now = c;
    let mut at: usize = 0;
    for i in 0..calls.len() / crate::CALL_LENGTH {
        let size = reading::size_in(
            &calls[crate::CALL_LENGTH * i..crate::CALL_LENGTH * i + crate::CALL_LENGTH],
        );
        now = call(
            now,
            &calls[crate::CALL_LENGTH * i..crate::CALL_LENGTH * i + crate::CALL_LENGTH],
            lent,
            &mut out[at..at + size],
        );
        at += size;
    }
    Left {
        next: now,
        replayed: Replayed {
            written: at,
            answer: Ok(()),
        },
    }
}

// Makes one call, and returns the next state.
fn call<'a>(c: Collector, r: &'a [u8], lent: &'a [u8], out: &'a mut [u8]) -> Collector
    requires { (length r.now ≡ call_length) × (length out.old ≡ call_size (call_in [] r.now)) }
    ensures { Called (arrays_of c) (call_in lent.now r.now) out.new (arrays_of result) }
{
    let operation = r[0];
    if operation == crate::RECEIVING {
        return value_calls::received(c, r, out);
    }
    if operation == crate::SAVING {
        return value_calls::saved(c, r, out);
    }
    if operation == crate::CUTTING {
        return value_calls::cut(c, r, out);
    }
    if operation == crate::RESTORING {
        return value_calls::restored(c, r, lent, out);
    }
    if operation == crate::DELIVERING {
        return value_calls::delivered(c, r, lent, out);
    }
    if operation == crate::ASKING {
        return value_calls::asked(c, r, out);
    }
    value_calls::looked(c, out)
}
