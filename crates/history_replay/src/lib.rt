// Makes a list of calls on a collector, and writes what is seen of each. The calls are lent as records of 64 bytes. The claim on whole histories is
// about this function (document 01, "One history, and the clerk who writes it down"). The collector is in five lent arrays, and only the calls of the
// library change it; `values` does the same with the calls by value.
#![tactic(auto)]

pub(crate) mod calls;
pub(crate) mod lent_lists;
pub(crate) mod reading;
pub(crate) mod value_calls;
pub(crate) mod value_lists;
pub mod values;
pub(crate) mod writing;

ghost use Rattle.std.specs.Prelude.{◌≡◌, [], ◌≤◌, leb, length};
ghost use Rattle.c_collector.specs.State.{arrays_in, SameLoans};
ghost use Rattle.history_replay_model.specs.Replay.{call_size, size_of_all};
ghost use Rattle.history_replay.specs.Calls.{call_length, call_in, calls_in};
ghost use Rattle.history_replay.specs.Replay.{Resumes, Replays};
ghost use Rattle.history_replay.specs.Private.{Called};

use base_refusal::Refusal;
use c_collector::Lent;

// How long the record of a call is.
pub const CALL_LENGTH: usize = 64;

// The longest output of a checkpoint.
pub const MAX_OUTPUT: usize = 4096;

// The operations: the first byte of a call's record, and of the cell that is written for it.
pub const LOOKING: u8 = 0;

pub const RECEIVING: u8 = 2;

pub const SAVING: u8 = 3;

pub const CUTTING: u8 = 4;

pub const RESTORING: u8 = 5;

pub const DELIVERING: u8 = 6;

pub const ASKING: u8 = 7;

// How many bytes were written for the calls.
#[derive(Clone, Copy)]
pub struct Replayed {
    pub written: usize,
    pub answer: Result<(), Refusal>,
}

// Writes what a collector started fresh shows for all the calls. If the output is shorter than their record, the answer is 6, and no call is made.
pub fn replay<'a>(state: &mut Lent, calls: &'a [u8], lent: &'a [u8], out: &mut [u8]) -> Replayed
    ensures replays { Replays (calls_in lent.now calls.now) out.old out.new result
        (arrays_in state.new) }
    ensures same_loans { SameLoans state.old state.new }
{
    state.clear();
    resume(state, calls, lent, out)
}

// The same for a collector in any state.
pub fn resume<'a>(state: &mut Lent, calls: &'a [u8], lent: &'a [u8], out: &mut [u8]) -> Replayed
    ensures resumes { Resumes
        (arrays_in state.old)
        (calls_in lent.now calls.now) out.old out.new result
        (arrays_in state.new) }
    ensures same_loans { SameLoans state.old state.new }
{
    if !fits(calls, out.len()) {
        return Replayed {
            written: 0,
            answer: Err(Refusal::ShortOutput),
        };
    }
    all(state, calls, lent, out)
}

// Whether n bytes are enough for what is written for the calls.
pub(crate) fn fits(calls: &[u8], n: usize) -> bool
    ensures { result ≡ leb (size_of_all (calls_in [] calls.now)) n }
{
    let mut left = n;
    for i in 0..calls.len() / CALL_LENGTH {
        let size = reading::size_in(&calls[CALL_LENGTH * i..CALL_LENGTH * i + CALL_LENGTH]);
        if left < size {
            return false;
        }
        left -= size;
    }
    true
}

// Makes all calls, one after the other.
fn all<'a>(state: &mut Lent, calls: &'a [u8], lent: &'a [u8], out: &mut [u8]) -> Replayed
    requires { size_of_all (calls_in [] calls.now) ≤ length out.old }
    ensures resumes { Resumes
        (arrays_in state.old)
        (calls_in lent.now calls.now) out.old out.new result
        (arrays_in state.new) }
    ensures same_loans { SameLoans state.old state.new }
{
    let mut at: usize = 0;
    for i in 0..calls.len() / CALL_LENGTH {
        let size = reading::size_in(&calls[CALL_LENGTH * i..CALL_LENGTH * i + CALL_LENGTH]);
        call(
            state,
            &calls[CALL_LENGTH * i..CALL_LENGTH * i + CALL_LENGTH],
            lent,
            &mut out[at..at + size],
        );
        at += size;
    }
    Replayed {
        written: at,
        answer: Ok(()),
    }
}

// Makes one call.
fn call<'a>(state: &mut Lent, r: &'a [u8], lent: &'a [u8], out: &mut [u8])
    requires { (length r.now ≡ call_length) × (length out.old ≡ call_size (call_in [] r.now)) }
    ensures called { Called
        (arrays_in state.old)
        (call_in lent.now r.now) out.new
        (arrays_in state.new) }
    ensures same_loans { SameLoans state.old state.new }
{
    let operation = r[0];
    if operation == RECEIVING {
        calls::received(state, r, out);
        return;
    }
    if operation == SAVING {
        calls::saved(state, r, out);
        return;
    }
    if operation == CUTTING {
        calls::cut(state, r, out);
        return;
    }
    if operation == RESTORING {
        calls::restored(state, r, lent, out);
        return;
    }
    if operation == DELIVERING {
        calls::delivered(state, r, lent, out);
        return;
    }
    if operation == ASKING {
        calls::asked(state, r, out);
        return;
    }
    calls::looked(state, out);
}
