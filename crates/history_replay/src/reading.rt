// What is in a record.
ghost use Rattle.std.specs.Prelude.{◌≡◌, [], ◌+◌, ◌≤◌, min, length};
ghost use Rattle.base_buffers.specs.Buffer.{part};
ghost use Rattle.collector_burst.specs.Records.{listed};
ghost use Rattle.history_replay_model.specs.Replay.{call_size};
ghost use Rattle.history_replay.specs.Calls.{call_length, number_at, max_output, lent_in, call_in};

use collector_burst::LISTED;

// The largest number of bytes of a reception in a record.
pub(crate) const RECEPTION: usize = 53;

// How many bytes are written for the call of a record.
pub(crate) fn size_in(r: &[u8]) -> usize
    requires { length r.now ≡ call_length }
    ensures { result ≡ call_size (call_in [] r.now) }
{
    let operation = r[0];
    if operation == crate::RECEIVING {
        return crate::writing::ANSWERED;
    }
    if operation == crate::SAVING {
        return crate::writing::BODY + output_length(r);
    }
    if operation == crate::CUTTING {
        return crate::writing::BODY + output_length(r) + crate::writing::HEAD;
    }
    if operation == crate::RESTORING {
        return crate::writing::HEAD;
    }
    if operation == crate::DELIVERING {
        return crate::writing::BODY + crate::writing::REPLY * place_count(r);
    }
    if operation == crate::ASKING {
        return crate::writing::BODY;
    }
    crate::writing::HEAD
}

// The number in the eight bytes from `at` on.
pub(crate) fn number_at(r: &[u8], at: usize) -> u64
    requires { (length r.now ≡ call_length) × (at + 8 ≤ call_length) }
    ensures { result ≡ number_at at r.now }
{
    block_layout::read_number(&r[at..at + 8])
}

// How long the output of a checkpoint is.
pub(crate) fn output_length(r: &[u8]) -> usize
    requires { length r.now ≡ call_length }
    ensures { (result ≡ min (number_at 1 r.now) max_output) × (result ≤ max_output) }
{
    (number_at(r, 1) as usize).min(crate::MAX_OUTPUT)
}

// How many entries the second list of a burst has.
pub(crate) fn place_count(r: &[u8]) -> usize
    requires { length r.now ≡ call_length }
    ensures { (result ≡ min (number_at 17 r.now) listed) × (result ≤ listed) }
{
    (number_at(r, 17) as usize).min(LISTED)
}

// The part of the separately lent bytes that a record names, as far as there are bytes.
pub(crate) fn lent_in<'a>(lent: &'a [u8], r: &'a [u8]) -> &'a [u8]
    requires { length r.now ≡ call_length }
    ensures { result.now ≡ lent_in lent.now r.now }
{
    let a = number_at(r, 1);
    let n = number_at(r, 9);
    window(lent, a, n)
}

// The n bytes from a on, as far as there are bytes.
fn window(s: &[u8], a: u64, n: u64) -> &[u8]
    ensures { result.now ≡ part a n s.now }
{
    let start = (a as usize).min(s.len());
    let rest = &s[start..];
    let end = (n as usize).min(rest.len());
    &rest[0..end]
}
