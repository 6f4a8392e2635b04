// The calls of a replay: what each record of the input becomes.
ghost use Rattle.std.specs.Prelude.{◌≡◌, ◌≤◌, length};

use crate::least;

// The value of each byte of an output before the call.
const FILL: u8 = 0xEE;

// A reception: the record itself, with at most 28 bytes, and the setting that the caller keeps.
pub(crate) fn reception(r: &[u8], setting: u8) -> [u8; history_replay::CALL_LENGTH]
    requires { length r.now ≡ 64 }
{
    let mut call = [0u8; history_replay::CALL_LENGTH];
    block_layout::put_bytes(&mut call, r);
    call[9] = at_most_28(r[9]);
    call[63] = setting;
    call
}

fn at_most_28(n: u8) -> u8 {
    if n < 28 {
        return n;
    }
    28
}

// A checkpoint into n bytes, or a cut with one.
pub(crate) fn checkpoint(operation: u8, n: usize) -> [u8; history_replay::CALL_LENGTH] {
    let mut call = [0u8; history_replay::CALL_LENGTH];
    call[0] = operation;
    block_layout::put_number(&mut call[1..9], n as u64);
    call[9] = FILL;
    call
}

// A restore of the n bytes that are lent.
pub(crate) fn restore(n: usize) -> [u8; history_replay::CALL_LENGTH] {
    let mut call = [0u8; history_replay::CALL_LENGTH];
    call[0] = history_replay::RESTORING;
    block_layout::put_number(&mut call[9..17], n as u64);
    call
}

// A burst of the n records that are lent, with m entries for replies, which hold LOOSE with 21 bytes to send. Byte 12 of its record is the setting.
pub(crate) fn burst(r: &[u8], n: usize, m: usize) -> [u8; history_replay::CALL_LENGTH]
    requires r_length { length r.now ≡ 64 }
    requires n_bound { n ≤ 259 }
{
    let mut call = [FILL; history_replay::CALL_LENGTH];
    call[0] = history_replay::DELIVERING;
    put_lists(&mut call, n, m);
    call[25] = 2;
    call[26] = 21;
    call[63] = r[12];
    call
}

// Where the records begin, how many bytes they are, and the number of entries for replies.
fn put_lists(call: &mut [u8], n: usize, m: usize)
    requires call_length { length call.old ≡ 64 }
    requires n_bound { n ≤ 259 }
{
    block_layout::put_number(&mut call[1..9], 0);
    block_layout::put_number(&mut call[9..17], (history_replay::CALL_LENGTH * n) as u64);
    block_layout::put_number(&mut call[17..25], m as u64);
}

// How many entries for replies bytes 10 and 11 say, at most the length of a list.
pub(crate) fn places_in(r: &[u8]) -> usize
    requires { length r.now ≡ 64 }
    ensures { result ≤ 259 }
{
    least(block_layout::read_number(&r[10..12]), crate::lent::LISTED)
}

// A question for the copies of an entry.
pub(crate) fn ask(entry: u64) -> [u8; history_replay::CALL_LENGTH] {
    let mut call = [0u8; history_replay::CALL_LENGTH];
    call[0] = history_replay::ASKING;
    block_layout::put_number(&mut call[1..9], entry);
    call
}
