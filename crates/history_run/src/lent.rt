// The bytes of a call that are in the records after its own.
ghost use Rattle.std.specs.Prelude.{◌≡◌, ◌≤◌, length};

use std::io;
use std::io::Read;

// ---- an image: the record with operation 8 says how many bytes it has

// The largest number of bytes of an image in the input, and of an output.
pub(crate) const LONGEST: usize = 3000;
// How many bytes of it a record holds.
const PART: usize = 54;
// The largest image, and one more part, because the last part may begin before its end.
const BUFFER: usize = 3054;

// The next n bytes, and after them what else the last record holds.
pub(crate) fn next_bytes<R: Read>(input: &mut R, n: usize) -> io::Result<[u8; BUFFER]>
    requires { n ≤ 3000 }
{
    let mut bytes = [0u8; BUFFER];
    let mut at = 0;
    while at < n {
        let next = test_io::next_record(input)?;
        put_part(&mut bytes, at, &next.bytes);
        at += PART;
    }
    Ok(bytes)
}

// Copies the bytes of a record, its last ones, to `at`.
fn put_part<'a>(out: &'a mut [u8], at: usize, r: &'a [u8])
    requires out_length { length out.old ≡ 3054 }
    requires at_bound { at ≤ 3000 }
    requires r_length { length r.now ≡ 64 }
{
    block_layout::put_bytes(&mut out[at..at + PART], &r[10..64]);
}

// ---- the receptions of a burst, which are lent as the records hold them

// The largest number of receptions and of replies in a burst; and the length of that many records.
pub(crate) const LISTED: usize = 259;

const RECEPTIONS: usize = 16_576;

// The next n records.
pub(crate) fn next_records<R: Read>(input: &mut R, n: usize) -> io::Result<[u8; RECEPTIONS]>
    requires { n ≤ 259 }
{
    let mut bytes = [0u8; RECEPTIONS];
    for i in 0..n {
        let next = test_io::next_record(input)?;
        put_record(&mut bytes, i, &next.bytes);
    }
    Ok(bytes)
}

fn put_record<'a>(out: &'a mut [u8], i: usize, r: &'a [u8])
    requires out_length { length out.old ≡ 16576 }
    requires i_bound { i ≤ 258 }
{
    let at = history_replay::CALL_LENGTH * i;
    block_layout::put_bytes(&mut out[at..at + history_replay::CALL_LENGTH], r);
}
