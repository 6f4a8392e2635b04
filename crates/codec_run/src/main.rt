// Runs the codec on the records of standard input, a line of 128 hexadecimal digits each, and prints a line for each. The output must equal that of
// the second program (tests/reference/README.md has the format).
#![tactic(auto)]

ghost use Rattle.std.specs.Prelude.{◌≡◌, ◌≤◌, length};

use base_refusal::Refusal;
use radio_telegram::fields::{MAX_DATA, Telegram};
use radio_telegram::frame::Frame;
use std::io;
use std::io::{BufWriter, Read, Write};

const LINE: usize = 129;

const RECORD: usize = 64;
// The largest length of a subtelegram in a record, and of an output.
const MOST: usize = 28;

const LONGEST: usize = 1024;

// What is printed of a telegram that is refused.
const NO_TELEGRAM: Telegram = Telegram {
    rorg: 0,
    payload: [0; MAX_DATA],
    len: 0,
    destid: None,
    txid: [0; 4],
    status: 0,
};

fn main(rt: HostRuntime) -> io::Result<()> {
    let mut to = BufWriter::new(rt.alloc(), io::writer(&rt))?;
    records(&mut rt.reader(), &mut to, 1_000_000)?;
    to.flush()
}

// Handles at most `most` records, until the input ends.
fn records<R: Read, W: Write>(input: &mut R, to: &mut W, most: u64) -> io::Result<()> {
    for _ in 0..most {
        if !record(input, to)? {
            break;
        }
    }
    Ok(())
}

// Handles one record, if there is one more.
fn record<R: Read, W: Write>(input: &mut R, to: &mut W) -> io::Result<bool> {
    let next = test_io::next_record(input)?;
    if next.more {
        answer(to, &next.bytes)?;
    }
    Ok(next.more)
}

fn answer<W: Write>(to: &mut W, r: &[u8]) -> io::Result<()>
    requires { length r.now ≡ 64 }
{
    let operation = r[0];
    match operation {
        1 => crc(to, r)?,
        2 => read(to, r)?,
        3 | 4 | 5 => output(to, r)?,
        6 => repeat(to, r)?,
        _ => same(to, r)?,
    }
    test_io::text(to, b"\n")
}

fn crc<W: Write>(to: &mut W, r: &[u8]) -> io::Result<()>
    requires { length r.now ≡ 64 }
{
    let length = base_numbers::usize_of_byte(r[1]) * 256 + base_numbers::usize_of_byte(r[2]);
    let n = length.min(LONGEST);
    let input = repeated(r, n, pattern_length(base_numbers::usize_of_byte(r[3])));
    test_io::text(to, b"CRC ")?;
    test_io::byte(to, base_crc8::crc8(&input[0..n]))
}

// The pattern of p bytes at 8, repeated to n bytes.
fn repeated(r: &[u8], n: usize, p: usize) -> [u8; LONGEST]
    requires r_length { length r.now ≡ 64 }
    requires n_bound { n ≤ 1024 }
    requires p_low { 1 ≤ p }
    requires p_high { p ≤ 28 }
{
    let mut input = [0u8; LONGEST];
    for (i, b) in input[..n].iter_mut().enumerate() {
        *b = r[8 + i % p];
    }
    input
}

// A length from 1 to 28: 1 for 0, and 28 for more.
fn pattern_length(len: usize) -> usize
    ensures low { 1 ≤ result }
    ensures high { result ≤ 28 }
{
    len.max(1).min(MOST)
}

fn read<W: Write>(to: &mut W, r: &[u8]) -> io::Result<()>
    requires { length r.now ≡ 64 }
{
    let n = base_numbers::usize_of_byte(r[2]).min(MOST);
    test_io::text(to, b"READ ")?;
    match radio_telegram::fields::read(&r[8..8 + n]) {
        Ok(t) => {
            test_io::text(to, b"0 ")?;
            telegram(to, t)
        }
        Err(why) => {
            test_io::decimal(to, u64::from(base_refusal::number(why)))?;
            test_io::text(to, b" ")?;
            telegram(to, NO_TELEGRAM)
        }
    }
}

fn telegram<W: Write>(to: &mut W, t: Telegram) -> io::Result<()> {
    test_io::byte(to, t.rorg)?;
    flag(to, t.destid.is_some())?;
    identity(to, t.destid.unwrap_or([0u8; 4]))?;
    identity(to, t.txid)?;
    test_io::text(to, b" ")?;
    test_io::byte(to, t.status)?;
    test_io::text(to, b" ")?;
    data(to, t)
}

// The three calls that write, into an output of the capacity in the record.
fn output<W: Write>(to: &mut W, r: &[u8]) -> io::Result<()>
    requires { length r.now ≡ 64 }
{
    let capacity = base_numbers::usize_of_byte(r[1]).min(MOST);
    let mut out = [0xEEu8; MOST];
    let operation = r[0];
    match operation {
        3 => build(to, r, &mut out[0..capacity]),
        4 => encapsulate(to, r, &mut out[0..capacity]),
        _ => decapsulate(to, r, &mut out[0..capacity]),
    }
}

fn build<W: Write>(to: &mut W, r: &[u8], out: &mut [u8]) -> io::Result<()>
    requires { length r.now ≡ 64 }
{
    let t = Telegram {
        rorg: r[4],
        payload: payload(&r[16..30]),
        len: base_numbers::usize_of_byte(r[2]),
        destid: (r[3] == 1).then_some([r[8], r[9], r[10], r[11]]),
        txid: [r[12], r[13], r[14], r[15]],
        status: r[5],
    };
    let built = radio_telegram::fields::build(t, out);
    test_io::text(to, b"BUILD ")?;
    written(to, built, out)
}

fn encapsulate<W: Write>(to: &mut W, r: &[u8], out: &mut [u8]) -> io::Result<()>
    requires { length r.now ≡ 64 }
{
    let n = base_numbers::usize_of_byte(r[2]).min(MOST);
    let destid = [r[4], r[5], r[6], r[7]];
    let built = radio_telegram::addressing::encapsulate(&r[8..8 + n], destid, out);
    test_io::text(to, b"ENCAPSULATE ")?;
    written(to, built, out)
}

fn decapsulate<W: Write>(to: &mut W, r: &[u8], out: &mut [u8]) -> io::Result<()>
    requires { length r.now ≡ 64 }
{
    let n = base_numbers::usize_of_byte(r[2]).min(MOST);
    let built = radio_telegram::addressing::decapsulate(&r[8..8 + n], out);
    test_io::text(to, b"DECAPSULATE ")?;
    written(to, built, out)
}

fn repeat<W: Write>(to: &mut W, r: &[u8]) -> io::Result<()>
    requires { length r.now ≡ 64 }
{
    let n = base_numbers::usize_of_byte(r[2]).min(MOST);
    test_io::text(to, b"REPEAT ")?;
    match radio_telegram::repeater::repeat(r[1], &r[8..8 + n]) {
        Ok(sent) => {
            test_io::text(to, b"0 ")?;
            frame(to, sent)
        }
        Err(why) => {
            test_io::decimal(to, u64::from(base_refusal::number(why)))?;
            test_io::text(to, b" ")?;
            frame(to, Frame::empty())
        }
    }
}

fn frame<W: Write>(to: &mut W, f: Frame) -> io::Result<()> {
    test_io::decimal(to, f.len as u64)?;
    test_io::text(to, b" ")?;
    test_io::hex(to, &f.bytes)
}

fn same<W: Write>(to: &mut W, r: &[u8]) -> io::Result<()>
    requires { length r.now ≡ 64 }
{
    let n = base_numbers::usize_of_byte(r[2]).min(MOST);
    let m = base_numbers::usize_of_byte(r[3]).min(MOST);
    test_io::text(to, b"SAME")?;
    flag(to, radio_erp1::same(&r[8..8 + n], &r[36..36 + m]))
}

// ---- what is printed for an answer

// The number, the length and all of the output.
fn written<W: Write>(to: &mut W, built: Result<usize, Refusal>, out: &[u8]) -> io::Result<()> {
    match built {
        Ok(n) => {
            test_io::text(to, b"0 ")?;
            test_io::decimal(to, n as u64)?;
        }
        Err(why) => {
            test_io::decimal(to, u64::from(base_refusal::number(why)))?;
            test_io::text(to, b" 0")?;
        }
    }
    test_io::text(to, b" ")?;
    test_io::hex(to, out)
}

fn flag<W: Write>(to: &mut W, set: bool) -> io::Result<()> {
    test_io::text(to, if set { b" 1" } else { b" 0" })
}

fn identity<W: Write>(to: &mut W, id: [u8; 4]) -> io::Result<()> {
    test_io::text(to, b" ")?;
    test_io::hex(to, &id)
}

// DATA without its zero fill.
fn data<W: Write>(to: &mut W, t: Telegram) -> io::Result<()> {
    let payload = t.payload;
    let n = t.len.min(MAX_DATA);
    test_io::hex(to, &payload[0..n])
}

fn payload(part: &[u8]) -> [u8; 14]
    requires { length part.now ≡ 14 }
{
    let mut bytes = [0u8; 14];
    bytes.copy_from_slice(part);
    bytes
}
