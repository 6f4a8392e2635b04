// What the test programs have in common: they read records, and print text, numbers and hexadecimal digits.
#![tactic(auto)]

ghost use Rattle.std.specs.Prelude.{◌<◌, ◌≤◌, ◌*◌, IfOk, length};

use std::io;
use std::io::{ErrorKind, Read, Write};

// A record: 64 bytes, a line of 128 upper-case hexadecimal digits in the input. `more` is false after the last one.
// Kept (buffer): no heap.
// Kept (code): the programs do what they did on every input, and `history_run` takes the bytes of a line that is cut short, too.
#[derive(Clone, Copy)]
pub struct Record {
    pub more: bool,
    pub bytes: [u8; 64],
}

// The digits of a record and a newline.
const LINE: usize = 129;

// The bytes of a long record.
pub const LONG: usize = 320;

// The digits of a long record and a newline.
const LONG_LINE: usize = 641;

// The next record of an input.
pub fn next_record<R: Read>(input: &mut R) -> io::Result<Record> {
    let mut line = [0u8; LINE];
    let n = read_full(input, &mut line)?;
    let mut bytes = [0u8; 64];
    decode(&line, &mut bytes);
    Ok(Record {
        more: n == LINE,
        bytes,
    })
}

// Reads the next long record of an input, a line of 640 upper-case hexadecimal digits, into `bytes`. False after the last one.
pub fn next_long_record<R: Read>(input: &mut R, bytes: &mut [u8; LONG]) -> io::Result<bool> {
    let mut line = [0u8; LONG_LINE];
    let n = read_full(input, &mut line)?;
    decode(&line, bytes);
    Ok(n == LONG_LINE)
}

// Reads until the buffer is full or the input ends, and returns how many bytes it put at the start of the buffer.
pub fn read_full<R: Read>(input: &mut R, buffer: &mut [u8]) -> io::Result<usize>
    ensures { IfOk result (λ n. n ≤ length buffer.new) }
{
    let mut done = 0;
    for _ in 0..u64::MAX {
        if done == buffer.len() {
            break;
        }
        match input.read(&mut buffer[done..]) {
            Ok(0) => break,
            Ok(n) => done += n,
            Err(e) => {
                if e.kind() != ErrorKind::Interrupted {
                    return Err(e);
                }
            }
        }
    }
    Ok(done)
}

// Prints text as it is.
pub fn text<W: Write>(to: &mut W, s: &[u8]) -> io::Result<()> {
    to.write_all(s)
}

// Prints a number in decimal digits.
pub fn decimal<W: Write>(to: &mut W, n: u64) -> io::Result<()> {
    write!(to, "{n}")
}

// Prints a number and a space.
pub fn field<W: Write>(to: &mut W, n: u64) -> io::Result<()> {
    decimal(to, n)?;
    text(to, b" ")
}

// Prints a number and a newline.
pub fn last_field<W: Write>(to: &mut W, n: u64) -> io::Result<()> {
    decimal(to, n)?;
    text(to, b"\n")
}

// 1 for true and 0 for false, for counting.
pub fn one_if(passes: bool) -> u64
    ensures { result ≤ 1 }
{
    u64::from(passes)
}

// Prints bytes in upper-case hexadecimal digits, or `-` if there are none.
pub fn hex<W: Write>(to: &mut W, s: &[u8]) -> io::Result<()> {
    if s.is_empty() {
        text(to, b"-")?;
    }
    for b in s {
        byte(to, *b)?;
    }
    Ok(())
}

// Prints one byte in two digits.
pub fn byte<W: Write>(to: &mut W, b: u8) -> io::Result<()> {
    text(to, &[digit(b / 16), digit(b % 16)])
}

// Writes the bytes of a line of digits.
fn decode(line: &[u8], bytes: &mut [u8])
    requires { 2 * length bytes.old ≤ length line.now }
{
    for (i, b) in bytes.iter_mut().enumerate() {
        *b = pair(line[2 * i], line[2 * i + 1]);
    }
}

// The byte of two digits.
fn pair(high: u8, low: u8) -> u8 {
    nibble(high) * 16 + nibble(low)
}

// The value of an upper-case hexadecimal digit; 0 for any other byte.
fn nibble(c: u8) -> u8
    ensures { result < 16 }
{
    match c {
        b'0'..=b'9' => c - b'0',
        b'A'..=b'F' => c - b'A' + 10,
        _ => 0,
    }
}

// The digit of a value below 16.
fn digit(n: u8) -> u8
    requires { n < 16 }
{
    if n < 10 { b'0' + n } else { b'A' + n - 10 }
}
