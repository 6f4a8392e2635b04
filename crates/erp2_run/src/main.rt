// Runs the ERP2 codec on the records of standard input, a line of 640 hexadecimal digits each, and prints a line for each. The output must equal that
// of the second program (tests/reference/README.md has the format).
#![tactic(auto)]

ghost use Rattle.std.specs.Prelude.{◌≡◌, length};

use base_refusal::Refusal;
use radio_erp2_model::{Extension, Header, MAX_DATA, MAX_OPTIONAL, Telegram};
use std::io;
use std::io::{BufWriter, Read, Write};

// The largest number of bytes to read in a record, and of an output.
const MOST: usize = 300;

// What is printed where there is no extended header.
const NO_EXTENSION: Extension = Extension {
    hops: 0,
    announced: 0,
};

fn main(rt: HostRuntime) -> io::Result<()> {
    let mut to = BufWriter::new(rt.alloc(), io::writer(&rt))?;
    records(&mut rt.reader(), &mut to, 1_000_000)?;
    to.flush()
}

// Handles at most `most` records, until the input ends.
fn records<R: Read, W: Write>(input: &mut R, to: &mut W, most: u64) -> io::Result<()> {
    for _ in 0..most {
        if !record(input, to)? {
            break;
        }
    }
    Ok(())
}

// Handles one record, if there is one more.
fn record<R: Read, W: Write>(input: &mut R, to: &mut W) -> io::Result<bool> {
    let mut bytes = [0u8; test_io::LONG];
    let more = test_io::next_long_record(input, &mut bytes)?;
    if more {
        answer(to, &bytes)?;
    }
    Ok(more)
}

fn answer<W: Write>(to: &mut W, r: &[u8]) -> io::Result<()>
    requires { length r.now ≡ 320 }
{
    if r[0] == 1 {
        read(to, r)?;
    } else {
        build(to, r)?;
    }
    test_io::text(to, b"\n")
}

fn read<W: Write>(to: &mut W, r: &[u8]) -> io::Result<()>
    requires { length r.now ≡ 320 }
{
    let n = pair(r[1], r[2]).min(MOST);
    test_io::text(to, b"READ ")?;
    match radio_erp2::read(&r[8..8 + n]) {
        Ok(t) => {
            test_io::text(to, b"0")?;
            show(to, t)
        }
        Err(why) => {
            test_io::decimal(to, u64::from(base_refusal::number(why)))?;
            show(to, nothing())
        }
    }
}

// Builds into an output of the capacity in the record.
fn build<W: Write>(to: &mut W, r: &[u8]) -> io::Result<()>
    requires { length r.now ≡ 320 }
{
    let capacity = pair(r[1], r[2]).min(MOST);
    let mut out = [0xEEu8; MOST];
    build_into(to, ordered(r), &mut out[0..capacity])
}

// Prints the answer, and all of the output.
fn build_into<W: Write>(to: &mut W, t: Telegram, out: &mut [u8]) -> io::Result<()> {
    let built = radio_erp2::build(t, out);
    test_io::text(to, b"BUILD ")?;
    written(to, built, out)
}

// The telegram that a record describes.
fn ordered(r: &[u8]) -> Telegram
    requires { length r.now ≡ 320 }
{
    Telegram {
        short: r[3],
        header: Header {
            control: r[4],
            extended: r[5] == 1,
            kind: r[6],
        },
        extension: (r[7] == 1).then_some(Extension {
            hops: r[8],
            announced: r[9],
        }),
        subtype: (r[10] == 1).then_some(r[11]),
        originator: block_layout::read_number(&r[12..20]),
        destination: (r[20] == 1).then_some(u32::from_be_bytes([r[21], r[22], r[23], r[24]])),
        payload: r[42..292].try_into().unwrap(),
        len: pair(r[25], r[26]),
        optional: r[27..42].try_into().unwrap(),
    }
}

// What is printed beside a refusal: a telegram that is all zero.
fn nothing() -> Telegram {
    Telegram {
        short: 0,
        header: Header {
            control: 0,
            extended: false,
            kind: 0,
        },
        extension: None,
        subtype: None,
        originator: 0,
        destination: None,
        payload: [0u8; MAX_DATA],
        len: 0,
        optional: [0u8; MAX_OPTIONAL],
    }
}

// ---- what is printed for an answer

// The number, the length and all of the output.
fn written<W: Write>(to: &mut W, built: Result<usize, Refusal>, out: &[u8]) -> io::Result<()> {
    match built {
        Ok(n) => {
            test_io::text(to, b"0 ")?;
            test_io::decimal(to, n as u64)?;
        }
        Err(why) => {
            test_io::decimal(to, u64::from(base_refusal::number(why)))?;
            test_io::text(to, b" 0")?;
        }
    }
    test_io::text(to, b" ")?;
    test_io::hex(to, out)
}

fn show<W: Write>(to: &mut W, t: Telegram) -> io::Result<()> {
    show_head(to, t.short, t.header, t.extension, t.subtype)?;
    identity(to, t.originator)?;
    flag(to, t.destination.is_some())?;
    destination(to, u64::from(t.destination.unwrap_or(0)))?;
    data(to, t)?;
    optional(to, t)
}

fn show_head<W: Write>(
    to: &mut W,
    short: u8,
    header: Header,
    extension: Option<Extension>,
    subtype: Option<u8>,
) -> io::Result<()> {
    small(to, short)?;
    small(to, header.control)?;
    flag(to, header.extended)?;
    small(to, header.kind)?;
    flag(to, extension.is_some())?;
    let e = extension.unwrap_or(NO_EXTENSION);
    small(to, e.hops)?;
    small(to, e.announced)?;
    flag(to, subtype.is_some())?;
    test_io::text(to, b" ")?;
    test_io::byte(to, subtype.unwrap_or(0))
}

fn small<W: Write>(to: &mut W, n: u8) -> io::Result<()> {
    test_io::text(to, b" ")?;
    test_io::decimal(to, u64::from(n))
}

fn flag<W: Write>(to: &mut W, set: bool) -> io::Result<()> {
    test_io::text(to, if set { b" 1" } else { b" 0" })
}

// Prints an Originator-ID in 12 digits.
fn identity<W: Write>(to: &mut W, id: u64) -> io::Result<()> {
    let mut bytes = [0u8; 6];
    block_layout::put_number(&mut bytes, id);
    test_io::text(to, b" ")?;
    test_io::hex(to, &bytes)
}

// Prints a Destination-ID in 8 digits.
fn destination<W: Write>(to: &mut W, id: u64) -> io::Result<()> {
    let mut bytes = [0u8; 4];
    block_layout::put_number(&mut bytes, id);
    test_io::text(to, b" ")?;
    test_io::hex(to, &bytes)
}

// Data, and optional data, without their zero fill.
fn data<W: Write>(to: &mut W, t: Telegram) -> io::Result<()> {
    let n = t.len.min(MAX_DATA);
    test_io::text(to, b" ")?;
    test_io::hex(to, &t.payload[0..n])
}

fn optional<W: Write>(to: &mut W, t: Telegram) -> io::Result<()> {
    let announced = t.extension.unwrap_or(NO_EXTENSION).announced;
    let n = usize::from(announced).min(MAX_OPTIONAL);
    test_io::text(to, b" ")?;
    test_io::hex(to, &t.optional[0..n])
}

// ---- numbers

fn pair(high: u8, low: u8) -> usize {
    usize::from(u16::from_be_bytes([high, low]))
}
