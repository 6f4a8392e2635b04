// Runs the check of a site on the long records of standard input, and prints a line for each. The output must equal that of the second program
// (tests/reference/README.md has the format).
#![tactic(auto)]

use plan_site::Rejection;
use std::io;
use std::io::{BufWriter, Read, Write};
use test_io::{LONG, field, last_field};

fn main(rt: HostRuntime) -> io::Result<()> {
    let mut to = BufWriter::new(rt.alloc(), io::writer(&rt))?;
    records(&mut rt.reader(), &mut to, 1_000_000)?;
    to.flush()
}

// Handles at most `most` records, until the input ends.
fn records<R: Read, W: Write>(input: &mut R, to: &mut W, most: u64) -> io::Result<()> {
    for _ in 0..most {
        if !record(input, to)? {
            break;
        }
    }
    Ok(())
}

// Handles one record, if there is one more.
fn record<R: Read, W: Write>(input: &mut R, to: &mut W) -> io::Result<bool> {
    let mut bytes = [0u8; LONG];
    let more = test_io::next_long_record(input, &mut bytes)?;
    if more {
        answer(to, &bytes)?;
    }
    Ok(more)
}

// Checks the repeaters of the record. If the count is over 33, it checks the first 33, which are refused in the same way.
fn answer<W: Write>(to: &mut W, r: &[u8; LONG]) -> io::Result<()> {
    let whole = &r[..];
    let count = (whole[0] as usize).min(plan_site::MAX_REPEATERS + 1);
    show(
        to,
        plan_site::check_bytes(&whole[8..8 + plan_site::SIZE * count]),
    )
}

fn show<W: Write>(to: &mut W, verdict: Result<(), Rejection>) -> io::Result<()> {
    match verdict {
        Ok(()) => line(to, 0, 0, 0),
        Err(Rejection::OutOfRange) => line(to, 10, 0, 0),
        Err(Rejection::Unlawful(i)) => line(to, 18, i, 0),
        Err(Rejection::Overlap(i, j)) => line(to, 19, i, j),
    }
}

fn line<W: Write>(to: &mut W, number: u64, repeater: usize, other: usize) -> io::Result<()> {
    test_io::text(to, b"SITE ")?;
    field(to, number)?;
    field(to, repeater as u64)?;
    last_field(to, other as u64)
}
