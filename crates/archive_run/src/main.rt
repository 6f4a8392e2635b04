// Makes calls on archives, one for each long record of standard input, and prints what each answers. The output must equal that of the second program
// (tests/reference/README.md has the format).
#![tactic(auto)]

mod reports;

ghost use Rattle.std.specs.Prelude.{◌≡◌, ◌≤◌, ◌<◌, IfOk, IfSome, length};

use archive_file::{ArchiveError, Scan, Stage};
use archive_report::Report;
use std::io;
use std::io::{BufWriter, Read, Write};

// The largest length of the buffer that holds the archive.
const CAPACITY: usize = 24576;

const BLOCK: usize = block_layout::BLOCK_LENGTH;

// The largest number of positions in the list that salvage writes.
const POSITIONS: usize = 64;

// The largest number of identities in a record.
const IDENTITIES: usize = 70;

fn main(rt: HostRuntime) -> io::Result<()> {
    let mut to = BufWriter::new(rt.alloc(), io::writer(&rt))?;
    let mut buffer = [0u8; CAPACITY];
    run(&mut rt.reader(), &mut to, &mut buffer)?;
    to.flush()
}

fn run<R: Read, W: Write>(input: &mut R, to: &mut W, buffer: &mut [u8]) -> io::Result<()>
    requires { length buffer.old ≡ 24576 }
{
    let mut out = [0u8; CAPACITY];
    let mut list = [0u64; POSITIONS];
    calls(input, to, buffer, &mut out, &mut list, 1_000_000)
}

// Makes at most `most` calls, until the input ends.
fn calls<R: Read, W: Write>(
    input: &mut R,
    to: &mut W,
    buffer: &mut [u8],
    out: &mut [u8],
    list: &mut [u64],
    most: u64,
) -> io::Result<()>
    requires buffer_length { length buffer.old ≡ 24576 }
    requires out_length { length out.old ≡ 24576 }
    requires list_length { length list.old ≡ 64 }
{
    let mut report = Report::empty();
    let mut n: usize = 0;
    for _ in 0..most {
        let Some(next) = called(input, to, buffer, n, out, list, report)? else {
            break;
        };
        n = next.len;
        report = next.report;
    }
    Ok(())
}

// How long the archive's buffer is after a call, and the report.
#[derive(Clone, Copy)]
struct Next {
    len: usize,
    report: Report,
}

// The next call, if there is one: on the first `n` bytes of the buffer, on the output and the list of salvage, and on the report.
fn called<R: Read, W: Write>(
    input: &mut R,
    to: &mut W,
    buffer: &mut [u8],
    n: usize,
    out: &mut [u8],
    list: &mut [u64],
    report: Report,
) -> io::Result<Option<Next>>
    requires buffer_length { length buffer.old ≡ 24576 }
    requires n_bound { n ≤ 24576 }
    requires out_length { length out.old ≡ 24576 }
    requires list_length { length list.old ≡ 64 }
    ensures { IfOk result (λ next. IfSome next (λ x. x.len ≤ 24576)) }
{
    let mut r = [0u8; test_io::LONG];
    if !test_io::next_long_record(input, &mut r)? {
        return Ok(None);
    }
    if reports::is_call(r[0]) {
        return Ok(Some(Next {
            len: n,
            report: reports::call(to, &buffer[0..n], report, &r)?,
        }));
    }
    Ok(Some(Next {
        len: made(to, buffer, n, out, list, &r)?,
        report,
    }))
}

fn made<W: Write>(
    to: &mut W,
    buffer: &mut [u8],
    n: usize,
    out: &mut [u8],
    list: &mut [u64],
    r: &[u8],
) -> io::Result<usize>
    requires buffer_length { length buffer.old ≡ 24576 }
    requires n_bound { n ≤ 24576 }
    requires out_length { length out.old ≡ 24576 }
    requires list_length { length list.old ≡ 64 }
    requires r_length { length r.now ≡ 320 }
    ensures { IfOk result (λ len. len ≤ 24576) }
{
    match r[0] {
        1 => return fresh(to, buffer, block_layout::read_number(&r[1..5])),
        9 => salvage(to, &buffer[0..n], out, list, r)?,
        10 => out_block(to, out, block_layout::read_number(&r[1..5]))?,
        11 => put_list(to, list)?,
        _ => call(to, &mut buffer[0..n], r)?,
    }
    Ok(n)
}

fn call<W: Write>(to: &mut W, buffer: &mut [u8], r: &[u8]) -> io::Result<()>
    requires buffer_length { length buffer.old ≤ 24576 }
    requires r_length { length r.now ≡ 320 }
{
    let operation = r[0];
    match operation {
        2 => put(to, buffer, r),
        3 => append(to, buffer, r),
        4 => append_at(to, buffer, r),
        5 => open(to, buffer),
        6 => row(to, buffer, block_layout::read_number(&r[1..9])),
        7 => block(to, buffer, block_layout::read_number(&r[1..5])),
        8 => scan(to, buffer, block_layout::read_number(&r[1..5])),
        12 => remove(to, buffer, r),
        18 => cut(to, buffer, r),
        _ => test_io::text(to, b"?\n"),
    }
}

// ---- the calls

// A buffer of zeros of the requested length.
fn fresh<W: Write>(to: &mut W, buffer: &mut [u8], number: u64) -> io::Result<usize>
    requires { length buffer.old ≡ 24576 }
    ensures { IfOk result (λ len. len ≤ 24576) }
{
    let n = least(number, CAPACITY);
    block_layout::clear(&mut buffer[0..n]);
    test_io::text(to, b"NEW ")?;
    test_io::decimal(to, n as u64)?;
    test_io::text(to, b"\n")?;
    Ok(n)
}

// Copies the bytes of the record to their position, as far as they are inside the buffer.
fn put<W: Write>(to: &mut W, buffer: &mut [u8], r: &[u8]) -> io::Result<()>
    requires { length r.now ≡ 320 }
{
    let place = least(block_layout::read_number(&r[1..5]), CAPACITY);
    let count = least(block_layout::read_number(&r[5..7]), 300);
    store(buffer, place, &r[8..8 + count]);
    test_io::text(to, b"PUT\n")
}

fn store(buffer: &mut [u8], place: usize, bytes: &[u8])
    requires place_bound { place ≤ 24576 }
    requires bytes_length { length bytes.now ≤ 300 }
{
    for (to, byte) in buffer.iter_mut().skip(place).zip(bytes) {
        *to = *byte;
    }
}

fn append<W: Write>(to: &mut W, buffer: &mut [u8], r: &[u8]) -> io::Result<()>
    requires { length r.now ≡ 320 }
{
    let len = least(base_numbers::u64_of_byte(r[10]), 64);
    let time = block_layout::read_number(&r[1..9]);
    let answer = archive_file::append(buffer, &r[11..11 + len], time, r[9] != 0);
    test_io::text(to, b"APPEND ")?;
    put_outcome(to, answer)?;
    test_io::text(to, b"\n")
}

fn append_at<W: Write>(to: &mut W, buffer: &mut [u8], r: &[u8]) -> io::Result<()>
    requires { length r.now ≡ 320 }
{
    let len = least(base_numbers::u64_of_byte(r[10]), 64);
    let time = block_layout::read_number(&r[1..9]);
    let rows = block_layout::read_number(&r[80..88]) as usize;
    let answer = archive_file::append_at(buffer, rows, &r[11..11 + len], time, r[9] != 0);
    test_io::text(to, b"APPENDAT ")?;
    put_outcome(to, answer)?;
    test_io::text(to, b"\n")
}

fn open<W: Write>(to: &mut W, buffer: &[u8]) -> io::Result<()> {
    test_io::text(to, b"OPEN ")?;
    put_count(to, archive_file::open(buffer))
}

fn row<W: Write>(to: &mut W, buffer: &[u8], index: u64) -> io::Result<()> {
    test_io::text(to, b"ROW ")?;
    match archive_file::row_at(buffer, index as usize) {
        Ok(found) => {
            let len = (found.len as usize).min(found.bytes.len());
            put_row(to, 0, found.time, found.loose, &found.bytes[0..len])
        }
        Err(why) => put_row(to, base_refusal::number(why), 0, false, b""),
    }
}

fn put_row<W: Write>(
    to: &mut W,
    number: u8,
    time: u64,
    loose: bool,
    bytes: &[u8],
) -> io::Result<()> {
    test_io::decimal(to, u64::from(number))?;
    put_number(to, time)?;
    put_number(to, u64::from(loose))?;
    test_io::text(to, b" ")?;
    test_io::hex(to, bytes)?;
    test_io::text(to, b"\n")
}

// The bytes of a block, if all of it is inside the buffer.
fn block<W: Write>(to: &mut W, buffer: &[u8], number: u64) -> io::Result<()>
    requires { length buffer.now ≤ 24576 }
{
    test_io::text(to, b"BLOCK ")?;
    block_bytes(to, buffer, number)
}

fn block_bytes<W: Write>(to: &mut W, buffer: &[u8], number: u64) -> io::Result<()>
    requires { length buffer.now ≤ 24576 }
{
    let at = BLOCK * least(number, CAPACITY);
    if buffer.len() < at + BLOCK {
        return test_io::text(to, b"-\n");
    }
    test_io::hex(to, &buffer[at..at + BLOCK])?;
    test_io::text(to, b"\n")
}

// Feeds the buffer in pieces of `blocks` blocks.
fn scan<W: Write>(to: &mut W, buffer: &[u8], blocks: u64) -> io::Result<()>
    requires { length buffer.now ≤ 24576 }
{
    let step = BLOCK * piece(blocks);
    let mut s = Scan::start();
    test_io::text(to, b"SCAN ")?;
    for part in buffer.chunks(step) {
        match s.feed(part) {
            Ok(next) => s = next,
            Err(why) => return put_three(to, base_refusal::number(why), 0, 0),
        }
    }
    put_scan(to, s)
}

// Prints the result of a scan of all blocks.
fn put_scan<W: Write>(to: &mut W, s: Scan) -> io::Result<()> {
    match s.stage {
        Stage::Filling | Stage::Short | Stage::Ended => put_three(to, 0, 0, s.rows),
        Stage::Wrong(k) => put_three(to, 12, k, 0),
    }
}

// ---- salvage

// Salvages into the front of an output filled with EE, and of a list whose numbers are filled with EE.
fn salvage<W: Write>(
    to: &mut W,
    buffer: &[u8],
    out: &mut [u8],
    list: &mut [u64],
    r: &[u8],
) -> io::Result<()>
    requires out_length { length out.old ≡ 24576 }
    requires list_length { length list.old ≡ 64 }
    requires r_length { length r.now ≡ 320 }
{
    out.fill(0xEE);
    list.fill(0xEEEE_EEEE_EEEE_EEEE);
    let end = least(block_layout::read_number(&r[1..5]), CAPACITY);
    let len = least(block_layout::read_number(&r[5..9]), POSITIONS);
    test_io::text(to, b"SALVAGE ")?;
    match archive_repack::salvage(buffer, &mut out[0..end], &mut list[0..len]) {
        Ok(done) => put_three(to, 0, done.dropped, done.rows),
        Err(why) => put_three(to, base_refusal::number(why), 0, 0),
    }
}

// The bytes of a block of the output.
fn out_block<W: Write>(to: &mut W, out: &[u8], number: u64) -> io::Result<()>
    requires { length out.now ≡ 24576 }
{
    test_io::text(to, b"OUT ")?;
    block_bytes(to, out, number)
}

fn put_list<W: Write>(to: &mut W, list: &[u64]) -> io::Result<()> {
    test_io::text(to, b"LIST")?;
    for n in list {
        put_number(to, *n)?;
    }
    test_io::text(to, b"\n")
}

// ---- removal

fn remove<W: Write>(to: &mut W, buffer: &mut [u8], r: &[u8]) -> io::Result<()>
    requires { length r.now ≡ 320 }
{
    let mut identities = [0u32; IDENTITIES];
    read_identities(&mut identities, r);
    let count = least(base_numbers::u64_of_byte(r[1]), IDENTITIES);
    test_io::text(to, b"REMOVE ")?;
    put_count(to, archive_repack::remove(buffer, &identities[0..count]))
}

fn read_identities(identities: &mut [u32], r: &[u8])
    requires identities_length { length identities.old ≡ 70 }
    requires r_length { length r.now ≡ 320 }
{
    for (identity, bytes) in identities.iter_mut().zip(r[4..].chunks_exact(4)) {
        *identity = four_bytes(block_layout::read_number(bytes));
    }
}

// The last four bytes of a number.
fn four_bytes(n: u64) -> u32 {
    (n % 4294967296) as u32
}

// ---- cuts

fn cut<W: Write>(to: &mut W, buffer: &mut [u8], r: &[u8]) -> io::Result<()>
    requires { length r.now ≡ 320 }
{
    let rows = block_layout::read_number(&r[1..9]) as usize;
    test_io::text(to, b"CUT ")?;
    put_count(to, archive_cut::cut(buffer, rows).map(|()| rows))
}

// ---- what is printed

// A count, or the number of a refusal and its position.
fn put_count<W: Write>(to: &mut W, answer: Result<usize, ArchiveError>) -> io::Result<()> {
    match answer {
        Ok(n) => put_three(to, 0, 0, n),
        Err(ArchiveError::Damaged(k)) => put_three(to, 12, k, 0),
        Err(ArchiveError::Refused(why)) => put_three(to, base_refusal::number(why), 0, 0),
    }
}

pub(crate) fn put_outcome<W: Write>(
    to: &mut W,
    answer: Result<(), ArchiveError>,
) -> io::Result<()> {
    match answer {
        Ok(()) => test_io::text(to, b"0 0"),
        Err(ArchiveError::Damaged(k)) => put_two(to, 12, k),
        Err(ArchiveError::Refused(why)) => put_two(to, base_refusal::number(why), 0),
    }
}

fn put_two<W: Write>(to: &mut W, number: u8, position: usize) -> io::Result<()> {
    test_io::decimal(to, number as u64)?;
    put_number(to, position as u64)
}

fn put_three<W: Write>(to: &mut W, number: u8, position: usize, rows: usize) -> io::Result<()> {
    put_two(to, number, position)?;
    put_number(to, rows as u64)?;
    test_io::text(to, b"\n")
}

pub(crate) fn put_number<W: Write>(to: &mut W, n: u64) -> io::Result<()> {
    test_io::text(to, b" ")?;
    test_io::decimal(to, n)
}

// ---- numbers of records

// A number of a record, or the bound if it is greater.
pub(crate) fn least(x: u64, bound: usize) -> usize
    ensures { result ≤ bound }
{
    (x as usize).min(bound)
}

// The number of blocks in a piece: at least one, and no more than the buffer has.
fn piece(blocks: u64) -> usize
    ensures low { 0 < result }
    ensures high { result ≤ 48 }
{
    least(blocks, 48).max(1)
}
