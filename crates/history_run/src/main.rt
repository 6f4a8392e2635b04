// Makes the histories of standard input on a collector, each record by `history_replay::resume`, and prints what that wrote. The output must equal
// that of the second program (tests/reference/README.md has the format). The collector is in five arrays, which are lent to each call.
#![tactic(auto)]

pub(crate) mod lent;
pub(crate) mod records;
pub(crate) mod shown;

ghost use Rattle.std.specs.Prelude.{◌≡◌, ◌≤◌, length};

use c_collector::{BYTES, CAPACITY, Lent, NUMBERS};
use history_replay::Replayed;
use std::io;
use std::io::{BufWriter, Read, Write};

// The length of an image.
const IMAGE: usize = 2560;

// The collector's arrays.
#[derive(Drop)]
struct Columns {
    times: [u64; CAPACITY],
    lengths: [u8; CAPACITY],
    bytes: [u8; BYTES],
    copies: [u16; CAPACITY],
    numbers: [u64; NUMBERS],
}

// A history in progress: the setting that its caller keeps, and how many images it has printed.
#[derive(Clone, Copy)]
struct Session {
    setting: u8,
    shown: u8,
}

fn main(rt: HostRuntime) -> io::Result<()> {
    let mut to = BufWriter::new(rt.alloc(), io::writer(&rt))?;
    histories(&mut rt.reader(), &mut to, 1_000_000)?;
    to.flush()
}

// Makes at most `most` calls, until the input ends.
fn histories<R: Read, W: Write>(input: &mut R, to: &mut W, most: u64) -> io::Result<()> {
    let mut collector = Columns {
        times: [0; CAPACITY],
        lengths: [0; CAPACITY],
        bytes: [0; BYTES],
        copies: [0; CAPACITY],
        numbers: [0; NUMBERS],
    };
    let mut session = begun(0);
    for _ in 0..most {
        let next = test_io::next_record(input)?;
        if !next.more {
            break;
        }
        session = called(input, to, &mut collector, session, &next.bytes)?;
    }
    Ok(())
}

fn called<R: Read, W: Write>(
    input: &mut R,
    to: &mut W,
    collector: &mut Columns,
    session: Session,
    r: &[u8],
) -> io::Result<Session>
    requires { length r.now ≡ 64 }
{
    let number = block_layout::read_number(&r[1..9]);
    let operation = r[0];
    match operation {
        1 => started(to, collector, (number % 256) as u8),
        2 => received(to, collector, session, r),
        3 => saved(to, collector, session, least(number, lent::LONGEST)),
        4 => cut(to, collector, session),
        6 => delivered(
            input,
            to,
            collector,
            session,
            r,
            least(number, lent::LISTED),
        ),
        7 => asked(to, collector, session, number),
        8 => given(input, to, collector, session, least(number, lent::LONGEST)),
        _ => spoiled(to, collector, session, least(number, IMAGE)),
    }
}

// ---- the calls

fn started<W: Write>(to: &mut W, collector: &mut Columns, setting: u8) -> io::Result<Session> {
    test_io::text(to, b"L 0\n")?;
    let mut state = Lent {
        times: &mut collector.times,
        lengths: &mut collector.lengths,
        bytes: &mut collector.bytes,
        copies: &mut collector.copies,
        numbers: &mut collector.numbers,
    };
    state.clear();
    Ok(begun(setting))
}

fn received<W: Write>(
    to: &mut W,
    collector: &mut Columns,
    session: Session,
    r: &[u8],
) -> io::Result<Session>
    requires { length r.now ≡ 64 }
{
    let call = records::reception(r, session.setting);
    let mut out = [0u8; shown::ANSWERED];
    let ran = made(collector, &call, &mut out);
    if is_refused(ran) {
        return Ok(session);
    }
    shown::put_answered(to, &out)?;
    Ok(after(session, session.shown))
}

// A checkpoint into an output of n bytes.
fn saved<W: Write>(
    to: &mut W,
    collector: &mut Columns,
    session: Session,
    n: usize,
) -> io::Result<Session>
    requires { n ≤ 3000 }
{
    let call = records::checkpoint(history_replay::SAVING, n);
    let mut out = [0u8; shown::WROTE];
    let ran = made(collector, &call, &mut out);
    if is_refused(ran) {
        return Ok(session);
    }
    let printed = shown::put_wrote(to, session.shown, &out[0..shown::BODY + n])?;
    Ok(after(session, printed))
}

// A cut: a checkpoint, and its restore into another collector.
fn cut<W: Write>(to: &mut W, collector: &mut Columns, session: Session) -> io::Result<Session> {
    let call = records::checkpoint(history_replay::CUTTING, IMAGE);
    let mut out = [0u8; shown::CUT];
    let ran = made(collector, &call, &mut out);
    if is_refused(ran) {
        return Ok(session);
    }
    shown::put_cut(to, &out)?;
    Ok(after(session, session.shown))
}

// Restores the present image with byte k changed; for k = 2,560, without its last byte.
fn spoiled<W: Write>(
    to: &mut W,
    collector: &mut Columns,
    session: Session,
    k: usize,
) -> io::Result<Session>
    requires { k ≤ 2560 }
{
    let call = records::checkpoint(history_replay::SAVING, IMAGE);
    let mut out = [0u8; shown::BODY + IMAGE];
    let ran = made(collector, &call, &mut out);
    if is_refused(ran) {
        return Ok(session);
    }
    let saved = after(session, session.shown);
    changed(
        to,
        collector,
        saved,
        &mut out[shown::BODY..shown::BODY + IMAGE],
        k,
    )
}

// The same for an image in a lent buffer.
fn changed<W: Write>(
    to: &mut W,
    collector: &mut Columns,
    session: Session,
    image: &mut [u8],
    k: usize,
) -> io::Result<Session>
    requires image_length { length image.old ≡ 2560 }
    requires k_bound { k ≤ 2560 }
{
    if k < IMAGE {
        image[k] = image[k] ^ 1;
        return restored(to, collector, session, b"X ", image);
    }
    restored(to, collector, session, b"X ", &image[0..IMAGE - 1])
}

// Restores an image of n bytes from the input.
fn given<R: Read, W: Write>(
    input: &mut R,
    to: &mut W,
    collector: &mut Columns,
    session: Session,
    n: usize,
) -> io::Result<Session>
    requires { n ≤ 3000 }
{
    let image = lent::next_bytes(input, n)?;
    restored(to, collector, session, b"W ", &image[0..n])
}

// Restores these bytes. The text before its number says which call it is.
fn restored<'a, W: Write>(
    to: &mut W,
    collector: &mut Columns,
    session: Session,
    word: &'a [u8],
    image: &'a [u8],
) -> io::Result<Session> {
    let call = records::restore(image.len());
    let mut out = [0u8; shown::HEAD];
    let ran = resumed(collector, &call, image, &mut out);
    if is_refused(ran) {
        return Ok(session);
    }
    shown::put_restored(to, word, &out)?;
    Ok(after(session, session.shown))
}

// Hands over a burst of the next n records.
fn delivered<R: Read, W: Write>(
    input: &mut R,
    to: &mut W,
    collector: &mut Columns,
    session: Session,
    r: &[u8],
    n: usize,
) -> io::Result<Session>
    requires r_length { length r.now ≡ 64 }
    requires n_bound { n ≤ 259 }
{
    let m = records::places_in(r);
    let call = records::burst(r, n, m);
    let records = lent::next_records(input, n)?;
    let mut out = [0u8; shown::DELIVERED];
    let ran = resumed(collector, &call, &records, &mut out);
    if is_refused(ran) {
        return Ok(session);
    }
    shown::put_delivered(to, &out, m)?;
    Ok(after(session, session.shown))
}

// Asks for the copies of the entry with this index.
fn asked<W: Write>(
    to: &mut W,
    collector: &mut Columns,
    session: Session,
    entry: u64,
) -> io::Result<Session> {
    let call = records::ask(entry);
    let mut out = [0u8; shown::BODY];
    let ran = made(collector, &call, &mut out);
    if is_refused(ran) {
        return Ok(session);
    }
    shown::put_heard(to, &out)?;
    Ok(after(session, session.shown))
}

// Makes a call that is lent nothing.
fn made<'a>(collector: &mut Columns, call: &'a [u8], out: &'a mut [u8]) -> Replayed {
    resumed(collector, call, &call[0..0], out)
}

// Makes a call that is lent some bytes.
fn resumed<'a>(
    collector: &mut Columns,
    call: &'a [u8],
    lent: &'a [u8],
    out: &'a mut [u8],
) -> Replayed {
    let mut state = Lent {
        times: &mut collector.times,
        lengths: &mut collector.lengths,
        bytes: &mut collector.bytes,
        copies: &mut collector.copies,
        numbers: &mut collector.numbers,
    };
    history_replay::resume(&mut state, call, lent, out)
}

// Whether the call was not made, because the output is too short; then nothing is printed for it.
fn is_refused(ran: Replayed) -> bool {
    let answer = ran.answer;
    match answer {
        Ok(()) => false,
        Err(_) => true,
    }
}

// A history at its start; and after a call.
fn begun(setting: u8) -> Session {
    Session { setting, shown: 0 }
}

fn after(session: Session, shown: u8) -> Session {
    Session {
        setting: session.setting,
        shown,
    }
}

pub(crate) fn least(x: u64, y: usize) -> usize
    ensures { result ≤ y }
{
    let n = x % 65_536;
    if x < 65_536 {
        let m = n as usize;
        if m < y {
            return m;
        }
    }
    y
}
