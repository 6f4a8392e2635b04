// What is printed for the cells that a replay wrote (docs/FORMATS.md has their bytes).
ghost use Rattle.std.specs.Prelude.{◌≡◌, ◌≤◌, length};

use crate::least;
use std::io;
use std::io::Write;

// The operation, the number and the totals.
pub(crate) const HEAD: usize = 50;
// The same with a length or a count after them.
pub(crate) const BODY: usize = 58;
// The reply to a reception: the form of its answer, its number, the length of what is sent, and 21 bytes.
const REPLY: usize = 31;
// The greatest lengths of a cell: of a reception; of a checkpoint; of a cut with 2,560 bytes; of a burst of 259.
pub(crate) const ANSWERED: usize = 81;

pub(crate) const WROTE: usize = 3058;

pub(crate) const CUT: usize = 2668;

pub(crate) const DELIVERED: usize = 8087;

// For each history, this many images of checkpoints are printed.
const SHOWN: u8 = 3;

// ---- the cells

pub(crate) fn put_answered<W: Write>(to: &mut W, cell: &[u8]) -> io::Result<()>
    requires { length cell.now ≡ 81 }
{
    test_io::text(to, b"R ")?;
    put_reply(to, &cell[HEAD..ANSWERED])?;
    put_totals(to, cell)
}

// Prints the output, which is after the length. Returns how many images are printed then.
pub(crate) fn put_wrote<W: Write>(to: &mut W, shown: u8, cell: &[u8]) -> io::Result<u8>
    requires { 58 ≤ length cell.now }
{
    test_io::text(to, b"P ")?;
    put_number(to, cell)?;
    put_digest(to, &cell[BODY..])?;
    put_totals(to, cell)?;
    put_image(to, shown, cell[1], &cell[BODY..])
}

// Prints the cell of the checkpoint, and that of the restore.
pub(crate) fn put_cut<W: Write>(to: &mut W, cells: &[u8]) -> io::Result<()>
    requires { length cells.now ≡ 2668 }
{
    test_io::text(to, b"C ")?;
    put_number(to, cells)?;
    put_restored(to, b" ", &cells[CUT - HEAD..])
}

pub(crate) fn put_restored<'a, W: Write>(
    to: &mut W,
    word: &'a [u8],
    cell: &'a [u8],
) -> io::Result<()>
    requires { 50 ≤ length cell.now }
{
    test_io::text(to, word)?;
    put_number(to, cell)?;
    put_totals(to, cell)
}

// Prints the first m entries, a line each.
pub(crate) fn put_delivered<W: Write>(to: &mut W, cell: &[u8], m: usize) -> io::Result<()>
    requires cell_length { length cell.now ≡ 8087 }
    requires m_bound { m ≤ 259 }
{
    put_restored(to, b"B ", cell)?;
    for i in 0..m {
        put_place(to, cell, i)?;
    }
    Ok(())
}

fn put_place<W: Write>(to: &mut W, cell: &[u8], i: usize) -> io::Result<()>
    requires cell_length { length cell.now ≡ 8087 }
    requires i_bound { i ≤ 258 }
{
    let at = BODY + REPLY * i;
    test_io::text(to, b"b ")?;
    put_reply(to, &cell[at..at + REPLY])?;
    test_io::text(to, b"\n")
}

pub(crate) fn put_heard<W: Write>(to: &mut W, cell: &[u8]) -> io::Result<()>
    requires { length cell.now ≡ 58 }
{
    test_io::text(to, b"A ")?;
    put_number(to, cell)?;
    put_total(to, &cell[HEAD..BODY])?;
    put_totals(to, cell)
}

// ---- their parts

fn put_number<W: Write>(to: &mut W, cell: &[u8]) -> io::Result<()>
    requires { 50 ≤ length cell.now }
{
    test_io::decimal(to, base_numbers::u64_of_byte(cell[1]))
}

fn put_totals<W: Write>(to: &mut W, cell: &[u8]) -> io::Result<()>
    requires { 50 ≤ length cell.now }
{
    put_total(to, &cell[2..10])?;
    put_total(to, &cell[10..18])?;
    put_total(to, &cell[18..26])?;
    put_total(to, &cell[26..34])?;
    put_total(to, &cell[34..42])?;
    put_total(to, &cell[42..50])?;
    test_io::text(to, b"\n")
}

fn put_total<W: Write>(to: &mut W, s: &[u8]) -> io::Result<()> {
    test_io::text(to, b" ")?;
    test_io::decimal(to, block_layout::read_number(s))
}

fn put_reply<W: Write>(to: &mut W, reply: &[u8]) -> io::Result<()>
    requires { length reply.now ≡ 31 }
{
    put_answer(to, reply[0], reply[1])?;
    let n = least(block_layout::read_number(&reply[2..10]), 21);
    test_io::text(to, b" ")?;
    test_io::hex(to, &reply[10..10 + n])
}

fn put_answer<W: Write>(to: &mut W, form: u8, number: u8) -> io::Result<()> {
    match form {
        0 => test_io::text(to, b"KEPT"),
        1 => test_io::text(to, b"COPY"),
        2 => test_io::text(to, b"LOOSE"),
        _ => test_io::decimal(to, base_numbers::u64_of_byte(number)),
    }
}

// A number made of all the bytes: for each byte, 31 times the number so far, plus the byte, in 32 bits.
fn put_digest<W: Write>(to: &mut W, out: &[u8]) -> io::Result<()> {
    let mut figure: u64 = 0;
    for i in 0..out.len() {
        figure = mixed(figure, out[i]);
    }
    test_io::text(to, b" ")?;
    put_word(to, figure)
}

fn mixed(figure: u64, byte: u8) -> u64 {
    (figure % 4_294_967_296 * 31 + byte as u64) % 4_294_967_296
}

// Prints the low 32 bits, in eight digits.
fn put_word<W: Write>(to: &mut W, n: u64) -> io::Result<()> {
    let mut word = [0u8; 4];
    block_layout::put_number(&mut word, n);
    test_io::hex(to, &word)
}

// Prints the image of one of the first checkpoints. Returns how many are printed then.
fn put_image<W: Write>(to: &mut W, shown: u8, number: u8, out: &[u8]) -> io::Result<u8> {
    if number != 0 {
        return Ok(shown);
    }
    if SHOWN <= shown {
        return Ok(shown);
    }
    if out.len() < crate::IMAGE {
        return Ok(shown);
    }
    test_io::text(to, b"I ")?;
    test_io::hex(to, &out[0..crate::IMAGE])?;
    test_io::text(to, b"\n")?;
    Ok(shown + 1)
}
