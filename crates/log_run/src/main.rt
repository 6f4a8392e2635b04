// Keeps the log of standard input in an archive of zeros by `history_log::keep`, and prints what that leaves: its number, rows, closings and lines on the
// first line; then, each on a line of hexadecimal digits, the blocks of the archive, what the log closes, and the tool's state file.
#![tactic(auto)]

ghost use Rattle.std.specs.Prelude.{◌≡◌, length};

use block_layout::{BLOCK_LENGTH, CELL_LENGTH, CELLS_PER_BLOCK};
use std::io;
use std::io::{BufWriter, Write};

// A longer log is cut there.
const LOG: usize = 131_072;

const BLOCKS: usize = 512;

const CLOSINGS: usize = 8_192;

fn main(rt: HostRuntime) -> io::Result<()> {
    let mut log = log_buffer();
    let n = test_io::read_full(&mut rt.reader(), &mut log)?;
    let mut to = BufWriter::new(rt.alloc(), io::writer(&rt))?;
    keep(&mut to, &log[0..n])?;
    to.flush()
}

fn keep<W: Write>(to: &mut W, log: &[u8]) -> io::Result<()> {
    let mut archive = archive_buffer();
    let mut heard = heard_buffer();
    let mut state = [0u8; journal_state::LENGTH];
    let k = history_log::keep(log, &mut archive, &mut heard, b"plant.arc", &mut state);
    test_io::field(to, k.number as u64)?;
    test_io::field(to, k.rows as u64)?;
    test_io::field(to, k.closings as u64)?;
    test_io::last_field(to, k.lines as u64)?;
    put_front(to, &archive, archive_length(k.rows))?;
    put_front(to, &heard, heard_length(k.closings))?;
    put_state(to, &state)
}

// The length of the blocks that have so many rows, or 0 for more rows than the archive can have.
fn archive_length(rows: usize) -> usize {
    if BLOCKS * CELLS_PER_BLOCK < rows {
        return 0;
    }
    BLOCK_LENGTH * ((rows + CELLS_PER_BLOCK - 1) / CELLS_PER_BLOCK)
}

// The length of so many closings, or 0 for more than there is room for.
fn heard_length(closings: usize) -> usize {
    if CLOSINGS < closings {
        return 0;
    }
    CELL_LENGTH * closings
}

fn put_state<W: Write>(to: &mut W, state: &[u8; journal_state::LENGTH]) -> io::Result<()> {
    put_front(to, state, journal_state::LENGTH)
}

// Prints the first bytes on a line.
fn put_front<W: Write>(to: &mut W, bytes: &[u8], end: usize) -> io::Result<()> {
    if end <= bytes.len() {
        test_io::hex(to, &bytes[0..end])?;
    }
    test_io::text(to, b"\n")
}

fn log_buffer() -> [u8; LOG]
    ensures { length result ≡ 131072 }
{
    [0; LOG]
}

fn archive_buffer() -> [u8; BLOCK_LENGTH * BLOCKS]
    ensures { length result ≡ 262144 }
{
    [0; BLOCK_LENGTH * BLOCKS]
}

fn heard_buffer() -> [u8; CELL_LENGTH * CLOSINGS]
    ensures { length result ≡ 262144 }
{
    [0; CELL_LENGTH * CLOSINGS]
}
