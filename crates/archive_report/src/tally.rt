// What is known of an archive after some of its blocks: the lines and totals so far, and the scan.
ghost use Rattle.std.specs.Prelude.{◌≡◌, true, ◌+◌, ◌*◌, ◌/◌, ◌^◌, ◌≤◌, ◌<◌, length};
ghost use Rattle.base_lists.specs.Lists.{all};
ghost use Rattle.block_layout.specs.Cell.{cell_length};
ghost use Rattle.block_layout.specs.Block.{cells_per_block, block_length};
ghost use Rattle.archive_model.specs.Row.{is_row, row_in};
ghost use Rattle.archive_model.specs.Identity.{identity_of};
ghost use Rattle.archive_model.specs.Buffer.{blocks_in, max_blocks, scan_block};
ghost use Rattle.archive_model.specs.Append.{is_scan};
ghost use Rattle.archive_file.specs.Archive.{scan_of};
ghost use Rattle.archive_report_model.specs.Report.{max_lines, is_rising, loose_in, line_of_row};
ghost use Rattle.archive_report_model.specs.Pieces.{add_block, add_blocks};
ghost use Rattle.archive_report.specs.Lines.{lines_length, lines_at};
ghost use Rattle.archive_report.specs.Private.{rows_between, total_of, Inserted, AddedRows, tally_of, Grows, Sane};

use crate::{Report, lines};
use archive_file::Scan;
use block_layout::{BLOCK_LENGTH, CELL_LENGTH, HEADER_LENGTH};

// Whether a cell says LOOSE.
fn is_loose(cell: &[u8]) -> bool
    ensures { result ≡ (row_in cell.now).loose }
{
    block_layout::cell_last(cell) == 256
}

// The transmitter of a cell that holds a valid row.
fn identity_of(cell: &[u8]) -> u64
    requires { (length cell.now ≡ cell_length) × (is_row (row_in cell.now) ≡ true) }
    ensures { result ≡ identity_of (row_in cell.now) }
{
    let len = block_layout::cell_used(cell) as usize;
    let at = len + 3;
    block_layout::read_number(&cell[at..at + 4])
}

// Counts the row of a cell in its line.
fn add_cell(lines: &mut [u64], count: usize, cell: &[u8]) -> usize
    requires { (length cell.now ≡ cell_length) × (is_row (row_in cell.now) ≡ true) × (count ≤ max_lines)
        × (length lines.old ≡ lines_length) × (is_rising (lines_at lines.old count) ≡ true)
        × (total_of (lines_at lines.old count) < 2 ^ 63) }
    ensures { Inserted count (line_of_row (row_in cell.now)) lines.old lines.new result }
{
    lines::add_row(
        lines,
        count,
        identity_of(cell),
        block_layout::cell_time(cell),
        is_loose(cell),
    )
}

// Counts the first `used` rows of a block; stops at a 257th line.
fn add_rows(lines: &mut [u64], count: usize, block: &[u8], used: usize) -> usize
    requires { (length block.now ≡ block_length) × (used ≤ cells_per_block)
        × (all is_row (rows_between block.now 0 used) ≡ true) × (count ≤ max_lines) × (length lines.old ≡ lines_length)
        × (is_rising (lines_at lines.old count) ≡ true)
        × (total_of (lines_at lines.old count) + cells_per_block < 2 ^ 63) }
    ensures { AddedRows count (rows_between block.now 0 used) lines.old lines.new
        result }
{
    let mut n = count;
    for i in 0..used {
        let at = HEADER_LENGTH + CELL_LENGTH * i;
        n = add_cell(lines, n, &block[at..at + CELL_LENGTH]);
        if Report::MAX_LINES < n {
            return n;
        }
    }
    n
}

// How many of the first `used` rows of a block are LOOSE.
fn loose_rows(block: &[u8], used: usize) -> u64
    requires { (length block.now ≡ block_length) × (used ≤ cells_per_block) }
    ensures { result ≡ loose_in (rows_between block.now 0 used) }
{
    let mut n = 0;
    for i in 0..used {
        let at = HEADER_LENGTH + CELL_LENGTH * i;
        n += u64::from(is_loose(&block[at..at + CELL_LENGTH]));
    }
    n
}

// What is known after some blocks: the scan, the number of lines, the totals, and whether there were more than 256 transmitters.
#[derive(Clone, Copy)]
pub struct Tally {
    pub scan: Scan,
    pub count: usize,
    pub kept: u64,
    pub loose: u64,
    pub over: bool,
}

// More than 256 transmitters: no line is left.
fn overflowed(scan: Scan) -> Tally
    ensures { result ≡ (record { scan = scan; count = 0; kept = 0; loose = 0; over = true }) }
{
    Tally {
        scan,
        count: 0,
        kept: 0,
        loose: 0,
        over: true,
    }
}

// The scan after one more block.
fn scan_after(scan: Scan, block: &[u8]) -> Scan
    requires { (length block.now ≡ block_length) × (scan.blocks < max_blocks) × (is_scan (scan_of scan) ≡ true) }
    ensures { scan_of result ≡ scan_block (scan_of scan) block.now }
{
    scan.feed(block).unwrap_or(scan)
}

// Adds one block.
fn add_block(lines: &mut [u64], t: Tally, block: &[u8]) -> Tally
    requires { (length block.now ≡ block_length) × (length lines.old ≡ lines_length) × (t.scan.blocks < max_blocks)
        × Sane (tally_of t lines.old) }
    ensures lines_after { tally_of result lines.new ≡ add_block (tally_of t lines.old) block.now }
    ensures grows { Grows t result lines.old lines.new × (result.over ≡ true → result.count ≡ 0) }
{
    let scan = t.scan;
    let next = scan_after(scan, block);
    let used = next.rows - scan.rows;
    if t.over {
        return overflowed(next);
    }
    let n = add_rows(lines, t.count, block, used);
    if Report::MAX_LINES < n {
        return overflowed(next);
    }
    let loose = loose_rows(block, used);
    Tally {
        scan: next,
        count: n,
        kept: t.kept + (used as u64 - loose),
        loose: t.loose + loose,
        over: false,
    }
}

// Adds every whole block of a piece.
pub(crate) fn add_blocks(lines: &mut [u64], t: Tally, piece: &[u8]) -> Tally
    requires { (length lines.old ≡ lines_length) × (t.scan.blocks + length piece.now / block_length ≤ max_blocks)
        × Sane (tally_of t lines.old) }
    ensures lines_after { tally_of result lines.new
        ≡ add_blocks (tally_of t lines.old) (blocks_in piece.now) }
    ensures grows { Grows t result lines.old lines.new }
{
    let (blocks, _) = piece.as_chunks::<BLOCK_LENGTH>();
    let mut at = t;
    for block in blocks {
        at = add_block(lines, at, block);
    }
    at
}
