// Puts several rows into their block at once: first each cell, then header and CRC once for all of them.
#![tactic(auto)]

ghost use Rattle.std.specs.Prelude.{◌≡◌, true, ◌*◌, length};
ghost use mathlib.Core.List.{map, flatten};
ghost use Rattle.base_lists.specs.Lists.{all};
ghost use Rattle.base_refusal.specs.Number.{outcome_number};
ghost use Rattle.radio_erp1.specs.Subtelegram.{check_of};
ghost use Rattle.block_layout.specs.Cell.{cell_length};
ghost use Rattle.archive_model.specs.Row.{row_cell, is_row};
ghost use Rattle.archive_fill.specs.Fill.{row_length, row_given, rows_given, check_rows, put_rows, put_rows_given};
ghost use Rattle.archive_fill.specs.Calls.{put_rows_result, verdict_of};
ghost use Rattle.archive_fill.specs.Private.{is_given, RowsReady};

use archive_file::MAX_ROWS;
use base_refusal::Refusal;
use block_layout::{BLOCK_LENGTH, CELL_CAPACITY, CELL_LENGTH, CELLS_PER_BLOCK, HEADER_LENGTH};

// A row without its time: a byte that is not 0 for LOOSE, its length, and 21 bytes.
pub const ROW_LENGTH: usize = 2 + CELL_CAPACITY;

// Why the rows were not put, and the position that goes with 12 and with the check's numbers; 0 with any other refusal.
#[derive(Clone, Copy, Debug, PartialEq, Eq)]
pub struct FillError {
    pub why: Refusal,
    pub position: usize,
}

// ---- one record

// The check of the bytes of a record.
fn check_record(given: &[u8]) -> Result<(), Refusal>
    requires { length given.now ≡ row_length }
    ensures { outcome_number result ≡ check_of (row_given 0 given.now).bytes }
{
    let len = block_layout::byte_at(given, 1) as usize;
    if CELL_CAPACITY < len {
        return Err(Refusal::Length);
    }
    radio_erp1::check(&given[2..2 + len])
}

// Writes the cell of a record's row.
fn put_record(cell: &mut [u8], time: u64, given: &[u8])
    requires { (length cell.old ≡ cell_length) × (length given.now ≡ row_length)
        × (is_row (row_given time given.now) ≡ true) }
    ensures { cell.new ≡ row_cell (row_given time given.now) }
{
    let len = block_layout::byte_at(given, 1) as usize;
    let last = archive_file::last_of(block_layout::byte_at(given, 0) != 0);
    block_layout::put_cell(cell, time, &given[2..2 + len], last);
}

// ---- all records

// The first row that the check refuses, and its position.
fn check_rows(times: &[u64], rows: &[u8]) -> Result<(), FillError>
    requires { length rows.now ≡ row_length * length times.now }
    ensures { verdict_of result ≡ check_rows 0 (rows_given times.now rows.now) }
{
    for (i, given) in rows.chunks_exact(ROW_LENGTH).enumerate() {
        if let Err(why) = check_record(given) {
            return Err(FillError { why, position: i });
        }
    }
    Ok(())
}

// Writes the cells of all rows, one after the other.
fn put_cells(out: &mut [u8], times: &[u64], rows: &[u8])
    requires { (length out.old ≡ cell_length * length times.now)
        × (length rows.now ≡ row_length * length times.now)
        × (all is_row (rows_given times.now rows.now) ≡ true) }
    ensures { out.new ≡ flatten (map row_cell (rows_given times.now rows.now)) }
{
    // Kept (loop): tried with `out.chunks_exact_mut`: once that borrow ends, a proof knows the length of `out` and none of its bytes.
    for i in 0..times.len() {
        put_record(
            &mut out[CELL_LENGTH * i..CELL_LENGTH * i + CELL_LENGTH],
            times[i],
            &rows[ROW_LENGTH * i..ROW_LENGTH * i + ROW_LENGTH],
        );
    }
}

// ---- the block

// Whether the lengths are those of a block and of a record for each time, and an archive can have a row `n`.
fn is_given(block: usize, n: usize, times: usize, rows: usize) -> bool
    ensures { result ≡ is_given block n times rows }
{
    if block != BLOCK_LENGTH {
        return false;
    }
    if MAX_ROWS <= n {
        return false;
    }
    if rows / ROW_LENGTH != times {
        return false;
    }
    rows % ROW_LENGTH == 0
}

// Writes the cells from row `n` on, the header with the count of all rows, and the CRC; the other cells are unchanged.
fn write_rows(block: &mut [u8], n: usize, times: &[u64], rows: &[u8])
    requires { RowsReady block.old n times.now rows.now }
    ensures { block.new
        ≡ put_rows n (rows_given times.now rows.now) block.old }
{
    let used = n % CELLS_PER_BLOCK;
    let count = used + times.len();
    let at = HEADER_LENGTH + CELL_LENGTH * used;
    let end = HEADER_LENGTH + CELL_LENGTH * count;
    block_layout::put_number(&mut block[0..4], (n / CELLS_PER_BLOCK) as u64);
    block[4] = count as u8;
    block_layout::clear(&mut block[5..HEADER_LENGTH]);
    put_cells(&mut block[at..end], times, rows);
    block_layout::seal(block);
}

// Puts rows `n`, n + 1 and so on into the 512 bytes of their block, all or none. `rows` has a record of 23 bytes for each time. Refused: 16 for a
// wrong length of the block, an n that no archive has (15 times 2^32 and more) or records that are not 23 bytes for each time; 12 with n / 15; the
// check's number with the position of the row in the list, from 0; 6 if the block has no room for all; then the block is unchanged.
pub fn put_rows(block: &mut [u8], n: usize, times: &[u64], rows: &[u8]) -> Result<(), FillError>
    ensures { put_rows_result result block.new
        ≡ put_rows_given block.old n times.now rows.now }
{
    let count = times.len();
    if !is_given(block.len(), n, count, rows.len()) {
        return Err(FillError {
            why: Refusal::Size,
            position: 0,
        });
    }
    if !archive_file::is_next(block, n) {
        return Err(FillError {
            why: Refusal::Mismatch,
            position: n / CELLS_PER_BLOCK,
        });
    }
    check_rows(times, rows)?;
    if CELLS_PER_BLOCK - n % CELLS_PER_BLOCK < count {
        return Err(FillError {
            why: Refusal::ShortOutput,
            position: 0,
        });
    }
    if count == 0 {
        return Ok(());
    }
    write_rows(block, n, times, rows);
    Ok(())
}
