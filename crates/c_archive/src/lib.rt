// Archives on plain numbers and bytes, as other languages call them.
// Kept (code): the C interface: the calls answer by numbers.
#![tactic(auto)]

ghost use Rattle.std.specs.Prelude.{◌≡◌, cond, Err, List, ℕ, ltb, length, take};
ghost use Rattle.base_buffers.specs.Buffer.{resized};
ghost use Rattle.base_refusal.specs.Number.{number_of};
ghost use Rattle.block_layout.specs.Cell.{cell_capacity};
ghost use Rattle.archive_model.specs.Append as calls;
ghost use Rattle.archive_file.specs.Archive.{open_result, append_result, row_of};
ghost use Rattle.archive_repack_model.specs.Repack as repack;
ghost use Rattle.archive_cut.specs.Cut.{cut_of, cut_block_of};
ghost use Rattle.archive_fill.specs.Fill.{put_rows_given};
ghost use Rattle.c_layout.specs.Lent.{if_mismatch};
ghost use Rattle.c_archive.specs.Calls.{open_call, append_call, has_place, put_rows_call, row_call, salvage_call, remove_call};

use archive_file::ArchiveError;
use archive_fill::ROW_LENGTH;
use base_refusal::Refusal;
use block_layout::CELL_CAPACITY;
use c_layout::WRONG_SIZE;

// How many rows an archive has. Refused: 16, 12 with the position.
pub fn verify(buffer: &[u8], rows: &mut usize, position: &mut usize) -> u8
    ensures { record { number = result; position = position.new; rows = rows.new }
        ≡ open_call (calls.open_of buffer.now) rows.old position.old }
{
    settle_count(archive_file::open(buffer), rows, position)
}

// Appends a row. Refused: 16, 12 with the position, the check's number for the row, 6.
pub fn append(buffer: &mut [u8], bytes: &[u8], time: u64, loose: bool, position: &mut usize) -> u8
    ensures { record { number = result; position = position.new; buffer = buffer.new }
        ≡ append_call (calls.append_of buffer.old (row_of bytes.now time loose))
        position.old }
{
    settle(archive_file::append(buffer, bytes, time, loose), position)
}

// The same for an archive of `n` rows; only one block is read.
pub fn append_at(
    buffer: &mut [u8],
    n: usize,
    bytes: &[u8],
    time: u64,
    loose: bool,
    position: &mut usize,
) -> u8
    ensures { record { number = result; position = position.new; buffer = buffer.new }
        ≡ append_call (calls.append_at_of buffer.old n (row_of bytes.now time loose))
        position.old }
{
    settle(
        archive_file::append_at(buffer, n, bytes, time, loose),
        position,
    )
}

// The same for the 512 bytes of its block.
pub fn put_row(
    block: &mut [u8],
    n: usize,
    bytes: &[u8],
    time: u64,
    loose: bool,
    position: &mut usize,
) -> u8
    ensures { record { number = result; position = position.new; buffer = block.new }
        ≡ append_call (calls.put_row_of block.old n (row_of bytes.now time loose))
        position.old }
{
    settle(
        archive_file::put_row(block, n, bytes, time, loose),
        position,
    )
}

// Puts rows from row `n` on, each a time and a record of 23 bytes, into the 512 bytes of their block, all or none. Refused: 16, 12 with the position,
// the check's number with the position of the row in the list, 6.
pub fn put_rows(block: &mut [u8], n: usize, times: &[u64], rows: &[u8], position: &mut usize) -> u8
    ensures { record { number = result; position = position.new; buffer = block.new }
        ≡ put_rows_call (put_rows_given block.old n times.now rows.now)
        position.old }
{
    match archive_fill::put_rows(block, n, times, rows) {
        Ok(()) => 0,
        Err(e) => {
            if has_place(e.why) {
                *position = e.position;
            }
            base_refusal::number(e.why)
        }
    }
}

// Reads row `i` into 23 bytes and its time, which are unchanged with a refusal: 255, then 16, 10, 12.
pub fn row_at(buffer: &[u8], i: usize, row: &mut [u8], time: &mut u64) -> u8
    ensures { record { number = result; row = row.new; time = time.new }
        ≡ row_call buffer.now i row.old time.old }
{
    if row.len() != ROW_LENGTH {
        return WRONG_SIZE;
    }
    match archive_file::row_at(buffer, i) {
        Ok(found) => {
            row[0] = c_layout::flag_byte(found.loose);
            row[1] = found.len;
            put_filled(&mut row[2..ROW_LENGTH], &found.bytes, found.len as usize);
            *time = found.time;
            0
        }
        Err(why) => base_refusal::number(why),
    }
}

// The first `n` of 21 bytes, filled with zeros. All 21 are read, so there is no branch on the length.
fn put_filled(out: &mut [u8], bytes: &[u8; CELL_CAPACITY], n: usize)
    requires { length out.old ≡ cell_capacity }
    ensures { out.new ≡ resized cell_capacity (take n bytes.now) }
{
    // Kept (loop): tried with `out.iter_mut().zip(bytes).enumerate()`: once that borrow ends, a proof knows the length of `out` and none of its bytes.
    for i in 0..CELL_CAPACITY {
        out[i] = byte_below(i, n, bytes[i]);
    }
}

// The byte if its index is below `n`, else 0.
fn byte_below(i: usize, n: usize, byte: u8) -> u8
    ensures { result ≡ cond (ltb i n) byte 0 }
{
    if i < n { byte } else { 0 }
}

// Packs a damaged archive again. Refused: 16, 6.
pub fn salvage(
    buffer: &[u8],
    out: &mut [u8],
    positions: &mut [u64],
    dropped: &mut usize,
    rows: &mut usize,
) -> u8
    ensures { record {
      number = result;
      count = dropped.new;
      rows = rows.new;
      output = out.new;
      positions = positions.new;
    }
        ≡ salvage_call (repack.salvage_of buffer.now out.old positions.old)
        dropped.old rows.old }
{
    match archive_repack::salvage(buffer, out, positions) {
        Ok(done) => {
            *dropped = done.dropped;
            *rows = done.rows;
            0
        }
        Err(why) => base_refusal::number(why),
    }
}

// Removes the rows of some transmitters in place. Refused: 16, 12 with the position, 10.
pub fn remove(buffer: &mut [u8], identities: &[u32], freed: &mut usize, position: &mut usize) -> u8
    ensures { record {
      number = result;
      position = position.new;
      freed = freed.new;
      buffer = buffer.new;
    }
        ≡ remove_call (repack.remove_of buffer.old identities.now) freed.old
        position.old }
{
    settle_count(archive_repack::remove(buffer, identities), freed, position)
}

// Keeps the first `rows` rows. Refused: 16, 12 with the position, 10.
pub fn cut(buffer: &mut [u8], rows: usize, position: &mut usize) -> u8
    ensures { record { number = result; position = position.new; buffer = buffer.new }
        ≡ append_call (cut_of rows buffer.old) position.old }
{
    settle(archive_cut::cut(buffer, rows), position)
}

// The same for one block. Refused: 16, 12.
pub fn cut_block(block: &mut [u8], rows: usize) -> u8
    ensures { record { number = result; block = block.new } ≡ cut_block_of rows block.old }
{
    base_refusal::outcome_number(archive_cut::cut_block(block, rows))
}

// The number of an outcome, the count that it has, and the position with 12.
fn settle_count(outcome: Result<usize, ArchiveError>, count: &mut usize, position: &mut usize) -> u8
    ensures { record { number = result; position = position.new; rows = count.new }
        ≡ open_call (open_result outcome) count.old position.old }
{
    match outcome {
        Ok(n) => {
            *count = n;
            0
        }
        Err(e) => refuse(e, position),
    }
}

// The number of an outcome, and the position with 12.
fn settle(outcome: Result<(), ArchiveError>, position: &mut usize) -> u8
    ensures { (buffer : List ℕ)
        → record { number = result; position = position.new; buffer = buffer }
        ≡ append_call (append_result outcome buffer) position.old }
{
    match outcome {
        Ok(()) => 0,
        Err(e) => refuse(e, position),
    }
}

// The number of a refusal, and the position with 12.
fn refuse(e: ArchiveError, position: &mut usize) -> u8
    ensures { (result ≡ (open_result (Err e)).number)
        × (position.new
        ≡ if_mismatch (open_result (Err e)).number (open_result (Err e)).position position.old) }
{
    match e {
        ArchiveError::Damaged(k) => c_layout::refuse(Refusal::Mismatch, k, position),
        ArchiveError::Refused(why) => c_layout::refuse(why, 0, position),
    }
}

// Whether a position goes with a refusal: with 12 and with the check's.
#[tactic(auto, unfolding(crate::specs::Calls::has_place))]
fn has_place(why: Refusal) -> bool
    ensures { result ≡ has_place (number_of why) }
{
    matches!(
        why,
        Refusal::Mismatch | Refusal::Length | Refusal::Sum | Refusal::Crc | Refusal::Nested
    )
}
