// A cut keeps the first rows of an archive: of the whole archive in its buffer, or of one block.
#![tactic(auto)]

ghost use Rattle.std.specs.Prelude.{◌≡◌, true, ◌≤◌, ◌<◌, length, take};
ghost use Rattle.block_layout.specs.Block.{cells_per_block, block_length};
ghost use Rattle.archive_model.specs.Row.{row_count, is_sound};
ghost use Rattle.archive_model.specs.Buffer.{buffer_of, rows_in};
ghost use Rattle.archive_model.specs.Append.{verdict};
ghost use Rattle.archive_file.specs.Archive.{append_result};
ghost use Rattle.archive_cut.specs.Cut.{first_rows, cut_block_of, cut_of};
ghost use Rattle.archive_cut.specs.Calls.{cut_block_result};
ghost use Rattle.archive_cut.specs.Private.{kept_rows};

use archive_file::ArchiveError;
use base_refusal::Refusal;
use block_layout::{BLOCK_LENGTH, BODY_LENGTH, CELL_LENGTH, CELLS_PER_BLOCK, HEADER_LENGTH};

// Keeps the first `rows` rows of a block: writes their count, zeros after them, and the new CRC.
fn keep_rows(block: &mut [u8], rows: usize)
    requires { (length block.old ≡ block_length) × (rows ≤ cells_per_block) }
    ensures { block.new ≡ kept_rows rows block.old }
{
    let end = HEADER_LENGTH + CELL_LENGTH * rows;
    block[4] = rows as u8;
    block_layout::clear(&mut block[end..BODY_LENGTH]);
    block_layout::seal(block);
}

// Cuts a sound block, which has at least `rows` rows, to its first `rows` rows. For 0 rows it clears the block.
fn shorten(block: &mut [u8], rows: usize)
    requires { (is_sound block.old ≡ true) × (rows ≤ row_count block.old) }
    ensures { block.new ≡ first_rows rows block.old }
{
    if rows == 0 {
        block_layout::clear(block);
        return;
    }
    keep_rows(block, rows);
}

// Cuts one block to its first `rows` rows. For 0 rows it clears the block. Refused: 16 for a wrong length, 12 for a block that isn't sound or has fewer
// rows. Then the block is unchanged.
pub fn cut_block(block: &mut [u8], rows: usize) -> Result<(), Refusal>
    ensures { cut_block_result result block.new ≡ cut_block_of rows block.old }
{
    if block.len() != BLOCK_LENGTH {
        return Err(Refusal::Size);
    }
    let used = archive_file::sound(block);
    if used == 0 {
        return Err(Refusal::Mismatch);
    }
    if used < rows {
        return Err(Refusal::Mismatch);
    }
    shorten(block, rows);
    Ok(())
}

// Cuts an archive to its first `rows` rows. Refused: 16 for a wrong length, 12 with the position of the first block that does not match, 10 if it has fewer
// rows. Then the buffer is unchanged.
pub fn cut(buffer: &mut [u8], rows: usize) -> Result<(), ArchiveError>
    ensures { append_result result buffer.new ≡ cut_of rows buffer.old }
{
    let n = archive_file::open(buffer)?;
    cut_from(buffer, n, rows)
}

// Cuts a verified archive, which has `n` rows. Refused: 10 if `n` is less than `rows`.
fn cut_from(buffer: &mut [u8], n: usize, rows: usize) -> Result<(), ArchiveError>
    requires { ((verdict buffer.old).number ≡ 0) × (n ≡ length (rows_in buffer.old)) }
    ensures { append_result result buffer.new ≡ cut_of rows buffer.old }
{
    if n < rows {
        return Err(ArchiveError::Refused(Refusal::Argument));
    }
    if n == rows {
        return Ok(());
    }
    take_back(buffer, rows);
    Ok(())
}

// Cuts a verified archive that has more than `rows` rows: block `rows` / 15, which has the first row to go, is cut to `rows` % 15 rows, and the blocks
// after it are cleared.
fn take_back(buffer: &mut [u8], rows: usize)
    requires { ((verdict buffer.old).number ≡ 0) × (rows < length (rows_in buffer.old)) }
    ensures { buffer.new
        ≡ buffer_of (length buffer.old) (take rows (rows_in buffer.old)) }
{
    let at = BLOCK_LENGTH * (rows / CELLS_PER_BLOCK);
    let next = at + BLOCK_LENGTH;
    let end = buffer.len();
    shorten(&mut buffer[at..next], rows % CELLS_PER_BLOCK);
    block_layout::clear(&mut buffer[next..end]);
}
