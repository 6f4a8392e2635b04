// Archive block files in lent buffers: verify, append, read a row, salvage, remove the rows of sensors that left, cut; and the same for long files in
// pieces.
ghost use Rattle.std.specs.Prelude.{◌≡◌, get_or};
ghost use Rattle.archive_model.specs.Append as calls;
ghost use Rattle.archive_repack_model.specs.Repack as repack;
ghost use Rattle.archive_cut.specs.Cut.{cut_of, cut_block_of};
ghost use Rattle.archive_fill.specs.Fill.{put_rows_given};
ghost use Rattle.c_archive.specs.Calls.{open_call, append_call, put_rows_call, row_call, salvage_call, remove_call};
ghost use Rattle.c_pieces.specs.Scan.{scan_at, scan_call, scan_end};
ghost use Rattle.c_pieces.specs.Packer.{pack_call, pack_end};

use c_pieces::{packer, scan};

// How many rows an archive has.
#[unsafe(no_mangle)]
pub extern "C" fn mooringeye_archive_verify(
    buffer: &[u8],
    rows: &mut usize,
    position: &mut usize,
) -> u8
    ensures { record { number = result; position = position.new; rows = rows.new }
        ≡ open_call (calls.open_of buffer.now) rows.old position.old }
{
    c_archive::verify(buffer, rows, position)
}

// Appends a row.
#[unsafe(no_mangle)]
pub extern "C" fn mooringeye_archive_append(
    buffer: &mut [u8],
    bytes: &[u8],
    time: u64,
    loose: bool,
    position: &mut usize,
) -> u8
    ensures { record { number = result; position = position.new; buffer = buffer.new }
        ≡ append_call (calls.append_of buffer.old
        (record { bytes = bytes.entry.now; time = time; loose = loose })) position.old }
{
    c_archive::append(buffer, bytes, time, loose, position)
}

// Appends a row to an archive of `n` rows: only one block is read and written.
#[unsafe(no_mangle)]
pub extern "C" fn mooringeye_archive_append_at(
    buffer: &mut [u8],
    n: usize,
    bytes: &[u8],
    time: u64,
    loose: bool,
    position: &mut usize,
) -> u8
    ensures { record { number = result; position = position.new; buffer = buffer.new }
        ≡ append_call (calls.append_at_of buffer.old n
        (record { bytes = bytes.entry.now; time = time; loose = loose })) position.old }
{
    c_archive::append_at(buffer, n, bytes, time, loose, position)
}

// Puts row `n` into the 512 bytes of its block.
#[unsafe(no_mangle)]
pub extern "C" fn mooringeye_archive_put_row(
    block: &mut [u8],
    n: usize,
    bytes: &[u8],
    time: u64,
    loose: bool,
    position: &mut usize,
) -> u8
    ensures { record { number = result; position = position.new; buffer = block.new }
        ≡ append_call (calls.put_row_of block.old n
        (record { bytes = bytes.entry.now; time = time; loose = loose })) position.old }
{
    c_archive::put_row(block, n, bytes, time, loose, position)
}

// Puts rows `n`, n + 1 and so on into the 512 bytes of their block, all or none.
#[unsafe(no_mangle)]
pub extern "C" fn mooringeye_archive_put_rows(
    block: &mut [u8],
    n: usize,
    times: &[u64],
    rows: &[u8],
    position: &mut usize,
) -> u8
    ensures { record { number = result; position = position.new; buffer = block.new }
        ≡ put_rows_call (put_rows_given block.old n times.now rows.now)
        position.old }
{
    c_archive::put_rows(block, n, times, rows, position)
}

// Reads row `i` into 23 bytes, and its time.
#[unsafe(no_mangle)]
pub extern "C" fn mooringeye_archive_row(
    buffer: &[u8],
    i: usize,
    row: &mut [u8],
    time: &mut u64,
) -> u8
    ensures { record { number = result; row = row.new; time = time.new }
        ≡ row_call buffer.now i row.old time.old }
{
    c_archive::row_at(buffer, i, row, time)
}

// Packs a damaged archive again.
#[unsafe(no_mangle)]
pub extern "C" fn mooringeye_archive_salvage(
    buffer: &[u8],
    out: &mut [u8],
    positions: &mut [u64],
    dropped: &mut usize,
    rows: &mut usize,
) -> u8
    ensures { record {
      number = result;
      count = dropped.new;
      rows = rows.new;
      output = out.new;
      positions = positions.new;
    }
        ≡ salvage_call (repack.salvage_of buffer.now out.old positions.old)
        dropped.old rows.old }
{
    c_archive::salvage(buffer, out, positions, dropped, rows)
}

// Removes the rows of some transmitters.
#[unsafe(no_mangle)]
pub extern "C" fn mooringeye_archive_remove(
    buffer: &mut [u8],
    identities: &[u32],
    freed: &mut usize,
    position: &mut usize,
) -> u8
    ensures { record {
      number = result;
      position = position.new;
      freed = freed.new;
      buffer = buffer.new;
    }
        ≡ remove_call (repack.remove_of buffer.old identities.now) freed.old
        position.old }
{
    c_archive::remove(buffer, identities, freed, position)
}

// Keeps the first `rows` rows of an archive.
#[unsafe(no_mangle)]
pub extern "C" fn mooringeye_archive_cut(buffer: &mut [u8], rows: usize, position: &mut usize) -> u8
    ensures { record { number = result; position = position.new; buffer = buffer.new }
        ≡ append_call (cut_of rows buffer.old) position.old }
{
    c_archive::cut(buffer, rows, position)
}

// Keeps the first `rows` rows of one block.
#[unsafe(no_mangle)]
pub extern "C" fn mooringeye_archive_cut_block(block: &mut [u8], rows: usize) -> u8
    ensures { record { number = result; block = block.new } ≡ cut_block_of rows block.old }
{
    c_archive::cut_block(block, rows)
}

// ---- in pieces

// The next piece of an archive that is verified.
#[unsafe(no_mangle)]
pub extern "C" fn mooringeye_scan_feed(numbers: &mut [u64; scan::NUMBERS], piece: &[u8]) -> u8
    ensures { record { number = result; numbers = numbers.new }
        ≡ scan_call numbers.old piece.now }
{
    scan::feed(numbers, piece)
}

// How many rows all pieces have.
#[unsafe(no_mangle)]
pub extern "C" fn mooringeye_scan_end(
    numbers: &[u64; scan::NUMBERS],
    rows: &mut usize,
    position: &mut usize,
) -> u8
    ensures { record { number = result; position = position.new; rows = rows.new }
        ≡ open_call (scan_end (scan_at numbers.now)) rows.old position.old }
{
    scan::end(numbers, rows, position)
}

// The next piece of an archive that is packed again.
#[unsafe(no_mangle)]
pub extern "C" fn mooringeye_pack_feed(
    numbers: &mut [u64; packer::NUMBERS],
    waiting: &mut [u8; packer::WAITING],
    piece: &[u8],
    identities: &[u32],
    out: &mut [u8],
    positions: &mut [u64],
    dropped: &mut usize,
) -> u8
    ensures { record {
      number = result;
      count = dropped.new;
      used = get_or numbers.new 0 0;
      next = get_or numbers.new 1 0;
      pending = waiting.new;
      output = out.new;
      positions = positions.new;
    }
        ≡ pack_call numbers.old waiting.old piece.now identities.now
        out.old positions.old dropped.old }
{
    packer::feed(numbers, waiting, piece, identities, out, positions, dropped)
}

// The last block of an archive that is packed again.
#[unsafe(no_mangle)]
pub extern "C" fn mooringeye_pack_end(
    numbers: &[u64; packer::NUMBERS],
    waiting: &[u8; packer::WAITING],
    out: &mut [u8],
    length: &mut usize,
) -> u8
    ensures { record { number = result; length = length.new; output = out.new }
        ≡ pack_end numbers.now waiting.now out.old length.old }
{
    packer::end(numbers, waiting, out, length)
}
