// Packs archives again (document 02, A9 and A11): salvages a damaged one, and removes the rows of sensors that left. One packer does both.
#![tactic(auto)]

ghost use Rattle.std.specs.Prelude.{◌≡◌, true, cond, ◌++◌, ◌+◌, ◌-◌, ◌*◌, ◌/◌, ◌%◌, ◌^◌, ◌≤◌, ◌<◌, leb, eqb, length, take, drop};
ghost use Rattle.base_lists.specs.Lists as lists;
ghost use Rattle.block_layout.specs.Cell.{cell_length};
ghost use Rattle.block_layout.specs.Block.{cells_per_block, block_length};
ghost use Rattle.archive_model.specs.Row.{row_in, is_row};
ghost use Rattle.archive_model.specs.Buffer.{blocks_for, rows_in, max_rows};
ghost use Rattle.archive_model.specs.Append.{verdict};
ghost use Rattle.archive_model.specs.Identity.{identity_of};
ghost use Rattle.archive_file.specs.Archive.{sound_count};
ghost use Rattle.archive_repack_model.specs.Repack as model;
ghost use Rattle.archive_repack_model.specs.Packer as packer;
ghost use Rattle.archive_repack_model.specs.Packer.{pending_length, packing};
ghost use Rattle.archive_repack.specs.Calls.{salvage_result, remove_result, pack_result, finish_result};
ghost use Rattle.archive_repack.specs.Private.{are_rows, kept_cell, kept_from, Waits, Flushed, HasRoom, DropListed, Walked, packed_buffer};

use archive_file::ArchiveError;
use base_refusal::Refusal;
use block_layout::{BLOCK_LENGTH, BODY_LENGTH, CELL_LENGTH, CELLS_PER_BLOCK, HEADER_LENGTH};

// The largest number of identities in one removal.
pub const MAX_IDENTITIES: usize = 32;

// The length of the 15 cells of a block; and of the packer's buffer: for the cells that wait, and for those of one more block.
const FULL_LENGTH: usize = CELL_LENGTH * CELLS_PER_BLOCK;

pub const PENDING_LENGTH: usize = FULL_LENGTH + FULL_LENGTH;

// Where the bytes of a cell begin.
const FIELD: usize = 9;

// How many blocks were dropped, and how many rows remain.
#[derive(Clone, Copy, Debug, PartialEq, Eq)]
pub struct Salvaged {
    pub dropped: usize,
    pub rows: usize,
}

// The packer after some blocks: how many cells wait, the number of the next block, and how many of the blocks were dropped.
#[derive(Clone, Copy, Debug, PartialEq, Eq)]
pub struct Repacked {
    pub used: usize,
    pub next: usize,
    pub dropped: usize,
}

// ---- one row

// The transmitter of a row.
fn identity_of(cell: &[u8]) -> u64
    requires { (length cell.now ≡ cell_length) × (is_row (row_in cell.now) ≡ true) }
    ensures { result ≡ identity_of (row_in cell.now) }
{
    let at = FIELD + block_layout::cell_used(cell) as usize - 6;
    block_layout::read_number(&cell[at..at + 4])
}

// Whether a transmitter is listed.
fn is_listed(identity: u64, identities: &[u32]) -> bool
    ensures { result ≡ lists.any (eqb identity) identities.now }
{
    identities
        .iter()
        .any(|listed| u64::from(*listed) == identity)
}

// Puts a cell after `at` others, unless its transmitter is listed.
fn push_cell(pending: &mut [u8], at: usize, cell: &[u8], identities: &[u32]) -> usize
    requires { (length pending.old ≡ pending_length) × (at < cells_per_block + cells_per_block)
        × (length cell.now ≡ cell_length) × (is_row (row_in cell.now) ≡ true) }
    ensures { Waits (take (cell_length * at) pending.old)
        (kept_cell identities.now cell.now) pending.new (at + 1) result }
{
    if is_listed(identity_of(cell), identities) {
        return at;
    }
    pending[CELL_LENGTH * at..CELL_LENGTH * at + CELL_LENGTH].copy_from_slice(cell);
    at + 1
}

// Puts the first `rows` cells of a block after `used` others, without those of listed transmitters.
fn push_cells(
    pending: &mut [u8],
    used: usize,
    source: &[u8],
    rows: usize,
    identities: &[u32],
) -> usize
    requires { (length pending.old ≡ pending_length) × (used < cells_per_block) × (length source.now ≡ block_length)
        × (rows ≤ cells_per_block) × (are_rows source.now rows ≡ true) }
    ensures { Waits (take (cell_length * used) pending.old)
        (kept_from identities.now source.now 0 rows) pending.new (used + rows) result }
{
    let cells = &source[HEADER_LENGTH..HEADER_LENGTH + CELL_LENGTH * rows];
    let mut at = used;
    for cell in cells.chunks_exact(CELL_LENGTH) {
        at = push_cell(pending, at, cell, identities);
    }
    at
}

// ---- one block

// Writes block `k` with these cells.
fn put_block(out: &mut [u8], k: usize, cells: &[u8])
    requires { (length out.old ≡ block_length) × (length cells.now ≤ packer.full_length) }
    ensures { out.new ≡ packer.cells_block k cells.now }
{
    let end = HEADER_LENGTH + cells.len();
    block_layout::put_number(&mut out[0..4], k as u64);
    out[4] = (cells.len() / CELL_LENGTH) as u8;
    block_layout::clear(&mut out[5..HEADER_LENGTH]);
    out[HEADER_LENGTH..end].copy_from_slice(cells);
    block_layout::clear(&mut out[end..BODY_LENGTH]);
    block_layout::seal(out);
}

// Moves the cells after the first 15 to the front.
fn move_front(pending: &mut [u8])
    requires { length pending.old ≡ pending_length }
    ensures { pending.new
        ≡ drop packer.full_length pending.old ++ drop packer.full_length pending.old }
{
    let (front, later) = pending.split_at_mut(FULL_LENGTH);
    front.copy_from_slice(later);
}

// If 15 of `total` cells fill block `k`, writes it; the others wait.
fn flush(pending: &mut [u8], total: usize, k: usize, full: &mut [u8]) -> usize
    requires { (length pending.old ≡ pending_length) × (total < cells_per_block + cells_per_block)
        × (length full.old ≡ block_length) }
    ensures { Flushed k total pending.old pending.new full.old full.new
        result }
{
    if total < CELLS_PER_BLOCK {
        return total;
    }
    put_block(full, k, &pending[0..FULL_LENGTH]);
    move_front(pending);
    total - CELLS_PER_BLOCK
}

// ---- the blocks of a piece

// Whether a block is dropped: it is neither sound nor blank. `rows` is the number of its rows if it is sound, else 0.
fn is_dropped(block: &[u8], rows: usize) -> bool
    requires { rows ≡ sound_count block.now }
    ensures { result ≡ model.is_dropped block.now }
{
    rows == 0 && !block_layout::is_blank(block)
}

// If a block is dropped, puts its position `k` after `gone` others. `rows` is the number of its rows if it is sound, else 0.
fn list_block(positions: &mut [u64], gone: usize, k: usize, block: &[u8], rows: usize) -> usize
    requires { (rows ≡ sound_count block.now) × HasRoom block.now gone positions.old }
    ensures { DropListed (model.is_dropped block.now) gone k positions.old
        positions.new
        result }
{
    if !is_dropped(block, rows) {
        return gone;
    }
    positions[gone] = k as u64;
    gone + 1
}

// Puts the rows of a piece that stay, from its sound blocks, after the `used` that wait. Every 15 fill a block of `out`; the first of them is block
// `next`. The positions of dropped blocks go to the list.
fn pack_blocks(
    pending: &mut [u8],
    used: usize,
    next: usize,
    piece: &[u8],
    identities: &[u32],
    out: &mut [u8],
    positions: &mut [u64],
) -> Repacked
    requires { (length pending.old ≡ pending_length) × (used < cells_per_block)
        × (next + length piece.now / block_length < 2 ^ 64) × (length piece.now ≤ length out.old)
        × (length (model.dropped piece.now) ≤ length positions.old) }
    ensures walked { Walked (packing next used pending.old)
        (packer.kept_cells identities.now piece.now) result pending.new out.old
        out.new }
    ensures dropped_value { (result.dropped ≡ length (model.dropped piece.now))
        × (positions.new ≡ model.fronted (model.dropped piece.now) positions.old) }
{
    let mut waits = used;
    let mut put = 0;
    let mut gone = 0;
    for (k, block) in piece.chunks_exact(BLOCK_LENGTH).enumerate() {
        let rows = archive_file::sound(block);
        gone = list_block(positions, gone, k, block, rows);
        let total = push_cells(pending, waits, block, rows, identities);
        waits = flush(
            pending,
            total,
            next + put,
            &mut out[BLOCK_LENGTH * put..BLOCK_LENGTH * put + BLOCK_LENGTH],
        );
        put = put + total / CELLS_PER_BLOCK;
    }
    Repacked {
        used: waits,
        next: next + put,
        dropped: gone,
    }
}

// Writes the last block, if cells wait, and zeros after it up to `end`.
fn close(out: &mut [u8], pending: &[u8], used: usize, next: usize, end: usize)
    requires { (length pending.now ≡ pending_length) × (used < cells_per_block)
        × (cells_per_block * next + used ≤ cells_per_block * (end / block_length)) × (end ≤ length out.old) }
    ensures { out.new ≡ packed_buffer (packing next used pending.now) end out.old }
{
    let at = BLOCK_LENGTH * next;
    if used == 0 {
        block_layout::clear(&mut out[at..end]);
        return;
    }
    put_block(
        &mut out[at..at + BLOCK_LENGTH],
        next,
        &pending[0..CELL_LENGTH * used],
    );
    block_layout::clear(&mut out[at + BLOCK_LENGTH..end]);
}

// ---- salvage

// How many blocks are dropped.
fn dropped_in(buffer: &[u8]) -> usize
    ensures { result ≡ length (model.dropped buffer.now) }
{
    let mut gone = 0;
    for block in buffer.chunks_exact(BLOCK_LENGTH) {
        gone += usize::from(is_dropped(block, archive_file::sound(block)));
    }
    gone
}

// Whether a list of length `len` is long enough for the positions. If it has an entry for each block, it is, and no block is read.
fn is_listable(buffer: &[u8], len: usize) -> bool
    ensures { result ≡ leb (length (model.dropped buffer.now)) len }
{
    if buffer.len() / BLOCK_LENGTH <= len {
        return true;
    }
    dropped_in(buffer) <= len
}

// Writes the rows of the sound blocks as an archive to the front of `out`, with zeros up to the length of the buffer, and the positions of the
// dropped blocks to the front of the list. Refused: 16, 6 for an output shorter than the buffer or a list too short; then both are unchanged.
pub fn salvage(buffer: &[u8], out: &mut [u8], positions: &mut [u64]) -> Result<Salvaged, Refusal>
    ensures { salvage_result result out.new positions.new
        ≡ model.salvage_of buffer.now out.old positions.old }
{
    if !archive_file::is_whole(buffer.len()) {
        return Err(Refusal::Size);
    }
    if out.len() < buffer.len() {
        return Err(Refusal::ShortOutput);
    }
    if !is_listable(buffer, positions.len()) {
        return Err(Refusal::ShortOutput);
    }
    let mut pending = [0u8; PENDING_LENGTH];
    let none = [0u32; 1];
    let end = pack_blocks(&mut pending, 0, 0, buffer, &none[0..0], out, positions);
    close(out, &pending, end.used, end.next, buffer.len());
    Ok(Salvaged {
        dropped: end.dropped,
        rows: CELLS_PER_BLOCK * end.next + end.used,
    })
}

// ---- removal

// How many blocks `rows` rows need.
fn blocks_for(rows: usize) -> usize
    requires { rows ≤ max_rows }
    ensures { result ≡ blocks_for rows }
{
    (rows + (CELLS_PER_BLOCK - 1)) / CELLS_PER_BLOCK
}

// Packs the rows that stay to the front of the buffer, from left to right: every 15 fill a block, and the others wait. `blocks` is the number of
// blocks with rows. A block is written only after it was read, because no more blocks are written than were read.
fn pack_within(buffer: &mut [u8], blocks: usize, identities: &[u32], pending: &mut [u8]) -> Repacked
    requires { ((verdict buffer.old).number ≡ 0) × (blocks ≡ blocks_for (length (rows_in buffer.old)))
        × (length pending.old ≡ pending_length) }
    ensures { Walked packer.start_packing (packer.kept_cells identities.now buffer.old) result
        pending.new buffer.old buffer.new }
{
    let mut waits = 0;
    let mut put = 0;
    // Kept (loop): no plainer: the blocks that are read lie in the buffer that is written, and an iterator over them would borrow it to the end.
    for k in 0..blocks {
        let block = &buffer[BLOCK_LENGTH * k..BLOCK_LENGTH * k + BLOCK_LENGTH];
        let rows = block_layout::byte_at(block, 4) as usize;
        let total = push_cells(pending, waits, block, rows, identities);
        waits = flush(
            pending,
            total,
            put,
            &mut buffer[BLOCK_LENGTH * put..BLOCK_LENGTH * put + BLOCK_LENGTH],
        );
        put = put + total / CELLS_PER_BLOCK;
    }
    Repacked {
        used: waits,
        next: put,
        dropped: 0,
    }
}

// Removes the rows of listed transmitters. The other rows are packed in the same buffer, and blocks that are no longer needed are zero. Refused: 16,
// 12 with the position, 10 for more than 32 identities; then the buffer is unchanged.
pub fn remove(buffer: &mut [u8], identities: &[u32]) -> Result<usize, ArchiveError>
    ensures { remove_result result buffer.new
        ≡ model.remove_of buffer.old identities.now }
{
    let n = archive_file::open(buffer)?;
    remove_from(buffer, n, identities)
}

// The same for an archive of `n` rows.
fn remove_from(buffer: &mut [u8], n: usize, identities: &[u32]) -> Result<usize, ArchiveError>
    requires { ((verdict buffer.old).number ≡ 0) × (n ≡ length (rows_in buffer.old)) }
    ensures { remove_result result buffer.new
        ≡ model.remove_of buffer.old identities.now }
{
    if MAX_IDENTITIES < identities.len() {
        return Err(ArchiveError::Refused(Refusal::Argument));
    }
    let blocks = blocks_for(n);
    let mut pending = [0u8; PENDING_LENGTH];
    let end = pack_within(buffer, blocks, identities, &mut pending);
    close(buffer, &pending, end.used, end.next, BLOCK_LENGTH * blocks);
    let after = blocks_for(CELLS_PER_BLOCK * end.next + end.used);
    Ok(blocks - after)
}

// ---- in pieces

// Whether the packer's buffer has 960 bytes, fewer than 15 cells wait, and there is a block number for them: an archive has at most 2^32 blocks.
fn is_packing(pending: &[u8], used: usize, next: usize) -> bool
    ensures { result ≡ packer.is_packing next used pending.now }
{
    if pending.len() != PENDING_LENGTH {
        return false;
    }
    if CELLS_PER_BLOCK <= used {
        return false;
    }
    if archive_file::MAX_BLOCKS < next {
        return false;
    }
    CELLS_PER_BLOCK * next + used <= archive_file::MAX_ROWS
}

// Packs the next piece of an archive. The rows that stay are put after the `used` cells that wait in `pending`; every 15 fill a block of `out`, and
// the first of them is block `next`. The positions of the dropped blocks, counted from the first block of the piece, go to the list. Refused: 11 for
// a packer that no pieces give, 16, 10 for more than 32 identities, 6; then everything is unchanged. Else there are zeros after the cells that wait.
// Kept (buffer): C lends `pending`, and the clause `pack_call` speaks of buffers that no pieces give, too.
pub fn pack(
    pending: &mut [u8],
    used: usize,
    next: usize,
    piece: &[u8],
    identities: &[u32],
    out: &mut [u8],
    positions: &mut [u64],
) -> Result<Repacked, Refusal>
    ensures { pack_result used next result pending.new out.new positions.new
        ≡ packer.pack_of next used pending.old piece.now identities.now
        out.old
        positions.old }
{
    if !is_packing(pending, used, next) {
        return Err(Refusal::NotAccepted);
    }
    if piece.len() % BLOCK_LENGTH != 0 {
        return Err(Refusal::Size);
    }
    if archive_file::MAX_ROWS < CELLS_PER_BLOCK * (next + piece.len() / BLOCK_LENGTH) + used {
        return Err(Refusal::Size);
    }
    if MAX_IDENTITIES < identities.len() {
        return Err(Refusal::Argument);
    }
    if out.len() < piece.len() {
        return Err(Refusal::ShortOutput);
    }
    if !is_listable(piece, positions.len()) {
        return Err(Refusal::ShortOutput);
    }
    let end = pack_blocks(pending, used, next, piece, identities, out, positions);
    let behind = CELL_LENGTH * end.used;
    block_layout::clear(&mut pending[behind..PENDING_LENGTH]);
    Ok(end)
}

// Ends the pieces: writes the last block, if cells wait, to the front of `out`, and returns its length, 512 or 0. Refused: 11, 6 for an output too
// short.
pub fn finish(pending: &[u8], used: usize, next: usize, out: &mut [u8]) -> Result<usize, Refusal>
    ensures { finish_result result out.new
        ≡ packer.finish_of next used pending.now out.old }
{
    if !is_packing(pending, used, next) {
        return Err(Refusal::NotAccepted);
    }
    if used == 0 {
        return Ok(0);
    }
    if out.len() < BLOCK_LENGTH {
        return Err(Refusal::ShortOutput);
    }
    put_block(
        &mut out[0..BLOCK_LENGTH],
        next,
        &pending[0..CELL_LENGTH * used],
    );
    Ok(BLOCK_LENGTH)
}
