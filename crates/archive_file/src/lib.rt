// Archive block files (document 02, A2): opens an archive, appends a row, reads a row. Every public function returns for buffers of any length.
#![tactic(auto)]

ghost use Rattle.std.specs.Prelude.{◌≡◌, true, ◌&&◌, List, ℕ, ◌+◌, ◌-◌, ◌*◌, ◌/◌, ◌≤◌, ◌<◌, eqb, length};
ghost use Rattle.base_lists.specs.Lists.{all};
ghost use Rattle.block_layout.specs.Cell.{cell_length, cell_capacity, cell_last};
ghost use Rattle.block_layout.specs.Block.{header_length, cells_per_block, block_length, block_cell};
ghost use Rattle.archive_model.specs.Row.{row_last, rows_header, block_number, row_in, is_row};
ghost use Rattle.archive_model.specs.Buffer as buffer;
ghost use Rattle.archive_model.specs.Append as calls;
ghost use Rattle.archive_file.specs.Archive.{open_result, append_result, row_of, read_result, row_shown, sound_count, stage_of, scan_of, open_found, feed_result};
ghost use Rattle.archive_file.specs.Private.{NoBlock, row_in_block, is_written, cells_from};
ghost use Rattle.archive_file.specs.declared.ArchiveError.TheVariants.{Refused};

use base_refusal::Refusal;
use block_layout::{
    BLOCK_LENGTH, BODY_LENGTH, CELL_CAPACITY, CELL_LENGTH, CELLS_PER_BLOCK, HEADER_LENGTH,
};

// The largest number of blocks of an archive, and of rows.
pub const MAX_BLOCKS: usize = 4294967296;

pub const MAX_ROWS: usize = CELLS_PER_BLOCK * MAX_BLOCKS;

// Where the bytes of a cell begin, and its last two.
const FIELD: usize = 9;

const LAST: usize = 30;

// Why a call on an archive is refused: the position of the first block that does not match (12), or another refusal.
#[derive(Clone, Copy, Debug, PartialEq, Eq)]
pub enum ArchiveError {
    Damaged(usize),
    Refused(Refusal),
}

impl From<Refusal> for ArchiveError {
    ghost from_gives = { λ why e. e ≡ Refused why };

    fn from(why: Refusal) -> ArchiveError {
        ArchiveError::Refused(why)
    }
}

// A row that was read, and the 21 bytes of its cell: those after the length are unspecified.
// Kept (buffer): no heap, and C gets the 21 bytes of the cell.
#[derive(Clone, Copy, Debug, PartialEq, Eq)]
pub struct RowAt {
    pub time: u64,
    pub loose: bool,
    pub len: u8,
    pub bytes: [u8; CELL_CAPACITY],
}

// What is known of the blocks so far: all are full; the last one is short; there was an all-zero one; or one does not match.
#[derive(Clone, Copy, Debug, PartialEq, Eq)]
pub enum Stage {
    Filling,
    Short,
    Ended,
    Wrong(usize),
}

// An archive that is read in pieces: how many blocks were read, and how many rows they have.
#[derive(Clone, Copy, Debug, PartialEq, Eq)]
pub struct Scan {
    pub blocks: usize,
    pub rows: usize,
    pub stage: Stage,
}

// ---- one block

// Whether a cell holds a valid row.
fn is_row(cell: &[u8]) -> bool
    requires { length cell.now ≡ cell_length }
    ensures { result ≡ is_row (row_in cell.now) }
{
    let len = block_layout::cell_used(cell) as usize;
    len <= CELL_CAPACITY && radio_erp1::check(&cell[FIELD..FIELD + len]).is_ok()
}

// Cell `i` of a block.
fn cell_at(block: &[u8], i: usize) -> &[u8]
    requires { (length block.now ≡ block_length) × (i < cells_per_block) }
    ensures { result.now ≡ block_cell i block.now }
{
    let at = HEADER_LENGTH + CELL_LENGTH * i;
    &block[at..at + CELL_LENGTH]
}

// Bytes 30 and 31 of a row, as one number.
pub fn last_of(loose: bool) -> u16
    ensures { result ≡ row_last loose }
{
    if loose { 256 } else { 0 }
}

// Whether a cell says LOOSE.
fn is_loose(cell: &[u8]) -> bool
    ensures { result ≡ eqb (cell_last cell.now) (row_last true) }
{
    block_layout::cell_last(cell) == 256
}

// The number of a block.
fn number_of(block: &[u8]) -> u64
    requires { length block.now ≡ block_length }
    ensures { result ≡ block_number block.now }
{
    block_layout::read_number(&block[0..4])
}

// The header of block `k`.
fn put_head(out: &mut [u8], k: u64, count: u8)
    requires { length out.old ≡ header_length }
    ensures { out.new ≡ rows_header k count }
{
    block_layout::put_number(&mut out[0..4], k);
    out[4] = count;
    block_layout::clear(&mut out[5..HEADER_LENGTH]);
}

// Whether a cell holds a valid row, and is byte for byte what is written for that row.
fn is_written(cell: &[u8]) -> bool
    requires { length cell.now ≡ cell_length }
    ensures { result ≡ is_written cell.now }
{
    let len = block_layout::cell_used(cell) as usize;
    if CELL_CAPACITY < len {
        return false;
    }
    if !block_layout::is_blank(&cell[FIELD + len..LAST]) {
        return false;
    }
    let last = block_layout::cell_last(cell);
    if (last != 0) & (last != 256) {
        return false;
    }
    is_row(cell)
}

// Whether the first `used` cells of a block do.
fn are_written(block: &[u8], used: usize) -> bool
    requires { (length block.now ≡ block_length) × (used ≤ cells_per_block) }
    ensures { result ≡ all is_written (cells_from block.now 0 used) }
{
    let cells = &block[HEADER_LENGTH..HEADER_LENGTH + CELL_LENGTH * used];
    for cell in cells.chunks_exact(CELL_LENGTH) {
        if !is_written(cell) {
            return false;
        }
    }
    true
}

// How many rows a sound block has; 0 for any other, also for a wrong length. Each byte is tested in place.
pub fn sound(block: &[u8]) -> usize
    ensures { result ≡ sound_count block.now }
{
    if block.len() != BLOCK_LENGTH {
        return 0;
    }
    let used = block_layout::byte_at(block, 4) as usize;
    if used < 1 {
        return 0;
    }
    if CELLS_PER_BLOCK < used {
        return 0;
    }
    if !block_layout::is_blank(&block[5..HEADER_LENGTH]) {
        return 0;
    }
    if !are_written(block, used) {
        return 0;
    }
    let end = HEADER_LENGTH + CELL_LENGTH * used;
    if !block_layout::is_blank(&block[end..BODY_LENGTH]) {
        return 0;
    }
    if base_crc8_long::crc8_long(&block[0..BODY_LENGTH]) != block[BODY_LENGTH] {
        return 0;
    }
    used
}

// ---- the scan

impl Scan {
    // The scan before the first block.
    pub fn start() -> Scan
        ensures { scan_of result ≡ buffer.start_scan }
    {
        Scan {
            blocks: 0,
            rows: 0,
            stage: Stage::Filling,
        }
    }

    // Reads the blocks of a piece, in order. Refused: 11 for a scan that no blocks give, 16 for a piece that isn't whole blocks, or if there are then
    // more than 2^32 blocks in all; then the caller goes on with the scan that it has.
    pub fn feed(self, blocks: &[u8]) -> Result<Scan, Refusal>
        ensures { feed_result (scan_of self) result ≡ calls.feed_of (scan_of self) blocks.now }
    {
        if !is_scan(self) {
            return Err(Refusal::NotAccepted);
        }
        let passed = self.blocks;
        if blocks.len() % BLOCK_LENGTH != 0 {
            return Err(Refusal::Size);
        }
        if MAX_BLOCKS < passed + blocks.len() / BLOCK_LENGTH {
            return Err(Refusal::Size);
        }
        Ok(scan_blocks(self, blocks))
    }
}

// Whether some blocks give this scan: at most 2^32 of them, with a number of rows that blocks of its stage can have.
pub fn is_scan(s: Scan) -> bool
    ensures { result ≡ calls.is_scan (scan_of s) }
{
    let blocks = s.blocks;
    if MAX_BLOCKS < blocks {
        return false;
    }
    let rows = s.rows;
    if CELLS_PER_BLOCK * blocks < rows {
        return false;
    }
    let stage = s.stage;
    is_stage(stage, blocks, rows)
}

// Whether blocks of this stage can have this many rows, at most 15 each.
fn is_stage(stage: Stage, blocks: usize, rows: usize) -> bool
    requires { (blocks ≤ buffer.max_blocks) × (rows ≤ cells_per_block * blocks) }
    ensures { result ≡ calls.is_stage (stage_of stage) blocks rows }
{
    let most = CELLS_PER_BLOCK * blocks;
    match stage {
        Stage::Filling => rows == most,
        Stage::Short => (rows < most) & (most < rows + CELLS_PER_BLOCK),
        Stage::Ended => rows + CELLS_PER_BLOCK <= most,
        Stage::Wrong(j) => j < blocks,
    }
}

// Every whole block of a piece.
fn scan_blocks(s: Scan, piece: &[u8]) -> Scan
    requires { (s.blocks + length piece.now / block_length ≤ buffer.max_blocks)
        × (s.rows ≤ cells_per_block * s.blocks) }
    ensures { scan_of result ≡ buffer.scan_blocks (scan_of s) (buffer.blocks_in piece.now) }
{
    let mut at = s;
    for block in piece.chunks_exact(BLOCK_LENGTH) {
        at = scan_block(at, block);
    }
    at
}

// One more block.
fn scan_block(s: Scan, block: &[u8]) -> Scan
    requires { (length block.now ≡ block_length) × (s.blocks < buffer.max_blocks)
        × (s.rows ≤ cells_per_block * s.blocks) }
    ensures { (scan_of result ≡ buffer.scan_block (scan_of s) block.now)
        × (result.rows ≤ cells_per_block * result.blocks) }
{
    let k = s.blocks;
    let stage = s.stage;
    if block_layout::is_blank(block) {
        return Scan {
            blocks: k + 1,
            rows: s.rows,
            stage: after_blank(stage),
        };
    }
    let used = sound(block);
    Scan {
        blocks: k + 1,
        rows: s.rows + used,
        stage: after_block(stage, k, block, used),
    }
}

// The stage after an all-zero block.
fn after_blank(stage: Stage) -> Stage
    ensures { stage_of result ≡ buffer.stage_blank (stage_of stage) }
{
    match stage {
        Stage::Filling | Stage::Short | Stage::Ended => Stage::Ended,
        Stage::Wrong(j) => Stage::Wrong(j),
    }
}

// The stage after any other block, at position `k`. `used` is the number of its rows if it is sound, else 0.
fn after_block(stage: Stage, k: usize, block: &[u8], used: usize) -> Stage
    requires { (length block.now ≡ block_length) × (used ≡ sound_count block.now) }
    ensures { stage_of result ≡ buffer.stage_after (stage_of stage) k block.now }
{
    match stage {
        Stage::Filling => next_stage(k, block, used),
        Stage::Short => Stage::Wrong(k.saturating_sub(1)),
        Stage::Ended => Stage::Wrong(k),
        Stage::Wrong(j) => Stage::Wrong(j),
    }
}

// The same if all blocks before it are full.
fn next_stage(k: usize, block: &[u8], used: usize) -> Stage
    requires { (length block.now ≡ block_length) × (used ≡ sound_count block.now) }
    ensures { stage_of result ≡ buffer.stage_after buffer.Filling k block.now }
{
    if used == 0 {
        return Stage::Wrong(k);
    }
    if number_of(block) != k as u64 {
        return Stage::Wrong(k);
    }
    if used < CELLS_PER_BLOCK {
        return Stage::Short;
    }
    Stage::Filling
}

// ---- the calls

// Whether a length is that of whole blocks, at most 2^32 of them.
pub fn is_whole(len: usize) -> bool
    ensures { result ≡ buffer.is_whole len }
{
    len % BLOCK_LENGTH == 0 && len / BLOCK_LENGTH <= MAX_BLOCKS
}

// How many rows the archive has. Refused: 16, 12 with the position.
pub fn open(buffer: &[u8]) -> Result<usize, ArchiveError>
    ensures { open_result result ≡ calls.open_of buffer.now }
{
    if !is_whole(buffer.len()) {
        return Err(ArchiveError::Refused(Refusal::Size));
    }
    let end = scan_blocks(Scan::start(), buffer);
    let stage = end.stage;
    rows_found(stage, end.rows)
}

// The answer after a scan of all blocks.
fn rows_found(stage: Stage, rows: usize) -> Result<usize, ArchiveError>
    ensures { open_result result ≡ open_found (buffer.stage_found (stage_of stage)) rows }
{
    match stage {
        Stage::Filling | Stage::Short | Stage::Ended => Ok(rows),
        Stage::Wrong(k) => Err(ArchiveError::Damaged(k)),
    }
}

// Whether these are the bytes of a block, and its first five say that row `n` is the next.
pub fn is_next(block: &[u8], n: usize) -> bool
    ensures { result ≡ (eqb (length block.now) block_length && calls.is_next n block.now) }
{
    if block.len() != BLOCK_LENGTH {
        return false;
    }
    let used = n % CELLS_PER_BLOCK;
    if used == 0 {
        return block_layout::is_blank(&block[0..5]);
    }
    (number_of(block) == (n / CELLS_PER_BLOCK) as u64)
        & (block_layout::byte_at(block, 4) as usize == used)
}

// Puts row `n` into the 512 bytes of its block, for a caller that has only that block. Refused: 16 for a wrong length, or an n that no archive has
// (15 times 2^32 and more); 12 with the position n / 15; the check's number; then the block is unchanged.
pub fn put_row(
    block: &mut [u8],
    n: usize,
    bytes: &[u8],
    time: u64,
    loose: bool,
) -> Result<(), ArchiveError>
    ensures { append_result result block.new
        ≡ calls.put_row_of block.old n (row_of bytes.now time loose) }
{
    if block.len() != BLOCK_LENGTH {
        return Err(ArchiveError::Refused(Refusal::Size));
    }
    if MAX_ROWS <= n {
        return Err(ArchiveError::Refused(Refusal::Size));
    }
    if !is_next(block, n) {
        return Err(ArchiveError::Damaged(n / CELLS_PER_BLOCK));
    }
    radio_erp1::check(bytes)?;
    write_row(block, n, bytes, time, loose);
    Ok(())
}

// Writes the header, the row in its cell, and the CRC; the other cells are unchanged.
fn write_row(block: &mut [u8], n: usize, bytes: &[u8], time: u64, loose: bool)
    requires { (length block.old ≡ block_length) × (length bytes.now ≤ cell_capacity) }
    ensures { block.new ≡ calls.put_row n (row_of bytes.now time loose) block.old }
{
    let used = n % CELLS_PER_BLOCK;
    let at = HEADER_LENGTH + CELL_LENGTH * used;
    put_head(
        &mut block[0..HEADER_LENGTH],
        (n / CELLS_PER_BLOCK) as u64,
        (used + 1) as u8,
    );
    block_layout::put_cell(
        &mut block[at..at + CELL_LENGTH],
        time,
        bytes,
        last_of(loose),
    );
    block_layout::seal(block);
}

// Appends a row to an archive of `n` rows, the number that `open` returned: only one block is read and written. Refused: 16, 12 with the position n /
// 15, the check's number, 6; then the buffer is unchanged.
pub fn append_at(
    buffer: &mut [u8],
    n: usize,
    bytes: &[u8],
    time: u64,
    loose: bool,
) -> Result<(), ArchiveError>
    ensures { append_result result buffer.new
        ≡ calls.append_at_of buffer.old n (row_of bytes.now time loose) }
{
    if !is_whole(buffer.len()) {
        return Err(ArchiveError::Refused(Refusal::Size));
    }
    let k = n / CELLS_PER_BLOCK;
    if buffer.len() / BLOCK_LENGTH <= k {
        return no_block(bytes);
    }
    put_row(
        &mut buffer[BLOCK_LENGTH * k..BLOCK_LENGTH * k + BLOCK_LENGTH],
        n,
        bytes,
        time,
        loose,
    )
}

// The refusal of a row for which there is no block.
fn no_block(bytes: &[u8]) -> Result<(), ArchiveError>
    ensures { NoBlock bytes.now result }
{
    radio_erp1::check(bytes)?;
    Err(ArchiveError::Refused(Refusal::ShortOutput))
}

// Reads row `i`. Refused: 16, 10 if there is no row i, 12 if its length is over 21, which no archive has.
pub fn row_at(buffer: &[u8], i: usize) -> Result<RowAt, Refusal>
    ensures { read_result result
        ≡ row_shown (calls.row_at_of buffer.now i) (calls.cell_at i buffer.now) }
{
    if !is_whole(buffer.len()) {
        return Err(Refusal::Size);
    }
    let k = i / CELLS_PER_BLOCK;
    if buffer.len() / BLOCK_LENGTH <= k {
        return Err(Refusal::Argument);
    }
    read_row(
        &buffer[BLOCK_LENGTH * k..BLOCK_LENGTH * k + BLOCK_LENGTH],
        i % CELLS_PER_BLOCK,
    )
}

// Row `i` of a block.
fn read_row(block: &[u8], i: usize) -> Result<RowAt, Refusal>
    requires { (length block.now ≡ block_length) × (i < cells_per_block) }
    ensures { read_result result
        ≡ row_shown (row_in_block block.now i) (block_cell i block.now) }
{
    if block_layout::byte_at(block, 4) as usize <= i {
        return Err(Refusal::Argument);
    }
    let cell = cell_at(block, i);
    let len = block_layout::cell_used(cell);
    if CELL_CAPACITY < len as usize {
        return Err(Refusal::Mismatch);
    }
    let mut bytes = [0u8; CELL_CAPACITY];
    block_layout::copy_field(&mut bytes, cell);
    let time = block_layout::cell_time(cell);
    let loose = is_loose(cell);
    Ok(RowAt {
        time,
        loose,
        len,
        bytes,
    })
}

// Appends a row. Refused: 16, 12 with the position, the check's number, 6; then the buffer is unchanged.
pub fn append(buffer: &mut [u8], bytes: &[u8], time: u64, loose: bool) -> Result<(), ArchiveError>
    ensures { append_result result buffer.new
        ≡ calls.append_of buffer.old (row_of bytes.now time loose) }
{
    let n = open(buffer)?;
    append_at(buffer, n, bytes, time, loose)
}
