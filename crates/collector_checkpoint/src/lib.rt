// The checkpoint of a collector and its restore (document 01, "Parked collector").
#![tactic(auto)]

ghost use Rattle.std.specs.Prelude.{◌≡◌, ◌-◌, ◌*◌, ◌≤◌, ◌<◌, min, length, drop};
ghost use mathlib.Core.List.{◌++◌, map, flatten};
ghost use Rattle.base_lists.specs.Lists.{padded};
ghost use Rattle.base_buffers.specs.Buffer.{overwritten};
ghost use Rattle.block_layout.specs.Block.{header_length, cells_per_block, block_length, block_header};
ghost use Rattle.radio_erp1.specs.Subtelegram.{max_length};
ghost use Rattle.collector_model.specs.View.{capacity};
ghost use Rattle.collector_model.specs.Header.{header_of};
ghost use Rattle.collector_model.specs.Image.{image_length, entry_cell, image_with, block_in, used_in_block, first_in, second_in, count_in, totals_in, checkpoint_of};
ghost use Rattle.collector_state.specs.Collector.{columns, columns_held, entries_at, view_in, view_of};
ghost use Rattle.collector_checkpoint.specs.Checkpoint.{checkpoint_result, Restores};
ghost use Rattle.collector_checkpoint.specs.Private.{block_count, cells_length, entries_from, block_with, Writable, is_image_of, is_readable, cell_in, Reads, Parses};

use base_refusal::Refusal;
use block_layout::{BLOCK_LENGTH, CELL_LENGTH, CELLS_PER_BLOCK, HEADER_LENGTH};
use collector_model::Totals;
use collector_state::{Collector, Held, Summary, acceptable};
use radio_telegram::repeater::MAX_SETTING;

// How many blocks an image has.
const BLOCKS: usize = 5;

pub const IMAGE_LENGTH: usize = BLOCKS * BLOCK_LENGTH;

// The number that a checkpoint writes in the setting's place.
const NO_SETTING: u64 = 0;

// The number of bytes of a block between its header and its CRC.
const CELLS_LENGTH: usize = BLOCK_LENGTH - 1 - HEADER_LENGTH;

// Writes the image of the state into the first 2,560 bytes, with zero in the setting's place. Refused: 11, then 6, and nothing is written.
pub fn checkpoint(c: Collector, out: &mut [u8]) -> Result<(), Refusal>
    ensures { checkpoint_result result out.new ≡ checkpoint_of (view_of c) out.old }
{
    checkpoint_at(
        Held {
            times: &c.times,
            lens: &c.lens,
            bytes: &c.bytes,
            copies: &c.copies,
            summary: c.summary,
        },
        out,
    )
}

// The same for a state that is lent.
pub fn checkpoint_at(state: Held, out: &mut [u8]) -> Result<(), Refusal>
    ensures { checkpoint_result result out.new
        ≡ checkpoint_of (view_in (columns_held state.entry) state.entry.summary) out.old }
{
    if !state.is_acceptable() {
        return Err(Refusal::NotAccepted);
    }
    if out.len() < IMAGE_LENGTH {
        return Err(Refusal::ShortOutput);
    }
    put_image(out, state, NO_SETTING);
    Ok(())
}

// Restores the state of an image. Refused with 11: an image that no checkpoint writes, or wrote with 1 or 2 in the setting's place; and a state from
// which no image can be written.
pub fn restore(c: Collector, image: &[u8]) -> Result<Collector, Refusal>
    ensures { Restores c image.now result }
{
    if !acceptable::is_acceptable(&c.times, &c.lens, &c.bytes, c.summary) {
        return Err(Refusal::NotAccepted);
    }
    if !is_readable(image) {
        return Err(Refusal::NotAccepted);
    }
    let setting = second_in(image, 3);
    let next = parse(image);
    let state = Held {
        times: &next.times,
        lens: &next.lens,
        bytes: &next.bytes,
        copies: &next.copies,
        summary: next.summary,
    };
    if !is_image_of(image, state, setting) {
        return Err(Refusal::NotAccepted);
    }
    Ok(next)
}

// ---- writing

// Writes the image of a state into the first 2,560 bytes, with a number in the setting's place: block k, with its two numbers, is in the 512 bytes
// from 512 k on.
fn put_image(out: &mut [u8], state: Held, setting: u64)
    requires { (image_length ≤ length out.old) × Writable state.lens.now 0 state.summary.count }
    ensures { out.new
        ≡ image_with setting (view_in (columns_held state.entry) state.entry.summary)
        ++ drop image_length out.old }
{
    let totals = state.summary.totals;
    let numbers = [
        (state.summary.latest, totals.received),
        (totals.kept, totals.copies),
        (totals.loose, totals.damaged),
        (totals.late, setting),
        (0, 0),
    ];
    // Kept (loop): the index is the number of the block and picks its pair of numbers and its part of the buffer.
    for k in 0..BLOCKS {
        let (first, second) = numbers[k];
        put_block(
            &mut out[BLOCK_LENGTH * k..BLOCK_LENGTH * k + BLOCK_LENGTH],
            k,
            first,
            second,
            state,
        );
    }
}

// Writes block `k` of 512 bytes, with two numbers and its share of the entries.
fn put_block(out: &mut [u8], k: usize, a: u64, b: u64, state: Held)
    requires { (length out.old ≡ block_length) × (k < block_count)
        × Writable state.lens.now 0 state.summary.count }
    ensures { out.new
        ≡ block_with k a b (entries_at (columns_held state.entry) state.entry.summary.count) }
{
    let first = CELLS_PER_BLOCK * k;
    let used = used_from(state.summary.count, first);
    put_header(&mut out[0..HEADER_LENGTH], k as u8, used, a, b);
    put_cells(
        &mut out[HEADER_LENGTH..HEADER_LENGTH + CELLS_LENGTH],
        state,
        first,
        used as usize,
    );
    block_layout::seal(out);
}

// Writes the header of block `k` into 24 bytes: the number of entries used, and two numbers.
fn put_header(out: &mut [u8], k: u8, used: u8, a: u64, b: u64)
    ensures { out.new ≡ overwritten header_length (header_of k used a b) out.old }
{
    if out.len() != HEADER_LENGTH {
        return;
    }
    out[0] = k;
    out[1] = used;
    block_layout::clear(&mut out[2..8]);
    block_layout::put_number(&mut out[8..16], a);
    block_layout::put_number(&mut out[16..24], b);
}

// Writes what is between the header of a block and its CRC: the cells of `used` entries from `first` on, and zeros.
fn put_cells(out: &mut [u8], state: Held, first: usize, used: usize)
    requires { (length out.old ≡ cells_length) × (used ≤ cells_per_block)
        × Writable state.lens.now first used }
    ensures { out.new
        ≡ padded cells_length (flatten (map entry_cell
        (entries_from (columns_held state.entry) first used))) }
{
    let bytes = state.bytes;
    // Kept (loop): four arrays and a buffer go along by one index, and a zip of five is no plainer.
    for i in 0..used {
        let e = first + i;
        let at = Collector::MAX_LEN * e;
        let len = state.lens[e] as usize;
        block_layout::put_cell(
            &mut out[CELL_LENGTH * i..CELL_LENGTH * i + CELL_LENGTH],
            state.times[e],
            &bytes[at..at + len],
            state.copies[e],
        );
    }
    block_layout::clear(&mut out[CELL_LENGTH * used..CELLS_LENGTH]);
}

// Whether a state is acceptable, and an image is byte for byte what is written for it with this number in the setting's place.
// Its image is on the stack only while it runs: as a part of `restore` it would be there all the time.
#[inline(never)]
fn is_image_of(image: &[u8], state: Held, setting: u64) -> bool
    ensures { result ≡ is_image_of setting (view_in (columns_held state.entry) state.entry.summary) image.now }
{
    if !state.is_acceptable() {
        return false;
    }
    let mut again = [0u8; IMAGE_LENGTH];
    put_image(&mut again, state, setting);
    block_layout::equal(&again, image)
}

// How many entries are in the block that starts with entry `first`.
fn used_from(count: usize, first: usize) -> u8
    ensures { result ≡ min cells_per_block (count - first) }
{
    count.saturating_sub(first).min(CELLS_PER_BLOCK) as u8
}

// ---- reading

// Whether an image has the right length, a count that a state can have, and 0, 1 or 2 in the setting's place.
fn is_readable(image: &[u8]) -> bool
    ensures { result ≡ is_readable image.now }
{
    if image.len() != IMAGE_LENGTH {
        return false;
    }
    let setting = second_in(image, 3);
    (count_in(image) <= Collector::CAPACITY) & (setting <= MAX_SETTING as u64)
}

// The state that an image gives, accepted or not. It is no part of `restore` either, for the same reason.
#[inline(never)]
fn parse(image: &[u8]) -> Collector
    requires { (length image.now ≡ image_length) × (count_in image.now ≤ capacity) }
    ensures { Parses image.now result }
{
    let mut times = [0u64; Collector::CAPACITY];
    let mut lens = [0u8; Collector::CAPACITY];
    let mut bytes = [0u8; Collector::CAPACITY * Collector::MAX_LEN];
    let mut copies = [0u16; Collector::CAPACITY];
    let count = count_in(image);
    read_entries(&mut times, &mut lens, &mut bytes, &mut copies, image, count);
    let latest = first_in(image, 0);
    let totals = totals_in(image);
    Collector {
        times,
        lens,
        bytes,
        copies,
        summary: Summary {
            count,
            latest,
            totals,
        },
    }
}

// Reads the first `count` entries of an image into the flat arrays of a state.
// Kept (group): it fills the arrays of a collector that is made here, and has no summary yet.
fn read_entries(
    times: &mut [u64],
    lens: &mut [u8],
    bytes: &mut [u8],
    copies: &mut [u16],
    image: &[u8],
    count: usize,
)
    requires { (length times.old ≡ capacity) × (length lens.old ≡ capacity)
        × (length bytes.old ≡ capacity * max_length) × (length copies.old ≡ capacity)
        × (length image.now ≡ image_length) × (count ≤ capacity) }
    ensures { Reads image.now count
        (columns times.old lens.old bytes.old copies.old)
        (columns times.new lens.new bytes.new copies.new) }
{
    // Kept (loop): four arrays and a buffer go along by one index, and a zip of five is no plainer.
    for i in 0..count {
        let cell = cell_in(image, i);
        times[i] = block_layout::cell_time(cell);
        lens[i] = block_layout::cell_used(cell);
        copies[i] = block_layout::cell_last(cell);
        block_layout::copy_field(
            &mut bytes[Collector::MAX_LEN * i..Collector::MAX_LEN * i + Collector::MAX_LEN],
            cell,
        );
    }
}

// The six totals, from the numbers of blocks 0 to 3.
fn totals_in(image: &[u8]) -> Totals
    requires { length image.now ≡ image_length }
    ensures { result ≡ totals_in image.now }
{
    let received = second_in(image, 0);
    let kept = first_in(image, 1);
    let copies = second_in(image, 1);
    let loose = first_in(image, 2);
    let damaged = second_in(image, 2);
    let late = first_in(image, 3);
    Totals {
        received,
        kept,
        copies,
        loose,
        damaged,
        late,
    }
}

// How many entries the five blocks say are used.
fn count_in(image: &[u8]) -> usize
    requires { length image.now ≡ image_length }
    ensures { result ≡ count_in image.now }
{
    // Kept (loop): tried as the sum of an iterator over the blocks; that the sum fits did not close.
    used_in(image, 0)
        + used_in(image, 1)
        + used_in(image, 2)
        + used_in(image, 3)
        + used_in(image, 4)
}

// The number of entries used in block `k`; and its two numbers.
fn used_in(image: &[u8], k: usize) -> usize
    requires { (length image.now ≡ image_length) × (k < block_count) }
    ensures { (result ≡ used_in_block k image.now) × (result < 256) }
{
    block_layout::byte_at(header_in(image, k), 1) as usize
}

fn first_in(image: &[u8], k: usize) -> u64
    requires { (length image.now ≡ image_length) × (k < block_count) }
    ensures { result ≡ first_in k image.now }
{
    block_layout::number_at(header_in(image, k), 8)
}

fn second_in(image: &[u8], k: usize) -> u64
    requires { (length image.now ≡ image_length) × (k < block_count) }
    ensures { result ≡ second_in k image.now }
{
    block_layout::number_at(header_in(image, k), 16)
}

fn header_in(image: &[u8], k: usize) -> &[u8]
    requires { (length image.now ≡ image_length) × (k < block_count) }
    ensures { result.now ≡ block_header (block_in k image.now) }
{
    let block = block_in(image, k);
    &block[0..HEADER_LENGTH]
}

// The cell of entry `i`, counted over all blocks.
fn cell_in(image: &[u8], i: usize) -> &[u8]
    requires { (length image.now ≡ image_length) × (i < capacity) }
    ensures { result.now ≡ cell_in image.now i }
{
    let block = block_in(image, i / CELLS_PER_BLOCK);
    let at = HEADER_LENGTH + CELL_LENGTH * (i % CELLS_PER_BLOCK);
    &block[at..at + CELL_LENGTH]
}

fn block_in(image: &[u8], k: usize) -> &[u8]
    requires { (length image.now ≡ image_length) × (k < block_count) }
    ensures { result.now ≡ block_in k image.now }
{
    &image[BLOCK_LENGTH * k..BLOCK_LENGTH * k + BLOCK_LENGTH]
}
