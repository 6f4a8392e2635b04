// The entries in their four arrays: the search for a copy, the entries that are no longer open, and what a reception does with each array. The arrays
// are lent one at a time and changed in place, so nothing of the state is copied.
ghost use Rattle.std.specs.Prelude.{◌≡◌, true, not, ◌||◌, List, ℕ, ◌+◌, ◌-◌, ◌*◌, ◌≤◌, ◌<◌, leb, eqb, length, drop, IfSome};
ghost use Rattle.radio_erp1.specs.Subtelegram.{min_length, max_length};
ghost use Rattle.base_buffers.specs.Buffer.{part, resized};
ghost use Rattle.radio_erp1.specs.Same.{is_same};
ghost use Rattle.radio_telegram.specs.Repeater.{level_of};
ghost use Rattle.collector_model.specs.View.{capacity, tx_maturity};
ghost use Rattle.collector_state.specs.Collector.{columns, columns_lent, entries_at, moved, set_if, put_if, SameArrays};
ghost use Rattle.collector_state.specs.Private.{shown_at, copy_in, credited, Expired, Becomes, Changes};

use crate::{Collector, Lent};
use radio_erp1::status;

// Of the entries after the first `gone` of `count`, the last one that a reception is a copy of, counted from the first of these. Numbers of copies are
// not read.
pub(crate) fn find<'a>(
    times: &'a [u64; Collector::CAPACITY],
    lens: &'a [u8; Collector::CAPACITY],
    bytes: &'a [u8; Collector::CAPACITY * Collector::MAX_LEN],
    gone: usize,
    count: usize,
    received: &'a [u8],
    time: u64,
) -> Option<usize>
    requires { (gone ≤ count) × (count ≤ capacity)
        × (min_length ≤ length received.now) × (length received.now ≤ max_length) }
    ensures { (copies : List ℕ) → result ≡ copy_in
        (drop gone (entries_at (columns times.now lens.now bytes.now copies) count))
        (record { bytes = received.now; time = time }) }
{
    let original = is_original(received);
    let mut i = count;
    while gone < i {
        i -= 1;
        if holds(lens, bytes, i, received) {
            if is_echo(original, times[i], time) {
                return Some(i - gone);
            }
        }
    }
    None
}

// Whether a reception came from the sender itself: its level is 0.
fn is_original(received: &[u8]) -> bool
    requires { min_length ≤ length received.now }
    ensures { result ≡ eqb (level_of received.now) 0 }
{
    let status = status::split(received[received.len() - 2]);
    status.level == 0
}

// Whether a reception at `time` can be a copy of a telegram opened at `from`: an original cannot, after its sender has finished.
fn is_echo(original: bool, from: u64, time: u64) -> bool
    ensures { result ≡ (not original || leb (time - from) tx_maturity) }
{
    !original | (time.saturating_sub(from) <= Collector::TX_MATURITY_MS)
}

// Whether entry `i` is the same telegram. The last byte of TXID is compared first: most telegrams differ in it, whatever the entry's length.
fn holds<'a>(
    lens: &'a [u8; Collector::CAPACITY],
    bytes: &'a [u8; Collector::CAPACITY * Collector::MAX_LEN],
    i: usize,
    received: &'a [u8],
) -> bool
    requires { (i < capacity) × (min_length ≤ length received.now) × (length received.now ≤ max_length) }
    ensures { result ≡ is_same (shown_at lens.now bytes.now i) received.now }
{
    let len = received.len();
    let at = Collector::MAX_LEN * i + (len - 3);
    if bytes[at] != received[len - 3] {
        return false;
    }
    if usize::from(lens[i]) != len {
        return false;
    }
    let telegram = telegram(bytes, i, len);
    radio_erp1::same(telegram, received)
}

// The first `len` bytes of entry `i`.
pub(crate) fn telegram(bytes: &[u8], i: usize, len: usize) -> &[u8]
    requires { (len ≤ max_length) × (max_length * i + max_length ≤ length bytes.now) }
    ensures { result.now ≡ resized len (part (max_length * i) max_length bytes.now) }
{
    let from = Collector::MAX_LEN * i;
    let end = from + len;
    &bytes[from..end]
}

// How many of the first `count` entries, which are in order of time, are no longer open.
pub(crate) fn expired(times: &[u64; Collector::CAPACITY], count: usize, time: u64) -> usize
    requires { count ≤ capacity }
    ensures { Expired times.now count time result }
{
    times[..count]
        .iter()
        .position(|&opened| time.saturating_sub(opened) <= Collector::MATURITY_MS)
        .unwrap_or(count)
}

// ---- what one reception does with each array: the `left` entries after the first `gone` are moved to the front, a copy is counted for one of them,
// and a kept reception is put after them

impl<'a> Lent<'a> {
    // Changes all four.
    pub(crate) fn change(
        &mut self,
        gone: usize,
        left: usize,
        heard: Option<usize>,
        kept: bool,
        received: &[u8],
        time: u64,
    )
        requires { (gone + left ≤ capacity) × IfSome heard (λ i. i < capacity)
            × (kept ≡ true → (left < capacity) × (length received.now ≤ max_length)) }
        ensures changes { Changes gone left heard kept (record { bytes = received.now; time = time })
            (columns_lent self.old) (columns_lent self.new) }
        ensures summary { self.new.summary ≡ self.old.summary }
        ensures same_loans { SameArrays self.old self.new }
    {
        change_times(self.times, gone, left, kept, time);
        change_lens(self.lens, gone, left, kept, received);
        change_bytes(self.bytes, gone, left, kept, received);
        change_copies(self.copies, gone, left, heard, kept);
    }
}

fn change_times(
    times: &mut [u64; Collector::CAPACITY],
    gone: usize,
    left: usize,
    kept: bool,
    time: u64,
)
    requires { (gone + left ≤ capacity) × (kept ≡ true → left < capacity) }
    ensures { Becomes capacity times.old times.new
        (set_if kept left time (moved gone left times.old)) }
{
    close_up(times, gone, left);
    if !kept {
        return;
    }
    times[left] = time;
}

fn change_lens(
    lens: &mut [u8; Collector::CAPACITY],
    gone: usize,
    left: usize,
    kept: bool,
    received: &[u8],
)
    requires { (gone + left ≤ capacity) × (kept ≡ true → (left < capacity) × (length received.now ≤ max_length)) }
    ensures { Becomes capacity lens.old lens.new
        (set_if kept left (length received.now) (moved gone left lens.old)) }
{
    close_up(lens, gone, left);
    if !kept {
        return;
    }
    lens[left] = received.len() as u8;
}

fn change_bytes(
    bytes: &mut [u8; Collector::CAPACITY * Collector::MAX_LEN],
    gone: usize,
    left: usize,
    kept: bool,
    received: &[u8],
)
    requires { (gone + left ≤ capacity) × (kept ≡ true → (left < capacity) × (length received.now ≤ max_length)) }
    ensures { Becomes (max_length * capacity) bytes.old bytes.new
        (put_if kept (max_length * left) received.now
        (moved (max_length * gone) (max_length * left) bytes.old)) }
{
    let from = Collector::MAX_LEN * gone;
    let end = Collector::MAX_LEN * left;
    close_up(bytes, from, end);
    if !kept {
        return;
    }
    store_bytes(bytes, end, received);
}

fn change_copies(
    copies: &mut [u16; Collector::CAPACITY],
    gone: usize,
    left: usize,
    heard: Option<usize>,
    kept: bool,
)
    requires { (gone + left ≤ capacity) × IfSome heard (λ i. i < capacity) × (kept ≡ true → left < capacity) }
    ensures { Becomes capacity copies.old copies.new
        (set_if kept left 0 (credited heard (moved gone left copies.old))) }
{
    close_up(copies, gone, left);
    credit(copies, heard);
    if !kept {
        return;
    }
    copies[left] = 0;
}

// Moves the `left` elements after the first `gone` to the front.
fn close_up<T: Copy>(xs: &mut [T], gone: usize, left: usize)
    requires { gone + left ≤ length xs.old }
    ensures { xs.new ≡ moved gone left xs.old }
{
    if gone == 0 {
        return;
    }
    xs.copy_within(gone..gone + left, 0);
}

// Counts a copy for an entry, if one was heard again.
fn credit(copies: &mut [u16; Collector::CAPACITY], heard: Option<usize>)
    requires { IfSome heard (λ i. i < capacity) }
    ensures { copies.new ≡ credited heard copies.old }
{
    if let Some(i) = heard {
        copies[i] = copies[i].saturating_add(1).min(Collector::MAX_COPIES);
    }
}

fn store_bytes(xs: &mut [u8], at: usize, src: &[u8])
    requires { at + length src.now ≤ length xs.old }
    ensures { xs.new ≡ put_if true at src.now xs.old }
{
    base_bytes::copy(src, &mut xs[at..]);
}
