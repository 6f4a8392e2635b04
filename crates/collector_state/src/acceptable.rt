// The test of a state: whether an image that restore accepts could be written from it (document 01, "Parked collector"). If not, calls answer 11.
ghost use Rattle.std.specs.Prelude.{◌≡◌, List, ℕ, ◌≤◌, ◌<◌, length, get_or};
ghost use Rattle.radio_erp1.specs.Subtelegram.{min_length, max_length};
ghost use Rattle.collector_model.specs.View.{capacity};
ghost use Rattle.collector_model.specs.Acceptable.{is_summed, acceptable};
ghost use Rattle.collector_state.specs.Collector.{Columns, columns, entries_at, view_in};
ghost use Rattle.collector_state.specs.Private.{are_timely, are_telegrams, is_repeated_at, shown_at, marks, mark_of, mark_in, Repeated};

use crate::{Collector, Summary, entries};
use collector_model::Totals;

// The size of the table of marks.
const MARKS: usize = 1024;

// Whether the state in these arrays and this summary is acceptable, for any arrays; its numbers of copies do not matter.
pub fn is_acceptable<'a>(
    times: &'a [u64; Collector::CAPACITY],
    lens: &'a [u8; Collector::CAPACITY],
    bytes: &'a [u8; Collector::CAPACITY * Collector::MAX_LEN],
    summary: Summary,
) -> bool
    ensures { (copies : List ℕ) → result ≡ acceptable
        (view_in (columns times.now lens.now bytes.now copies) summary) }
{
    let count = summary.count;
    let totals = summary.totals;
    if Collector::CAPACITY < count {
        return false;
    }
    if !are_timely(times, count, summary.latest) {
        return false;
    }
    if !are_telegrams(times, lens, bytes, count) {
        return false;
    }
    if !is_summed(totals) {
        return false;
    }
    count as u64 <= totals.kept
}

// Whether the first `count` times never fall, none is later than the latest time, and all are open at that time.
fn are_timely(times: &[u64], count: usize, latest: u64) -> bool
    requires { count ≤ length times.now }
    ensures { (a : Columns) → a.times ≡ times.now → result ≡ are_timely latest (entries_at a count) }
{
    let mut earliest = latest.saturating_sub(Collector::MATURITY_MS);
    for &time in &times[..count] {
        if time < earliest {
            return false;
        }
        earliest = time;
    }
    earliest <= latest
}

// Whether the first `count` entries are valid, and none is a copy of one before it. `seen` has the marks of the entries so far. If the mark of an
// entry is new, its telegram is new; only if it is not, the entries before it are searched.
fn are_telegrams<'a>(
    times: &'a [u64; Collector::CAPACITY],
    lens: &'a [u8; Collector::CAPACITY],
    bytes: &'a [u8; Collector::CAPACITY * Collector::MAX_LEN],
    count: usize,
) -> bool
    requires { count ≤ capacity }
    ensures { (copies : List ℕ) → result ≡ are_telegrams
        (entries_at (columns times.now lens.now bytes.now copies) count) }
{
    let mut seen = no_marks();
    // Kept (loop): the index is handed on, to search the entries before it.
    for i in 0..count {
        let Some(mark) = mark_at(lens, bytes, i) else {
            return false;
        };
        if is_repeated(times, lens, bytes, i, seen[mark]) {
            return false;
        }
        seen[mark] = true;
    }
    true
}

// No mark seen.
fn no_marks() -> [bool; MARKS]
    ensures { length result ≡ marks }
{
    [false; MARKS]
}

// The mark of entry `i`, if it is valid.
fn mark_at<'a>(
    lens: &'a [u8; Collector::CAPACITY],
    bytes: &'a [u8; Collector::CAPACITY * Collector::MAX_LEN],
    i: usize,
) -> Option<usize>
    requires { i < capacity }
    ensures { result ≡ mark_in (shown_at lens.now bytes.now i) }
{
    let len = usize::from(lens[i]);
    if Collector::MAX_LEN < len {
        return None;
    }
    let telegram = entries::telegram(bytes, i, len);
    if radio_erp1::check(telegram).is_err() {
        return None;
    }
    Some(mark(telegram))
}

// A number below MARKS that is the same for the same telegram: from the last two bytes of TXID and the first byte after RORG.
fn mark(telegram: &[u8]) -> usize
    requires { min_length ≤ length telegram.now }
    ensures { (result ≡ mark_of telegram.now) × (result < marks) }
{
    let n = telegram.len();
    let last = usize::from(telegram[n - 3]);
    let other = usize::from(telegram[n - 4]);
    let first = usize::from(telegram[1]);
    (4 * last + 67 * other + 29 * first) % MARKS
}

// Whether entry `i`, which is valid, is a copy of one before it; if its mark was not seen, it is not.
fn is_repeated<'a>(
    times: &'a [u64; Collector::CAPACITY],
    lens: &'a [u8; Collector::CAPACITY],
    bytes: &'a [u8; Collector::CAPACITY * Collector::MAX_LEN],
    i: usize,
    seen: bool,
) -> bool
    requires { (i < capacity) × (min_length ≤ get_or lens.now i 0) × (get_or lens.now i 0 ≤ max_length) }
    ensures { (copies : List ℕ) → Repeated seen
        (is_repeated_at (columns times.now lens.now bytes.now copies) i) result }
{
    if !seen {
        return false;
    }
    let len = usize::from(lens[i]);
    let telegram = entries::telegram(bytes, i, len);
    entries::find(times, lens, bytes, 0, i, telegram, times[i]).is_some()
}

// Whether received is the sum of the others. No sum here can wrap.
pub(crate) fn is_summed(n: Totals) -> bool
    ensures { result ≡ is_summed n }
{
    if n.received < n.kept {
        return false;
    }
    let a = n.received - n.kept;
    if a < n.copies {
        return false;
    }
    let b = a - n.copies;
    if b < n.loose {
        return false;
    }
    let c = b - n.loose;
    if c < n.damaged {
        return false;
    }
    c - n.damaged == n.late
}
