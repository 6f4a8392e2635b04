// What a reception closes: each telegram that is no longer open, as the 32 bytes of an entry of a checkpoint (document 01, "Parked collector"), with
// its number of copies (document 02, A8).
#![tactic(auto)]

ghost use Rattle.std.specs.Prelude.{◌≡◌, ◌+◌, ◌*◌, ◌≤◌, length};
ghost use Rattle.base_buffers.specs.Printed.{Printed};
ghost use Rattle.radio_erp1.specs.Subtelegram.{max_length};
ghost use Rattle.block_layout.specs.Cell.{cell_of};
ghost use Rattle.history_rows.specs.Closings.{closed_at};
ghost use Rattle.collector_state.specs.Collector.{columns_held, view_in, entries_at};
ghost use Rattle.collector_state.specs.Admission.{Tested};
ghost use Rattle.collector_checkpoint.specs.Private.{Writable};
ghost use Rattle.collector_closings.specs.Cells.{entry_cells, closed_cells, is_past, past_cell, is_taken};

use block_layout::CELL_LENGTH;
use collector_state::{Collector, Held};

// The length of a closing; and the most bytes that one reception closes: those of all telegrams that can be open.
pub const LENGTH: usize = CELL_LENGTH;

pub const LONGEST: usize = CELL_LENGTH * Collector::CAPACITY;

// Writes what a reception closes, for a state that is lent, before the reception is admitted: from entry n of 32 bytes on. Returns how many entries
// are used then. `fit` is the result of the test of the state.
// Kept (step): `fit` is what a test said of the state. The answer depends on it, and it chooses no step.
pub fn put_closings(
    fit: bool,
    state: Held,
    received: &[u8],
    time: u64,
    closed: &mut [u8],
    n: usize,
) -> usize
    requires { Tested fit (view_in (columns_held state) state.summary) × (32 * n + 2048 ≤ length closed.old) }
    ensures { Printed closed.old (32 * n)
        (closed_cells
        (view_in (columns_held state.entry) state.entry.summary)
        (record { bytes = received.now; time = time }))
        2048 closed.new (32 * result) }
{
    let totals = state.summary.totals;
    if !will_take(fit, totals.received, state.summary.latest, received, time) {
        return n;
    }
    put_past(state, time, closed, n)
}

// Whether a reception will be KEPT, COPY or LOOSE.
fn will_take(fit: bool, received: u64, latest: u64, bytes: &[u8], time: u64) -> bool
    ensures { result ≡ is_taken fit received latest bytes.now time }
{
    fit && received != u64::MAX && latest <= time && radio_erp1::check(bytes).is_ok()
}

// Writes those telegrams that are no longer open.
fn put_past(state: Held, time: u64, closed: &mut [u8], n: usize) -> usize
    requires { Writable state.lens.now 0 state.summary.count × (32 * n + 2048 ≤ length closed.old) }
    ensures { Printed closed.old (32 * n)
        (entry_cells (closed_at time (entries_at (columns_held state.entry) state.entry.summary.count)))
        2048 closed.new (32 * result) }
{
    let bytes = state.bytes;
    let mut k = n;
    // Kept (loop): four arrays and a buffer go along by one index, and a zip of five is no plainer.
    for i in 0..state.summary.count {
        let at = Collector::MAX_LEN * i;
        let len = state.lens[i] as usize;
        k = put_entry(
            closed,
            k,
            state.times[i],
            &bytes[at..at + len],
            state.copies[i],
            time,
        );
    }
    k
}

// Writes one telegram, if it is no longer open.
fn put_entry(
    closed: &mut [u8],
    k: usize,
    opened: u64,
    bytes: &[u8],
    copies: u16,
    time: u64,
) -> usize
    requires { (length bytes.now ≤ max_length) × (32 * k + 32 ≤ length closed.old) }
    ensures { Printed closed.old (32 * k) (past_cell opened bytes.now copies time) 32
        closed.new (32 * result) }
{
    if !is_past(opened, time) {
        return k;
    }
    let at = CELL_LENGTH * k;
    block_layout::put_cell(&mut closed[at..at + CELL_LENGTH], opened, bytes, copies);
    k + 1
}

fn is_past(opened: u64, time: u64) -> bool
    ensures { result ≡ is_past opened time }
{
    Collector::MATURITY_MS < time.saturating_sub(opened)
}
