// Takes receptions one after the other, for the benchmark.
ghost use Rattle.std.specs.Prelude.{◌≡◌, ◌*◌, ◌≤◌, length};
ghost use Rattle.collector_state.specs.Collector.{SameArrays};

use collector_model::Answer;
use collector_state::{Collector, Lent, acceptable};

const CELL: usize = 32;

// The state after the receptions of a run, and a number made of their answers.
#[derive(Clone, Copy)]
struct Run {
    collector: Collector,
    figure: u64,
}

// Takes the receptions of `cells`, 32 bytes each (time, length, bytes), into a collector started fresh, and returns a number made of the answers.
#[unsafe(no_mangle)]
pub extern "C" fn bench_take(cells: &[u8]) -> u64 {
    taken_all(cells).figure
}

// The same, and then tests the state `rounds` times, every second time without the last entry. Returns how often it passed.
#[unsafe(no_mangle)]
pub extern "C" fn bench_test(cells: &[u8], rounds: u64) -> u64 {
    let done = taken_all(cells);
    let c = done.collector;
    let mut passed: u64 = 0;
    for i in 0..rounds {
        let mut summary = c.summary;
        summary.count = fewer(summary.count, i % 2);
        if acceptable::is_acceptable(&c.times, &c.lens, &c.bytes, summary) {
            passed = passed.wrapping_add(1);
        }
    }
    passed
}

// Takes the same receptions, with arrays that are changed in place. A fresh state is acceptable, and so is every next one, so none is tested.
#[unsafe(no_mangle)]
pub extern "C" fn bench_admit(cells: &[u8]) -> u64 {
    let mut c = Collector::fresh();
    let mut state = Lent {
        times: &mut c.times,
        lens: &mut c.lens,
        bytes: &mut c.bytes,
        copies: &mut c.copies,
        summary: c.summary,
    };
    admitted_all(&mut state, cells)
}

fn admitted_all(state: &mut Lent, cells: &[u8]) -> u64
    ensures same_loans { SameArrays state.old state.new }
{
    let mut figure: u64 = 0;
    for i in 0..cells.len() / CELL {
        let cell = &cells[CELL * i..CELL * i + CELL];
        let answer = state.admit(true, received(cell), block_layout::cell_time(cell));
        figure = figure.wrapping_add(weight(answer));
    }
    figure
}

fn taken_all(cells: &[u8]) -> Run {
    let mut c = Collector::fresh();
    let mut figure: u64 = 0;
    for i in 0..cells.len() / CELL {
        let taken = take_cell(c, &cells[CELL * i..CELL * i + CELL]);
        figure = figure.wrapping_add(weight(taken.answer));
        c = taken.next;
    }
    Run {
        collector: c,
        figure,
    }
}

fn fewer(count: usize, less: u64) -> usize {
    if less == 0 {
        count
    } else {
        count.saturating_sub(1)
    }
}

fn take_cell(c: Collector, cell: &[u8]) -> collector_state::Taken
    requires { length cell.now ≡ 32 }
{
    let time = block_layout::cell_time(cell);
    c.take(received(cell), time)
}

// The bytes of a cell's reception.
fn received(cell: &[u8]) -> &[u8]
    requires { length cell.now ≡ 32 }
{
    let n = usize::from(cell[8]).min(Collector::MAX_LEN);
    &cell[9..9 + n]
}

fn weight(answer: Answer) -> u64 {
    match answer {
        Answer::Kept => 1,
        Answer::Copy => 4_294_967_296,
        Answer::Loose => 281_474_976_710_656,
        Answer::Refused(_) => 0,
    }
}
