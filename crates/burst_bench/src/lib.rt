// Hands receptions over in bursts, for the benchmark.
ghost use Rattle.std.specs.Prelude.{◌≡◌, ◌≤◌, length};

use collector_burst::{Reception, Reply};
use collector_model::Answer;
use collector_state::Collector;
use radio_telegram::frame::Frame;

const CELL: usize = 32;

// Hands the first 256 receptions of `cells`, 32 bytes each (time, length, bytes), to a collector started fresh, at `setting`. Then, `rounds` times
// from that state, hands over the first `size` of the next 256 in one burst. Returns a number made of the totals, and of one reply of each round.
#[unsafe(no_mangle)]
pub extern "C" fn bench_burst(setting: u8, cells: &[u8], size: usize, rounds: u64) -> u64 {
    let fresh = Collector::fresh();
    let first = collector_burst::burst_within(
        fresh,
        setting,
        records_from(cells, 0),
        collector_burst::MAX_BURST,
        places(),
        collector_burst::MAX_BURST,
    );
    bursts_from(
        first.bursted.unwrap_or(fresh),
        setting,
        records_from(cells, collector_burst::MAX_BURST),
        size,
        rounds,
    )
}

fn bursts_from(
    c: Collector,
    setting: u8,
    records: [Reception; collector_burst::LISTED],
    size: usize,
    rounds: u64,
) -> u64 {
    let none = places();
    let mut figure: u64 = 0;
    for i in 0..rounds {
        let lists = collector_burst::burst_within(c, setting, records, size, none, size);
        let next = lists.bursted.unwrap_or(c);
        let replies = lists.replies;
        let k = place_of(i);
        figure = figure.wrapping_add(next.summary.totals.kept);
        figure = figure.wrapping_add(weight(replies[k]));
    }
    figure
}

// Which reply a round reads.
fn place_of(i: u64) -> usize
    ensures { result ≤ 255 }
{
    (i % 256) as usize
}

// 256 records, from the k-th cell on.
fn records_from(cells: &[u8], k: usize) -> [Reception; collector_burst::LISTED]
    requires { k ≤ 256 }
{
    let mut all = no_records();
    // Kept (loop): no plainer: each turn needs the place of its cell, and the array is filled by value.
    for i in 0..collector_burst::MAX_BURST {
        all[i] = record_at(cells, CELL * (k + i));
    }
    all
}

fn no_records() -> [Reception; collector_burst::LISTED] {
    let none = no_record();
    [none; collector_burst::LISTED]
}

fn no_record() -> Reception {
    Reception {
        bytes: [0; Collector::MAX_LEN],
        len: 0,
        time: 0,
    }
}

fn record_at(cells: &[u8], at: usize) -> Reception
    requires { at ≤ 16384 }
{
    if cells.len() < at + CELL {
        return no_record();
    }
    record_in(&cells[at..at + CELL])
}

fn record_in(cell: &[u8]) -> Reception
    requires { length cell.now ≡ 32 }
{
    let mut bytes = [0u8; Collector::MAX_LEN];
    block_layout::put_bytes(&mut bytes, &cell[9..30]);
    let time = block_layout::cell_time(cell);
    Reception {
        bytes,
        len: cell[8],
        time,
    }
}

fn places() -> [Reply; collector_burst::LISTED] {
    let sent = Frame::empty();
    let none = Reply {
        answer: Answer::Loose,
        sent,
    };
    [none; collector_burst::LISTED]
}

fn weight(reply: Reply) -> u64 {
    let answer = reply.answer;
    let sent = reply.sent;
    let len = (sent.len % 256) as u64;
    match answer {
        Answer::Kept => 1 + len * 65_536,
        Answer::Copy => 4_294_967_296,
        Answer::Loose => 281_474_976_710_656,
        Answer::Refused(_) => 0,
    }
}
