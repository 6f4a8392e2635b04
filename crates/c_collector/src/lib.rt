// The collector in five lent arrays, as other languages call it: the four of the entries, and its eight numbers. It is changed in place.
// Kept (code, buffer): the C interface takes arrays of numbers and a count in them, and gets the number of a refusal.
#![tactic(auto)]

ghost use Rattle.std.specs.Prelude.{◌≡◌, List, ℕ, length};
ghost use Rattle.collector_model.specs.Answer.{shown_of, shown_number};
ghost use Rattle.collector_model.specs.Acceptable.{acceptable};
ghost use Rattle.c_collector.specs.State.{arrays, arrays_in, arrays_held, SameLoans, summary_in, state_at, summary_numbers};
ghost use Rattle.c_collector.specs.Calls.{kind_of, answer_number, Takes, TakesTold, Fresh, totals_call, copies_call};

use base_refusal::Refusal;
use collector_model::{Answer, Totals};
use collector_state::{Collector, Summary, acceptable};

// How many telegrams can be open.
pub const CAPACITY: usize = Collector::CAPACITY;

// 21 bytes for each.
pub const BYTES: usize = Collector::CAPACITY * Collector::MAX_LEN;

// How many telegrams are open, the latest time, and the six totals.
pub const NUMBERS: usize = 8;

// Received, kept, copies, loose, damaged, late.
pub const TOTALS: usize = 6;

// The five arrays of a state, lent to be read.
#[derive(Clone, Copy)]
pub struct Held<'a> {
    pub times: &'a [u64; CAPACITY],
    pub lengths: &'a [u8; CAPACITY],
    pub bytes: &'a [u8; BYTES],
    pub copies: &'a [u16; CAPACITY],
    pub numbers: &'a [u64; NUMBERS],
}

// The same, lent to be changed.
#[derive(Drop)]
pub struct Lent<'a> {
    pub times: &'a mut [u64; CAPACITY],
    pub lengths: &'a mut [u8; CAPACITY],
    pub bytes: &'a mut [u8; BYTES],
    pub copies: &'a mut [u16; CAPACITY],
    pub numbers: &'a mut [u64; NUMBERS],
}

impl<'a> Lent<'a> {
    // The same arrays, to be read.
    pub fn held(&self) -> Held
        ensures { arrays_held result ≡ arrays_in self.now }
    {
        Held {
            times: self.times,
            lengths: self.lengths,
            bytes: self.bytes,
            copies: self.copies,
            numbers: self.numbers,
        }
    }

    // Makes it a collector with no telegram open and nothing counted.
    pub fn clear(&mut self)
        ensures fresh { Fresh (arrays_in self.new) }
        ensures same_loans { SameLoans self.old self.new }
    {
        *self.times = [0u64; CAPACITY];
        *self.lengths = [0u8; CAPACITY];
        *self.bytes = [0u8; BYTES];
        *self.copies = [0u16; CAPACITY];
        *self.numbers = [0u64; NUMBERS];
    }

    // Takes one reception: its bytes and the moment they were complete. The state is tested once.
    pub fn take(&mut self, received: &[u8], time: u64) -> u16
        ensures takes { Takes (arrays_in self.old) (record { bytes = received.now; time = time }) result
            (arrays_in self.new) }
        ensures same_loans { SameLoans self.old self.new }
    {
        let fit = self.held().is_acceptable();
        self.take_told(fit, received, time)
    }

    // Takes one reception; the caller gives the result of the test of the state, so the test is not made again. If that result is wrong, the arrays
    // become what `admission` says. With every refusal the entries are unchanged.
    // Kept (step): `fit` is what a test said of the state. The answer depends on it, and it chooses no step.
    pub fn take_told(&mut self, fit: bool, received: &[u8], time: u64) -> u16
        ensures takes { TakesTold fit (arrays_in self.old) (record { bytes = received.now; time = time }) result
            (arrays_in self.new) }
        ensures same_loans { SameLoans self.old self.new }
    {
        let mut entries = collector_state::Lent {
            times: &mut *self.times,
            lens: &mut *self.lengths,
            bytes: &mut *self.bytes,
            copies: &mut *self.copies,
            summary: summary_in(self.numbers),
        };
        let answer = entries.admit(fit, received, time);
        store(entries.summary, self.numbers);
        answer_number(answer)
    }
}

impl<'a> Held<'a> {
    // The six totals. Refused: 11, and then they are unchanged.
    pub fn totals(self, totals: &mut [u64; TOTALS]) -> u8
        ensures { record { number = result; values = totals.new }
            ≡ totals_call (state_at (arrays_held self.entry)) totals.old }
    {
        if !self.is_acceptable() {
            return base_refusal::number(Refusal::NotAccepted);
        }
        let n = self.numbers;
        *totals = [n[2], n[3], n[4], n[5], n[6], n[7]];
        0
    }

    // How often the telegram of entry `entry` was received again. Refused: 11, then 10; then `heard` is unchanged.
    pub fn copies_of(self, entry: usize, heard: &mut u64) -> u8
        ensures { record { number = result; copies = heard.new }
            ≡ copies_call (state_at (arrays_held self.entry)) entry heard.old }
    {
        if !self.is_acceptable() {
            return base_refusal::number(Refusal::NotAccepted);
        }
        if self.numbers[0] as usize <= entry {
            return base_refusal::number(Refusal::Argument);
        }
        *heard = u64::from(self.copies[entry]);
        0
    }

    // Whether the state in these arrays is acceptable.
    pub fn is_acceptable(self) -> bool
        ensures { result ≡ acceptable (state_at (arrays_held self.entry)) }
    {
        is_acceptable(self.times, self.lengths, self.bytes, self.numbers)
    }
}

// Whether the state in these arrays is acceptable; its numbers of copies do not matter.
// Kept (group): it takes four of the five arrays, so it can take no `Held`.
pub fn is_acceptable<'a>(
    times: &'a [u64; CAPACITY],
    lengths: &'a [u8; CAPACITY],
    bytes: &'a [u8; BYTES],
    numbers: &'a [u64; NUMBERS],
) -> bool
    ensures { (copies : List ℕ) → result ≡ acceptable
        (state_at (arrays times.now lengths.now bytes.now copies
        numbers.now)) }
{
    acceptable::is_acceptable(times, lengths, bytes, summary_in(numbers))
}

// The summary in eight numbers. Its contract also says that there are eight: this is known for a slice, but not for a lent array.
pub fn summary_in(numbers: &[u64; NUMBERS]) -> Summary
    ensures { (result ≡ summary_in numbers.now) × (length numbers.now ≡ 8) }
{
    read_numbers(numbers)
}

fn read_numbers(numbers: &[u64]) -> Summary
    requires { length numbers.now ≡ 8 }
    ensures { (result ≡ summary_in numbers.now) × (length numbers.now ≡ 8) }
{
    let totals = Totals {
        received: numbers[2],
        kept: numbers[3],
        copies: numbers[4],
        loose: numbers[5],
        damaged: numbers[6],
        late: numbers[7],
    };
    Summary {
        count: numbers[0] as usize,
        latest: numbers[1],
        totals,
    }
}

// Writes the eight numbers of a state.
pub fn store(summary: Summary, numbers: &mut [u64; NUMBERS])
    ensures { numbers.new ≡ summary_numbers summary }
{
    let totals = summary.totals;
    *numbers = [
        summary.count as u64,
        summary.latest,
        totals.received,
        totals.kept,
        totals.copies,
        totals.loose,
        totals.damaged,
        totals.late,
    ];
}

// An answer as one number.
fn answer_number(answer: Answer) -> u16
    ensures { result ≡ answer_number (shown_of answer) }
{
    256 * kind_of(answer) as u16 + number_of(answer) as u16
}

// KEPT 0, COPY 1, LOOSE 2; 0 for a refusal.
pub fn kind_of(answer: Answer) -> u8
    ensures { result ≡ kind_of (shown_of answer) }
{
    match answer {
        Answer::Kept => 0,
        Answer::Copy => 1,
        Answer::Loose => 2,
        Answer::Refused(_) => 0,
    }
}

// The number of a refusal; 0 for any other answer.
pub fn number_of(answer: Answer) -> u8
    ensures { result ≡ shown_number (shown_of answer) }
{
    match answer {
        Answer::Refused(why) => base_refusal::number(why),
        _ => 0,
    }
}
