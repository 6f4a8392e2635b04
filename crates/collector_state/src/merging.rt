// One reception (document 01, "Merging"): its answer, the counts, and what is sent if it is kept.
ghost use Rattle.std.specs.Prelude.{◌≡◌, ◌&&◌, List, ℕ, ◌≤◌, ◌<◌, leb, eqb, length, drop};
ghost use Rattle.base_refusal.specs.Number.{number_of, outcome_number};
ghost use Rattle.radio_erp1.specs.Subtelegram.{min_length, max_length};
ghost use Rattle.radio_telegram.specs.Output.{written};
ghost use Rattle.collector_model.specs.Answer.{Refused, shown_of, is_kept};
ghost use Rattle.collector_model.specs.View.{capacity};
ghost use Rattle.collector_model.specs.Acceptable.{is_summed};
ghost use Rattle.collector_model.specs.Step.{tally};
ghost use Rattle.collector_state.specs.Collector.{columns, columns_lent, entries_at, SameArrays};
ghost use Rattle.collector_state.specs.Admission.{relayed_for, reception_check, Admits};
ghost use Rattle.collector_state.specs.Private.{JudgedBy, judged_as, judged_heard, Countable, counted_only};

use crate::{Collector, Lent, Summary, acceptable, entries};
use base_refusal::Refusal;
use collector_model::{Answer, Totals};

impl<'a> Lent<'a> {
    // Takes one reception, with a state that is changed in place. `fit` is the result of the test of the state, so a run of receptions makes it only
    // once. If it is false, if more than 64 entries are counted or if the totals do not add up, the answer is 11 and nothing is changed. With every
    // refusal the four arrays are unchanged, whatever `fit` is.
    // Kept (step): `fit` is what a test said of the state. The answer depends on it, and it chooses no step.
    // A part of each of its callers: as a call of its own a reception takes 4 to 12 % more.
    #[inline(always)]
    pub fn admit(&mut self, fit: bool, received: &[u8], time: u64) -> Answer
        ensures admits { Admits fit (columns_lent self.old) self.old.summary
            (record { bytes = received.now; time = time }) (columns_lent self.new)
            (record { summary = self.new.summary; answer = result }) }
        ensures same_loans { SameArrays self.old self.new }
    {
        let summary = self.summary;
        let count = summary.count;
        let totals = summary.totals;
        if !is_safe(fit, count, totals) {
            return Answer::Refused(Refusal::NotAccepted);
        }
        if totals.received == u64::MAX {
            return Answer::Refused(Refusal::Full);
        }
        if let Err(why) = check_reception(summary.latest, received, time) {
            self.summary = only_counted(summary, why);
            return Answer::Refused(why);
        }
        let gone = entries::expired(self.times, count, time);
        let left = count - gone;
        match classify(
            self.times, self.lens, self.bytes, gone, count, received, time,
        ) {
            Judged::Kept => {
                self.change(gone, left, None, true, received, time);
                self.summary = now_open(left + 1, time, counted(totals, Answer::Kept));
                Answer::Kept
            }
            Judged::Copy(entry) => {
                self.change(gone, left, Some(entry), false, received, time);
                self.summary = now_open(left, time, counted(totals, Answer::Copy));
                Answer::Copy
            }
            Judged::Loose => {
                self.change(gone, left, None, false, received, time);
                self.summary = now_open(left, time, counted(totals, Answer::Loose));
                Answer::Loose
            }
        }
    }
}

fn now_open(count: usize, latest: u64, totals: Totals) -> Summary
    ensures { result ≡ record { count = count; latest = latest; totals = totals } }
{
    Summary {
        count,
        latest,
        totals,
    }
}

// What a reception that passed the tests is; for a copy, the entry that it is a copy of.
#[derive(Clone, Copy)]
enum Judged {
    Kept,
    Copy(usize),
    Loose,
}

// Writes what a repeater set to `setting` sends for a reception with this answer to the front of `out`, and returns how many bytes it is: 0 if it was
// not kept. A kept reception is valid, so it is not checked again.
pub fn relay_kept(
    setting: u8,
    answer: Answer,
    bytes: &[u8],
    out: &mut [u8; Collector::MAX_LEN],
) -> usize
    ensures { record { number = 0; len = result; output = out.new }
        ≡ written (relayed_for setting (shown_of answer) bytes.now) out.old }
{
    if !is_kept(answer) {
        return 0;
    }
    radio_telegram::repeater::relay(setting, bytes, out)
}

// Whether the state was found acceptable, its arrays can hold its entries, and no total can wrap.
fn is_safe(fit: bool, count: usize, totals: Totals) -> bool
    ensures { result ≡ (fit && (leb count capacity && is_summed totals)) }
{
    fit & ((count <= Collector::CAPACITY) & acceptable::is_summed(totals))
}

// The refusal of a reception before the search in the open telegrams.
fn check_reception(latest: u64, bytes: &[u8], time: u64) -> Result<(), Refusal>
    ensures { outcome_number result ≡ reception_check latest (record { bytes = bytes.now; time = time }) }
{
    radio_erp1::check(bytes)?;
    if time < latest {
        return Err(Refusal::Late);
    }
    Ok(())
}

// The summary after a reception that was refused: it is only counted.
fn only_counted(summary: Summary, why: Refusal) -> Summary
    requires { Countable summary.totals }
    ensures { result ≡ counted_only summary why }
{
    Summary {
        totals: counted(summary.totals, Answer::Refused(why)),
        ..summary
    }
}

// What a valid reception is, if of `count` telegrams the first `gone` are no longer open. Numbers of copies are not read.
// Kept (group): it reads three of the five fields of a `Held`, as `find` does.
fn classify<'a>(
    times: &'a [u64; Collector::CAPACITY],
    lens: &'a [u8; Collector::CAPACITY],
    bytes: &'a [u8; Collector::CAPACITY * Collector::MAX_LEN],
    gone: usize,
    count: usize,
    received: &'a [u8],
    time: u64,
) -> Judged
    requires { (gone ≤ count) × (count ≤ capacity)
        × (min_length ≤ length received.now) × (length received.now ≤ max_length) }
    ensures { (copies : List ℕ) → JudgedBy
        (drop gone (entries_at (columns times.now lens.now bytes.now copies) count))
        (record { bytes = received.now; time = time }) (judged_as result) (judged_heard result) }
{
    let left = count - gone;
    if let Some(entry) = entries::find(times, lens, bytes, gone, count, received, time) {
        return Judged::Copy(entry);
    }
    if Collector::CAPACITY <= left {
        return Judged::Loose;
    }
    Judged::Kept
}

// The totals after one more answer. It matches on the answer, so the compiler can use what it knows of the answer at the call.
fn counted(n: Totals, answer: Answer) -> Totals
    requires { Countable n }
    ensures { result ≡ tally (shown_of answer) n }
{
    match answer {
        Answer::Kept => Totals {
            received: n.received + 1,
            kept: n.kept + 1,
            ..n
        },
        Answer::Copy => Totals {
            received: n.received + 1,
            copies: n.copies + 1,
            ..n
        },
        Answer::Loose => Totals {
            received: n.received + 1,
            loose: n.loose + 1,
            ..n
        },
        Answer::Refused(why) => counted_refusal(n, why),
    }
}

fn counted_refusal(n: Totals, why: Refusal) -> Totals
    requires { Countable n }
    ensures { result ≡ tally (Refused (number_of why)) n }
{
    match why {
        Refusal::Full | Refusal::NotAccepted => n,
        Refusal::Length | Refusal::Sum | Refusal::Crc | Refusal::Nested => Totals {
            received: n.received + 1,
            damaged: n.damaged + 1,
            ..n
        },
        Refusal::Late => Totals {
            received: n.received + 1,
            late: n.late + 1,
            ..n
        },
        _ => Totals {
            received: n.received + 1,
            ..n
        },
    }
}

fn is_kept(answer: Answer) -> bool
    ensures { result ≡ is_kept (shown_of answer) }
{
    matches!(answer, Answer::Kept)
}
