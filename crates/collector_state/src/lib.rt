// The collector merges receptions of one telegram and counts them (document 01, "Merging"). What a repeater sends for a kept reception is a call of
// its own (document 02, A7).
#![tactic(auto)]

pub mod acceptable;
pub(crate) mod entries;
pub mod merging;

ghost use Rattle.std.specs.Prelude.{◌≡◌};
ghost use Rattle.collector_model.specs.Acceptable.{acceptable};
ghost use Rattle.collector_model.specs.Heard.{copies_of};
ghost use Rattle.collector_state.specs.Collector.{columns_held, columns_lent, view_in, view_of, IsFresh, Takes};
ghost use Rattle.collector_state.specs.Heard.{heard_of};

use acceptable::is_acceptable;
use base_refusal::Refusal;
use collector_model::{Answer, Totals};

// The state, in flat arrays. Of the first `summary.count` entries, in opening order, entry i has times[i], lens[i], copies[i] and the 21 bytes from
// 21 i on, of which the first lens[i] are those received. All other elements are unspecified.
// Kept (buffer): no heap; C lends the four arrays, and a caller may save them.
#[derive(Clone, Copy)]
pub struct Collector {
    pub times: [u64; Collector::CAPACITY],
    pub lens: [u8; Collector::CAPACITY],
    pub bytes: [u8; Collector::CAPACITY * Collector::MAX_LEN],
    pub copies: [u16; Collector::CAPACITY],
    pub summary: Summary,
}

// The counters of a state: how many telegrams are open, the latest time, and the totals.
#[derive(Clone, Copy)]
pub struct Summary {
    pub count: usize,
    pub latest: u64,
    pub totals: Totals,
}

// The state, with its four arrays lent to be read.
#[derive(Clone, Copy)]
pub struct Held<'a> {
    pub times: &'a [u64; Collector::CAPACITY],
    pub lens: &'a [u8; Collector::CAPACITY],
    pub bytes: &'a [u8; Collector::CAPACITY * Collector::MAX_LEN],
    pub copies: &'a [u16; Collector::CAPACITY],
    pub summary: Summary,
}

// The same, lent to be changed: no array is copied.
#[derive(Drop)]
pub struct Lent<'a> {
    pub times: &'a mut [u64; Collector::CAPACITY],
    pub lens: &'a mut [u8; Collector::CAPACITY],
    pub bytes: &'a mut [u8; Collector::CAPACITY * Collector::MAX_LEN],
    pub copies: &'a mut [u16; Collector::CAPACITY],
    pub summary: Summary,
}

// The next state and the answer.
#[derive(Clone, Copy)]
pub struct Taken {
    pub next: Collector,
    pub answer: Answer,
}

impl Collector {
    // RX maturity: how long a telegram is open (source document 001, Table 1).
    pub const MATURITY_MS: u64 = 100;
    // TX maturity: how long a sender takes (source document 001, Table 1).
    pub const TX_MATURITY_MS: u64 = 40;
    // How many telegrams can be open.
    pub const CAPACITY: usize = 64;
    // The longest subtelegram.
    pub const MAX_LEN: usize = radio_erp1::MAX_LEN;
    // The largest number of copies that is counted for one telegram.
    pub const MAX_COPIES: u16 = 65535;

    // A collector with no telegram open and nothing counted.
    pub fn fresh() -> Collector
        ensures { IsFresh result }
    {
        Collector {
            times: [0u64; Collector::CAPACITY],
            lens: [0u8; Collector::CAPACITY],
            bytes: [0u8; Collector::CAPACITY * Collector::MAX_LEN],
            copies: [0u16; Collector::CAPACITY],
            summary: Summary {
                count: 0,
                latest: 0,
                totals: Totals {
                    received: 0,
                    kept: 0,
                    copies: 0,
                    loose: 0,
                    damaged: 0,
                    late: 0,
                },
            },
        }
    }

    // Takes one reception: its bytes and the time when they were complete, in ms. If the state is not acceptable, the answer is 11 and nothing
    // changes. The arrays are lent and changed in place, so only the state is copied, once in and once out.
    pub fn take(mut self, bytes: &[u8], time: u64) -> Taken
        ensures { Takes self (record { bytes = bytes.now; time = time }) result }
    {
        let summary = self.summary;
        let fit = is_acceptable(&self.times, &self.lens, &self.bytes, summary);
        let mut state = Lent {
            times: &mut self.times,
            lens: &mut self.lens,
            bytes: &mut self.bytes,
            copies: &mut self.copies,
            summary,
        };
        let answer = state.admit(fit, bytes, time);
        self.summary = state.summary;
        Taken { next: self, answer }
    }

    // How often the telegram of entry `entry`, counted from 0 in opening order, was received again. 11 if the state is not acceptable, 10 if the
    // entry is not open.
    pub fn copies(self, entry: usize) -> Result<u16, Refusal>
        ensures { heard_of result ≡ copies_of (view_of self) entry }
    {
        let summary = self.summary;
        if !is_acceptable(&self.times, &self.lens, &self.bytes, summary) {
            return Err(Refusal::NotAccepted);
        }
        if summary.count <= entry {
            return Err(Refusal::Argument);
        }
        Ok(self.copies[entry])
    }
}

impl<'a> Held<'a> {
    // Whether the state is acceptable.
    pub fn is_acceptable(self) -> bool
        ensures { result ≡ acceptable (view_in (columns_held self.entry) self.entry.summary) }
    {
        is_acceptable(self.times, self.lens, self.bytes, self.summary)
    }
}

impl<'a> Lent<'a> {
    // The same state, to be read.
    pub fn held(&self) -> Held
        ensures { (columns_held result ≡ columns_lent self.now) × (result.summary ≡ self.now.summary) }
    {
        Held {
            times: self.times,
            lens: self.lens,
            bytes: self.bytes,
            copies: self.copies,
            summary: self.summary,
        }
    }
}
