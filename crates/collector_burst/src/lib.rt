// Receptions that are handed over in one lent list with a repeater setting, and a second list for the replies (document 02, A1 and A7).
#![tactic(auto)]

ghost use Rattle.std.specs.Prelude.{◌≡◌, ◌≤◌, true, min, length};
ghost use Rattle.base_refusal.specs.Number.{outcome_number};
ghost use Rattle.radio_erp1.specs.Subtelegram.{max_length};
ghost use Rattle.collector_model.specs.Burst.{call_number};
ghost use Rattle.collector_state.specs.Collector.{columns_lent, SameArrays};
ghost use Rattle.collector_burst.specs.Records.{Bursts, listed, WithinOf, size_of};
ghost use Rattle.collector_burst.specs.Private.{Steps, Delivered};

use base_refusal::Refusal;
use collector_model::Answer;
use collector_state::{Collector, Lent, acceptable, merging};
use radio_telegram::frame::Frame;
use radio_telegram::repeater::MAX_SETTING;

// The largest number of receptions in a burst.
pub const MAX_BURST: usize = 256;
// The length of a list that is held by value: room for more than 256 receptions, so that 10 can be answered, and for further entries.
pub const LISTED: usize = MAX_BURST + 3;

// One reception of a list: the first `len` of its bytes, and the moment they were complete, in ms.
// Kept (buffer): no heap; lists of receptions are lent.
#[derive(Clone, Copy)]
pub struct Reception {
    pub bytes: [u8; Collector::MAX_LEN],
    pub len: u8,
    pub time: u64,
}

// The answer to a reception, and the telegram to send.
#[derive(Clone, Copy)]
pub struct Reply {
    pub answer: Answer,
    pub sent: Frame,
}

// Takes the receptions one by one, and writes the reply to each at the same index of the second list; the entries after them are unchanged. A refused
// burst changes nothing: 11 if the state is not acceptable, 6 if the second list is shorter, 10 for more than 256 receptions or a setting over 2.
pub fn burst(
    mut c: Collector,
    setting: u8,
    receptions: &[Reception],
    replies: &mut [Reply],
) -> Result<Collector, Refusal>
    ensures { Bursts c setting receptions.now replies.old result replies.new }
{
    if !acceptable::is_acceptable(&c.times, &c.lens, &c.bytes, c.summary) {
        return Err(Refusal::NotAccepted);
    }
    check_call(setting, receptions.len(), replies.len())?;
    let mut state = Lent {
        times: &mut c.times,
        lens: &mut c.lens,
        bytes: &mut c.bytes,
        copies: &mut c.copies,
        summary: c.summary,
    };
    deliver(&mut state, setting, receptions, replies);
    c.summary = state.summary;
    Ok(c)
}

// The tests of a burst beside that of the state: the setting, the number of receptions, and the number of entries for replies.
pub fn check_call(setting: u8, receptions: usize, places: usize) -> Result<(), Refusal>
    ensures { outcome_number result ≡ call_number setting receptions places }
{
    if places < receptions {
        return Err(Refusal::ShortOutput);
    }
    if (MAX_BURST < receptions) | (MAX_SETTING < setting) {
        return Err(Refusal::Argument);
    }
    Ok(())
}

// Takes the receptions at an acceptable state one by one, and writes the reply to each at the same index of the second list.
fn deliver(state: &mut Lent, setting: u8, receptions: &[Reception], replies: &mut [Reply])
    requires { length receptions.now ≤ length replies.old }
    ensures delivers { Delivered setting true (columns_lent state.old) state.old.summary
        receptions.now replies.old
        (columns_lent state.new) state.new.summary replies.new }
    ensures same_loans { SameArrays state.old state.new }
{
    for i in 0..receptions.len() {
        replies[i] = take_record(state, setting, receptions[i]);
    }
}

// Takes one reception, with an acceptable state that is changed in place, and makes what is sent for it at the setting. A length over 21 gets the same
// answer as no bytes.
fn take_record(state: &mut Lent, setting: u8, reception: Reception) -> Reply
    ensures steps { Steps setting true (columns_lent state.old) state.old.summary reception
        (columns_lent state.new) (record { summary = state.new.summary; reply = result }) }
    ensures same_loans { SameArrays state.old state.new }
{
    let received = reception.bytes;
    let n = size(reception.len);
    let answer = state.admit(true, &received[..n], reception.time);
    let mut sent = [0u8; Collector::MAX_LEN];
    let len = merging::relay_kept(setting, answer, &received[..n], &mut sent);
    Reply {
        answer,
        sent: Frame { len, bytes: sent },
    }
}

// How many bytes are handed over: none if the length of the record is over 21.
fn size(len: u8) -> usize
    ensures { (result ≡ size_of len) × (result ≤ max_length) }
{
    let n = usize::from(len);
    if Collector::MAX_LEN < n { 0 } else { n }
}

// The result of a burst that gets the front of two lists, and the second list after it.
#[derive(Clone, Copy)]
pub struct Within {
    pub bursted: Result<Collector, Refusal>,
    pub replies: [Reply; LISTED],
}

// A burst of the first `n` records, with the first `m` replies for its answers; a number greater than the length of a list means the whole list. For
// a caller that holds its lists by value.
pub fn burst_within(
    c: Collector,
    setting: u8,
    records: [Reception; LISTED],
    n: usize,
    replies: [Reply; LISTED],
    m: usize,
) -> Within
    ensures { WithinOf c setting (min n listed) (min m listed) records replies result }
{
    burst_fronts(c, setting, records, n.min(LISTED), replies, m.min(LISTED))
}

fn burst_fronts(
    c: Collector,
    setting: u8,
    records: [Reception; LISTED],
    n: usize,
    mut replies: [Reply; LISTED],
    m: usize,
) -> Within
    requires { (n ≤ listed) × (m ≤ listed) }
    ensures { WithinOf c setting n m records replies result }
{
    let bursted = burst(c, setting, &records[..n], &mut replies[..m]);
    Within { bursted, replies }
}
