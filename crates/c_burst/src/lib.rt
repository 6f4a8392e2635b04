// A burst of receptions at a collector in five lent arrays, as other languages call it.
// Kept (code): the C interface: the calls answer by numbers.
#![tactic(auto)]

ghost use Rattle.std.specs.Prelude.{◌≡◌, true, List, ℕ, ◌*◌, ◌≤◌, ◌<◌, length, get_or, drop};
ghost use Rattle.radio_erp1.specs.Subtelegram.{max_length};
ghost use Rattle.base_buffers.specs.Buffer.{part};
ghost use Rattle.collector_model.specs.Answer.{shown_of};
ghost use Rattle.collector_model.specs.Acceptable.{acceptable};
ghost use Rattle.collector_model.specs.Exact.{Fits};
ghost use Rattle.collector_model.specs.Burst.{max_burst};
ghost use Rattle.collector_state.specs.Collector as collector;
ghost use Rattle.collector_state.specs.Collector.{columns_lent, view_in};
ghost use Rattle.collector_state.specs.Admission.{Tested};
ghost use Rattle.collector_burst.specs.Records.{size_of};
ghost use Rattle.c_layout.specs.Frame.{frame_length};
ghost use Rattle.c_collector.specs.State.{arrays, arrays_in, SameLoans, summary_in, state_at};
ghost use Rattle.c_burst.specs.Bytes.{reception_in, receptions_in, reply_length, reply_bytes, is_sized};
ghost use Rattle.c_burst.specs.Calls.{Bursts};
ghost use Rattle.c_burst.specs.Private.{Answered, Delivered};

use base_refusal::Refusal;
use c_collector::{Lent, NUMBERS};
use c_layout::{FRAME_LENGTH, WRONG_SIZE};
use collector_model::Answer;
use collector_state::{Collector, Summary, merging};

// The length of a reply: the kind and the number of an answer, and the frame that is sent.
const REPLY_LENGTH: usize = 2 + FRAME_LENGTH;

// Takes receptions one by one, with one test of the state. Refused: 11, then 255 if there is not a frame for each time, 6, 10; then everything is
// unchanged.
pub fn burst(
    state: &mut Lent,
    setting: u8,
    moments: &[u64],
    records: &[u8],
    replies: &mut [u8],
) -> u8
    ensures bursts { Bursts (arrays_in state.old) setting moments.now records.now replies.old result
        (arrays_in state.new) replies.new }
    ensures same_loans { SameLoans state.old state.new }
{
    if !state.held().is_acceptable() {
        return base_refusal::number(Refusal::NotAccepted);
    }
    let n = moments.len();
    if !is_sized(n, records.len()) {
        return WRONG_SIZE;
    }
    if let Err(why) = collector_burst::check_call(setting, n, replies.len() / REPLY_LENGTH) {
        return base_refusal::number(why);
    }
    let summary = summary_of(state.copies, state.numbers);
    let mut entries = collector_state::Lent {
        times: &mut *state.times,
        lens: &mut *state.lengths,
        bytes: &mut *state.bytes,
        copies: &mut *state.copies,
        summary,
    };
    deliver(&mut entries, setting, moments, records, replies);
    c_collector::store(entries.summary, state.numbers);
    0
}

// Whether there is a frame for each time.
fn is_sized(moments: usize, records: usize) -> bool
    ensures { result ≡ is_sized moments records }
{
    (records / FRAME_LENGTH == moments) & (records % FRAME_LENGTH == 0)
}

// The summary of a state. Its contract also says that the numbers have the bits of their types: this is known for a slice, but not for a lent array.
fn summary_of(copies: &[u16], numbers: &[u64; NUMBERS]) -> Summary
    ensures { (result ≡ summary_in numbers.now)
        × ((times lengths bytes : List ℕ)
        → Fits (state_at (arrays times lengths bytes copies.now numbers.now))) }
{
    c_collector::summary_in(numbers)
}

// Takes the receptions of all records, and writes the reply to each at the same index.
fn deliver(
    state: &mut collector_state::Lent,
    setting: u8,
    moments: &[u64],
    records: &[u8],
    replies: &mut [u8],
)
    requires { (length moments.now ≤ max_burst) × (length records.now ≡ frame_length * length moments.now)
        × (reply_length * length moments.now ≤ length replies.old)
        × Tested true (view_in (columns_lent state.old) state.old.summary) }
    ensures delivers { Delivered setting (view_in (columns_lent state.old) state.old.summary) (columns_lent state.old)
        (receptions_in moments.now records.now) replies.old replies.new
        (view_in (columns_lent state.new) state.new.summary) (columns_lent state.new) }
    ensures same_loans { collector.SameArrays state.old state.new }
{
    // Kept (loop): two lists and a buffer of replies go along by one index, and a zip of three is no plainer.
    for i in 0..moments.len() {
        take_frame(
            state,
            setting,
            &records[FRAME_LENGTH * i..FRAME_LENGTH * i + FRAME_LENGTH],
            moments[i],
            &mut replies[REPLY_LENGTH * i..REPLY_LENGTH * i + REPLY_LENGTH],
        );
    }
}

// Takes the reception of one frame, for an acceptable state, and writes the reply.
fn take_frame(
    state: &mut collector_state::Lent,
    setting: u8,
    frame: &[u8],
    time: u64,
    reply: &mut [u8],
)
    requires { (length frame.now ≡ frame_length) × (length reply.old ≡ reply_length)
        × (acceptable (view_in (columns_lent state.old) state.old.summary) ≡ true) }
    ensures answers { Answered setting (view_in (columns_lent state.old) state.old.summary) (columns_lent state.old)
        (reception_in frame.now time) reply.new
        (view_in (columns_lent state.new) state.new.summary) (columns_lent state.new) }
    ensures same_loans { collector.SameArrays state.old state.new }
{
    let received = telegram_in(frame);
    let answer = state.admit(true, received, time);
    let mut sent = [0u8; Collector::MAX_LEN];
    let len = merging::relay_kept(setting, answer, received, &mut sent);
    put_reply(reply, answer, len, &sent);
}

// Writes the kind and the number of an answer, and the frame that is sent: its length is fixed, so it is copied at once.
fn put_reply(reply: &mut [u8], answer: Answer, len: usize, sent: &[u8; Collector::MAX_LEN])
    requires { (length reply.old ≡ reply_length) × (len ≤ max_length) }
    ensures { reply.new
        ≡ reply_bytes (record { answer = shown_of answer; sent = record { len = len; bytes = sent.now } }) }
{
    reply[0] = c_collector::kind_of(answer);
    reply[1] = c_collector::number_of(answer);
    reply[2] = len as u8;
    base_bytes::copy(sent, &mut reply[3..REPLY_LENGTH]);
}

// The bytes of a frame's reception: none if its length is over 21, because the check gives both the same answer.
fn telegram_in(frame: &[u8]) -> &[u8]
    requires { length frame.now ≡ frame_length }
    ensures { result.now ≡ part 0 (size_of (get_or frame.now 0 0)) (drop 1 frame.now) }
{
    let len = usize::from(frame[0]);
    if Collector::MAX_LEN < len {
        return &frame[1..1];
    }
    let end = 1 + len;
    &frame[1..end]
}
