// The calls by value: each function here makes one on the collector, fills the output with what is seen, and returns the next state.
ghost use Rattle.std.specs.Prelude.{◌≡◌, [], cond, ◌+◌, ◌-◌, ◌*◌, ◌≤◌, min, length, replicate};
ghost use Rattle.radio_telegram.specs.Frame.{frame_of};
ghost use Rattle.radio_telegram.specs.Repeater.{repeat_of};
ghost use Rattle.collector_model.specs.Answer.{shown_of, is_kept};
ghost use Rattle.collector_model.specs.Image.{checkpoint_of};
ghost use Rattle.collector_model.specs.History.{Receive, Checkpoint, Restore, Cut, Burst, Ask, Look};
ghost use Rattle.collector_state.specs.Collector.{view_of, next_number, next_in};
ghost use Rattle.collector_state.specs.Heard.{heard_of};
ghost use Rattle.collector_checkpoint.specs.Checkpoint.{checkpoint_result};
ghost use Rattle.collector_burst.specs.Records.{listed};
ghost use Rattle.c_collector.specs.State.{arrays_of};
ghost use Rattle.history_replay_model.specs.Record.{head_length, count_length, recorded_reply_length, seen_bytes};
ghost use Rattle.history_replay.specs.Calls.{call_length, number_at, call_setting, call_reception, output_in, lent_in, burst_receptions_in, place_in, places_in, asked_entry};
ghost use Rattle.history_replay.specs.Private.{Called, wrote_of, BurstGiven};

use crate::writing::{BODY, HEAD};
use crate::{calls, reading, value_lists, writing};
use base_refusal::Refusal;
use collector_burst::Within;
use collector_model::Answer;
use collector_state::Collector;
use radio_telegram::frame::Frame;

pub(crate) fn received<'a>(c: Collector, r: &'a [u8], out: &'a mut [u8]) -> Collector
    requires { (length r.now ≡ call_length) × (length out.old ≡ head_length + recorded_reply_length) }
    ensures { Called (arrays_of c)
        (Receive (call_setting r.now) (call_reception r.now))
        out.new (arrays_of result) }
{
    let time = reading::number_at(r, 1);
    let n = base_numbers::usize_of_byte(r[9]).min(reading::RECEPTION);
    let setting = r[63];
    let taken = c.take(&r[10..10 + n], time);
    let next = taken.next;
    let answer = taken.answer;
    let sent = sent_for(setting, answer, &r[10..10 + n]);
    let form = value_lists::form_of(answer);
    let number = value_lists::number_of(answer);
    writing::put_answered(out, form, number, sent, next.summary.totals);
    next
}

// What is sent for a reception with this answer: only KEPT is ever repeated.
fn sent_for(setting: u8, answer: Answer, bytes: &[u8]) -> Frame
    ensures { result ≡ frame_of (cond (is_kept (shown_of answer)) (repeat_of setting bytes.now) []) }
{
    match answer {
        Answer::Kept => calls::repeated(setting, bytes),
        Answer::Copy => Frame::empty(),
        Answer::Loose => Frame::empty(),
        Answer::Refused(_) => Frame::empty(),
    }
}

pub(crate) fn saved<'a>(c: Collector, r: &'a [u8], out: &'a mut [u8]) -> Collector
    requires { (length r.now ≡ call_length)
        × (length out.old ≡ head_length + count_length + length (output_in r.now)) }
    ensures { Called (arrays_of c) (Checkpoint (output_in r.now)) out.new (arrays_of result) }
{
    put_wrote(out, c, r[9]);
    c
}

// Makes a checkpoint into all bytes after the length; each of them has the value `fill` before.
fn put_wrote(out: &mut [u8], c: Collector, fill: u8)
    requires { head_length + count_length ≤ length out.old }
    ensures { out.new ≡ seen_bytes
        (wrote_of (view_of c) (replicate (length out.old - (head_length + count_length)) fill)) }
{
    let n = out.len() - BODY;
    let answer = save_into(&mut out[BODY..BODY + n], c, fill);
    let number = base_refusal::outcome_number(answer);
    writing::put_body(
        &mut out[0..BODY],
        crate::SAVING,
        number,
        c.summary.totals,
        n as u64,
    );
}

fn save_into(out: &mut [u8], c: Collector, fill: u8) -> Result<(), Refusal>
    ensures { checkpoint_result result out.new
        ≡ checkpoint_of (view_of c) (replicate (length out.old) fill) }
{
    writing::set_all(out, fill);
    collector_checkpoint::checkpoint(c, out)
}

// Makes a cut. The second cell is that of the restore into another collector, of the bytes in the first.
pub(crate) fn cut<'a>(c: Collector, r: &'a [u8], out: &'a mut [u8]) -> Collector
    requires { (length r.now ≡ call_length)
        × (length out.old ≡ head_length + count_length + length (output_in r.now) + head_length) }
    ensures { Called (arrays_of c) (Cut (output_in r.now)) out.new (arrays_of result) }
{
    let n = reading::output_length(r);
    let end = BODY + n;
    put_wrote(&mut out[0..end], c, r[9]);
    let last = BODY + collector_checkpoint::IMAGE_LENGTH.min(n);
    let fresh = Collector::fresh();
    let restored = collector_checkpoint::restore(fresh, &out[BODY..last]);
    let number = next_number(restored);
    let next = next_in(fresh, restored);
    writing::put_head(
        &mut out[end..end + HEAD],
        crate::RESTORING,
        number,
        next.summary.totals,
    );
    next
}

pub(crate) fn restored<'a>(
    c: Collector,
    r: &'a [u8],
    lent: &'a [u8],
    out: &'a mut [u8],
) -> Collector
    requires { (length r.now ≡ call_length) × (length out.old ≡ head_length) }
    ensures { Called (arrays_of c) (Restore (lent_in lent.now r.now)) out.new (arrays_of result) }
{
    let restored = collector_checkpoint::restore(c, reading::lent_in(lent, r));
    let number = next_number(restored);
    let next = next_in(c, restored);
    writing::put_head(out, crate::RESTORING, number, next.summary.totals);
    next
}

pub(crate) fn delivered<'a>(
    c: Collector,
    r: &'a [u8],
    lent: &'a [u8],
    out: &'a mut [u8],
) -> Collector
    requires { (length r.now ≡ call_length)
        × (length out.old ≡ head_length + count_length + recorded_reply_length * min (number_at 17 r.now) listed) }
    ensures { Called (arrays_of c)
        (Burst (call_setting r.now) (burst_receptions_in (lent_in lent.now r.now))
        (places_in r.now))
        out.new (arrays_of result) }
{
    let m = reading::place_count(r);
    let made = burst_in(c, r, reading::lent_in(lent, r), m);
    let bursted = made.bursted;
    let replies = made.replies;
    let number = next_number(bursted);
    let next = next_in(c, bursted);
    writing::put_body(
        &mut out[0..BODY],
        crate::DELIVERING,
        number,
        next.summary.totals,
        m as u64,
    );
    value_lists::put_replies(&mut out[BODY..BODY + writing::REPLY * m], replies, m);
    next
}

// Makes the burst of all whole records of these bytes, with m entries for replies.
fn burst_in<'a>(c: Collector, r: &'a [u8], bytes: &'a [u8], m: usize) -> Within
    requires { (length r.now ≡ call_length) × (m ≤ listed) }
    ensures { BurstGiven c (call_setting r.now) (burst_receptions_in bytes.now)
        (replicate m (place_in r.now)) m result }
{
    let n = (bytes.len() / crate::CALL_LENGTH).min(collector_burst::LISTED);
    let records = value_lists::receptions_in(bytes, n);
    let places = value_lists::places(value_lists::place_in(r));
    collector_burst::burst_within(c, r[63], records, n, places, m)
}

pub(crate) fn asked<'a>(c: Collector, r: &'a [u8], out: &'a mut [u8]) -> Collector
    requires { (length r.now ≡ call_length) × (length out.old ≡ head_length + count_length) }
    ensures { Called (arrays_of c) (Ask (asked_entry r.now)) out.new (arrays_of result) }
{
    let entry = reading::number_at(r, 1);
    let heard = c.copies(entry as usize);
    let number = heard_number(heard);
    let copies = heard_copies(heard);
    writing::put_body(
        out,
        crate::ASKING,
        number,
        c.summary.totals,
        u64::from(copies),
    );
    c
}

pub(crate) fn looked(c: Collector, out: &mut [u8]) -> Collector
    requires { length out.old ≡ head_length }
    ensures { Called (arrays_of c) Look out.new (arrays_of result) }
{
    writing::put_head(out, crate::LOOKING, 0, c.summary.totals);
    c
}

// ---- what the calls answer

// The number of an answer with the next state.
fn next_number(r: Result<Collector, Refusal>) -> u8
    ensures { result ≡ next_number r }
{
    match r {
        Ok(_) => 0,
        Err(why) => base_refusal::number(why),
    }
}

// The state after a call: after a refusal, the one that was handed in.
fn next_in(c: Collector, r: Result<Collector, Refusal>) -> Collector
    ensures { result ≡ next_in c r }
{
    match r {
        Ok(next) => next,
        Err(_) => c,
    }
}

fn heard_number(r: Result<u16, Refusal>) -> u8
    ensures { result ≡ (heard_of r).number }
{
    match r {
        Ok(_) => 0,
        Err(why) => base_refusal::number(why),
    }
}

fn heard_copies(r: Result<u16, Refusal>) -> u16
    ensures { result ≡ (heard_of r).copies }
{
    match r {
        Ok(copies) => copies,
        Err(_) => 0,
    }
}
