// The calls of the library: each function here makes one on the collector in the arrays, and fills the output with what is seen.
ghost use Rattle.std.specs.Prelude.{◌≡◌, cond, [], ◌+◌, ◌-◌, ◌*◌, ◌≤◌, min, eqb, length, replicate};
ghost use Rattle.radio_telegram.specs.Frame.{frame_of};
ghost use Rattle.radio_telegram.specs.Repeater.{repeat_result};
ghost use Rattle.collector_model.specs.Image.{checkpoint_of};
ghost use Rattle.collector_model.specs.History.{Receive, Checkpoint, Restore, Cut, Burst, Ask, Look};
ghost use Rattle.collector_burst.specs.Records.{listed};
ghost use Rattle.c_collector.specs.State.{arrays_in, SameLoans, state_at};
ghost use Rattle.history_calls.specs.Answers.{totals_in_values};
ghost use Rattle.history_replay_model.specs.Record.{head_length, count_length, recorded_reply_length, seen_bytes};
ghost use Rattle.history_replay.specs.Calls.{call_length, number_at, call_setting, call_reception, output_in, lent_in, burst_receptions_in, places_in, asked_entry};
ghost use Rattle.history_replay.specs.Private.{Called, wrote_of, BurstMade};

use crate::writing::{BODY, HEAD};
use crate::{lent_lists, reading, writing};
use c_collector::{Lent, TOTALS};
use collector_model::Totals;
use radio_telegram::frame::Frame;

pub(crate) fn received(state: &mut Lent, r: &[u8], out: &mut [u8])
    requires { (length r.now ≡ call_length) × (length out.old ≡ head_length + recorded_reply_length) }
    ensures called { Called
        (arrays_in state.old)
        (Receive (call_setting r.now) (call_reception r.now)) out.new
        (arrays_in state.new) }
    ensures same_loans { SameLoans state.old state.new }
{
    let time = reading::number_at(r, 1);
    let n = base_numbers::usize_of_byte(r[9]).min(reading::RECEPTION);
    let answer = state.take(&r[10..10 + n], time);
    let sent = sent_for(r[63], answer, &r[10..10 + n]);
    let totals = totals_of(state);
    let number = (answer % 256) as u8;
    let form = lent_lists::form_with((answer / 256) as u8, number);
    writing::put_answered(out, form, number, sent, totals);
}

// What is sent for a reception with this answer: only KEPT is ever repeated.
fn sent_for(setting: u8, answer: u16, bytes: &[u8]) -> Frame
    ensures { result ≡ cond (eqb answer 0) (repeat_result setting bytes.now).sent (frame_of []) }
{
    if answer != 0 {
        return Frame::empty();
    }
    repeated(setting, bytes)
}

// What `repeat` sends: nothing with a refusal.
pub(crate) fn repeated(setting: u8, bytes: &[u8]) -> Frame
    ensures { result ≡ (repeat_result setting bytes.now).sent }
{
    match radio_telegram::repeater::repeat(setting, bytes) {
        Ok(sent) => sent,
        Err(_) => Frame::empty(),
    }
}

// The totals of a state: from the call; if it refuses the state, from the eight numbers.
fn totals_of(state: &Lent) -> Totals
    ensures { result ≡ (state_at
        (arrays_in state.now)).totals }
{
    let mut values = [0u64; TOTALS];
    let number = state.held().totals(&mut values);
    if number != 0 {
        let summary = c_collector::summary_in(state.numbers);
        return summary.totals;
    }
    totals_in(values)
}

fn totals_in(values: [u64; TOTALS]) -> Totals
    ensures { result ≡ totals_in_values values }
{
    Totals {
        received: values[0],
        kept: values[1],
        copies: values[2],
        loose: values[3],
        damaged: values[4],
        late: values[5],
    }
}

pub(crate) fn saved(state: &Lent, r: &[u8], out: &mut [u8])
    requires { (length r.now ≡ call_length)
        × (length out.old ≡ head_length + count_length + length (output_in r.now)) }
    ensures { Called
        (arrays_in state.now)
        (Checkpoint (output_in r.now)) out.new
        (arrays_in state.now) }
{
    put_wrote(state, out, r[9]);
}

// Makes a checkpoint into all bytes after the length; each of them has the value `fill` before.
fn put_wrote(state: &Lent, out: &mut [u8], fill: u8)
    requires { head_length + count_length ≤ length out.old }
    ensures { out.new ≡ seen_bytes (wrote_of (state_at
        (arrays_in state.now))
        (replicate (length out.old - (head_length + count_length)) fill)) }
{
    let n = out.len() - BODY;
    let number = save_into(state, &mut out[BODY..BODY + n], fill);
    let totals = totals_of(state);
    writing::put_body(&mut out[0..BODY], crate::SAVING, number, totals, n as u64);
}

fn save_into(state: &Lent, out: &mut [u8], fill: u8) -> u8
    ensures { record { number = result; output = out.new } ≡ checkpoint_of (state_at
        (arrays_in state.now))
        (replicate (length out.old) fill) }
{
    writing::set_all(out, fill);
    c_checkpoint::checkpoint(state.held(), out)
}

// Makes a cut. The second cell is that of the restore, of the bytes in the first. The other collector is started fresh in the same arrays.
pub(crate) fn cut(state: &mut Lent, r: &[u8], out: &mut [u8])
    requires { (length r.now ≡ call_length)
        × (length out.old ≡ head_length + count_length + length (output_in r.now) + head_length) }
    ensures called { Called
        (arrays_in state.old)
        (Cut (output_in r.now)) out.new
        (arrays_in state.new) }
    ensures same_loans { SameLoans state.old state.new }
{
    let n = reading::output_length(r);
    let end = BODY + n;
    put_wrote(state, &mut out[0..end], r[9]);
    state.clear();
    let last = BODY + collector_checkpoint::IMAGE_LENGTH.min(n);
    let number = c_checkpoint::restore(state, &out[BODY..last]);
    let totals = totals_of(state);
    writing::put_head(&mut out[end..end + HEAD], crate::RESTORING, number, totals);
}

pub(crate) fn restored<'a>(state: &mut Lent, r: &'a [u8], lent: &'a [u8], out: &mut [u8])
    requires { (length r.now ≡ call_length) × (length out.old ≡ head_length) }
    ensures called { Called
        (arrays_in state.old)
        (Restore (lent_in lent.now r.now)) out.new
        (arrays_in state.new) }
    ensures same_loans { SameLoans state.old state.new }
{
    let number = c_checkpoint::restore(state, reading::lent_in(lent, r));
    let totals = totals_of(state);
    writing::put_head(out, crate::RESTORING, number, totals);
}

pub(crate) fn delivered<'a>(state: &mut Lent, r: &'a [u8], lent: &'a [u8], out: &mut [u8])
    requires { (length r.now ≡ call_length)
        × (length out.old ≡ head_length + count_length + recorded_reply_length * min (number_at 17 r.now) listed) }
    ensures called { Called
        (arrays_in state.old)
        (Burst (call_setting r.now) (burst_receptions_in (lent_in lent.now r.now))
        (places_in r.now)) out.new
        (arrays_in state.new) }
    ensures same_loans { SameLoans state.old state.new }
{
    let m = reading::place_count(r);
    let mut places = lent_lists::places_in(r, m);
    let number = burst_in(
        state,
        r,
        reading::lent_in(lent, r),
        &mut places[0..lent_lists::PLACE * m],
    );
    let totals = totals_of(state);
    writing::put_body(
        &mut out[0..BODY],
        crate::DELIVERING,
        number,
        totals,
        m as u64,
    );
    lent_lists::put_places(
        &mut out[BODY..BODY + writing::REPLY * m],
        &places[0..lent_lists::PLACE * m],
        m,
    );
}

// Makes the burst of all whole records of these bytes, with the entries of a second list.
fn burst_in(state: &mut Lent, r: &[u8], records: &[u8], places: &mut [u8]) -> u8
    requires { length r.now ≡ call_length }
    ensures made { BurstMade
        (arrays_in state.old)
        (call_setting r.now) (burst_receptions_in records.now) places.old result
        (arrays_in state.new)
        places.new }
    ensures same_loans { SameLoans state.old state.new }
{
    let n = (records.len() / crate::CALL_LENGTH).min(collector_burst::LISTED);
    let moments = lent_lists::moments_in(records, n);
    let frames = lent_lists::frames_in(records, n);
    c_burst::burst(
        state,
        r[63],
        &moments[0..n],
        &frames[0..c_layout::FRAME_LENGTH * n],
        places,
    )
}

pub(crate) fn asked(state: &Lent, r: &[u8], out: &mut [u8])
    requires { (length r.now ≡ call_length) × (length out.old ≡ head_length + count_length) }
    ensures { Called
        (arrays_in state.now)
        (Ask (asked_entry r.now)) out.new
        (arrays_in state.now) }
{
    let entry = reading::number_at(r, 1);
    let mut heard: u64 = 0;
    let number = state.held().copies_of(entry as usize, &mut heard);
    let totals = totals_of(state);
    writing::put_body(out, crate::ASKING, number, totals, heard);
}

pub(crate) fn looked(state: &Lent, out: &mut [u8])
    requires { length out.old ≡ head_length }
    ensures { Called
        (arrays_in state.now)
        Look out.new
        (arrays_in state.now) }
{
    let totals = totals_of(state);
    writing::put_head(out, crate::LOOKING, 0, totals);
}
