// The lists of a burst by value: records and replies, and what is written for the replies.
ghost use Rattle.std.specs.Prelude.{◌≡◌, ◌*◌, ◌≤◌, length, take, replicate};
ghost use mathlib.Core.List.{map, flatten};
ghost use Rattle.base_lists.specs.Lists.{up_from};
ghost use Rattle.collector_model.specs.Answer.{shown_of, shown_number};
ghost use Rattle.collector_burst.specs.Records.{reception_of, replied_of, listed};
ghost use Rattle.history_calls.specs.Answers.{form_in};
ghost use Rattle.history_replay_model.specs.Record.{recorded_reply_length, form_of, reply_of};
ghost use Rattle.history_replay.specs.Calls.{call_length, record_at, burst_reception_in, place_in};

use crate::writing::REPLY;
use crate::{reading, writing};
use collector_burst::{LISTED, Reception, Reply};
use collector_model::Answer;
use collector_state::Collector;
use radio_telegram::frame::Frame;

// The receptions of a burst: the first n records.
pub(crate) fn receptions_in(bytes: &[u8], n: usize) -> [Reception; LISTED]
    requires { (n ≤ listed) × (call_length * n ≤ length bytes.now) }
    ensures { map reception_of (take n result)
        ≡ map (λ i. burst_reception_in (record_at bytes.now i)) (up_from 0 n) }
{
    let mut all = no_receptions();
    for i in 0..n {
        all[i] = reception_in(
            &bytes[crate::CALL_LENGTH * i..crate::CALL_LENGTH * i + crate::CALL_LENGTH],
        );
    }
    all
}

fn no_receptions() -> [Reception; LISTED] {
    let none = Reception {
        bytes: [0; Collector::MAX_LEN],
        len: 0,
        time: 0,
    };
    [none; LISTED]
}

fn reception_in(r: &[u8]) -> Reception
    requires { length r.now ≡ call_length }
    ensures { reception_of result ≡ burst_reception_in r.now }
{
    let mut bytes = [0u8; Collector::MAX_LEN];
    block_layout::put_bytes(&mut bytes, &r[10..31]);
    let time = reading::number_at(r, 1);
    Reception {
        bytes: bytes,
        len: r[9],
        time: time,
    }
}

// What each entry of the second list holds before the burst.
pub(crate) fn place_in(r: &[u8]) -> Reply
    requires { length r.now ≡ call_length }
    ensures { replied_of result ≡ place_in r.now }
{
    let mut bytes = [0u8; Collector::MAX_LEN];
    block_layout::put_bytes(&mut bytes, &r[27..48]);
    let len = base_numbers::usize_of_byte(r[26]);
    let answer = form_in(r[25]);
    Reply {
        answer: answer,
        sent: Frame {
            len: len,
            bytes: bytes,
        },
    }
}

fn form_in(form: u8) -> Answer
    ensures { shown_of result ≡ form_in form }
{
    if form == 0 {
        return Answer::Kept;
    }
    if form == 1 {
        return Answer::Copy;
    }
    Answer::Loose
}

pub(crate) fn places(place: Reply) -> [Reply; LISTED]
    ensures { result ≡ replicate listed place }
{
    [place; LISTED]
}

// Writes the first m entries into the record.
pub(crate) fn put_replies(out: &mut [u8], replies: [Reply; LISTED], m: usize)
    requires { (m ≤ listed) × (length out.old ≡ recorded_reply_length * m) }
    ensures { out.new ≡ flatten (map reply_of (map replied_of (take m replies))) }
{
    for i in 0..m {
        let reply = replies[i];
        let answer = reply.answer;
        let sent = reply.sent;
        let form = form_of(answer);
        let number = number_of(answer);
        writing::put_reply(&mut out[REPLY * i..REPLY * i + REPLY], form, number, sent);
    }
}

pub(crate) fn form_of(answer: Answer) -> u8
    ensures { result ≡ form_of (shown_of answer) }
{
    match answer {
        Answer::Kept => 0,
        Answer::Copy => 1,
        Answer::Loose => 2,
        Answer::Refused(_) => 3,
    }
}

pub(crate) fn number_of(answer: Answer) -> u8
    ensures { result ≡ shown_number (shown_of answer) }
{
    match answer {
        Answer::Kept => 0,
        Answer::Copy => 0,
        Answer::Loose => 0,
        Answer::Refused(why) => base_refusal::number(why),
    }
}
