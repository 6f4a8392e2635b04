// The lists of a burst, as they are lent to the library's call: times, a frame of 22 bytes for each, and entries of 24 for the replies.
ghost use Rattle.std.specs.Prelude.{◌≡◌, ◌*◌, ◌≤◌, length, take, replicate};
ghost use mathlib.Core.List.{map, flatten};
ghost use Rattle.base_lists.specs.Lists.{up_from};
ghost use Rattle.collector_burst.specs.Records.{listed};
ghost use Rattle.c_burst.specs.Bytes.{reply_length};
ghost use Rattle.c_layout.specs.Frame.{frame_length};
ghost use Rattle.history_calls.specs.Answers.{shown_with, replied_in, replies_in_places};
ghost use Rattle.history_replay_model.specs.Record as written;
ghost use Rattle.history_replay_model.specs.Record.{form_of, reply_of};
ghost use Rattle.history_replay.specs.Calls.{call_length, record_at, number_at};
ghost use Rattle.history_replay.specs.Private.{frame_in, place_bytes};

use crate::{reading, writing};
use c_layout::FRAME_LENGTH;
use collector_burst::LISTED;
use collector_state::Collector;
use radio_telegram::frame::Frame;

// The length of an entry for a reply.
pub(crate) const PLACE: usize = 2 + FRAME_LENGTH;

// The greatest lengths of the frames, and of the entries.
const FRAMES: usize = FRAME_LENGTH * LISTED;

const PLACES: usize = PLACE * LISTED;

// ---- the receptions

// The times of the first n records.
pub(crate) fn moments_in(records: &[u8], n: usize) -> [u64; LISTED]
    requires { (n ≤ listed) × (call_length * n ≤ length records.now) }
    ensures { take n result ≡ map (λ i. number_at 1 (record_at records.now i)) (up_from 0 n) }
{
    let mut all = no_moments();
    for i in 0..n {
        all[i] = reading::number_at(
            &records[crate::CALL_LENGTH * i..crate::CALL_LENGTH * i + crate::CALL_LENGTH],
            1,
        );
    }
    all
}

fn no_moments() -> [u64; LISTED] {
    [0; LISTED]
}

// The frames of the first n records, one after the other.
pub(crate) fn frames_in(records: &[u8], n: usize) -> [u8; FRAMES]
    requires { (n ≤ listed) × (call_length * n ≤ length records.now) }
    ensures { take (frame_length * n) result
        ≡ flatten (map (λ i. frame_in (record_at records.now i)) (up_from 0 n)) }
{
    let mut all = no_frames();
    for i in 0..n {
        put_frame(
            &mut all[FRAME_LENGTH * i..FRAME_LENGTH * i + FRAME_LENGTH],
            &records[crate::CALL_LENGTH * i..crate::CALL_LENGTH * i + crate::CALL_LENGTH],
        );
    }
    all
}

fn no_frames() -> [u8; FRAMES] {
    [0; FRAMES]
}

fn put_frame(out: &mut [u8], r: &[u8])
    requires { (length out.old ≡ frame_length) × (length r.now ≡ call_length) }
    ensures { out.new ≡ frame_in r.now }
{
    out[0] = r[9];
    block_layout::put_bytes(&mut out[1..FRAME_LENGTH], &r[10..31]);
}

// ---- the entries for replies

// The first m entries before the burst.
pub(crate) fn places_in(r: &[u8], m: usize) -> [u8; PLACES]
    requires { (length r.now ≡ call_length) × (m ≤ listed) }
    ensures { take (reply_length * m) result ≡ flatten (replicate m (place_bytes r.now)) }
{
    let mut all = no_places();
    for i in 0..m {
        put_old(&mut all[PLACE * i..PLACE * i + PLACE], r);
    }
    all
}

fn no_places() -> [u8; PLACES] {
    [0; PLACES]
}

fn put_old(out: &mut [u8], r: &[u8])
    requires { (length out.old ≡ reply_length) × (length r.now ≡ call_length) }
    ensures { out.new ≡ place_bytes r.now }
{
    out[0] = r[25];
    out[1] = 0;
    out[2] = r[26];
    block_layout::put_bytes(&mut out[3..PLACE], &r[27..48]);
}

// Writes the entries after the burst into the record.
pub(crate) fn put_places(out: &mut [u8], places: &[u8], m: usize)
    requires { (length places.now ≡ reply_length * m) × (length out.old ≡ written.recorded_reply_length * m) }
    ensures { out.new ≡ flatten (map reply_of (replies_in_places places.now)) }
{
    for i in 0..m {
        put_place(
            &mut out[writing::REPLY * i..writing::REPLY * i + writing::REPLY],
            &places[PLACE * i..PLACE * i + PLACE],
        );
    }
}

fn put_place(out: &mut [u8], place: &[u8])
    requires { (length out.old ≡ written.recorded_reply_length) × (length place.now ≡ reply_length) }
    ensures { out.new ≡ reply_of (replied_in place.now) }
{
    let form = form_with(place[0], place[1]);
    let mut bytes = [0u8; Collector::MAX_LEN];
    block_layout::put_bytes(&mut bytes, &place[3..PLACE]);
    let sent = Frame {
        len: base_numbers::usize_of_byte(place[2]),
        bytes: bytes,
    };
    writing::put_reply(out, form, place[1], sent);
}

// The form of an answer by its kind and its number.
pub(crate) fn form_with(kind: u8, number: u8) -> u8
    ensures { result ≡ form_of (shown_with kind number) }
{
    if number != 0 {
        return 3;
    }
    if kind == 0 {
        return 0;
    }
    if kind == 1 {
        return 1;
    }
    2
}
