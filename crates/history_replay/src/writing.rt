// What is written for each call.
ghost use Rattle.std.specs.Prelude.{◌≡◌, ◌++◌, ◌+◌, length, replicate};
ghost use Rattle.block_layout.specs.BigEndian.{be};
ghost use Rattle.history_replay_model.specs.Operation.{receiving};
ghost use Rattle.history_replay_model.specs.Record.{head_length, count_length, recorded_reply_length, head_of};
ghost use Rattle.history_replay.specs.Private.{reply_cell};

use collector_model::Totals;
use radio_telegram::frame::Frame;

// The greatest lengths: the operation, the number and the totals; these with a length after them; a reply; a whole answer.
pub(crate) const HEAD: usize = 50;

pub(crate) const BODY: usize = HEAD + 8;

pub(crate) const REPLY: usize = 31;

pub(crate) const ANSWERED: usize = HEAD + REPLY;

// A reception: the head, and the reply.
pub(crate) fn put_answered(out: &mut [u8], form: u8, number: u8, sent: Frame, totals: Totals)
    requires { length out.old ≡ head_length + recorded_reply_length }
    ensures { out.new ≡ head_of receiving number totals ++ reply_cell form number sent }
{
    put_head(&mut out[0..HEAD], crate::RECEIVING, number, totals);
    put_reply(&mut out[HEAD..ANSWERED], form, number, sent);
}

// Writes the head, and a length or a count after it.
pub(crate) fn put_body(out: &mut [u8], operation: u8, number: u8, totals: Totals, count: u64)
    requires { length out.old ≡ head_length + count_length }
    ensures { out.new ≡ head_of operation number totals ++ be 8 count }
{
    put_head(&mut out[0..HEAD], operation, number, totals);
    block_layout::put_number(&mut out[HEAD..BODY], count);
}

pub(crate) fn set_all(out: &mut [u8], fill: u8)
    ensures { out.new ≡ replicate (length out.old) fill }
{
    out.fill(fill);
}

// The operation, the number, and the totals.
pub(crate) fn put_head(out: &mut [u8], operation: u8, number: u8, t: Totals)
    requires { length out.old ≡ head_length }
    ensures { out.new ≡ head_of operation number t }
{
    out[0] = operation;
    out[1] = number;
    block_layout::put_number(&mut out[2..10], t.received);
    block_layout::put_number(&mut out[10..18], t.kept);
    block_layout::put_number(&mut out[18..26], t.copies);
    block_layout::put_number(&mut out[26..34], t.loose);
    block_layout::put_number(&mut out[34..42], t.damaged);
    block_layout::put_number(&mut out[42..50], t.late);
}

// The form and the number of an answer, and the telegram to send.
pub(crate) fn put_reply(out: &mut [u8], form: u8, number: u8, sent: Frame)
    requires { length out.old ≡ recorded_reply_length }
    ensures { out.new ≡ reply_cell form number sent }
{
    let bytes = sent.bytes;
    out[0] = form;
    out[1] = number;
    block_layout::put_number(&mut out[2..10], sent.len as u64);
    block_layout::put_bytes(&mut out[10..REPLY], &bytes);
}
