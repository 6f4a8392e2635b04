// The fields of a subtelegram: read from its bytes, and built into bytes (document 01, "Subtelegram").
ghost use Rattle.std.specs.Prelude.{◌≡◌, ◌+◌, ◌≤◌, length};
ghost use Rattle.base_refusal.specs.Number.{outcome_number};
ghost use Rattle.radio_erp1.specs.Subtelegram.{min_length, max_length, min_addressed_length};
ghost use Rattle.radio_telegram.specs.Frame.{frame_of};
ghost use Rattle.radio_telegram.specs.Private.{Extended};
ghost use Rattle.radio_telegram.specs.Output.{result_of};
ghost use Rattle.radio_telegram.specs.Fields.{plain_fields, addressed_fields, shown_reading, read_of, admission_of, Buildable, before_data, ids_of, telegram_bytes, build_of};

use crate::frame;
use crate::frame::Frame;
use base_refusal::Refusal;

// The longest DATA of a plain telegram, and of an addressed one.
pub const MAX_DATA: usize = 14;

pub const MAX_ADDRESSED_DATA: usize = 9;

// Kept (buffer): no heap; the theorem `ReadBuilt` speaks of the zeros after the data.
#[derive(Clone, Copy)]
pub struct Telegram {
    // RORG; for an addressed telegram the inner one.
    pub rorg: u8,
    // DATA: the first `len` bytes.
    pub payload: [u8; MAX_DATA],
    pub len: usize,
    // DESTID of an addressed telegram, and TXID, in the order of transmission.
    pub destid: Option<[u8; 4]>,
    pub txid: [u8; 4],
    pub status: u8,
}

// Checks a subtelegram and reads its fields.
pub fn read(bytes: &[u8]) -> Result<Telegram, Refusal>
    ensures { shown_reading result ≡ read_of bytes.now }
{
    radio_erp1::check(bytes)?;
    if bytes[0] == radio_erp1::ADDRESSED {
        return Ok(addressed_fields(bytes));
    }
    Ok(plain_fields(bytes))
}

// Builds a telegram into `out`. Refused, in this order: DATA not 1 to 14 or RORG 0xA6 (10), over 21 bytes (5), an output that is
// too short (6). Three exports call it: as a part of each it is a third faster.
#[inline(always)]
pub fn build(t: Telegram, out: &mut [u8]) -> Result<usize, Refusal>
    ensures { result_of result out.new ≡ build_of t out.old }
{
    admission(t)?;
    frame::emit(frame_of(t), out)
}

// The fields of a plain subtelegram: RORG, DATA, TXID, STATUS, HASH.
fn plain_fields(s: &[u8]) -> Telegram
    requires { (min_length ≤ length s.now) × (length s.now ≤ max_length) }
    ensures { result ≡ plain_fields s.now }
{
    let n = s.len();
    let id = n - 6;
    let status = n - 2;
    Telegram {
        rorg: s[0],
        payload: base_bytes::padded(&s[1..id]),
        len: n - 7,
        destid: None,
        txid: base_bytes::array_of(&s[id..status]),
        status: s[status],
    }
}

// The fields of an addressed subtelegram: 0xA6, RORG, DATA, DESTID, TXID, STATUS, HASH.
fn addressed_fields(s: &[u8]) -> Telegram
    requires { (min_addressed_length ≤ length s.now) × (length s.now ≤ max_length) }
    ensures { result ≡ addressed_fields s.now }
{
    let n = s.len();
    let to = n - 10;
    let id = n - 6;
    let status = n - 2;
    Telegram {
        rorg: s[1],
        payload: base_bytes::padded(&s[2..to]),
        len: n - 12,
        destid: Some(base_bytes::array_of(&s[to..id])),
        txid: base_bytes::array_of(&s[id..status]),
        status: s[status],
    }
}

// Whether the fields can be built in any output (10, 5).
fn admission(t: Telegram) -> Result<(), Refusal>
    ensures { outcome_number result ≡ admission_of t }
{
    if t.len < 1 || MAX_DATA < t.len || t.rorg == radio_erp1::ADDRESSED {
        return Err(Refusal::Argument);
    }
    if t.destid.is_some() && MAX_ADDRESSED_DATA < t.len {
        return Err(Refusal::TooLong);
    }
    Ok(())
}

// The frame of a telegram that can be built.
fn frame_of(t: Telegram) -> Frame
    requires { Buildable t }
    ensures { result ≡ frame_of (telegram_bytes t) }
{
    let f = with_ids(head(t).append(&t.payload[..t.len]), t);
    f.push(t.status).sealed()
}

// What comes before DATA.
fn head(t: Telegram) -> Frame
    ensures { result ≡ frame_of (before_data t) }
{
    match t.destid {
        Some(_) => Frame::empty().push(radio_erp1::ADDRESSED).push(t.rorg),
        None => Frame::empty().push(t.rorg),
    }
}

// The frame with the IDs appended: DESTID if addressed, and TXID.
fn with_ids(f: Frame, t: Telegram) -> Frame
    requires { f.len + length (ids_of t) ≤ max_length }
    ensures { Extended f result (ids_of t) }
{
    match t.destid {
        Some(destid) => f.append(&destid).append(&t.txid),
        None => f.append(&t.txid),
    }
}
