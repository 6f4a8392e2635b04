// The codec on plain numbers and bytes, as other languages call it: each call returns a number, and writes values into lent memory.
// Kept (code): the C interface: the calls answer by numbers.
#![tactic(auto)]

ghost use Rattle.std.specs.Prelude.{◌≡◌, ◌<◌, length};
ghost use Rattle.block_layout.specs.BigEndian.{be};
ghost use Rattle.radio_telegram.specs.Addressing.{encapsulate_of, decapsulate_of};
ghost use Rattle.c_layout.specs.Lent.{settled};
ghost use Rattle.c_codec.specs.Fields.{fields_length, fields_bytes, telegram_in};
ghost use Rattle.c_codec.specs.Calls.{read_call, build_call, repeat_call};

use c_layout::{FRAME_LENGTH, WRONG_SIZE};
use radio_telegram::fields::Telegram;
use radio_telegram::{addressing, fields, repeater};

// The length of a telegram's fields.
pub const FIELDS_LENGTH: usize = 26;

// Reads a subtelegram into the 26 bytes of its fields, which are unchanged with a refusal: 255, then the check's numbers.
pub fn read(bytes: &[u8], fields: &mut [u8]) -> u8
    ensures { record { number = result; values = fields.new }
        ≡ read_call bytes.now fields.old }
{
    if fields.len() != FIELDS_LENGTH {
        return WRONG_SIZE;
    }
    match fields::read(bytes) {
        Ok(t) => {
            put_fields(fields, t);
            0
        }
        Err(unread) => base_refusal::number(unread),
    }
}

// Builds the telegram of these 26 bytes into `out`. Refused: 255, then 10, 5, 6.
pub fn build(fields: &[u8], out: &mut [u8], length: &mut usize) -> u8
    ensures { record { number = result; len = length.new; output = out.new }
        ≡ build_call fields.now length.old out.old }
{
    if fields.len() != FIELDS_LENGTH {
        return WRONG_SIZE;
    }
    c_layout::settle(fields::build(telegram_in(fields), out), length)
}

// Encapsulates for a DESTID, which is a number. Refused: the check's numbers, 3, 5, 6.
pub fn encapsulate(bytes: &[u8], destid: u32, out: &mut [u8], length: &mut usize) -> u8
    ensures { record { number = result; len = length.new; output = out.new }
        ≡ settled (encapsulate_of bytes.now (be 4 destid) out.old) length.old }
{
    c_layout::settle(
        addressing::encapsulate(bytes, id_bytes(destid), out),
        length,
    )
}

// Removes an encapsulation. Refused: the check's numbers, 4, 6.
pub fn decapsulate(bytes: &[u8], out: &mut [u8], length: &mut usize) -> u8
    ensures { record { number = result; len = length.new; output = out.new }
        ≡ settled (decapsulate_of bytes.now out.old) length.old }
{
    c_layout::settle(addressing::decapsulate(bytes, out), length)
}

// Writes what a repeater sends for a valid telegram, as a frame of 22 bytes: all zero if nothing is sent, unchanged with a refusal. Refused: 255,
// then 10, the check's numbers.
pub fn repeat(setting: u8, bytes: &[u8], sent: &mut [u8]) -> u8
    ensures { record { number = result; values = sent.new }
        ≡ repeat_call setting bytes.now sent.old }
{
    if sent.len() != FRAME_LENGTH {
        return WRONG_SIZE;
    }
    match repeater::repeat(setting, bytes) {
        Ok(frame) => {
            c_layout::put_frame(sent, frame.len as u8, &frame.bytes);
            0
        }
        Err(why) => base_refusal::number(why),
    }
}

// ---- fields

fn put_fields(out: &mut [u8], t: Telegram)
    requires { (length out.old ≡ fields_length) × (t.len < 256) }
    ensures { out.new ≡ fields_bytes t }
{
    let destid = t.destid.unwrap_or([0u8; 4]);
    out[0] = t.rorg;
    out[1] = t.len as u8;
    out[2] = c_layout::flag_byte(t.destid.is_some());
    out[3] = t.status;
    block_layout::put_bytes(&mut out[4..8], &destid);
    block_layout::put_bytes(&mut out[8..12], &t.txid);
    block_layout::put_bytes(&mut out[12..FIELDS_LENGTH], &t.payload);
}

fn telegram_in(fields: &[u8]) -> Telegram
    requires { length fields.now ≡ fields_length }
    ensures { result ≡ telegram_in fields.now }
{
    let destid = base_bytes::array_of(&fields[4..8]);
    Telegram {
        rorg: fields[0],
        payload: base_bytes::array_of(&fields[12..FIELDS_LENGTH]),
        len: usize::from(fields[1]),
        destid: (fields[2] != 0).then_some(destid),
        txid: base_bytes::array_of(&fields[8..12]),
        status: fields[3],
    }
}

fn id_bytes(id: u32) -> [u8; 4]
    ensures { result ≡ be 4 id }
{
    let mut bytes = [0u8; 4];
    block_layout::put_number(&mut bytes, u64::from(id));
    bytes
}
