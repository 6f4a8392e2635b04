// Subtelegrams: the check, fields read and built, encapsulation and its removal, the repeater step, sameness.
ghost use Rattle.std.specs.Prelude.{◌≡◌};
ghost use Rattle.block_layout.specs.BigEndian.{be};
ghost use Rattle.radio_erp1.specs.Subtelegram.{check_of};
ghost use Rattle.radio_erp1.specs.Same.{is_same};
ghost use Rattle.radio_telegram.specs.Addressing.{encapsulate_of, decapsulate_of};
ghost use Rattle.c_layout.specs.Lent.{settled};
ghost use Rattle.c_codec.specs.Calls.{read_call, build_call, repeat_call};

// The check.
#[unsafe(no_mangle)]
pub extern "C" fn mooringeye_check(bytes: &[u8]) -> u8
    ensures { result ≡ check_of bytes.now }
{
    c_layout::checked_number(radio_erp1::check(bytes))
}

// Whether two subtelegrams are the same telegram.
#[unsafe(no_mangle)]
pub extern "C" fn mooringeye_same(a: &[u8], b: &[u8]) -> bool
    ensures { result ≡ is_same a.now b.now }
{
    radio_erp1::same(a, b)
}

// Reads a subtelegram into the 26 bytes of its fields.
#[unsafe(no_mangle)]
pub extern "C" fn mooringeye_read(bytes: &[u8], fields: &mut [u8]) -> u8
    ensures { record { number = result; values = fields.new }
        ≡ read_call bytes.now fields.old }
{
    c_codec::read(bytes, fields)
}

// Builds the telegram of 26 bytes of fields into `out`.
#[unsafe(no_mangle)]
pub extern "C" fn mooringeye_build(fields: &[u8], out: &mut [u8], length: &mut usize) -> u8
    ensures { record { number = result; len = length.new; output = out.new }
        ≡ build_call fields.now length.old out.old }
{
    c_codec::build(fields, out, length)
}

// Encapsulates a plain subtelegram for a DESTID.
#[unsafe(no_mangle)]
pub extern "C" fn mooringeye_encapsulate(
    bytes: &[u8],
    destid: u32,
    out: &mut [u8],
    length: &mut usize,
) -> u8
    ensures { record { number = result; len = length.new; output = out.new }
        ≡ settled (encapsulate_of bytes.now (be 4 destid) out.old) length.old }
{
    c_codec::encapsulate(bytes, destid, out, length)
}

// Removes the encapsulation of an addressed subtelegram.
#[unsafe(no_mangle)]
pub extern "C" fn mooringeye_decapsulate(bytes: &[u8], out: &mut [u8], length: &mut usize) -> u8
    ensures { record { number = result; len = length.new; output = out.new }
        ≡ settled (decapsulate_of bytes.now out.old) length.old }
{
    c_codec::decapsulate(bytes, out, length)
}

// What a repeater sends, as a frame of 22 bytes.
#[unsafe(no_mangle)]
pub extern "C" fn mooringeye_repeat(setting: u8, bytes: &[u8], sent: &mut [u8]) -> u8
    ensures { record { number = result; values = sent.new }
        ≡ repeat_call setting bytes.now sent.old }
{
    c_codec::repeat(setting, bytes, sent)
}
