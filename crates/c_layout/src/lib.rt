// What the calls for other languages have in common: the number for a wrong size, and the bytes of a telegram with its length.
// Kept (code): the C interface: the calls answer by numbers.
#![tactic(auto)]

ghost use Rattle.std.specs.Prelude.{◌≡◌, List, ℕ};
ghost use Rattle.base_refusal.specs.Number.{number_of, outcome_number};
ghost use Rattle.radio_telegram.specs.Output.{result_of};
ghost use Rattle.base_buffers.specs.Buffer.{overwritten};
ghost use Rattle.c_layout.specs.Frame.{frame_length, frame_bytes, flag_byte};
ghost use Rattle.c_layout.specs.Lent.{if_mismatch, settled};

use base_refusal::Refusal;

// The answer if a lent slice has the wrong size. Only this interface has the number; the papers do not use it.
pub const WRONG_SIZE: u8 = 255;

// A length byte and 21 bytes.
pub const FRAME_LENGTH: usize = 22;

// Writes the frame of some bytes: a length byte, and the bytes filled with zeros. A buffer of another size is unchanged.
pub fn put_frame(out: &mut [u8], len: u8, bytes: &[u8])
    ensures { out.new
        ≡ overwritten frame_length (frame_bytes len bytes.now) out.old }
{
    if out.len() != FRAME_LENGTH {
        return;
    }
    out[0] = len;
    block_layout::put_bytes(&mut out[1..22], bytes);
}

// A flag as a byte.
pub fn flag_byte(flag: bool) -> u8
    ensures { result ≡ flag_byte flag }
{
    u8::from(flag)
}

// The number of a check's answer.
// Kept (twin): it is `base_refusal::outcome_number` under another name, and the must-fail edit `valid_answers_1` is of this function.
pub fn checked_number(checked: Result<(), Refusal>) -> u8
    ensures { result ≡ outcome_number checked }
{
    base_refusal::outcome_number(checked)
}

// The number of a refusal, and the position if the number is 12; with any other number the position is unchanged.
pub fn refuse(why: Refusal, at: usize, position: &mut usize) -> u8
    ensures { (result ≡ number_of why)
        × (position.new ≡ if_mismatch (number_of why) at position.old) }
{
    let number = base_refusal::number(why);
    if number == base_refusal::number(Refusal::Mismatch) {
        *position = at;
        return number;
    }
    number
}

// The number of what was written, and its length; with a refusal the length is unchanged.
pub fn settle(built: Result<usize, Refusal>, length: &mut usize) -> u8
    ensures { (output : List ℕ) → record { number = result; len = length.new; output = output }
        ≡ settled (result_of built output) length.old }
{
    match built {
        Ok(n) => {
            *length = n;
            0
        }
        Err(why) => base_refusal::number(why),
    }
}
