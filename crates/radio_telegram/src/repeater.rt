// The repeater step (document 01, "Repeater step"): the telegram to send, with its level raised by one and HASH renewed.
ghost use Rattle.std.specs.Prelude.{◌≡◌, ◌≤◌, ◌<◌, length};
ghost use Rattle.radio_erp1.specs.Status.{split_of, join_of};
ghost use Rattle.radio_erp1.specs.Subtelegram.{min_length};
ghost use Rattle.radio_telegram.specs.Output.{written};
ghost use Rattle.radio_telegram.specs.Repeater.{repeats as repeating, raise, raised_of, relay_of, repeated_of, repeat_result};

use crate::frame::Frame;
use base_refusal::Refusal;
use radio_erp1::status;
use radio_erp1::status::Status;

// The highest setting: 0 is off, 1 repeats level 0, and 2 repeats levels 0 and 1.
pub const MAX_SETTING: u8 = 2;

// What a repeater set to `setting` sends for a valid telegram: filled with zeros; length 0 if nothing is sent. Refused: 10, then the check's number.
pub fn repeat(setting: u8, bytes: &[u8]) -> Result<Frame, Refusal>
    ensures { repeated_of result ≡ repeat_result setting bytes.now }
{
    if MAX_SETTING < setting {
        return Err(Refusal::Argument);
    }
    radio_erp1::check(bytes)?;
    let mut out = [0u8; radio_erp1::MAX_LEN];
    let n = relay(setting, bytes, &mut out);
    Ok(Frame { len: n, bytes: out })
}

// Writes what is sent, for bytes that are not checked, to the front of `out`, and returns how many bytes it is: 0 if they do not have the length of a
// subtelegram, or are not repeated.
// Kept (code): length 0 for "nothing is sent" is what document 01 says, and the clause `relay_of` is of that length.
pub fn relay(setting: u8, bytes: &[u8], out: &mut [u8; radio_erp1::MAX_LEN]) -> usize
    ensures { record { number = 0; len = result; output = out.new }
        ≡ written (relay_of setting bytes.now) out.old }
{
    let n = bytes.len();
    if n < radio_erp1::MIN_LEN || radio_erp1::MAX_LEN < n {
        return 0;
    }
    let received = status::split(bytes[n - 2]);
    if !repeats(setting, received.level) {
        return 0;
    }
    put_raised(bytes, out);
    n
}

// Whether a repeater with this setting repeats this level; a setting other than 1 and 2 repeats none.
fn repeats(setting: u8, level: u8) -> bool
    ensures { result ≡ repeating setting level }
{
    ((setting == 1) & (level == 0)) | ((setting == 2) & (level <= 1))
}

// Writes what is sent for a subtelegram of this length to the front of `out`, with a new STATUS and HASH.
fn put_raised(bytes: &[u8], out: &mut [u8])
    requires { (min_length ≤ length bytes.now) × (length bytes.now ≤ length out.old) }
    ensures { out.new ≡ (written (raised_of bytes.now) out.old).output }
{
    let at = bytes.len() - 2;
    let last = at + 1;
    base_bytes::copy(&bytes[0..at], out);
    out[at] = raised_status(bytes[at]);
    out[last] = radio_erp1::hash(&out[0..last]);
}

// STATUS with its level raised by one.
fn raised_status(status: u8) -> u8
    ensures { result ≡ join_of (raise (split_of status)) }
{
    let parts = status::split(status);
    status::join(Status {
        level: parts.level + 1,
        ..parts
    })
}
