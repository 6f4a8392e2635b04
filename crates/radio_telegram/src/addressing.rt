// Addressed encapsulation and its removal (document 01, "Subtelegram"): STATUS is kept and HASH renewed.
ghost use Rattle.std.specs.Prelude.{◌≡◌};
ghost use Rattle.radio_telegram.specs.Output.{result_of};
ghost use Rattle.radio_telegram.specs.Addressing.{encapsulate_of, decapsulate_of};

use crate::fields;
use crate::fields::Telegram;
use base_refusal::Refusal;

// Writes the plain subtelegram `bytes`, addressed to `destid`, into `out`. Refused, in this order: the check's numbers; an addressed one (3); more
// than 21 bytes (5); an output that is too short (6).
pub fn encapsulate(bytes: &[u8], destid: [u8; 4], out: &mut [u8]) -> Result<usize, Refusal>
    ensures { result_of result out.new ≡ encapsulate_of bytes.now destid out.old }
{
    let t = fields::read(bytes)?;
    if t.destid.is_some() {
        return Err(Refusal::Nested);
    }
    fields::build(
        Telegram {
            destid: Some(destid),
            ..t
        },
        out,
    )
}

// Writes the telegram that the addressed subtelegram `bytes` carries, as a plain one, into `out`. Refused, in this order: the check's numbers; a
// plain one (4); an output that is too short (6).
pub fn decapsulate(bytes: &[u8], out: &mut [u8]) -> Result<usize, Refusal>
    ensures { result_of result out.new ≡ decapsulate_of bytes.now out.old }
{
    let t = fields::read(bytes)?;
    if t.destid.is_none() {
        return Err(Refusal::NotAddressed);
    }
    fields::build(Telegram { destid: None, ..t }, out)
}
