// ERP2 telegrams on plain numbers and bytes, as other languages call them.
// Kept (code): the C interface gets numbers, and a flag beside a value: mooringeye_erp2_read and mooringeye_erp2_build.
#![tactic(auto)]

ghost use Rattle.std.specs.Prelude.{◌≡◌, ◌<◌, length};
ghost use Rattle.c_erp2.specs.Fields.{fields_head_length, fields_length, head_bytes, fields_bytes, telegram_in};
ghost use Rattle.c_erp2.specs.Calls.{read_call, build_call};

use c_layout::WRONG_SIZE;
use radio_erp2_model::{Extension, Header, MAX_DATA, Telegram};

// The length of a telegram's fields without its IDs: eleven bytes, data and optional data.
pub const FIELDS_LENGTH: usize = 276;

const HEAD_LENGTH: usize = 11;

const OPTIONAL: usize = HEAD_LENGTH + MAX_DATA;

// Reads a length byte and Data_PL into the 276 bytes of its fields and its two IDs, which are unchanged with a refusal: 255, then 1, 13, 14, 15.
pub fn read(bytes: &[u8], fields: &mut [u8], originator: &mut u64, destination: &mut u32) -> u8
    ensures { record {
      number = result;
      fields = fields.new;
      originator = originator.new;
      destination = destination.new;
    }
        ≡ read_call bytes.now fields.old originator.old destination.old }
{
    if fields.len() != FIELDS_LENGTH {
        return WRONG_SIZE;
    }
    match radio_erp2::read(bytes) {
        Err(why) => base_refusal::number(why),
        Ok(t) => {
            put_fields(fields, t);
            *originator = t.originator;
            *destination = t.destination.unwrap_or(0);
            0
        }
    }
}

// Builds the telegram of these fields and IDs into `out`. Refused: 255, then 10, 14, 15, 6.
pub fn build(
    fields: &[u8],
    originator: u64,
    destination: u32,
    out: &mut [u8],
    length: &mut usize,
) -> u8
    ensures { record { number = result; len = length.new; output = out.new }
        ≡ build_call fields.now originator destination length.old out.old }
{
    if fields.len() != FIELDS_LENGTH {
        return WRONG_SIZE;
    }
    c_layout::settle(
        radio_erp2::build(telegram_in(fields, originator, destination), out),
        length,
    )
}

fn put_fields(out: &mut [u8], t: Telegram)
    requires { (length out.old ≡ fields_length) × (t.len < 256) }
    ensures { out.new ≡ fields_bytes t }
{
    put_head(&mut out[0..HEAD_LENGTH], t);
    block_layout::put_bytes(&mut out[HEAD_LENGTH..OPTIONAL], &t.payload);
    block_layout::put_bytes(&mut out[OPTIONAL..FIELDS_LENGTH], &t.optional);
}

fn put_head(out: &mut [u8], t: Telegram)
    requires { (length out.old ≡ fields_head_length) × (t.len < 256) }
    ensures { out.new ≡ head_bytes t }
{
    let e = t.extension.unwrap_or(Extension {
        hops: 0,
        announced: 0,
    });
    out.copy_from_slice(&[
        t.short,
        t.header.control,
        c_layout::flag_byte(t.header.extended),
        t.header.kind,
        c_layout::flag_byte(t.extension.is_some()),
        e.hops,
        e.announced,
        c_layout::flag_byte(t.subtype.is_some()),
        t.subtype.unwrap_or(0),
        c_layout::flag_byte(t.destination.is_some()),
        // Kept (conversion): proved to fit; `try_from(..).unwrap()` is no plainer.
        t.len as u8,
    ]);
}

fn telegram_in(fields: &[u8], originator: u64, destination: u32) -> Telegram
    requires { length fields.now ≡ fields_length }
    ensures { result ≡ telegram_in fields.now originator destination }
{
    Telegram {
        short: fields[0],
        header: Header {
            control: fields[1],
            extended: fields[2] != 0,
            kind: fields[3],
        },
        extension: (fields[4] != 0).then_some(Extension {
            hops: fields[5],
            announced: fields[6],
        }),
        subtype: (fields[7] != 0).then_some(fields[8]),
        originator,
        destination: (fields[9] != 0).then_some(destination),
        payload: fields[HEAD_LENGTH..OPTIONAL].try_into().unwrap(),
        len: usize::from(fields[10]),
        optional: fields[OPTIONAL..FIELDS_LENGTH].try_into().unwrap(),
    }
}
