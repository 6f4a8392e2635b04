// The bytes of a state file.
ghost use Rattle.std.specs.Prelude.{◌≡◌, [], length};
ghost use Rattle.block_layout.specs.Block.{block_length};
ghost use Rattle.journal_state.specs.State.{kept, state_length, max_name, archive_field, log_field, out_field, state_bytes};
ghost use Rattle.journal_state.specs.Private.{Sized, header_with};

use crate::NUMBERS;
use block_layout::BLOCK_LENGTH;

// Writes all eight blocks.
pub(crate) fn put_state(
    out: &mut [u8],
    version: u8,
    numbers: &[u64; NUMBERS],
    name: &[u8],
    last: &[u8],
    image: &[u8],
    tail: &[u8],
)
    requires { (length out.old ≡ state_length)
        × Sized (kept numbers.now name.now last.now image.now tail.now) }
    ensures { out.new
        ≡ state_bytes (kept numbers.now name.now last.now image.now
        tail.now) version }
{
    let crc = base_crc8_long::crc8_long(tail);
    put_header(&mut out[0..BLOCK_LENGTH], version, numbers, name, crc);
    block_layout::put_bytes(&mut out[BLOCK_LENGTH..1024], last);
    block_layout::put_bytes(&mut out[1024..3584], image);
    block_layout::put_bytes(&mut out[3584..4096], tail);
}

// Writes the first block, with the CRC of the log's bytes.
fn put_header(out: &mut [u8], version: u8, numbers: &[u64; NUMBERS], name: &[u8], crc: u8)
    requires { (length out.old ≡ block_length) × (length name.now ≡ max_name) }
    ensures { out.new
        ≡ header_with (kept numbers.now name.now [] [] []) version crc }
{
    let mark = [77u8, 79, 79, 82, 73, 78, 71, version];
    block_layout::put_bytes(&mut out[0..8], &mark);
    put_archive(&mut out[8..296], numbers, name);
    put_log(&mut out[296..323], numbers);
    put_out(&mut out[323..348], numbers);
    out[348] = crc;
    block_layout::clear(&mut out[349..511]);
    block_layout::seal(out);
}

// Writes the lines, the archive's file and its name, into 288 bytes.
fn put_archive(out: &mut [u8], numbers: &[u64; NUMBERS], name: &[u8])
    requires { (length out.old ≡ 288) × (length name.now ≡ max_name) }
    ensures { out.new
        ≡ archive_field (kept numbers.now name.now [] [] []) }
{
    block_layout::put_number(&mut out[0..8], numbers[0]);
    block_layout::put_number(&mut out[8..16], numbers[1]);
    block_layout::put_number(&mut out[16..24], numbers[2]);
    block_layout::put_number(&mut out[24..32], numbers[3]);
    block_layout::put_number(&mut out[32..33], numbers[4]);
    block_layout::put_bytes(&mut out[33..288], name);
}

// Writes the position in the log, into 27 bytes.
fn put_log(out: &mut [u8], numbers: &[u64; NUMBERS])
    requires { length out.old ≡ 27 }
    ensures { out.new ≡ log_field (kept numbers.now [] [] [] []) }
{
    block_layout::put_number(&mut out[0..1], numbers[5]);
    block_layout::put_number(&mut out[1..9], numbers[6]);
    block_layout::put_number(&mut out[9..17], numbers[7]);
    block_layout::put_number(&mut out[17..25], numbers[8]);
    block_layout::put_number(&mut out[25..27], numbers[9]);
}

// Writes the file for rows, into 25 bytes.
fn put_out(out: &mut [u8], numbers: &[u64; NUMBERS])
    requires { length out.old ≡ 25 }
    ensures { out.new ≡ out_field (kept numbers.now [] [] [] []) }
{
    block_layout::put_number(&mut out[0..1], numbers[10]);
    block_layout::put_number(&mut out[1..9], numbers[11]);
    block_layout::put_number(&mut out[9..17], numbers[12]);
    block_layout::put_number(&mut out[17..25], numbers[13]);
}
