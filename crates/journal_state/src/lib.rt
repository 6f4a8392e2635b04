// The state file of the plant's tool: writes it from numbers and bytes, and accepts it exactly if it is what is written (docs/FORMATS.md).
#![tactic(auto)]

pub mod lawful;
pub mod writing;

ghost use Rattle.std.specs.Prelude.{◌≡◌, true, cond, ◌||◌, [], ◌+◌, ◌≤◌, eqb, length, take, drop};
ghost use Rattle.base_refusal.specs.Number.{outcome_number};
ghost use Rattle.base_lists.specs.Lists.{equal};
ghost use Rattle.base_buffers.specs.Buffer.{part, resized};
ghost use Rattle.block_layout.specs.BigEndian.{unbe};
ghost use Rattle.journal_state.specs.State.{kept, max_tail, old_length, state_length, version_of, state_bytes, numbers_in, read_state};
ghost use Rattle.journal_state.specs.Lawful.{is_plain, accepts_state};
ghost use Rattle.journal_state.specs.Calls.{write_of, accept_of};

use base_refusal::Refusal;
use block_layout::BLOCK_LENGTH;
use collector_checkpoint::IMAGE_LENGTH;

// Lines; rows counted when the file began, rows that it had, its number; length of its name; 1 if the position in the log is known, its offset,
// device, inode, bytes kept of it; 1 if rows are also written to a file, its length, device, inode.
pub const NUMBERS: usize = 14;

pub const NAME_LENGTH: usize = 255;

pub const TAIL_LENGTH: usize = 512;

pub const LENGTH: usize = 4096;

// A file of version 1 ends with the image.
const OLD_LENGTH: usize = 3584;

// Writes a state. Refused: 11 if it is not lawful; then the output is unchanged.
pub fn write(
    numbers: &[u64; NUMBERS],
    name: &[u8; NAME_LENGTH],
    last: &[u8; BLOCK_LENGTH],
    image: &[u8; IMAGE_LENGTH],
    tail: &[u8; TAIL_LENGTH],
    out: &mut [u8; LENGTH],
) -> Result<(), Refusal>
    ensures { record { number = outcome_number result; output = out.new }
        ≡ write_of (kept numbers.now name.now last.now image.now
        tail.now) out.old }
{
    if !lawful::is_lawful(numbers, name, last, image, tail) {
        return Err(Refusal::NotAccepted);
    }
    writing::put_state(out, 2, numbers, name, last, image, tail);
    Ok(())
}

// Reads the state of a file. Refused: 16 for a length other than 4,096 or, for version 1, 3,584; 11 for a file that is not byte for byte what is
// written for a lawful state; then everything is unchanged.
pub fn accept(
    bytes: &[u8],
    numbers: &mut [u64; NUMBERS],
    name: &mut [u8; NAME_LENGTH],
    last: &mut [u8; BLOCK_LENGTH],
    image: &mut [u8; IMAGE_LENGTH],
    tail: &mut [u8; TAIL_LENGTH],
) -> Result<(), Refusal>
    ensures { record {
      number = outcome_number result;
      next = kept numbers.new name.new last.new image.new tail.new;
    }
        ≡ accept_of (kept numbers.old name.old last.old image.old
        tail.old) bytes.now }
{
    let len = bytes.len();
    if (len != LENGTH) & (len != OLD_LENGTH) {
        return Err(Refusal::Size);
    }
    let read = numbers_in(bytes);
    let mut rest = [0u8; TAIL_LENGTH];
    block_layout::put_bytes(&mut rest, &bytes[OLD_LENGTH..len]);
    if !is_state(bytes, &read, &rest) {
        return Err(Refusal::NotAccepted);
    }
    *numbers = read;
    name.copy_from_slice(&bytes[41..296]);
    last.copy_from_slice(&bytes[BLOCK_LENGTH..1024]);
    image.copy_from_slice(&bytes[1024..OLD_LENGTH]);
    *tail = rest;
    Ok(())
}

// The numbers of a file.
fn numbers_in(bytes: &[u8]) -> [u64; NUMBERS]
    requires { old_length ≤ length bytes.now }
    ensures { result ≡ numbers_in bytes.now }
{
    let held = pair_at(bytes, 321);
    [
        block_layout::number_at(bytes, 8),
        block_layout::number_at(bytes, 16),
        block_layout::number_at(bytes, 24),
        block_layout::number_at(bytes, 32),
        block_layout::byte_at(bytes, 40) as u64,
        block_layout::byte_at(bytes, 296) as u64,
        block_layout::number_at(bytes, 297),
        block_layout::number_at(bytes, 305),
        block_layout::number_at(bytes, 313),
        held,
        block_layout::byte_at(bytes, 323) as u64,
        block_layout::number_at(bytes, 324),
        block_layout::number_at(bytes, 332),
        block_layout::number_at(bytes, 340),
    ]
}

// The number in two bytes.
fn pair_at(bytes: &[u8], at: usize) -> u64
    requires { at + 2 ≤ length bytes.now }
    ensures { result ≡ unbe (part at 2 bytes.now) }
{
    block_layout::read_number(&bytes[at..at + 2])
}

// Whether a file is what is written for the lawful state in it. Its numbers and the bytes of the log were read before.
fn is_state(bytes: &[u8], read: &[u64; NUMBERS], rest: &[u8; TAIL_LENGTH]) -> bool
    requires { (eqb (length bytes.now) state_length || eqb (length bytes.now) old_length ≡ true)
        × (read.now ≡ numbers_in bytes.now) × (rest.now ≡ resized max_tail (drop old_length bytes.now)) }
    ensures { result ≡ accepts_state bytes.now }
{
    if !is_said(bytes.len(), read) {
        return false;
    }
    if !lawful::is_lawful(
        read,
        &bytes[41..296],
        &bytes[BLOCK_LENGTH..1024],
        &bytes[1024..OLD_LENGTH],
        rest,
    ) {
        return false;
    }
    is_written(bytes, read, rest)
}

// Whether a file of this length can have these numbers.
fn is_said(len: usize, read: &[u64; NUMBERS]) -> bool
    ensures { result ≡ cond (eqb len old_length) (is_plain (kept read.now [] [] [] [])) true }
{
    len != OLD_LENGTH || is_plain(read)
}

// Whether they have no position in the log and no file for rows.
fn is_plain(read: &[u64; NUMBERS]) -> bool
    ensures { result ≡ is_plain (kept read.now [] [] [] []) }
{
    (read[5] == 0)
        & (read[6] == 0)
        & (read[7] == 0)
        & (read[8] == 0)
        & (read[9] == 0)
        & (read[10] == 0)
        & (read[11] == 0)
        & (read[12] == 0)
        & (read[13] == 0)
}

// Whether the state, written again, gives the same bytes.
fn is_written(bytes: &[u8], read: &[u64; NUMBERS], rest: &[u8; TAIL_LENGTH]) -> bool
    requires { (eqb (length bytes.now) state_length || eqb (length bytes.now) old_length ≡ true)
        × (read.now ≡ numbers_in bytes.now) × (rest.now ≡ resized max_tail (drop old_length bytes.now)) }
    ensures { result ≡ equal (take (length bytes.now)
        (state_bytes (read_state bytes.now) (version_of (length bytes.now))))
        bytes.now }
{
    let len = bytes.len();
    let mut again = [0u8; LENGTH];
    writing::put_state(
        &mut again,
        version_of(len),
        read,
        &bytes[41..296],
        &bytes[BLOCK_LENGTH..1024],
        &bytes[1024..OLD_LENGTH],
        rest,
    );
    block_layout::equal(&again[0..len], bytes)
}

fn version_of(len: usize) -> u8
    ensures { result ≡ version_of len }
{
    if len == OLD_LENGTH { 1 } else { 2 }
}
