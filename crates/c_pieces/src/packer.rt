// Packs a damaged archive again, or removes the rows of some transmitters, in pieces.
// Kept (code): the C interface: the calls answer by numbers.
ghost use Rattle.std.specs.Prelude.{◌≡◌, get_or};
ghost use Rattle.c_pieces.specs.Packer.{pack_call, pack_end};

// How many rows wait, and how many blocks were written.
pub const NUMBERS: usize = 2;

pub const WAITING: usize = archive_repack::PENDING_LENGTH;

// Packs the sound blocks of a piece. Refused: 11, 16, 10, 6; then everything is unchanged. Else there are zeros after the rows that wait.
pub fn feed(
    numbers: &mut [u64; NUMBERS],
    waiting: &mut [u8; WAITING],
    piece: &[u8],
    identities: &[u32],
    out: &mut [u8],
    positions: &mut [u64],
    dropped: &mut usize,
) -> u8
    ensures { record {
      number = result;
      count = dropped.new;
      used = get_or numbers.new 0 0;
      next = get_or numbers.new 1 0;
      pending = waiting.new;
      output = out.new;
      positions = positions.new;
    }
        ≡ pack_call numbers.old waiting.old piece.now identities.now
        out.old positions.old dropped.old }
{
    let packed = archive_repack::pack(
        waiting,
        numbers[0] as usize,
        numbers[1] as usize,
        piece,
        identities,
        out,
        positions,
    );
    match packed {
        Ok(done) => {
            *numbers = [done.used as u64, done.next as u64];
            *dropped = done.dropped;
            0
        }
        Err(why) => base_refusal::number(why),
    }
}

// Writes the last block, if rows wait, and returns its length. Refused: 11, 6.
pub fn end(
    numbers: &[u64; NUMBERS],
    waiting: &[u8; WAITING],
    out: &mut [u8],
    length: &mut usize,
) -> u8
    ensures { record { number = result; length = length.new; output = out.new }
        ≡ pack_end numbers.now waiting.now out.old length.old }
{
    match archive_repack::finish(waiting, numbers[0] as usize, numbers[1] as usize, out) {
        Ok(written) => {
            *length = written;
            0
        }
        Err(why) => base_refusal::number(why),
    }
}
