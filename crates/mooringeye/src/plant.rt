// The journal of the plant's tool: its state file, and what a start and a batch decide.
ghost use Rattle.std.specs.Prelude.{◌≡◌};
ghost use Rattle.journal_calls.specs.Block.{judgement_of, judgement_number};
ghost use Rattle.journal_calls.specs.Rows.{compare_call};
ghost use Rattle.journal_calls.specs.Run.{run_call};
ghost use Rattle.journal_state.specs.State.{kept};
ghost use Rattle.journal_state.specs.Calls.{write_of, accept_of};

use block_layout::BLOCK_LENGTH;
use collector_checkpoint::IMAGE_LENGTH;

// Writes a state.
#[unsafe(no_mangle)]
pub extern "C" fn mooringeye_state_write(
    numbers: &[u64; journal_state::NUMBERS],
    name: &[u8; journal_state::NAME_LENGTH],
    last: &[u8; BLOCK_LENGTH],
    image: &[u8; IMAGE_LENGTH],
    tail: &[u8; journal_state::TAIL_LENGTH],
    out: &mut [u8; journal_state::LENGTH],
) -> u8
    ensures { record { number = result; output = out.new }
        ≡ write_of (kept numbers.now name.now last.now image.now
        tail.now) out.old }
{
    base_refusal::outcome_number(journal_state::write(numbers, name, last, image, tail, out))
}

// Reads the state of a file.
#[unsafe(no_mangle)]
pub extern "C" fn mooringeye_state_accept(
    bytes: &[u8],
    numbers: &mut [u64; journal_state::NUMBERS],
    name: &mut [u8; journal_state::NAME_LENGTH],
    last: &mut [u8; BLOCK_LENGTH],
    image: &mut [u8; IMAGE_LENGTH],
    tail: &mut [u8; journal_state::TAIL_LENGTH],
) -> u8
    ensures { record {
      number = result;
      next = kept numbers.new name.new last.new image.new tail.new;
    }
        ≡ accept_of (kept numbers.old name.old last.old image.old
        tail.old) bytes.now }
{
    base_refusal::outcome_number(journal_state::accept(bytes, numbers, name, last, image, tail))
}

// Judges the block with the last row that a state counts.
#[unsafe(no_mangle)]
pub extern "C" fn mooringeye_journal_judge(last: &[u8], rows: usize, block: &[u8]) -> u8
    ensures { result ≡ judgement_number (judgement_of last.now rows block.now) }
{
    journal_calls::block::judge(last, rows, block).into()
}

// How many rows agree with leftovers, and how many of those must be put aside.
#[unsafe(no_mangle)]
pub extern "C" fn mooringeye_journal_compare(
    times: &[u64],
    rows: &[u8],
    moments: &[u64],
    left: &[u8],
    agreed: &mut usize,
    going: &mut usize,
) -> u8
    ensures { record { number = result; agreed = agreed.new; going = going.new }
        ≡ compare_call times.now rows.now moments.now left.now
        agreed.old going.old }
{
    match journal_calls::rows::compare(times, rows, moments, left) {
        Ok(c) => {
            *agreed = c.agreed;
            *going = c.going;
            0
        }
        Err(why) => base_refusal::number(why),
    }
}

// How many blocks of a piece read as an archive.
#[unsafe(no_mangle)]
pub extern "C" fn mooringeye_journal_scan(
    numbers: &mut [u64; journal_calls::scan::NUMBERS],
    piece: &[u8],
) -> u8
    ensures { record { number = result; numbers = numbers.new }
        ≡ run_call numbers.old piece.now }
{
    base_refusal::outcome_number(journal_calls::scan::feed(numbers, piece))
}
