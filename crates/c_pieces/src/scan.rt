// Verifies an archive in pieces.
// Kept (code): the C interface: the calls answer by numbers.
ghost use Rattle.std.specs.Prelude.{◌≡◌};
ghost use Rattle.archive_file.specs.Archive.{stage_of, scan_of};
ghost use Rattle.c_archive.specs.Calls.{open_call};
ghost use Rattle.c_pieces.specs.Scan.{stage_at, stage_number, stage_position, scan_at, scan_call, scan_end};

use archive_file::{Scan, Stage};
use base_refusal::Refusal;

// How many blocks were read, how many rows they have, the stage, and the position of the block that does not match.
pub const NUMBERS: usize = 4;

// Reads the blocks of a piece. Refused: 11, 16; then every number is unchanged.
pub fn feed(numbers: &mut [u64; NUMBERS], piece: &[u8]) -> u8
    ensures { record { number = result; numbers = numbers.new }
        ≡ scan_call numbers.old piece.now }
{
    let s = scan_of(numbers[0], numbers[1], numbers[2], numbers[3]);
    match s.feed(piece) {
        Ok(next) => {
            *numbers = [
                next.blocks as u64,
                next.rows as u64,
                stage_number(next.stage),
                stage_position(next.stage),
            ];
            0
        }
        Err(why) => base_refusal::number(why),
    }
}

// The answer for all pieces: how many rows. Refused: 11, 12 with the position.
pub fn end(numbers: &[u64; NUMBERS], rows: &mut usize, position: &mut usize) -> u8
    ensures { record { number = result; position = position.new; rows = rows.new }
        ≡ open_call (scan_end (scan_at numbers.now)) rows.old position.old }
{
    let s = scan_of(numbers[0], numbers[1], numbers[2], numbers[3]);
    if !archive_file::is_scan(s) {
        return base_refusal::number(Refusal::NotAccepted);
    }
    if 2 < numbers[2] {
        *position = numbers[3] as usize;
        return base_refusal::number(Refusal::Mismatch);
    }
    *rows = numbers[1] as usize;
    0
}

// The scan in four numbers.
pub(crate) fn scan_of(blocks: u64, rows: u64, stage: u64, position: u64) -> Scan
    ensures { scan_of result ≡ (record { blocks = blocks; rows = rows; stage = stage_at stage position }) }
{
    Scan {
        blocks: blocks as usize,
        rows: rows as usize,
        stage: stage_of(stage, position),
    }
}

#[tactic(auto, unfolding(crate::specs::Scan::stage_at), using(crate::proofs::Scans::stage_wrong))]
fn stage_of(stage: u64, position: u64) -> Stage
    ensures { stage_of result ≡ stage_at stage position }
{
    match stage {
        0 => Stage::Filling,
        1 => Stage::Short,
        2 => Stage::Ended,
        _ => Stage::Wrong(position as usize),
    }
}

pub(crate) fn stage_number(stage: Stage) -> u64
    ensures { result ≡ stage_number (stage_of stage) }
{
    match stage {
        Stage::Filling => 0,
        Stage::Short => 1,
        Stage::Ended => 2,
        Stage::Wrong(_) => 3,
    }
}

pub(crate) fn stage_position(stage: Stage) -> u64
    ensures { result ≡ stage_position (stage_of stage) }
{
    match stage {
        Stage::Filling | Stage::Short | Stage::Ended => 0,
        Stage::Wrong(k) => k as u64,
    }
}
