// An archive that is added to a report in pieces. The report is unchanged until the end.
// Kept (code): the C interface: the calls answer by numbers.
ghost use Rattle.std.specs.Prelude.{◌≡◌};
ghost use Rattle.archive_report_model.specs.Report as model;
ghost use Rattle.archive_report_model.specs.Pieces as pieces;
ghost use Rattle.archive_report.specs.Report.{adding_of};
ghost use Rattle.c_report.specs.Calls.{report_at, Adds};
ghost use Rattle.c_pieces.specs.Adding.{tally_at, tally_numbers, adding_at, Feeds};

use crate::scan;
use archive_report::Adding;

// The four numbers of a scan, the number of lines, KEPT rows, LOOSE rows, and 1 if there were more than 256 transmitters.
pub const NUMBERS: usize = 8;

// Writes the numbers before the first piece.
pub fn start(
    numbers: &[u64; c_report::NUMBERS],
    lines: &[u64; c_report::LINES],
    adding: &mut [u64; NUMBERS],
    tally: &mut [u64; c_report::LINES],
)
    ensures { (adding_at numbers.now lines.now adding.new tally.new
        ≡ pieces.start_adding (report_at numbers.now lines.now))
        × (adding.new ≡ tally_numbers (pieces.start_tally (report_at numbers.now lines.now)))
        × (tally.new ≡ lines.now) }
{
    let r = c_report::report_in(numbers, lines);
    store(Adding::start(r), adding, tally);
}

// Adds the blocks of a piece. Refused: 11, 16; then every number is unchanged.
pub fn feed(
    numbers: &[u64; c_report::NUMBERS],
    lines: &[u64; c_report::LINES],
    adding: &mut [u64; NUMBERS],
    tally: &mut [u64; c_report::LINES],
    piece: &[u8],
) -> u8
    ensures { Feeds
        (pieces.add_piece_of
        (adding_at numbers.now lines.now adding.old tally.old)
        piece.now)
        numbers.now lines.now adding.old tally.old
        result adding.new tally.new }
{
    let a = adding_in(numbers, lines, adding, tally);
    match a.feed(piece) {
        Ok(next) => {
            store(next, adding, tally);
            0
        }
        Err(why) => base_refusal::number(why),
    }
}

// Returns what adding all pieces as one archive answers. Refused: 11, 12 with the position, 10, 17; then every number of the report is unchanged.
pub fn end(
    numbers: &mut [u64; c_report::NUMBERS],
    lines: &mut [u64; c_report::LINES],
    adding: &[u64; NUMBERS],
    tally: &[u64; c_report::LINES],
    position: &mut usize,
) -> u8
    ensures { Adds
        (pieces.ended_of (adding_at numbers.old lines.old adding.now
        tally.now))
        tally.now numbers.old lines.old position.old result
        position.new numbers.new lines.new }
{
    let a = adding_in(numbers, lines, adding, tally);
    c_report::settle_report(a.end(), numbers, lines, position)
}

// The archive that is being added, from four arrays.
fn adding_in(
    numbers: &[u64; c_report::NUMBERS],
    lines: &[u64; c_report::LINES],
    adding: &[u64; NUMBERS],
    tally: &[u64; c_report::LINES],
) -> Adding
    ensures { (adding_of result
        ≡ adding_at numbers.now lines.now adding.now tally.now)
        × (result.lines ≡ tally.now) }
{
    Adding {
        before: c_report::report_in(numbers, lines),
        scan: scan::scan_of(adding[0], adding[1], adding[2], adding[3]),
        count: adding[4] as usize,
        kept: adding[5],
        loose: adding[6],
        over: adding[7] != 0,
        lines: *tally,
    }
}

// Writes what is known, without the report.
fn store(a: Adding, adding: &mut [u64; NUMBERS], tally: &mut [u64; c_report::LINES])
    ensures { (tally_at adding.new tally.new ≡ (adding_of a).tally)
        × (adding.new ≡ tally_numbers (adding_of a).tally) × (tally.new ≡ a.lines) }
{
    let s = a.scan;
    *adding = [
        s.blocks as u64,
        s.rows as u64,
        scan::stage_number(s.stage),
        scan::stage_position(s.stage),
        a.count as u64,
        a.kept,
        a.loose,
        u64::from(a.over),
    ];
    let lines = a.lines;
    *tally = lines;
}
