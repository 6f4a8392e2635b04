// Reports over archives, in two lent arrays: its four numbers, and five numbers for each line.
ghost use Rattle.std.specs.Prelude.{◌≡◌};
ghost use Rattle.archive_report_model.specs.Report as model;
ghost use Rattle.archive_report_model.specs.Pieces as pieces;
ghost use Rattle.c_report.specs.Calls.{report_at, report_numbers, empty_lines, lines_with, Adds, line_call, share_call};
ghost use Rattle.c_pieces.specs.Adding.{adding_at, tally_numbers, Feeds};

use c_pieces::adding;
use c_report::{LINE_NUMBERS, LINES, NUMBERS};

// Writes a report without archives.
#[unsafe(no_mangle)]
pub extern "C" fn mooringeye_report_empty(numbers: &mut [u64; NUMBERS], lines: &mut [u64; LINES])
    ensures { (report_at numbers.new lines.new ≡ model.empty_report)
        × (numbers.new ≡ report_numbers model.empty_report) × (lines.new ≡ empty_lines) }
{
    c_report::empty(numbers, lines);
}

// Adds the rows of an archive. With a refusal, every number of the report is unchanged.
#[unsafe(no_mangle)]
pub extern "C" fn mooringeye_report_add(
    numbers: &mut [u64; NUMBERS],
    lines: &mut [u64; LINES],
    buffer: &[u8],
    position: &mut usize,
) -> u8
    ensures { Adds (model.add_of (report_at numbers.old lines.old) buffer.now)
        (lines_with (model.add_of (report_at numbers.old lines.old) buffer.now)
        lines.old)
        numbers.old lines.old position.old result position.new
        numbers.new lines.new }
{
    c_report::add(numbers, lines, buffer, position)
}

// Line `i`, in order of identity.
#[unsafe(no_mangle)]
pub extern "C" fn mooringeye_report_line(
    numbers: &[u64; NUMBERS],
    lines: &[u64; LINES],
    i: usize,
    line: &mut [u64; LINE_NUMBERS],
) -> u8
    ensures { record { number = result; values = line.new }
        ≡ line_call (report_at numbers.now lines.now) i line.old }
{
    c_report::line(numbers, lines, i, line)
}

// The share of its rows in receptions, in whole thousandths.
#[unsafe(no_mangle)]
pub extern "C" fn mooringeye_report_share(
    numbers: &[u64; NUMBERS],
    lines: &[u64; LINES],
    received: u64,
    thousandths: &mut u64,
) -> u8
    ensures { record { number = result; thousandths = thousandths.new }
        ≡ share_call (model.share_of (report_at numbers.now lines.now) received)
        thousandths.old }
{
    c_report::share(numbers, lines, received, thousandths)
}

// ---- in pieces

// Writes the numbers before the first piece of an archive.
#[unsafe(no_mangle)]
pub extern "C" fn mooringeye_report_start(
    numbers: &[u64; NUMBERS],
    lines: &[u64; LINES],
    adding: &mut [u64; adding::NUMBERS],
    tally: &mut [u64; LINES],
)
    ensures { (adding_at numbers.now lines.now adding.new tally.new
        ≡ pieces.start_adding (report_at numbers.now lines.now))
        × (adding.new ≡ tally_numbers (pieces.start_tally (report_at numbers.now lines.now)))
        × (tally.new ≡ lines.now) }
{
    adding::start(numbers, lines, adding, tally);
}

// The next piece of an archive that is added. With a refusal, every number is unchanged.
#[unsafe(no_mangle)]
pub extern "C" fn mooringeye_report_feed(
    numbers: &[u64; NUMBERS],
    lines: &[u64; LINES],
    adding: &mut [u64; adding::NUMBERS],
    tally: &mut [u64; LINES],
    piece: &[u8],
) -> u8
    ensures { Feeds
        (pieces.add_piece_of
        (adding_at numbers.now lines.now adding.old tally.old)
        piece.now)
        numbers.now lines.now adding.old tally.old
        result adding.new tally.new }
{
    adding::feed(numbers, lines, adding, tally, piece)
}

// Adds all pieces as one archive. With a refusal, every number of the report is unchanged.
#[unsafe(no_mangle)]
pub extern "C" fn mooringeye_report_end(
    numbers: &mut [u64; NUMBERS],
    lines: &mut [u64; LINES],
    adding: &[u64; adding::NUMBERS],
    tally: &[u64; LINES],
    position: &mut usize,
) -> u8
    ensures { Adds
        (pieces.ended_of (adding_at numbers.old lines.old adding.now
        tally.now))
        tally.now numbers.old lines.old position.old result
        position.new numbers.new lines.new }
{
    adding::end(numbers, lines, adding, tally, position)
}
