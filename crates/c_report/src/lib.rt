// Reports on plain numbers and bytes, as other languages call them. A report is in two lent arrays: its numbers and its lines.
// Kept (code): the C interface: the calls answer by numbers.
#![tactic(auto)]

ghost use Rattle.std.specs.Prelude.{◌≡◌, []};
ghost use Rattle.archive_file.specs.Archive.{append_result};
ghost use Rattle.archive_report_model.specs.Report as model;
ghost use Rattle.archive_report.specs.Report.{report_of};
ghost use Rattle.c_layout.specs.Lent.{if_mismatch};
ghost use Rattle.c_report.specs.Calls.{report_at, report_numbers, empty_lines, lines_with, Adds, SettlesReport, line_call, share_call};

use archive_file::ArchiveError;
use archive_report::Report;
use base_refusal::Refusal;

// How many archives were added, how many lines there are, KEPT rows, LOOSE rows.
pub const NUMBERS: usize = 4;

// Five numbers for each line: identity, KEPT rows, LOOSE rows, earliest and latest time.
pub const LINE_NUMBERS: usize = 5;

pub const LINES: usize = Report::MAX_LINES * LINE_NUMBERS;

// Writes a report without archives.
pub fn empty(numbers: &mut [u64; NUMBERS], lines: &mut [u64; LINES])
    ensures { (report_at numbers.new lines.new ≡ model.empty_report)
        × (numbers.new ≡ report_numbers model.empty_report) × (lines.new ≡ empty_lines) }
{
    store(Report::empty(), numbers, lines);
}

// Adds the rows of an archive. Refused: 11, 16, 12 with the position, 10, 17; then every number of the report is unchanged.
pub fn add(
    numbers: &mut [u64; NUMBERS],
    lines: &mut [u64; LINES],
    buffer: &[u8],
    position: &mut usize,
) -> u8
    ensures { Adds (model.add_of (report_at numbers.old lines.old) buffer.now)
        (lines_with (model.add_of (report_at numbers.old lines.old) buffer.now)
        lines.old)
        numbers.old lines.old position.old result position.new
        numbers.new lines.new }
{
    settle_report(
        report_in(numbers, lines).add(buffer),
        numbers,
        lines,
        position,
    )
}

// Line `i`, five numbers, which are unchanged with a refusal: 11, 10.
pub fn line(
    numbers: &[u64; NUMBERS],
    lines: &[u64; LINES],
    i: usize,
    line: &mut [u64; LINE_NUMBERS],
) -> u8
    ensures { record { number = result; values = line.new }
        ≡ line_call (report_at numbers.now lines.now) i line.old }
{
    match report_in(numbers, lines).line(i) {
        Ok(found) => {
            *line = [
                found.identity,
                found.kept,
                found.loose,
                found.earliest,
                found.latest,
            ];
            0
        }
        Err(why) => base_refusal::number(why),
    }
}

// The share of its rows in receptions, in whole thousandths. Refused: 11, 10.
pub fn share(
    numbers: &[u64; NUMBERS],
    lines: &[u64; LINES],
    received: u64,
    thousandths: &mut u64,
) -> u8
    ensures { record { number = result; thousandths = thousandths.new }
        ≡ share_call (model.share_of (report_at numbers.now lines.now) received)
        thousandths.old }
{
    match report_in(numbers, lines).share(received) {
        Ok(t) => {
            *thousandths = t;
            0
        }
        Err(why) => base_refusal::number(why),
    }
}

// The report in two arrays.
pub fn report_in(numbers: &[u64; NUMBERS], lines: &[u64; LINES]) -> Report
    ensures { (report_of result ≡ report_at numbers.now lines.now)
        × (result.lines ≡ lines.now) }
{
    Report {
        archives: numbers[0] as usize,
        count: numbers[1] as usize,
        kept: numbers[2],
        loose: numbers[3],
        lines: *lines,
    }
}

pub fn store(r: Report, numbers: &mut [u64; NUMBERS], lines: &mut [u64; LINES])
    ensures { (report_at numbers.new lines.new ≡ report_of r)
        × (numbers.new ≡ report_numbers (report_of r)) × (lines.new ≡ r.lines) }
{
    *numbers = [r.archives as u64, r.count as u64, r.kept, r.loose];
    let all = r.lines;
    *lines = all;
}

// The number of an outcome, and the position with 12.
pub fn settle(outcome: Result<(), ArchiveError>, position: &mut usize) -> u8
    ensures { (result ≡ (append_result outcome []).number)
        × (position.new
        ≡ if_mismatch (append_result outcome []).number (append_result outcome []).position position.old) }
{
    match outcome {
        Ok(()) => 0,
        Err(ArchiveError::Damaged(k)) => c_layout::refuse(Refusal::Mismatch, k, position),
        Err(ArchiveError::Refused(why)) => c_layout::refuse(why, 0, position),
    }
}

// The same of an answer that is a report: without a refusal it is stored.
pub fn settle_report(
    answer: Result<Report, ArchiveError>,
    numbers: &mut [u64; NUMBERS],
    lines: &mut [u64; LINES],
    position: &mut usize,
) -> u8
    ensures { SettlesReport answer numbers.old lines.old position.old result position.new numbers.new lines.new }
{
    match answer {
        Ok(next) => {
            store(next, numbers, lines);
            0
        }
        Err(e) => settle(Err(e), position),
    }
}
