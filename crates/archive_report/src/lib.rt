// The yearly report (document 02, A12): adds archives, reads lines, and computes the share of its rows in receptions.
#![tactic(auto)]

mod lines;
mod tally;

ghost use Rattle.std.specs.Prelude.{◌≡◌, cond, ◌+◌, ◌*◌, ◌^◌, ◌≤◌, ◌<◌, replicate};
ghost use Rattle.block_layout.specs.Block.{block_length};
ghost use Rattle.std.specs.Result.{result_unwrap_or};
ghost use Rattle.archive_report_model.specs.Report as model;
ghost use Rattle.archive_model.specs.Buffer.{None, is_whole, max_blocks};
ghost use Rattle.archive_report_model.specs.Pieces.{adding, tally_addition, closing, start_adding, is_adding, add_piece_of, ended_of};
ghost use Rattle.archive_report.specs.Lines.{lines_length};
ghost use Rattle.archive_report.specs.Report.{report_of, added_result, share_result, line_result, adding_of, add_piece_result, lines_added, lines_fed, lines_ended};
ghost use Rattle.archive_report.specs.Private.{tally_of, Starts};

use archive_file::{ArchiveError, Scan, Stage};
use base_refusal::Refusal;
use block_layout::BLOCK_LENGTH;
use tally::Tally;

// How many numbers a line has.
pub(crate) const LINE_LENGTH: usize = 5;

// The archives added so far: how many there are, how many lines, the totals, and the lines, five numbers each.
// Kept (buffer): no heap, and C lends the array of the lines, five numbers for each.
#[derive(Clone, Copy)]
pub struct Report {
    pub archives: usize,
    pub count: usize,
    pub kept: u64,
    pub loose: u64,
    pub lines: [u64; Report::MAX_LINES * LINE_LENGTH],
}

// A line of a report: a transmitter, its rows, and its earliest and latest time.
#[derive(Clone, Copy, Debug, PartialEq, Eq)]
pub struct Line {
    pub identity: u64,
    pub kept: u64,
    pub loose: u64,
    pub earliest: u64,
    pub latest: u64,
}

// An archive that is added in pieces: the report before it; the scan, the number of lines, the totals and the lines so far; and whether there were
// more than 256 transmitters.
#[derive(Clone, Copy)]
pub struct Adding {
    pub before: Report,
    pub scan: Scan,
    pub count: usize,
    pub kept: u64,
    pub loose: u64,
    pub over: bool,
    pub lines: [u64; Report::MAX_LINES * LINE_LENGTH],
}

impl Report {
    pub const MAX_ARCHIVES: usize = 64;

    pub const MAX_LINES: usize = 256;

    // The report before the first archive.
    pub fn empty() -> Report
        ensures result_value { report_of result ≡ model.empty_report }
        ensures lines_value { result.lines ≡ replicate lines_length 0 }
    {
        Report {
            archives: 0,
            count: 0,
            kept: 0,
            loose: 0,
            lines: no_lines(),
        }
    }

    // Adds the rows of an archive. Refused: 11 for a report that no archives give, 16, 12 with the position, 10 for a 65th archive, 17 for a 257th
    // transmitter.
    pub fn add(self, buffer: &[u8]) -> Result<Report, ArchiveError>
        ensures result_value { added_result self result ≡ model.add_of (report_of self) buffer.now }
        ensures lines_value { (result_unwrap_or result self).lines
            ≡ lines_added (model.add_of (report_of self) buffer.now) self.lines }
    {
        if !is_report(self) {
            return Err(ArchiveError::Refused(Refusal::NotAccepted));
        }
        if !archive_file::is_whole(buffer.len()) {
            return Err(ArchiveError::Refused(Refusal::Size));
        }
        let mut lines = self.lines;
        let t = tally::add_blocks(&mut lines, start(self.count, self.kept, self.loose), buffer);
        close(self, t, lines)
    }

    // Line `i`, in order of identity. Refused: 11, then 10 if there is no line i.
    pub fn line(self, i: usize) -> Result<Line, Refusal>
        ensures { line_result result ≡ model.line_of_report (report_of self) i }
    {
        if !is_report(self) {
            return Err(Refusal::NotAccepted);
        }
        if self.count <= i {
            return Err(Refusal::Argument);
        }
        Ok(lines::line_in(&self.lines, i))
    }

    // The share of its rows in the number received, in whole thousandths rounded down. Refused: 11, then 10 if that number is 0 or less than the
    // rows.
    pub fn share(self, received: u64) -> Result<u64, Refusal>
        ensures { share_result result ≡ model.share_of (report_of self) received }
    {
        if !is_report(self) {
            return Err(Refusal::NotAccepted);
        }
        let rows = self.kept + self.loose;
        if received == 0 {
            return Err(Refusal::Argument);
        }
        if received < rows {
            return Err(Refusal::Argument);
        }
        Ok(1000 * rows / received)
    }
}

impl Adding {
    // What is known before the first piece.
    pub fn start(report: Report) -> Adding
        ensures result_value { adding_of result ≡ start_adding (report_of report) }
        ensures before_value { (result.before ≡ report) × (result.lines ≡ report.lines) }
    {
        let scan = Scan::start();
        let lines = report.lines;
        Adding {
            before: report,
            scan,
            count: report.count,
            kept: report.kept,
            loose: report.loose,
            over: false,
            lines,
        }
    }

    // Adds the blocks of a piece, in order. Refused: 11 if no pieces can give these numbers, 16 for a piece that isn't whole blocks, or if there are
    // then more than 2^32 blocks in all; then nothing is changed.
    pub fn feed(self, piece: &[u8]) -> Result<Adding, Refusal>
        ensures result_value { add_piece_result self result ≡ add_piece_of (adding_of self) piece.now }
        ensures before_value { ((result_unwrap_or result self).before ≡ self.before)
            × ((result_unwrap_or result self).lines ≡ lines_fed (add_piece_of (adding_of self) piece.now) self.lines) }
    {
        if !is_adding(self) {
            return Err(Refusal::NotAccepted);
        }
        let scan = self.scan;
        if !is_piece(scan.blocks, piece.len()) {
            return Err(Refusal::Size);
        }
        let mut lines = self.lines;
        let t = tally::add_blocks(&mut lines, so_far(self), piece);
        if t.over {
            let was = self.lines;
            return Ok(taken(self, t, was));
        }
        Ok(taken(self, t, lines))
    }

    // Returns what `add` answers for all pieces that were taken, as one archive. Refused: 11, 12 with the position, 10, 17; then the report is
    // unchanged.
    pub fn end(self) -> Result<Report, ArchiveError>
        ensures result_value { added_result self.before result ≡ ended_of (adding_of self) }
        ensures lines_value { (result_unwrap_or result self.before).lines
            ≡ lines_ended (ended_of (adding_of self)) self.lines self.before.lines }
    {
        let before = self.before;
        if !is_adding(self) {
            return Err(ArchiveError::Refused(Refusal::NotAccepted));
        }
        let lines = self.lines;
        close(before, so_far(self), lines)
    }
}

// An array without lines.
fn no_lines() -> [u64; Report::MAX_LINES * LINE_LENGTH]
    ensures { result ≡ replicate lines_length 0 }
{
    [0u64; Report::MAX_LINES * LINE_LENGTH]
}

// Whether some archives give this report.
fn is_report(report: Report) -> bool
    ensures { result ≡ model.is_report (report_of report) }
{
    let archives = report.archives;
    let count = report.count;
    let kept = report.kept;
    let loose = report.loose;
    if Report::MAX_ARCHIVES < archives {
        return false;
    }
    if Report::MAX_LINES < count {
        return false;
    }
    let most = (archive_file::MAX_ROWS * archives) as u64;
    if most < kept {
        return false;
    }
    if most - kept < loose {
        return false;
    }
    lines::are_lines(&report.lines, count, kept, loose)
}

// The tally before the first block.
fn start(count: usize, kept: u64, loose: u64) -> Tally
    ensures { Starts count kept loose result }
{
    Tally {
        scan: Scan::start(),
        count,
        kept,
        loose,
        over: false,
    }
}

// The report after all blocks.
fn close(
    before: Report,
    t: Tally,
    lines: [u64; Report::MAX_LINES * LINE_LENGTH],
) -> Result<Report, ArchiveError>
    ensures { (added_result before result ≡ closing (report_of before) (tally_of t lines))
        × ((result_unwrap_or result before).lines ≡ lines_ended (added_result before result) lines before.lines) }
{
    let scan = t.scan;
    let stage = scan.stage;
    match stage {
        Stage::Filling | Stage::Short | Stage::Ended => sum_up(before, t, lines),
        Stage::Wrong(k) => Err(ArchiveError::Damaged(k)),
    }
}

// The same if every block matches.
fn sum_up(
    before: Report,
    t: Tally,
    lines: [u64; Report::MAX_LINES * LINE_LENGTH],
) -> Result<Report, ArchiveError>
    ensures { (added_result before result ≡ tally_addition (report_of before) (tally_of t lines) None)
        × ((result_unwrap_or result before).lines ≡ lines_ended (added_result before result) lines before.lines) }
{
    let archives = before.archives;
    if Report::MAX_ARCHIVES <= archives {
        return Err(ArchiveError::Refused(Refusal::Argument));
    }
    if t.over {
        return Err(ArchiveError::Refused(Refusal::Transmitters));
    }
    Ok(Report {
        archives: archives + 1,
        count: t.count,
        kept: t.kept,
        loose: t.loose,
        lines,
    })
}

// ---- in pieces

// What is known, without the lines.
fn so_far(a: Adding) -> Tally
    ensures { tally_of result a.lines ≡ (adding_of a).tally }
{
    let scan = a.scan;
    Tally {
        scan,
        count: a.count,
        kept: a.kept,
        loose: a.loose,
        over: a.over,
    }
}

// What is known after the blocks of a piece, with these lines.
fn taken(a: Adding, t: Tally, lines: [u64; Report::MAX_LINES * LINE_LENGTH]) -> Adding
    ensures { (adding_of result ≡ adding (report_of a.before) (tally_of t lines))
        × (result.before ≡ a.before) × (result.lines ≡ lines) }
{
    let before = a.before;
    let scan = t.scan;
    Adding {
        before,
        scan,
        count: t.count,
        kept: t.kept,
        loose: t.loose,
        over: t.over,
        lines,
    }
}

// Whether a piece of `len` bytes is whole blocks, at most 2^32 with those before it.
fn is_piece(blocks: usize, len: usize) -> bool
    requires { blocks ≤ max_blocks }
    ensures { result ≡ is_whole (block_length * blocks + len) }
{
    if len % BLOCK_LENGTH != 0 {
        return false;
    }
    blocks + len / BLOCK_LENGTH <= archive_file::MAX_BLOCKS
}

// How many rows the lines have so far, where the report before had `before`; 0 if there were more than 256 transmitters.
fn rows_of(over: bool, before: u64, rows: usize) -> u64
    requires { before + rows < 2 ^ 63 }
    ensures { result ≡ cond over 0 (before + rows) }
{
    if over {
        return 0;
    }
    before + rows as u64
}

// Whether some pieces can give these numbers.
fn is_adding(a: Adding) -> bool
    ensures { result ≡ is_adding (adding_of a) }
{
    let before = a.before;
    if !is_report(before) {
        return false;
    }
    let scan = a.scan;
    if !archive_file::is_scan(scan) {
        return false;
    }
    if Report::MAX_LINES < a.count {
        return false;
    }
    let rows = rows_of(a.over, before.kept + before.loose, scan.rows);
    if rows < a.kept {
        return false;
    }
    if rows - a.kept != a.loose {
        return false;
    }
    lines::are_lines(&a.lines, a.count, a.kept, a.loose)
}
