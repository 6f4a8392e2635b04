// The lines of a report in one array, in order of identity. A line has five numbers: identity, KEPT rows, LOOSE rows, earliest and latest time.
ghost use Rattle.std.specs.Prelude.{◌≡◌, true, cond, ◌&&◌, ltb, leb, eqb, ◌+◌, ◌-◌, ◌*◌, ◌^◌, ◌≤◌, ◌<◌, length};
ghost use Rattle.archive_report_model.specs.Report.{max_lines, merged_line, rows_of_line, is_rising, is_tally};
ghost use Rattle.archive_report.specs.Lines.{line_length, lines_length, line_at, lines_from, lines_at};
ghost use Rattle.archive_report.specs.Report.{line_shown};
ghost use Rattle.archive_report.specs.Private.{line_for, total_of, is_line_of, is_before, line_fits, Ordered, Place, Gap, Stored, Inserted};

use crate::{LINE_LENGTH, Line, Report};

// `end` if the first `end` lines exist and are below this identity, else `low`.
fn step(lines: &[u64], count: usize, identity: u64, low: usize, end: usize) -> usize
    requires { (length lines.now ≡ lines_length) × (low < end) × (end ≤ max_lines) }
    ensures { result
        ≡ cond (leb end count && ltb (line_at lines.now (end - 1)).identity identity) end low }
{
    if (end <= count) & (lines[LINE_LENGTH * (end - 1)] < identity) {
        return end;
    }
    low
}

// Up to this many lines the search takes four steps; 256 lines take nine.
const FEW: usize = 15;

// How many of the first `count` lines have an identity below this one.
fn find(lines: &[u64], count: usize, identity: u64) -> usize
    requires { (length lines.now ≡ lines_length) × (count ≤ max_lines) × Ordered lines.now count }
    ensures { Place lines.now count identity result }
{
    if count <= FEW {
        return find_among(lines, count, identity, FEW);
    }
    find_among(lines, count, identity, Report::MAX_LINES)
}

// The same if there are at most `most` lines.
// Kept (loop): the steps are the same for every count, so they can be unrolled without a branch; `binary_search` wants a slice of lines.
fn find_among(lines: &[u64], count: usize, identity: u64, most: usize) -> usize
    requires { (length lines.now ≡ lines_length) × (count ≤ most) × (most ≤ max_lines) × Ordered lines.now count }
    ensures { Place lines.now count identity result }
{
    let mut low = 0;
    let mut size = most;
    while 0 < size {
        let half = (size + 1) >> 1;
        low = step(lines, count, identity, low, low + half);
        size -= half;
    }
    low
}

// Whether line `i` exists and has this identity.
fn is_at(lines: &[u64], count: usize, i: usize, identity: u64) -> bool
    requires { (count ≤ max_lines) × (length lines.now ≡ lines_length) }
    ensures { result ≡ ltb i count && eqb (line_at lines.now i).identity identity }
{
    if count <= i {
        return false;
    }
    lines[LINE_LENGTH * i] == identity
}

// Moves the numbers from `from` to `end` up by one line.
fn make_gap(lines: &mut [u64], from: usize, end: usize)
    requires { (from ≤ end) × (end + line_length ≤ length lines.old) }
    ensures { Gap from end lines.old lines.new }
{
    lines.copy_within(from..end, from + LINE_LENGTH);
}

// Line `i`.
pub(crate) fn line_in(lines: &[u64], i: usize) -> Line
    requires { (i < max_lines) × (length lines.now ≡ lines_length) }
    ensures { line_shown result ≡ line_at lines.now i }
{
    let at = LINE_LENGTH * i;
    Line {
        identity: lines[at],
        kept: lines[at + 1],
        loose: lines[at + 2],
        earliest: lines[at + 3],
        latest: lines[at + 4],
    }
}

// Writes line `i`.
fn store_line(lines: &mut [u64], i: usize, line: Line)
    requires { (i < max_lines) × (length lines.old ≡ lines_length) }
    ensures { Stored i (line_shown line) lines.old lines.new }
{
    let at = LINE_LENGTH * i;
    lines[at] = line.identity;
    lines[at + 1] = line.kept;
    lines[at + 2] = line.loose;
    lines[at + 3] = line.earliest;
    lines[at + 4] = line.latest;
}

// The line of one row.
fn line_for(identity: u64, time: u64, loose: bool) -> Line
    ensures { line_shown result ≡ line_for identity time loose }
{
    Line {
        identity,
        kept: u64::from(!loose),
        loose: u64::from(loose),
        earliest: time,
        latest: time,
    }
}

// A line with one more row.
fn with_row(line: Line, time: u64, loose: bool) -> Line
    requires { rows_of_line (line_shown line) < 2 ^ 63 }
    ensures { line_shown result ≡ merged_line (line_for line.identity time loose) (line_shown line) }
{
    Line {
        identity: line.identity,
        kept: u64::from(!loose) + line.kept,
        loose: u64::from(loose) + line.loose,
        earliest: time.min(line.earliest),
        latest: time.max(line.latest),
    }
}

// Counts a row in its line, or in a new one. Returns how many lines there are then; a 257th line is not stored.
pub(crate) fn add_row(
    lines: &mut [u64],
    count: usize,
    identity: u64,
    time: u64,
    loose: bool,
) -> usize
    requires { (count ≤ max_lines) × (length lines.old ≡ lines_length) × (is_rising (lines_at lines.old count) ≡ true)
        × (total_of (lines_at lines.old count) < 2 ^ 63) }
    ensures { Inserted count (line_for identity time loose) lines.old lines.new result }
{
    let i = find(lines, count, identity);
    if is_at(lines, count, i, identity) {
        let line = line_in(lines, i);
        store_line(lines, i, with_row(line, time, loose));
        return count;
    }
    if count == Report::MAX_LINES {
        return count + 1;
    }
    make_gap(lines, LINE_LENGTH * i, LINE_LENGTH * count);
    store_line(lines, i, line_for(identity, time, loose));
    count + 1
}

// ---- the test of the lines

// Whether line `i` is below the next of `count` lines.
fn is_before(lines: &[u64], count: usize, i: usize) -> bool
    requires { (i < count) × (count ≤ max_lines) × (length lines.now ≡ lines_length) }
    ensures { result
        ≡ is_before (line_at lines.now i) (lines_from lines.now (i + 1) (count - (i + 1))) }
{
    if count <= i + 1 {
        return true;
    }
    lines[LINE_LENGTH * i] < lines[LINE_LENGTH * (i + 1)]
}

// Whether these can be the numbers of a line.
fn is_line(line: Line) -> bool
    requires { rows_of_line (line_shown line) < 2 ^ 63 }
    ensures { result ≡ is_line_of line.identity (rows_of_line (line_shown line)) line.earliest line.latest }
{
    let rows = line.kept + line.loose;
    (line.identity < 4294967296)
        & ((1 <= rows)
            & ((line.earliest <= line.latest) & ((1 < rows) | (line.earliest == line.latest))))
}

// Whether line `i` is a line, is below the next, and has no more rows than these totals.
fn fits(lines: &[u64], count: usize, i: usize, kept: u64, loose: u64) -> bool
    requires { (i < count) × (count ≤ max_lines) × (length lines.now ≡ lines_length) × (kept + loose < 2 ^ 63) }
    ensures { result
        ≡ line_fits (line_at lines.now i) (lines_from lines.now (i + 1) (count - (i + 1))) kept
        loose }
{
    let line = line_in(lines, i);
    if kept < line.kept {
        return false;
    }
    if loose < line.loose {
        return false;
    }
    is_line(line) & is_before(lines, count, i)
}

// Whether the first `count` lines are lines in order with these totals.
// Kept (loop): each turn also reads the line after its own, so an iterator over lines would need the index as well.
pub(crate) fn are_lines(lines: &[u64], count: usize, kept: u64, loose: u64) -> bool
    requires { (count ≤ max_lines) × (length lines.now ≡ lines_length) × (kept + loose < 2 ^ 63) }
    ensures { result ≡ is_tally (lines_at lines.now count) kept loose }
{
    let mut k = kept;
    let mut l = loose;
    for i in 0..count {
        if !fits(lines, count, i, k, l) {
            return false;
        }
        k -= lines[LINE_LENGTH * i + 1];
        l -= lines[LINE_LENGTH * i + 2];
    }
    (k == 0) & (l == 0)
}
