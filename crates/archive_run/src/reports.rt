// Makes the calls of a report: operations 13 to 17.
ghost use Rattle.std.specs.Prelude.{◌≡◌, ◌≤◌, length};

use archive_report::{Line, Report};
use std::io;
use std::io::Write;

// The last index of the array of lines.
const LAST: usize = 1279;

// What is printed beside a refusal.
const NO_LINE: Line = Line {
    identity: 0,
    kept: 0,
    loose: 0,
    earliest: 0,
    latest: 0,
};

// Whether an operation is one of them.
pub(crate) fn is_call(operation: u8) -> bool {
    (13 <= operation) & (operation <= 17)
}

pub(crate) fn call<W: Write>(
    to: &mut W,
    buffer: &[u8],
    report: Report,
    r: &[u8],
) -> io::Result<Report>
    requires { length r.now ≡ 320 }
{
    let operation = r[0];
    match operation {
        13 => emptied(to),
        14 => added(to, buffer, report),
        15 => line(to, report, block_layout::read_number(&r[1..9])),
        16 => share(to, report, block_layout::read_number(&r[1..9])),
        _ => spoiled(to, report, r),
    }
}

fn emptied<W: Write>(to: &mut W) -> io::Result<Report> {
    test_io::text(to, b"REPORT\n")?;
    Ok(Report::empty())
}

fn added<W: Write>(to: &mut W, buffer: &[u8], report: Report) -> io::Result<Report> {
    let answer = report.add(buffer);
    test_io::text(to, b"ADD ")?;
    crate::put_outcome(to, answer.map(|_| ()))?;
    let next = answer.unwrap_or(report);
    crate::put_number(to, next.archives as u64)?;
    crate::put_number(to, next.count as u64)?;
    crate::put_number(to, next.kept)?;
    crate::put_number(to, next.loose)?;
    test_io::text(to, b"\n")?;
    Ok(next)
}

fn line<W: Write>(to: &mut W, report: Report, index: u64) -> io::Result<Report> {
    test_io::text(to, b"LINE ")?;
    match report.line(index as usize) {
        Ok(found) => put_line(to, 0, found)?,
        Err(why) => put_line(to, base_refusal::number(why), NO_LINE)?,
    }
    Ok(report)
}

fn put_line<W: Write>(to: &mut W, number: u8, found: Line) -> io::Result<()> {
    test_io::decimal(to, u64::from(number))?;
    crate::put_number(to, found.identity)?;
    crate::put_number(to, found.kept)?;
    crate::put_number(to, found.loose)?;
    crate::put_number(to, found.earliest)?;
    crate::put_number(to, found.latest)?;
    test_io::text(to, b"\n")
}

fn share<W: Write>(to: &mut W, report: Report, received: u64) -> io::Result<Report> {
    test_io::text(to, b"SHARE ")?;
    match report.share(received) {
        Ok(t) => put_pair(to, 0, t)?,
        Err(why) => put_pair(to, base_refusal::number(why), 0)?,
    }
    test_io::text(to, b"\n")?;
    Ok(report)
}

// The report with one field overwritten.
fn spoiled<W: Write>(to: &mut W, report: Report, r: &[u8]) -> io::Result<Report>
    requires { length r.now ≡ 320 }
{
    let field = r[1];
    let index = crate::least(block_layout::read_number(&r[2..4]), LAST);
    let value = block_layout::read_number(&r[8..16]);
    test_io::text(to, b"SPOIL\n")?;
    Ok(match field {
        0 => with_archives(report, value as usize),
        1 => with_count(report, value as usize),
        2 => with_kept(report, value),
        3 => with_loose(report, value),
        _ => with_number(report, index, value),
    })
}

fn with_archives(mut report: Report, archives: usize) -> Report {
    report.archives = archives;
    report
}

fn with_count(mut report: Report, count: usize) -> Report {
    report.count = count;
    report
}

fn with_kept(mut report: Report, kept: u64) -> Report {
    report.kept = kept;
    report
}

fn with_loose(mut report: Report, loose: u64) -> Report {
    report.loose = loose;
    report
}

fn with_number(report: Report, index: usize, value: u64) -> Report
    requires { index ≤ 1279 }
{
    let mut lines = report.lines;
    lines[index] = value;
    Report {
        archives: report.archives,
        count: report.count,
        kept: report.kept,
        loose: report.loose,
        lines,
    }
}

fn put_pair<W: Write>(to: &mut W, number: u8, n: u64) -> io::Result<()> {
    test_io::decimal(to, number as u64)?;
    crate::put_number(to, n)
}
