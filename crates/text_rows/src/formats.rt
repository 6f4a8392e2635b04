// The rows of a run in three formats (docs/FORMATS.md, "Text of mooringeye"): as `collect` prints them, comma-separated, and as JSON with an object
// on each line.
ghost use Rattle.std.specs.Prelude.{◌≡◌, true, ◌+◌, ◌*◌, ◌≤◌, length};
ghost use Rattle.base_buffers.specs.Printed.{Printed, PrintedIfFits};
ghost use Rattle.text_rows.specs.Longest.{longest_number};
ghost use Rattle.text_rows.specs.Formats.{hex_after, source_after, csv_answer, csv_source, csv_row};
ghost use Rattle.text_rows.specs.Formats.{json_answer, json_send, json_source, json_row, row_text_in, bad_in, heading_in};
ghost use Rattle.text_rows.specs.Formats.{longest_row_in, longest_bad_in, longest_heading};

use crate::Row;

#[derive(Clone, Copy)]
pub enum Format {
    // As `collect` prints.
    Text,
    // Comma-separated, under a heading.
    Csv,
    // A JSON object on each line.
    Json,
}

// Where a telegram came from: TXID, RORG (the inner one of an addressed telegram) and the level.
#[derive(Clone, Copy)]
pub struct Source {
    pub txid: [u8; 4],
    pub rorg: u8,
    pub level: u8,
}

// The longest row in any format, without its time and without two characters for each byte that was received or is sent.
pub const LONGEST_ROW: usize = 143;

// The longest row of a line that is BAD.
pub const LONGEST_BAD: usize = 17;

// The longest heading.
pub const LONGEST_HEADING: usize = 50;

// Writes the row of a reception after the text of its time, as it was read.
pub fn put_row(
    out: &mut [u8],
    at: usize,
    format: Format,
    time: &[u8],
    row: Row,
    heard: &[u8],
    sent: &[u8],
    source: Option<Source>,
) -> usize
    ensures { PrintedIfFits out.old at
        (longest_row_in (length time.now) (length heard.now) (length sent.now))
        (row_text_in format time.now row heard.now sent.now source)
        out.new result }
{
    let fixed = time.len() + LONGEST_ROW;
    if !crate::has_capacity(out.len(), at, fixed, heard.len() + sent.len()) {
        return at;
    }
    match format {
        Format::Text => crate::write_row(out, at, time, row, sent),
        Format::Csv => write_csv(out, at, time, row, heard, sent, source),
        Format::Json => write_json(out, at, time, row, heard, sent, source),
    }
}

// The row of a line that is BAD.
pub fn put_bad(out: &mut [u8], at: usize, format: Format) -> usize
    ensures { PrintedIfFits out.old at longest_bad_in (bad_in format) out.new result }
{
    if !crate::has_capacity(out.len(), at, LONGEST_BAD, 0) {
        return at;
    }
    match format {
        Format::Text => crate::write(out, at, b"BAD\n"),
        Format::Csv => crate::write(out, at, b",BAD,,,,,,\n"),
        Format::Json => crate::write(out, at, b"{\"answer\":\"BAD\"}\n"),
    }
}

// Writes the heading before the rows.
pub fn put_heading(out: &mut [u8], at: usize, format: Format) -> usize
    ensures { PrintedIfFits out.old at longest_heading (heading_in format) out.new result }
{
    if !crate::has_capacity(out.len(), at, LONGEST_HEADING, 0) {
        return at;
    }
    match format {
        Format::Text => at,
        Format::Csv => crate::write(
            out,
            at,
            b"time,answer,refusal,telegram,send,txid,rorg,level\n",
        ),
        Format::Json => at,
    }
}

// ---- comma-separated

fn write_csv(
    out: &mut [u8],
    at: usize,
    time: &[u8],
    row: Row,
    heard: &[u8],
    sent: &[u8],
    source: Option<Source>,
) -> usize
    requires { at + (length time.now + 65 + 2 * (length heard.now + length sent.now)) ≤ length out.old }
    ensures { Printed out.old at
        (csv_row time.now row heard.now sent.now source)
        (length time.now + 65 + 2 * (length heard.now + length sent.now))
        out.new result }
{
    let a = crate::write(out, at, time);
    let b = write_csv_answer(out, a, row);
    let c = write_hex_after(out, b, b",", heard);
    let d = write_hex_after(out, c, b",", sent);
    let e = write_csv_source(out, d, source);
    crate::write(out, e, b"\n")
}

fn write_csv_answer(out: &mut [u8], at: usize, row: Row) -> usize
    requires { at + 29 ≤ length out.old }
    ensures { Printed out.old at (csv_answer row) 29 out.new result }
{
    match row {
        Row::Kept => crate::write(out, at, b",KEPT,"),
        Row::Copy => crate::write(out, at, b",COPY,"),
        Row::Loose => crate::write(out, at, b",LOOSE,"),
        Row::Refused(n) => crate::write_count(out, at, b",REFUSED,", n as u64),
    }
}

fn write_csv_source(out: &mut [u8], at: usize, source: Option<Source>) -> usize
    requires { at + 33 ≤ length out.old }
    ensures { Printed out.old at (csv_source source) 33 out.new result }
{
    match source {
        Some(s) => write_source(out, at, b",", b",", b",", s),
        None => crate::write(out, at, b",,,"),
    }
}

// ---- JSON

fn write_json(
    out: &mut [u8],
    at: usize,
    time: &[u8],
    row: Row,
    heard: &[u8],
    sent: &[u8],
    source: Option<Source>,
) -> usize
    requires { at + longest_row_in (length time.now) (length heard.now) (length sent.now) ≤ length out.old }
    ensures { Printed out.old at
        (json_row time.now row heard.now sent.now source)
        (longest_row_in (length time.now) (length heard.now) (length sent.now))
        out.new result }
{
    let a = crate::write(out, at, b"{\"time\":");
    let b = crate::write(out, a, time);
    let c = write_json_answer(out, b, row);
    let d = write_hex_after(out, c, b",\"telegram\":\"", heard);
    let e = write_json_send(out, d, sent);
    let f = write_json_source(out, e, source);
    crate::write(out, f, b"}\n")
}

fn write_json_answer(out: &mut [u8], at: usize, row: Row) -> usize
    requires { at + 50 ≤ length out.old }
    ensures { Printed out.old at (json_answer row) 50 out.new result }
{
    match row {
        Row::Kept => crate::write(out, at, b",\"answer\":\"KEPT\""),
        Row::Copy => crate::write(out, at, b",\"answer\":\"COPY\""),
        Row::Loose => crate::write(out, at, b",\"answer\":\"LOOSE\""),
        Row::Refused(n) => crate::write_count(
            out,
            at,
            b",\"answer\":\"REFUSED\",\"refusal\":",
            n as u64,
        ),
    }
}

fn write_json_send(out: &mut [u8], at: usize, sent: &[u8]) -> usize
    requires { at + (11 + 2 * length sent.now) ≤ length out.old }
    ensures { Printed out.old at (json_send sent.now) (11 + 2 * length sent.now)
        out.new result }
{
    if sent.len() == 0 {
        return crate::write(out, at, b"\"");
    }
    let a = write_hex_after(out, at, b"\",\"send\":\"", sent);
    crate::write(out, a, b"\"")
}

fn write_json_source(out: &mut [u8], at: usize, source: Option<Source>) -> usize
    requires { at + 59 ≤ length out.old }
    ensures { Printed out.old at (json_source source) 59 out.new result }
{
    match source {
        Some(s) => write_source(
            out,
            at,
            b",\"txid\":\"",
            b"\",\"rorg\":\"",
            b"\",\"level\":",
            s,
        ),
        None => at,
    }
}

// ---- the parts of both

fn write_source(
    out: &mut [u8],
    at: usize,
    txid: &[u8],
    rorg: &[u8],
    level: &[u8],
    source: Source,
) -> usize
    requires { at + (length txid.now + length rorg.now + length level.now + 30) ≤ length out.old }
    ensures { Printed out.old at
        (source_after txid.now rorg.now level.now source)
        (length txid.now + length rorg.now + length level.now + 30)
        out.new result }
{
    let id = source.txid;
    let kind = [source.rorg];
    let a = write_hex_after(out, at, txid, &id);
    let b = write_hex_after(out, a, rorg, &kind);
    crate::write_count(out, b, level, source.level as u64)
}

fn write_hex_after(out: &mut [u8], at: usize, name: &[u8], s: &[u8]) -> usize
    requires { at + (length name.now + 2 * length s.now) ≤ length out.old }
    ensures { Printed out.old at
        (hex_after name.now s.now) (length name.now + 2 * length s.now)
        out.new result }
{
    let from = crate::write(out, at, name);
    crate::write_hex(out, from, s)
}
