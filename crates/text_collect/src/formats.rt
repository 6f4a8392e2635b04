// A run that prints its rows in a format, with the rows for an archive and what closes.
ghost use Rattle.std.specs.Prelude.{◌≡◌, true, cond, [], ◌+◌, ◌*◌, ◌≤◌, length};
ghost use Rattle.collector_model.specs.Answer.{shown_of};
ghost use Rattle.collector_state.specs.Collector.{columns_held, columns_lent, view_in, SameArrays};
ghost use Rattle.collector_state.specs.Admission.{relayed_for, Tested};
ghost use Rattle.text_rows.specs.Formats.{row_text_in};
ghost use Rattle.text_rows.specs.Longest.{longest_number};
ghost use Rattle.base_buffers.specs.Printed.{Printed};
ghost use Rattle.text_collect.specs.Printed.{printed_row};
ghost use Rattle.text_collect.specs.Session.{running_at};
ghost use Rattle.collector_closings.specs.Cells.{closed_cells};
ghost use Rattle.text_collect.specs.Formats.{source_of, longest_line_in};
ghost use Rattle.text_collect.specs.Heard.{is_asked, has_room, HeardIn};

use collector_model::Answer;
use collector_state::{Collector, Held, Lent, merging};
use radio_telegram::fields;
use text_rows::formats;
use text_rows::formats::{Format, Source};

// The longest text of one line in any format: a row of 64 bytes that sends 21.
pub const LONGEST: usize = text_rows::LONGEST_NUMBER
    + formats::LONGEST_ROW
    + 2 * (text_lines::MAX_BYTES + Collector::MAX_LEN);

// The result of a run of lines: how many bytes of the input were used, how many were written, and the numbers of rows for
// an archive, of lines, and of telegrams that they close.
#[derive(Clone, Copy)]
pub struct Noted {
    pub used: usize,
    pub written: usize,
    pub rows: usize,
    pub lines: usize,
    pub closings: usize,
}

// Takes lines as `take_rows` does, and writes their rows in a format. If `closed` is not empty, also writes what they close.
// Kept (twin): speed: to look up the format for each row costs the text format 32 instructions a line, so it has a loop of its own.
// Kept (step): `fit` is what a test said of the state. The answer depends on it, and it chooses no step.
pub fn take_rows_as(
    fit: bool,
    setting: u8,
    format: Format,
    state: &mut Lent,
    input: &[u8],
    most: usize,
    out: &mut [u8],
    moments: &mut [u64],
    rows: &mut [u8],
    closed: &mut [u8],
) -> Noted
    requires { Tested fit (view_in (columns_lent state.old) state.old.summary)
        × (length rows.old ≡ 23 * length moments.old) }
    ensures heard { HeardIn format
        (running_at setting (view_in (columns_lent state.old) state.old.summary)) (columns_lent state.old)
        input.now most out.old moments.old rows.old closed.old
        out.new moments.new rows.new closed.new
        (running_at setting (view_in (columns_lent state.new) state.new.summary)) (columns_lent state.new)
        result.used result.written result.rows result.lines result.closings }
    ensures same_loans { SameArrays state.old state.new }
{
    let mut bytes = [0u8; text_lines::MAX_BYTES];
    let mut at = 0;
    let mut to = 0;
    let mut n = 0;
    let mut k = 0;
    let mut left = most;
    while LONGEST <= out.len() - to {
        if left == 0 {
            break;
        }
        if moments.len() <= n {
            break;
        }
        if !has_room(closed.len(), k) {
            break;
        }
        let Some(line) = text_lines::parse(&input[at..], &mut bytes) else {
            break;
        };
        let from = at;
        at += line.used;
        left -= 1;
        let Some(heard) = line.heard else {
            to = formats::put_bad(out, to, format);
            continue;
        };
        // After the time come a space, two digits for each byte, and the newline.
        let len = heard.len;
        let end = at - (2 * len + 2);
        k = put_closed(fit, state.held(), &bytes[0..len], heard.time, closed, k);
        let answer = state.admit(fit, &bytes[0..len], heard.time);
        n = crate::store_row(moments, rows, n, answer, heard.time, len, &bytes);
        to = put_answer(
            out,
            to,
            format,
            &input[from..end],
            setting,
            answer,
            &bytes[0..len],
        );
    }
    Noted {
        used: at,
        written: to,
        rows: n,
        lines: most - left,
        closings: k,
    }
}

// Whether there is room for what one more line may close, after k entries.
fn has_room(long: usize, k: usize) -> bool
    ensures { result ≡ has_room long k }
{
    if long == 0 {
        return true;
    }
    collector_closings::LONGEST <= long
        && k <= (long - collector_closings::LONGEST) / collector_closings::LENGTH
}

// Writes what a reception closes, if it is asked for.
fn put_closed(fit: bool, state: Held, bytes: &[u8], time: u64, closed: &mut [u8], k: usize) -> usize
    requires { Tested fit (view_in (columns_held state) state.summary) × (has_room (length closed.old) k ≡ true) }
    ensures { Printed closed.old (32 * k)
        (cond (is_asked closed.old)
        (closed_cells
        (view_in (columns_held state.entry) state.entry.summary)
        (record { bytes = bytes.entry.now; time = time })) [])
        2048 closed.new (32 * result) }
{
    if closed.len() == 0 {
        return k;
    }
    collector_closings::put_closings(fit, state, bytes, time, closed, k)
}

// Writes the row of a reception after the text of its time, with what is sent for it at the setting and where it came from.
fn put_answer(
    out: &mut [u8],
    at: usize,
    format: Format,
    time: &[u8],
    setting: u8,
    answer: Answer,
    bytes: &[u8],
) -> usize
    requires { (length time.now ≤ longest_number) × (length bytes.now ≤ 64)
        × (at + longest_line_in ≤ length out.old) }
    ensures { Printed out.old at
        (row_text_in format time.now (printed_row (shown_of answer)) bytes.now
        (relayed_for setting (shown_of answer) bytes.now) (source_of bytes.now))
        longest_line_in out.new result }
{
    let mut sent = [0u8; Collector::MAX_LEN];
    let n = merging::relay_kept(setting, answer, bytes, &mut sent);
    let source = source_of(bytes);
    formats::put_row(
        out,
        at,
        format,
        time,
        crate::row_of(answer),
        bytes,
        &sent[0..n],
        source,
    )
}

fn source_of(bytes: &[u8]) -> Option<Source>
    ensures { result ≡ source_of bytes.now }
{
    let Ok(t) = fields::read(bytes) else {
        return None;
    };
    let txid = t.txid;
    let status = radio_erp1::status::split(t.status);
    Some(Source {
        txid: txid,
        rorg: t.rorg,
        level: status.level,
    })
}
