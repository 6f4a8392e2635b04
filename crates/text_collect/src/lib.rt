// A run of the program `collect` (document 01, "Cases"): the lines of its input through the collector.
#![tactic(auto)]

pub mod formats;

ghost use Rattle.std.specs.Prelude.{◌≡◌, List, [], ◌∷◌, ℕ, ◌+◌, ◌*◌, ◌<◌, ◌≤◌, length, take};
ghost use Rattle.base_lists.specs.Lists.{padded};
ghost use Rattle.collector_model.specs.Answer.{shown_of};
ghost use Rattle.collector_state.specs.Collector.{columns_lent, view_in, view_of, SameArrays};
ghost use Rattle.collector_state.specs.Admission.{relayed_for, Tested};
ghost use Rattle.text_rows.specs.Text.{row_behind};
ghost use Rattle.base_buffers.specs.Printed.{Printed, PrintedIfFits};
ghost use Rattle.text_rows.specs.Longest.{longest_number};
ghost use Rattle.text_program.specs.Collect.{starting, over, after_first, first_text, phase_end};
ghost use Rattle.text_collect.specs.Printed.{printed_row};
ghost use Rattle.text_collect.specs.Session.{model_collector, running_at, phase_of, longest_line, longest_end, RanTo, Ran};
ghost use Rattle.text_collect.specs.Rows.{stored_time, stored_record};
ghost use Rattle.text_collect.specs.Stored.{StoredTo};

use collector_model::Answer;
use collector_state::{Collector, Lent, acceptable, merging};
use text_rows::Row;

// The stage of a run: before its first line, after a right one, or ended by a wrong one.
#[derive(Clone, Copy)]
pub enum Stage {
    Starting,
    Running,
    Over,
}

// A run between two lines. Its setting and its collector are used only while it is running.
#[derive(Clone, Copy)]
pub struct Session {
    pub stage: Stage,
    pub setting: u8,
    pub collector: Collector,
}

// The session after some lines, how many bytes of the input they are, and how many were written.
#[derive(Clone, Copy)]
pub struct Progress {
    pub session: Session,
    pub used: usize,
    pub written: usize,
}

// The result of a run of later lines: how many bytes of the input were used, and how many were written.
#[derive(Clone, Copy)]
struct Merged {
    pub used: usize,
    pub written: usize,
}

// The same with the number of rows for an archive, and of lines.
#[derive(Clone, Copy)]
pub struct Stored {
    pub used: usize,
    pub written: usize,
    pub rows: usize,
    pub lines: usize,
}

// The longest text of one line: a row that sends 21 bytes.
pub const LONGEST: usize = text_rows::LONGEST_NUMBER
    + text_rows::LONGEST_ROW
    + 2 * Collector::MAX_LEN;

impl Session {
    // A run before its first line.
    pub fn start() -> Session
        ensures { phase_of result ≡ starting }
    {
        Session {
            stage: Stage::Starting,
            setting: 0,
            collector: Collector::fresh(),
        }
    }

    // Takes lines from the start of `input`, each with its newline, and writes what they give to the front of `out`: the first line of a run by
    // itself, later lines as long as the longest row fits. If the longest row fits and no line is taken, there is no whole line.
    pub fn lines(self, input: &[u8], out: &mut [u8]) -> Progress
        ensures { Ran (phase_of self) input.now out.old out.new result }
    {
        let stage = self.stage;
        match stage {
            Stage::Starting => first_line(input, out),
            Stage::Running => {
                let c = self.collector;
                later_lines(self.setting, c, input, out)
            }
            Stage::Over => skip_line(self, input),
        }
    }

    // Writes the end of the output: BAD if there was no line, the totals after a run, nothing after a run that was ended.
    pub fn put_end(self, out: &mut [u8], at: usize) -> usize
        ensures { PrintedIfFits out.old at (longest_end (phase_of self))
            (phase_end model_collector (phase_of self)) out.new result }
    {
        let stage = self.stage;
        let c = self.collector;
        let t = c.summary.totals;
        match stage {
            Stage::Starting => text_rows::put_bad(out, at),
            Stage::Running => text_rows::put_totals(
                out, at, t.received, t.kept, t.copies, t.loose, t.damaged, t.late,
            ),
            Stage::Over => at,
        }
    }
}

// ---- the first line

fn first_line(input: &[u8], out: &mut [u8]) -> Progress
    ensures { Ran starting input.now out.old out.new result }
{
    let end = input.len();
    let n = base_bytes::find(input, 0, end, 10);
    if end <= n {
        return nothing(Session::start());
    }
    if out.len() < LONGEST {
        return nothing(Session::start());
    }
    let setting = text_lines::parse_setting(&input[0..n]);
    let written = put_first(out, setting);
    Progress {
        session: begin(setting),
        used: n + 1,
        written: written,
    }
}

// No line was taken.
fn nothing(s: Session) -> Progress
    ensures { result ≡ record { session = s; used = 0; written = 0 } }
{
    Progress {
        session: s,
        used: 0,
        written: 0,
    }
}

// A level is the run's setting; any other line ends the run.
fn begin(setting: Option<u8>) -> Session
    ensures { phase_of result ≡ after_first model_collector setting }
{
    match setting {
        Some(n) => {
            let c = Collector::fresh();
            Session {
                stage: Stage::Running,
                setting: n,
                collector: c,
            }
        }
        None => {
            let c = Collector::fresh();
            Session {
                stage: Stage::Over,
                setting: 0,
                collector: c,
            }
        }
    }
}

fn put_first(out: &mut [u8], setting: Option<u8>) -> usize
    requires { longest_line ≤ length out.old }
    ensures { Printed out.old 0 (first_text model_collector setting) longest_line out.new result }
{
    match setting {
        Some(_) => 0,
        None => text_rows::put_bad(out, 0),
    }
}

// ---- later lines

// Takes later lines. The state is tested once for all of them.
fn later_lines(setting: u8, mut c: Collector, input: &[u8], out: &mut [u8]) -> Progress
    ensures { Ran (running_at setting (view_of c)) input.now out.old out.new result }
{
    let fit = acceptable::is_acceptable(&c.times, &c.lens, &c.bytes, c.summary);
    let mut state = Lent {
        times: &mut c.times,
        lens: &mut c.lens,
        bytes: &mut c.bytes,
        copies: &mut c.copies,
        summary: c.summary,
    };
    let done = merge_lines(fit, setting, &mut state, input, out);
    c.summary = state.summary;
    Progress {
        session: Session {
            stage: Stage::Running,
            setting: setting,
            collector: c,
        },
        used: done.used,
        written: done.written,
    }
}

// The same with a state that is changed in place.
fn merge_lines(fit: bool, setting: u8, state: &mut Lent, input: &[u8], out: &mut [u8]) -> Merged
    requires { Tested fit (view_in (columns_lent state.old) state.old.summary) }
    ensures ran { RanTo
        (running_at setting (view_in (columns_lent state.old) state.old.summary))
        input.now out.old out.new
        (running_at setting (view_in (columns_lent state.new) state.new.summary))
        result.used result.written }
    ensures same_loans { SameArrays state.old state.new }
{
    let mut bytes = [0u8; text_lines::MAX_BYTES];
    let mut at = 0;
    let mut to = 0;
    while LONGEST <= out.len() - to {
        let Some(line) = text_lines::parse(&input[at..], &mut bytes) else {
            break;
        };
        let from = at;
        at += line.used;
        let Some(heard) = line.heard else {
            to = text_rows::put_bad(out, to);
            continue;
        };
        // After the time come a space, two digits for each byte, and the newline.
        let len = heard.len;
        let end = at - (2 * len + 2);
        let answer = state.admit(fit, &bytes[0..len], heard.time);
        to = put_answer(out, to, &input[from..end], setting, answer, &bytes[0..len]);
    }
    Merged {
        used: at,
        written: to,
    }
}

// Kept (twin): one loop for all three needs a trait for what ends it and what it stores, with laws for RanTo, StoredTo and HeardIn: no plainer.
// The same with the rows for an archive, as long as fewer than `most` lines were taken and there is an entry for a row.
// Kept (step): `fit` is what a test said of the state. The answer depends on it, and it chooses no step.
pub fn take_rows(
    fit: bool,
    setting: u8,
    state: &mut Lent,
    input: &[u8],
    most: usize,
    out: &mut [u8],
    moments: &mut [u64],
    rows: &mut [u8],
) -> Stored
    requires { Tested fit (view_in (columns_lent state.old) state.old.summary)
        × (length rows.old ≡ 23 * length moments.old) }
    ensures stored { StoredTo
        (running_at setting (view_in (columns_lent state.old) state.old.summary)) (columns_lent state.old)
        input.now most out.old moments.old rows.old
        out.new moments.new rows.new
        (running_at setting (view_in (columns_lent state.new) state.new.summary)) (columns_lent state.new)
        result.used result.written result.rows result.lines }
    ensures same_loans { SameArrays state.old state.new }
{
    let mut bytes = [0u8; text_lines::MAX_BYTES];
    let mut at = 0;
    let mut to = 0;
    let mut n = 0;
    let mut left = most;
    while LONGEST <= out.len() - to {
        if left == 0 {
            break;
        }
        if moments.len() <= n {
            break;
        }
        let Some(line) = text_lines::parse(&input[at..], &mut bytes) else {
            break;
        };
        let from = at;
        at += line.used;
        left -= 1;
        let Some(said) = line.heard else {
            let behind = text_rows::put_bad(out, to);
            to = behind;
            continue;
        };
        // After the time come a space, two digits for each byte, and the newline.
        let len = said.len;
        let end = at - (2 + 2 * len);
        let answer = state.admit(fit, &bytes[0..len], said.time);
        n = store_row(moments, rows, n, answer, said.time, len, &bytes);
        to = put_answer(out, to, &input[from..end], setting, answer, &bytes[0..len]);
    }
    Stored {
        used: at,
        written: to,
        rows: n,
        lines: most - left,
    }
}

// Writes the row for an archive of a reception that is KEPT or LOOSE, as entry n. Returns how many there are then.
fn store_row(
    moments: &mut [u64],
    rows: &mut [u8],
    n: usize,
    answer: Answer,
    time: u64,
    len: usize,
    bytes: &[u8; text_lines::MAX_BYTES],
) -> usize
    requires { (n < length moments.old) × (23 * n + 23 ≤ length rows.old) × (bytes.now ≡ padded 64 (take len bytes.now))
        × (len ≤ 64) }
    ensures { Printed moments.old n
        (stored_time (shown_of answer) time (take len bytes.now)) 1 moments.new result
        × Printed rows.old (23 * n)
        (stored_record (shown_of answer) (take len bytes.now)) 23 rows.new (23 * result) }
{
    if Collector::MAX_LEN < len {
        return n;
    }
    match answer {
        Answer::Kept => put_record(moments, rows, n, 0, time, len, bytes),
        Answer::Copy => n,
        Answer::Loose => put_record(moments, rows, n, 1, time, len, bytes),
        Answer::Refused(_) => n,
    }
}

fn put_record(
    moments: &mut [u64],
    rows: &mut [u8],
    n: usize,
    flag: u8,
    time: u64,
    len: usize,
    bytes: &[u8; text_lines::MAX_BYTES],
) -> usize
    requires { (n < length moments.old) × (23 * n + 23 ≤ length rows.old) × (bytes.now ≡ padded 64 (take len bytes.now))
        × (len ≤ 21) }
    ensures { Printed moments.old n (time ∷ []) 1 moments.new result
        × Printed rows.old (23 * n)
        (flag ∷ len ∷ padded 21 (take len bytes.now)) 23 rows.new (23 * result) }
{
    moments[n] = time;
    let mut record = [0u8; 23];
    record[0] = flag;
    record[1] = len as u8;
    text_lines::copy_part(bytes, 0, 21, &mut record, 2);
    text_lines::copy_part(&record, 0, 23, rows, 23 * n);
    n + 1
}

// Writes the row of a reception after the text of its time, with what is sent for it at the setting.
fn put_answer(
    out: &mut [u8],
    at: usize,
    time: &[u8],
    setting: u8,
    answer: Answer,
    bytes: &[u8],
) -> usize
    requires { (length time.now ≤ longest_number) × (at + longest_line ≤ length out.old) }
    ensures { Printed out.old at
        (row_behind time.now (printed_row (shown_of answer))
        (relayed_for setting (shown_of answer) bytes.now))
        longest_line out.new result }
{
    let mut sent = [0u8; Collector::MAX_LEN];
    let n = merging::relay_kept(setting, answer, bytes, &mut sent);
    text_rows::put_row(out, at, time, row_of(answer), &sent[0..n])
}

fn row_of(answer: Answer) -> Row
    ensures { result ≡ printed_row (shown_of answer) }
{
    match answer {
        Answer::Kept => Row::Kept,
        Answer::Copy => Row::Copy,
        Answer::Loose => Row::Loose,
        Answer::Refused(why) => Row::Refused(base_refusal::number(why)),
    }
}

// ---- after a wrong first line

// Skips a line, which has no effect.
fn skip_line(s: Session, input: &[u8]) -> Progress
    requires { phase_of s ≡ over }
    ensures { (out : List ℕ) → Ran over input.now out out result }
{
    let end = input.len();
    let n = base_bytes::find(input, 0, end, 10);
    if end <= n {
        return nothing(s);
    }
    Progress {
        session: s,
        used: n + 1,
        written: 0,
    }
}
