// What `collect` prints (document 01, "Cases"). `step` makes the text of a chunk. The program reads, calls it and writes; `print` does the same for a
// whole input.
#![tactic(auto)]

ghost use Rattle.std.specs.Prelude.{◌≡◌, true, cond, ◌++◌, ◌+◌, ◌-◌, ◌≤◌, min, length, take, drop};
ghost use Rattle.std.proofs.lemmas.List.Edits.{sets};
ghost use Rattle.text_lines.specs.Reading.{line_limit};
ghost use Rattle.radio_telegram.specs.Output.{result_of};
ghost use Rattle.base_buffers.specs.Printed.{Printed};
ghost use Rattle.text_program.specs.Chunks.{in_line, end_text};
ghost use Rattle.text_program.specs.Collect.{collect};
ghost use Rattle.text_program.specs.Buffer.{is_unended};
ghost use Rattle.text_collect.specs.Session.{model_collector, phase_of};
ghost use Rattle.text_print.specs.Step.{chunk, output_capacity, longest_finish, is_over, SteppedOver, Stepped};
ghost use Rattle.text_print.specs.Print.{print_result};
ghost use Rattle.text_print.specs.Private.{Drained, Passed};

use base_refusal::Refusal;
use text_collect::{Session, Stage};

// The length of a chunk, and room for what it gives: a line of n characters, with its newline, gives at most 15 n characters, and the end gives at
// most 258.
pub const CHUNK: usize = 16384;

pub const CAPACITY: usize = 15 * CHUNK + 512;

// The session after a chunk, how much of a line that has not ended is kept at the front of the buffer, how much was written, and whether the run has
// ended.
#[derive(Clone, Copy)]
pub struct Turn {
    pub session: Session,
    pub kept: usize,
    pub written: usize,
    pub ended: bool,
}

// The session after whole lines, how many characters they are, and how many were written.
#[derive(Clone, Copy)]
pub(crate) struct Drain {
    pub session: Session,
    pub used: usize,
    pub written: usize,
}

// A chunk of zeros, and a text of zeros.
pub fn chunk_buffer() -> [u8; CHUNK]
    ensures { chunk ≡ length result }
{
    [0; CHUNK]
}

pub fn text_buffer() -> [u8; CAPACITY]
    ensures { output_capacity ≡ length result }
{
    [0; CAPACITY]
}

// Takes the first `end` characters of the buffer, or all of them, from the start of a line on; `last` says that the input ends with them. What they
// give goes to the front of `out`; what is kept of a line that has not ended goes to the front of the buffer.
// Kept (step): `last` says whether the input has ended. It is a fact, and chooses no step.
pub fn step(
    s: Session,
    buffer: &mut [u8; CHUNK],
    end: usize,
    last: bool,
    out: &mut [u8; CAPACITY],
) -> Turn
    ensures { Stepped (phase_of s) buffer.old end last out.old buffer.new
        out.new result }
{
    take_chunk(s, buffer, end.min(CHUNK), last, out)
}

fn take_chunk(s: Session, buffer: &mut [u8], end: usize, last: bool, out: &mut [u8]) -> Turn
    requires { (end ≤ chunk) × (length buffer.old ≡ chunk) × (length out.old ≡ output_capacity) }
    ensures { SteppedOver (phase_of s) (take end buffer.old) buffer.old last out.old
        buffer.new out.new result }
{
    let d = take_lines(s, &buffer[0..end], out);
    let kept = text_program::carry(buffer, d.used, end);
    let session = d.session;
    let written = d.written;
    if last {
        let more = finish(session, &buffer[0..kept], &mut out[written..]);
        return Turn {
            session: session,
            kept: kept,
            written: written + more,
            ended: true,
        };
    }
    Turn {
        session: session,
        kept: kept,
        written: written,
        ended: is_over(session),
    }
}

fn is_over(s: Session) -> bool
    ensures { result ≡ is_over (phase_of s) }
{
    matches!(s.stage, Stage::Over)
}

// Takes all whole lines of the input; `lines` is called again each time it stops.
fn take_lines(s: Session, input: &[u8], out: &mut [u8]) -> Drain
    requires { (length input.now ≤ chunk) × (length out.old ≡ output_capacity) }
    ensures { Drained (phase_of s) input.now out.old out.new result }
{
    let mut s = s;
    let mut at = 0;
    let mut to = 0;
    while at < input.len() {
        let p = s.lines(&input[at..], &mut out[to..]);
        let next = p.session;
        s = next;
        if p.used == 0 {
            break;
        }
        at += p.used;
        to += p.written;
    }
    Drain {
        session: s,
        used: at,
        written: to,
    }
}

// Writes the end of the output; what is kept of a line counts as one more line.
fn finish(s: Session, line: &[u8], out: &mut [u8]) -> usize
    requires { (length line.now ≤ line_limit) × (is_unended line.now ≡ true) × (longest_finish ≤ length out.old) }
    ensures { Printed out.old 0
        (end_text (collect model_collector) (in_line (phase_of s) line.now))
        longest_finish out.new result }
{
    let n = line.len();
    if n == 0 {
        return s.put_end(out, 0);
    }
    let mut whole = [0u8; text_lines::LINE_LIMIT + 1];
    base_bytes::copy(line, &mut whole);
    whole[n] = 10;
    let end = n + 1;
    let p = s.lines(&whole[0..end], out);
    let last = p.session;
    last.put_end(out, p.written)
}

// ---- a whole input

// Writes what `collect` prints for the input to the front of the output. Refused: 6 if it does not fit; then the output is unchanged.
pub fn print(input: &[u8], out: &mut [u8]) -> Result<usize, Refusal>
    ensures { result_of result out.new ≡ print_result input.now out.old }
{
    go_through(false, input, out)?;
    go_through(true, input, out)
}

// Reads the input as the program does, chunk by chunk, and writes what is printed if `write` is true. Answers how long that is; refused: 6 if it does
// not fit.
fn go_through(write: bool, input: &[u8], out: &mut [u8]) -> Result<usize, Refusal>
    ensures { Passed write input.now out.old out.new result }
{
    let mut buffer = chunk_buffer();
    let mut text = text_buffer();
    let mut s = Session::start();
    let mut at = 0;
    let mut kept = 0;
    let mut to = 0;
    loop {
        let n = read_some(input, at, &mut buffer, kept);
        let t = step(s, &mut buffer, kept + n, n == 0, &mut text);
        let w = t.written;
        if out.len() - to < w {
            return Err(Refusal::ShortOutput);
        }
        write_some(write, &text, w, out, to);
        at += n;
        to += w;
        if t.ended {
            return Ok(to);
        }
        kept = t.kept;
        let session = t.session;
        s = session;
    }
}

// Does what a read does: copies more of the input after what is kept, as much as there is room for.
fn read_some(input: &[u8], at: usize, buffer: &mut [u8], kept: usize) -> usize
    requires { (at ≤ length input.now) × (kept ≤ chunk) × (length buffer.old ≡ chunk) }
    ensures { (result ≡ min (length input.now - at) (chunk - kept))
        × (buffer.new ≡ take kept buffer.old ++ (take result (drop at input.now)
        ++ drop (kept + result) buffer.old)) }
{
    let n = (input.len() - at).min(CHUNK - kept);
    buffer[kept..kept + n].copy_from_slice(&input[at..at + n]);
    n
}

// Does what a write does, if `write` is true.
fn write_some(write: bool, text: &[u8], n: usize, out: &mut [u8], to: usize)
    requires { (n ≤ length text.now) × (to + n ≤ length out.old) }
    ensures { out.new ≡ cond write (sets out.old to (take n text.now)) out.old }
{
    if write {
        out[to..to + n].copy_from_slice(&text[..n]);
    }
}
