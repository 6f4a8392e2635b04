// A whole log kept in an archive, by the calls that ship and nothing else: what the plant's tool does when nothing disturbs it.
#![tactic(auto)]

ghost use Rattle.std.specs.Prelude.{◌≡◌, true, cond, [], ◌∷◌, ◌++◌, ◌+◌, ◌*◌, ◌/◌, ◌≤◌, ◌<◌, min, length, take, drop};
ghost use Rattle.std.proofs.lemmas.List.Edits.{sets};
ghost use Rattle.block_layout.specs.Cell.{cell_length};
ghost use Rattle.block_layout.specs.Block.{cells_per_block, block_length};
ghost use Rattle.collector_model.specs.View.{fresh};
ghost use Rattle.collector_model.specs.Image.{image_length, image_of};
ghost use Rattle.collector_model.specs.Acceptable.{acceptable};
ghost use Rattle.archive_fill.specs.Fill.{row_length, rows_given};
ghost use Rattle.text_lines.specs.Ascii.{newline};
ghost use Rattle.text_lines.specs.Reading.{line_limit};
ghost use Rattle.text_program.specs.Buffer.{is_unended};
ghost use Rattle.c_collector.specs.State.{arrays_in, arrays_held, state_at};
ghost use Rattle.base_buffers.specs.Buffer.{resized};
ghost use Rattle.text_program.specs.Lines.{lines_of};
ghost use Rattle.journal_state.specs.State.{max_name};
ghost use Rattle.history_log.specs.Keep.{taken_of, state_numbers, capacity_of, keeping_of, refused_kept, keep_of};
ghost use Rattle.history_log.specs.Private.{buffer_length, put_in, last_in, Noted, outputs, Holds, Ready, Callable, Turned, Went, LogPassed, WentThrough};

use archive_fill::ROW_LENGTH;
use base_refusal::Refusal;
use block_layout::{BLOCK_LENGTH, CELL_LENGTH, CELLS_PER_BLOCK};
use c_collector::{BYTES, CAPACITY, Held, Lent, NUMBERS};
use collector_checkpoint::IMAGE_LENGTH;
use journal_state::{NAME_LENGTH, TAIL_LENGTH};
use radio_telegram::repeater::MAX_SETTING;
use text_lines::LINE_LIMIT;

// The length of two buffers: one for the text of 15 lines, which is not used, and one for what two lines can close.
const BUFFER: usize = 4096;

// The format of that text.
const TEXT: u8 = 0;

// The length of the records of the rows of a block.
const ROWS: usize = ROW_LENGTH * CELLS_PER_BLOCK;

// The characters of a line that can matter, and a newline.
const WHOLE: usize = LINE_LIMIT + 1;

// 0 or the number of a refusal; the position that goes with 12; then the number of rows in the archive, of telegrams that the log closes, and of lines
// that were taken.
#[derive(Clone, Copy)]
pub struct Kept {
    pub number: u8,
    pub position: usize,
    pub rows: usize,
    pub closings: usize,
    pub lines: usize,
}

// Whether the rows of a text and what it closes fit, and the number of rows and closings after it.
#[derive(Clone, Copy)]
pub(crate) struct Pass {
    pub fits: bool,
    pub rows: usize,
    pub closings: usize,
}

// The number of characters, rows and closings of some lines, and whether the rows and closings fit.
#[derive(Clone, Copy)]
pub(crate) struct Turn {
    pub used: usize,
    pub rows: usize,
    pub closings: usize,
    pub fits: bool,
}

// Appends the rows of a log to an archive with this name, writes what the log closes to the front of `heard`, 32 bytes for each telegram, and writes the
// tool's state after it to `state`. Refused: 16; 12 with the position; 10 for a name of no byte or of more than 255; 6 if rows or closings do not fit. Then
// all three are unchanged.
pub fn keep(
    log: &[u8],
    archive: &mut [u8],
    heard: &mut [u8],
    name: &[u8],
    state: &mut [u8; journal_state::LENGTH],
) -> Kept
    ensures { keeping_of result archive.new heard.new state.new
        ≡ keep_of log.now archive.old heard.old name.now state.old }
{
    let mut rows: usize = 0;
    let mut position: usize = 0;
    let number = c_archive::verify(archive, &mut rows, &mut position);
    if number != 0 {
        return refused(number, position);
    }
    if (name.len() == 0) | (NAME_LENGTH < name.len()) {
        return refused(base_refusal::number(Refusal::Argument), 0);
    }
    let mut image = blank_image();
    let p = go_through(false, log, archive, rows, heard, &mut image);
    if !p.fits {
        return refused(base_refusal::number(Refusal::ShortOutput), 0);
    }
    let q = go_through(true, log, archive, rows, heard, &mut image);
    let lines = put_state(log, archive, rows, q.rows, name, &image, state);
    Kept {
        number: 0,
        position: 0,
        rows: q.rows,
        closings: q.closings,
        lines: lines,
    }
}

fn refused(number: u8, position: usize) -> Kept
    ensures { result ≡ refused_kept number position }
{
    Kept {
        number: number,
        position: position,
        rows: 0,
        closings: 0,
        lines: 0,
    }
}

fn blank_image() -> [u8; IMAGE_LENGTH]
    ensures { length result ≡ image_length }
{
    [0; IMAGE_LENGTH]
}

// Writes the tool's state after a log that came on standard input. The archive had `had` rows before it and has `rows` now. Returns the number of lines
// that were taken.
fn put_state(
    log: &[u8],
    archive: &[u8],
    had: usize,
    rows: usize,
    name: &[u8],
    image: &[u8; IMAGE_LENGTH],
    state: &mut [u8; journal_state::LENGTH],
) -> usize
    requires { rows ≤ capacity_of (length archive.now) }
    ensures { Noted log.now archive.now had rows name.now image.now
        state.old state.new result }
{
    let text = taken(log);
    let lines = count_lines(&log[0..text]);
    let kept = least(text, TAIL_LENGTH);
    let tail = block_of(&log[text - kept..text]);
    let field = name_field(name);
    let last = last_block(archive, rows);
    let numbers = numbers_of(lines, had, name.len(), text, kept);
    let _lawful = journal_state::write(&numbers, &field, &last, image, &tail, state);
    lines
}

fn numbers_of(
    lines: usize,
    had: usize,
    name: usize,
    offset: usize,
    tail: usize,
) -> [u64; journal_state::NUMBERS]
    ensures { result ≡ state_numbers lines had name offset tail }
{
    [
        lines as u64,
        0,
        had as u64,
        0,
        name as u64,
        1,
        offset as u64,
        0,
        0,
        tail as u64,
        0,
        0,
        0,
        0,
    ]
}

fn name_field(name: &[u8]) -> [u8; NAME_LENGTH]
    ensures { result ≡ resized max_name name.now }
{
    let mut out = [0u8; NAME_LENGTH];
    block_layout::put_bytes(&mut out, name);
    out
}

// A block with the first bytes of a text, and zeros after them.
fn block_of(text: &[u8]) -> [u8; BLOCK_LENGTH]
    ensures { result ≡ resized block_length text.now }
{
    let mut out = [0u8; BLOCK_LENGTH];
    block_layout::put_bytes(&mut out, text);
    out
}

// The block with the last row of an archive; `rows` is their number. Zeros if there is no row.
fn last_block(archive: &[u8], rows: usize) -> [u8; BLOCK_LENGTH]
    requires { rows ≤ capacity_of (length archive.now) }
    ensures { result ≡ last_in archive.now rows }
{
    if rows == 0 {
        return block_of(&archive[0..0]);
    }
    let at = BLOCK_LENGTH * ((rows - 1) / CELLS_PER_BLOCK);
    let end = at + BLOCK_LENGTH;
    block_of(&archive[at..end])
}

// The number of characters of a log that are taken: all, or none if its first line says no level or has not ended.
fn taken(log: &[u8]) -> usize
    ensures { result ≡ length (taken_of log.now) }
{
    let mut first = [0u64; c_lines::FIRST];
    let setting = c_lines::first_line(log, &mut first);
    if MAX_SETTING < setting {
        return 0;
    }
    log.len()
}

// The number of lines of a text; a last line without a newline counts.
fn count_lines(text: &[u8]) -> usize
    ensures { result ≡ length (lines_of text.now) }
{
    let mut done = [0u64; c_lines::SKIPPED];
    c_lines::skip_lines(text, text.len(), &mut done);
    let used = done[0] as usize;
    let lines = done[1] as usize;
    if used < text.len() {
        return lines + 1;
    }
    lines
}

// Takes the log with a fresh collector. If `write` says so, appends its rows to the `n` rows of the archive, and writes what it closes and the image.
fn go_through(
    write: bool,
    log: &[u8],
    archive: &mut [u8],
    n: usize,
    heard: &mut [u8],
    image: &mut [u8],
) -> Pass
    requires { Holds archive.old n × (image_length ≤ length image.old) }
    ensures { WentThrough write log.now (outputs archive.old n heard.old 0)
        image.old archive.new heard.new image.new result }
{
    let mut times = [0u64; CAPACITY];
    let mut lengths = [0u8; CAPACITY];
    let mut bytes = [0u8; BYTES];
    let mut copies = [0u16; CAPACITY];
    let mut numbers = [0u64; NUMBERS];
    let mut state = Lent {
        times: &mut times,
        lengths: &mut lengths,
        bytes: &mut bytes,
        copies: &mut copies,
        numbers: &mut numbers,
    };
    state.clear();
    let p = take_log(write, &mut state, log, archive, n, heard);
    park(write & p.fits, state.held(), image);
    p
}

// Takes the log, first line included.
fn take_log(
    write: bool,
    state: &mut Lent,
    log: &[u8],
    archive: &mut [u8],
    n: usize,
    heard: &mut [u8],
) -> Pass
    requires { (state_at (arrays_in state.old) ≡ fresh)
        × Holds archive.old n }
    ensures { LogPassed write log.now (outputs archive.old n heard.old 0)
        (arrays_in state.new)
        archive.new heard.new result }
{
    let mut first = [0u64; c_lines::FIRST];
    let setting = c_lines::first_line(log, &mut first);
    if MAX_SETTING < setting {
        return Pass {
            fits: true,
            rows: n,
            closings: 0,
        };
    }
    let at = first[0] as usize;
    take_lines(write, state, setting, &log[at..], archive, n, heard, 0)
}

// Writes the image, if `write` says so.
fn park(write: bool, state: Held, image: &mut [u8])
    requires { (image_length ≤ length image.old)
        × (write ≡ true → acceptable (state_at (arrays_held state)) ≡ true) }
    ensures { image.new
        ≡ cond write (image_of (state_at (arrays_held state.entry)) ++ drop image_length image.old) image.old }
{
    if !write {
        return;
    }
    c_checkpoint::checkpoint(state, image);
}

// Takes all whole lines of the input, in as many calls as it needs, and then the rest of the input, which is no whole line.
fn take_lines(
    write: bool,
    state: &mut Lent,
    setting: u8,
    input: &[u8],
    archive: &mut [u8],
    n: usize,
    heard: &mut [u8],
    m: usize,
) -> Pass
    requires { Ready write (arrays_in state.old) setting input.now
        (outputs archive.old n heard.old m) }
    ensures { Went write
        (arrays_in state.old)
        setting input.now (outputs archive.old n heard.old m)
        (arrays_in state.new)
        archive.new heard.new result }
{
    let mut at: usize = 0;
    let mut rows = n;
    let mut closings = m;
    loop {
        let t = take_some(
            write,
            state,
            setting,
            &input[at..],
            archive,
            rows,
            heard,
            closings,
        );
        if !t.fits {
            return Pass {
                fits: false,
                rows: 0,
                closings: 0,
            };
        }
        at += t.used;
        rows += t.rows;
        closings += t.closings;
        if t.used == 0 {
            break;
        }
    }
    take_last(
        write,
        state,
        setting,
        &input[at..],
        archive,
        rows,
        heard,
        closings,
    )
}

// Takes a last line without a newline, if there is one: it counts as a line.
fn take_last(
    write: bool,
    state: &mut Lent,
    setting: u8,
    line: &[u8],
    archive: &mut [u8],
    n: usize,
    heard: &mut [u8],
    m: usize,
) -> Pass
    requires { Ready write (arrays_in state.old) setting line.now
        (outputs archive.old n heard.old m) × (is_unended line.now ≡ true) }
    ensures { Went write
        (arrays_in state.old)
        setting line.now (outputs archive.old n heard.old m)
        (arrays_in state.new)
        archive.new heard.new result }
{
    if line.len() == 0 {
        return Pass {
            fits: true,
            rows: n,
            closings: m,
        };
    }
    let mut whole = [0u8; WHOLE];
    let end = end_line(line, &mut whole);
    let t = take_some(write, state, setting, &whole[0..end], archive, n, heard, m);
    Pass {
        fits: t.fits,
        rows: n + t.rows,
        closings: m + t.closings,
    }
}

// The characters of a line that can matter, and a newline after them; returns their number.
fn end_line(line: &[u8], whole: &mut [u8]) -> usize
    requires { length whole.old ≡ line_limit + 1 }
    ensures { (result ≡ min (length line.now) line_limit + 1)
        × (take result whole.new ≡ take line_limit line.now ++ (newline ∷ [])) }
{
    let n = least(line.len(), LINE_LIMIT);
    base_bytes::copy(&line[0..n], whole);
    whole[n] = 10;
    n + 1
}

fn least(a: usize, b: usize) -> usize
    ensures { result ≡ min a b }
{
    if a < b {
        return a;
    }
    b
}

// Takes at most as many lines as the next block has room for rows. If `write` says so and they fit, puts their rows into the block and what they close into
// `heard`.
fn take_some(
    write: bool,
    state: &mut Lent,
    setting: u8,
    input: &[u8],
    archive: &mut [u8],
    n: usize,
    heard: &mut [u8],
    m: usize,
) -> Turn
    requires { Callable (arrays_in state.old) setting
        (outputs archive.old n heard.old m) }
    ensures { Turned write
        (arrays_in state.old)
        setting input.now (outputs archive.old n heard.old m)
        (arrays_in state.new)
        archive.new heard.new result }
{
    let mut text = buffer();
    let mut moments = [0u64; CELLS_PER_BLOCK];
    let mut rows = [0u8; ROWS];
    let mut closed = buffer();
    let mut done = [0u64; c_lines::formats::DONE];
    let most = CELLS_PER_BLOCK - n % CELLS_PER_BLOCK;
    c_lines::formats::lines_as(
        state,
        setting,
        TEXT,
        input,
        most,
        &mut text,
        &mut moments,
        &mut rows,
        &mut closed,
        &mut done,
    );
    let used = done[0] as usize;
    let count = done[2] as usize;
    let closings = done[4] as usize;
    let fits = (count <= CELLS_PER_BLOCK * (archive.len() / BLOCK_LENGTH) - n)
        & (closings <= heard.len() / CELL_LENGTH - m);
    put(
        write & fits,
        archive,
        n,
        &moments[0..count],
        &rows[0..ROW_LENGTH * count],
    );
    put_closings(write & fits, heard, m, &closed[0..CELL_LENGTH * closings]);
    Turn {
        used: used,
        rows: count,
        closings: closings,
        fits: fits,
    }
}

fn buffer() -> [u8; BUFFER]
    ensures { length result ≡ buffer_length }
{
    [0; BUFFER]
}

// Puts rows into the block of row `n`, if `write` says so.
fn put(write: bool, archive: &mut [u8], n: usize, times: &[u64], rows: &[u8])
    requires { (length rows.now ≡ row_length * length times.now)
        × (write ≡ true → 0 < length times.now → n / cells_per_block < length archive.old / block_length) }
    ensures { archive.new
        ≡ cond write (put_in archive.old n (rows_given times.now rows.now))
        archive.old }
{
    if !write {
        return;
    }
    if times.len() == 0 {
        return;
    }
    let mut position: usize = 0;
    let at = BLOCK_LENGTH * (n / CELLS_PER_BLOCK);
    let end = at + BLOCK_LENGTH;
    c_archive::put_rows(&mut archive[at..end], n, times, rows, &mut position);
}

// Puts what closed after `m` other closings, if `write` says so.
fn put_closings(write: bool, heard: &mut [u8], m: usize, cells: &[u8])
    requires { write ≡ true → cell_length * m + length cells.now ≤ length heard.old }
    ensures { heard.new
        ≡ cond write (sets heard.old (cell_length * m) cells.now) heard.old }
{
    if !write {
        return;
    }
    let at = CELL_LENGTH * m;
    base_bytes::copy(cells, &mut heard[at..]);
}
