// Lines of text for a collector in five lent arrays, with their rows in a format and what they close, as other languages call it.
ghost use Rattle.std.specs.Prelude.{◌≡◌};
ghost use Rattle.c_collector.specs.State.{arrays_in, SameLoans};
ghost use Rattle.c_lines.specs.Formats.{format_of, LinesAs};

// Kept (code): the C interface: a call answers by a number, and is given the format by one.
use base_refusal::Refusal;
use c_collector::Lent;
use c_layout::WRONG_SIZE;
use radio_telegram::repeater::MAX_SETTING;
use text_collect::formats;
use text_rows::formats::Format;

// 0 is text, 1 comma-separated, 2 JSON.
const MAX_FORMAT: u8 = 2;

// The numbers of characters used, of characters written, of rows, of lines, and of telegrams that the lines close.
pub const DONE: usize = 5;

// Takes whole lines from the start of the input, at most `most`, as `lines` does, and writes their rows in a format. If `closed` is not empty, also
// writes what they close, 32 bytes each. Refused: 11, then 255, then 10 for the setting or the format; then everything is unchanged.
pub fn lines_as(
    state: &mut Lent,
    setting: u8,
    format: u8,
    input: &[u8],
    most: usize,
    out: &mut [u8],
    moments: &mut [u64],
    rows: &mut [u8],
    closed: &mut [u8],
    done: &mut [u64; DONE],
) -> u8
    ensures lines_as { LinesAs (arrays_in state.old) setting format input.now most out.old moments.old rows.old
        closed.old done.old result (arrays_in state.new) out.new moments.new rows.new closed.new done.new }
    ensures same_loans { SameLoans state.old state.new }
{
    if !state.held().is_acceptable() {
        return base_refusal::number(Refusal::NotAccepted);
    }
    if !crate::is_sized(moments.len(), rows.len()) {
        return WRONG_SIZE;
    }
    if (MAX_SETTING < setting) | (MAX_FORMAT < format) {
        return base_refusal::number(Refusal::Argument);
    }
    let summary = crate::summary_of(state.copies, state.numbers);
    let mut entries = collector_state::Lent {
        times: &mut *state.times,
        lens: &mut *state.lengths,
        bytes: &mut *state.bytes,
        copies: &mut *state.copies,
        summary,
    };
    let taken = formats::take_rows_as(
        true,
        setting,
        format_of(format),
        &mut entries,
        input,
        most,
        out,
        moments,
        rows,
        closed,
    );
    c_collector::store(entries.summary, state.numbers);
    *done = [
        taken.used as u64,
        taken.written as u64,
        taken.rows as u64,
        taken.lines as u64,
        taken.closings as u64,
    ];
    0
}

fn format_of(n: u8) -> Format
    ensures { result ≡ format_of n }
{
    match n {
        0 => Format::Text,
        1 => Format::Csv,
        _ => Format::Json,
    }
}
