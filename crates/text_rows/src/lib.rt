// Writes the lines of the program `collect` (document 01, "Cases"). Each function writes into a lent buffer from `at` on and returns the position
// after its text. If the longest such text would not fit, it writes nothing and returns `at`.
#![tactic(auto)]

pub mod formats;

ghost use Rattle.std.specs.Prelude.{◌≡◌, ◌+◌, ◌*◌, ◌≤◌, leb, length, drop, ◌<◌};
ghost use Rattle.text_lines.specs.Private.{CopiedPart};
ghost use Rattle.text_rows.specs.Text.{decimal_text, hex_digit_of, hex_text, answer_text, row_behind, bad_text, named_total, totals_text};
ghost use Rattle.base_buffers.specs.Printed.{Printed, PrintedIfFits};
ghost use Rattle.text_rows.specs.Longest.{longest_number, longest_answer, longest_row, longest_totals};
ghost use Rattle.text_rows.specs.Private.{DigitsOf};

// The answer in the row of a reception; a refusal has its number.
#[derive(Clone, Copy)]
pub enum Row {
    Kept,
    Copy,
    Loose,
    Refused(u8),
}

// The longest number; and the longest row, without its time and without two characters for each byte to send.
pub const LONGEST_NUMBER: usize = 20;

pub const LONGEST_ROW: usize = 30;

// The row of a line that is BAD.
pub const BAD_LENGTH: usize = 4;

// The longest line of totals.
pub const LONGEST_TOTALS: usize = 166;

// Writes the row of a reception after the text of its time, as it was read; `sent` is what KEPT sends.
// Kept (twin): `formats::put_row` asks for room for the longest row of all formats, so it writes nothing in places where this one writes.
pub fn put_row(out: &mut [u8], at: usize, time: &[u8], row: Row, sent: &[u8]) -> usize
    ensures { PrintedIfFits out.old at
        (longest_row (length time.now) (length sent.now))
        (row_behind time.now row sent.now)
        out.new result }
{
    let fixed = time.len() + LONGEST_ROW;
    if !has_capacity(out.len(), at, fixed, sent.len()) {
        return at;
    }
    write_row(out, at, time, row, sent)
}

// The row of a line that is BAD.
// Kept (twin): formats::put_bad asks for other room, 17 bytes in place of 4, so it writes nothing at other places.
pub fn put_bad(out: &mut [u8], at: usize) -> usize
    ensures { PrintedIfFits out.old at 4 bad_text out.new result }
{
    if !has_capacity(out.len(), at, BAD_LENGTH, 0) {
        return at;
    }
    write(out, at, b"BAD\n")
}

// The totals.
// Kept (group): the struct of the collector that has these six is above this crate, so one of its own would be filled field by field, and is no plainer.
pub fn put_totals(
    out: &mut [u8],
    at: usize,
    received: u64,
    kept: u64,
    copies: u64,
    loose: u64,
    damaged: u64,
    late: u64,
) -> usize
    ensures { PrintedIfFits out.old at longest_totals
        (totals_text received kept copies loose damaged late)
        out.new result }
{
    if !has_capacity(out.len(), at, LONGEST_TOTALS, 0) {
        return at;
    }
    write_totals(out, at, received, kept, copies, loose, damaged, late)
}

// Whether `fixed` characters, and two for each of `bytes` bytes, fit from `at` on.
fn has_capacity(capacity: usize, at: usize, fixed: usize, bytes: usize) -> bool
    ensures { result ≡ leb (at + (fixed + 2 * bytes)) capacity }
{
    at <= capacity && fixed <= capacity - at && bytes <= (capacity - at - fixed) / 2
}

fn write_row(out: &mut [u8], at: usize, time: &[u8], row: Row, sent: &[u8]) -> usize
    requires { at + longest_row (length time.now) (length sent.now) ≤ length out.old }
    ensures { Printed out.old at
        (row_behind time.now row sent.now)
        (longest_row (length time.now) (length sent.now))
        out.new result }
{
    let a = write(out, at, time);
    let b = write(out, a, b" ");
    let c = write_answer(out, b, row, sent);
    write(out, c, b"\n")
}

fn write_answer(out: &mut [u8], at: usize, row: Row, sent: &[u8]) -> usize
    requires { at + longest_answer (length sent.now) ≤ length out.old }
    ensures { Printed out.old at
        (answer_text row sent.now) (longest_answer (length sent.now))
        out.new result }
{
    match row {
        Row::Kept => {
            if sent.len() == 0 {
                return write(out, at, b"KEPT");
            }
            let from = write(out, at, b"KEPT SEND ");
            write_hex(out, from, sent)
        }
        Row::Copy => write(out, at, b"COPY"),
        Row::Loose => write(out, at, b"LOOSE"),
        Row::Refused(n) => {
            let from = write(out, at, b"REFUSED ");
            write_decimal(out, from, n as u64)
        }
    }
}

fn write_totals(
    out: &mut [u8],
    at: usize,
    received: u64,
    kept: u64,
    copies: u64,
    loose: u64,
    damaged: u64,
    late: u64,
) -> usize
    requires { at + longest_totals ≤ length out.old }
    ensures { Printed out.old at
        (totals_text received kept copies loose damaged late) longest_totals
        out.new result }
{
    let a = write_count(out, at, b"RECEIVED ", received);
    let b = write_count(out, a, b" KEPT ", kept);
    let c = write_count(out, b, b" COPIES ", copies);
    let d = write_count(out, c, b" LOOSE ", loose);
    let e = write_count(out, d, b" DAMAGED ", damaged);
    let f = write_count(out, e, b" LATE ", late);
    write(out, f, b"\n")
}

fn write_count(out: &mut [u8], at: usize, name: &[u8], n: u64) -> usize
    requires { at + (length name.now + longest_number) ≤ length out.old }
    ensures { Printed out.old at
        (named_total name.now n) (length name.now + longest_number)
        out.new result }
{
    let from = write(out, at, name);
    write_decimal(out, from, n)
}

// Writes a text. Most texts are short, or have 8 to 16 characters, as nearly all times do: the latter are written as two blocks of eight, which may
// overlap.
fn write(out: &mut [u8], at: usize, s: &[u8]) -> usize
    requires { at + length s.now ≤ length out.old }
    ensures { Printed out.old at s.now (length s.now) out.new result }
{
    let n = s.len();
    if n < 8 {
        return write_each(out, at, s);
    }
    if 16 < n {
        return write_each(out, at, s);
    }
    put_eight(out, at, s, 0);
    let last = n - 8;
    put_eight(out, at + last, s, last);
    at + n
}

// Kept (loop): tried: with `copy_from_slice` here and in `copy_part`, twenty million lines read and written take 0.64 s in place of 0.45 s.
fn write_each(out: &mut [u8], at: usize, s: &[u8]) -> usize
    requires { at + length s.now ≤ length out.old }
    ensures { Printed out.old at s.now (length s.now) out.new result }
{
    for i in 0..s.len() {
        out[at + i] = s[i];
    }
    at + s.len()
}

fn write_decimal(out: &mut [u8], at: usize, n: u64) -> usize
    requires { at + longest_number ≤ length out.old }
    ensures { Printed out.old at (decimal_text n) longest_number out.new result }
{
    let mut digits = [0u8; LONGEST_NUMBER];
    let from = spell(n, &mut digits);
    write(out, at, &digits[from..LONGEST_NUMBER])
}

// Writes n in decimal to the end of `digits`, and returns where it starts. Two digits at a time: a division by 100 costs as much as one by 10.
fn spell(n: u64, digits: &mut [u8]) -> usize
    requires { length digits.old ≡ longest_number }
    ensures { (result ≤ longest_number) × (drop result digits.new ≡ decimal_text n) }
{
    let mut i = LONGEST_NUMBER;
    let mut rest = n;
    while 100 <= rest {
        let pair = (rest % 100) as u8;
        digits[i - 1] = 48 + pair % 10;
        digits[i - 2] = 48 + pair / 10;
        i -= 2;
        rest = rest / 100;
    }
    let pair = rest as u8;
    digits[i - 1] = 48 + pair % 10;
    if pair < 10 {
        return i - 1;
    }
    digits[i - 2] = 48 + pair / 10;
    i - 2
}

// Writes the digits of bytes. 8 to 24 bytes, as in telegrams, are written eight at a time; the last eight end where the bytes end.
fn write_hex(out: &mut [u8], at: usize, s: &[u8]) -> usize
    requires { at + 2 * length s.now ≤ length out.old }
    ensures { Printed out.old at
        (hex_text s.now) (2 * length s.now)
        out.new result }
{
    let n = s.len();
    if n < 8 {
        return write_pairs(out, at, s);
    }
    if 24 < n {
        return write_pairs(out, at, s);
    }
    let last = n - 8;
    put_digits(out, at, s, 0);
    if n <= 16 {
        put_digits(out, at + 2 * last, s, last);
        return at + 2 * n;
    }
    put_digits(out, at + 16, s, 8);
    put_digits(out, at + 2 * last, s, last);
    at + 2 * n
}

// Copies eight characters through an array, because the compiler does not know that the two slices do not overlap.
fn put_eight(out: &mut [u8], at: usize, s: &[u8], from: usize)
    requires { (from + 8 ≤ length s.now) × (at + 8 ≤ length out.old) }
    ensures { CopiedPart s.now from 8 out.old at out.new }
{
    let mut c = [0u8; 8];
    text_lines::copy_part(s, from, 8, &mut c, 0);
    text_lines::copy_part(&c, 0, 8, out, at);
}

// Writes the digits of eight bytes.
fn put_digits(out: &mut [u8], at: usize, s: &[u8], from: usize)
    requires { (from + 8 ≤ length s.now) × (at + 16 ≤ length out.old) }
    ensures { CopiedPart (hex_text s.now) (2 * from) 16 out.old at out.new }
{
    let d = digits_of(s, from);
    text_lines::copy_part(&d, 0, 16, out, at);
}

// The digits of eight bytes, in an array of its own, because the compiler does not know that the two slices do not overlap.
// Kept (loop): a count that is a constant makes one vector of all; k is the place of a byte and of its two digits, so iterators in step are no plainer.
fn digits_of(s: &[u8], from: usize) -> [u8; 16]
    requires { from + 8 ≤ length s.now }
    ensures { DigitsOf s.now from result }
{
    let mut d = [0u8; 16];
    for k in 0..8 {
        d[2 * k] = hex_digit(s[from + k] / 16);
        d[2 * k + 1] = hex_digit(s[from + k] % 16);
    }
    d
}

fn write_pairs(out: &mut [u8], at: usize, s: &[u8]) -> usize
    requires { at + 2 * length s.now ≤ length out.old }
    ensures { Printed out.old at
        (hex_text s.now) (2 * length s.now)
        out.new result }
{
    let mut to = at;
    for b in s {
        out[to] = hex_digit(*b / 16);
        out[to + 1] = hex_digit(*b % 16);
        to += 2;
    }
    to
}

fn hex_digit(d: u8) -> u8
    requires { d < 16 }
    ensures { result ≡ hex_digit_of d }
{
    if d < 10 { 48 + d } else { 55 + d }
}
