// Reads the lines of the program `collect` (document 01, "Cases").
#![tactic(auto)]

ghost use Rattle.std.specs.Prelude.{◌≡◌, true, ℕ, ◌+◌, ◌*◌, ◌%◌, ◌<◌, ◌≤◌, length, get_or, take, replicate, IfSome};
ghost use Rattle.text_lines.specs.Decimal.{is_digit, decimal_of, is_time, number_if, appended, timed_of};
ghost use Rattle.text_lines.specs.Private.{Thirteen, EndedPairs, PutTwo, CopiedPart};
ghost use Rattle.text_lines.specs.Hex.{max_bytes, nibble_of, Decoded};
ghost use Rattle.text_lines.specs.Reading.{setting_of, front_of, bad_front, line_of, bytes_in};

// What a line says was received: the time, and how many bytes, which are the first of the lent ones.
#[derive(Clone, Copy)]
pub struct Heard {
    pub time: u64,
    pub len: usize,
}

// The content of the line at the start of a text, which has `used` characters with its newline. In a BAD line nothing was heard.
#[derive(Clone, Copy)]
pub struct Line {
    pub heard: Option<Heard>,
    pub used: usize,
}

// The largest number of bytes of a reception in a line, and of their digits.
pub const MAX_BYTES: usize = 64;

// A line of this length is always BAD.
pub const LINE_LIMIT: usize = 150;

// Reads the repeater setting in the first line.
// Kept (conversion): a slice and an array do not compare by ==, and a match on byte strings is no plainer.
pub fn parse_setting(line: &[u8]) -> Option<u8>
    ensures { result ≡ setting_of line.now }
{
    if base_bytes::same(line, b"level 0") {
        return Some(0);
    }
    if base_bytes::same(line, b"level 1") {
        return Some(1);
    }
    if base_bytes::same(line, b"level 2") {
        return Some(2);
    }
    None
}

// Reads the reception in the line at the start of a text, if a newline ends it; its bytes are at the front of `bytes`, filled with zeros.
pub fn parse(text: &[u8], bytes: &mut [u8; MAX_BYTES]) -> Option<Line>
    ensures { (result ≡ line_of (front_of text.now))
        × (bytes.new ≡ bytes_in (front_of text.now)) }
{
    let Some((time, digits)) = parse_time(text) else {
        return bad_line(text, bytes);
    };
    let from = digits + 1;
    let end = text.len();
    let len = decode(&text[from..end], bytes);
    let at = from + 2 * len;
    if end <= at {
        return bad_line(text, bytes);
    }
    if text[at] != 10 {
        return bad_line(text, bytes);
    }
    Some(Line {
        heard: Some(Heard { time, len }),
        used: at + 1,
    })
}

// The answer for a line without a reception.
fn bad_line(text: &[u8], bytes: &mut [u8; MAX_BYTES]) -> Option<Line>
    ensures { (result ≡ line_of (bad_front text.now)) × (bytes.new ≡ replicate max_bytes 0) }
{
    *bytes = [0u8; MAX_BYTES];
    let end = text.len();
    let n = base_bytes::find(text, 0, end, 10);
    if end <= n {
        return None;
    }
    Some(Line {
        heard: None,
        used: n + 1,
    })
}

// Reads the time at the start of a text. In ms it has thirteen digits from 2001 to 2286: these are read at once.
fn parse_time(text: &[u8]) -> Option<(u64, usize)>
    ensures { result ≡ timed_of text.now }
{
    if 13 < text.len() && has_thirteen(text) {
        return Some((thirteen(text), 13));
    }
    read_time(text)
}

// Whether a text begins with thirteen digits and a space, and the first digit is not 0.
fn has_thirteen(text: &[u8]) -> bool
    requires { 13 < length text.now }
    ensures { result ≡ true → Thirteen text.now }
{
    (are_digits(&text[0..8]) & are_digits(&text[5..13])) & ((text[0] != 48) & (text[13] == 32))
}

// Whether all characters are digits. There is no branch before all are read, so eight are tested in one vector.
fn are_digits(s: &[u8]) -> bool
    ensures { result ≡ true → (k : ℕ) → k < length s.now → is_digit (get_or s.now k 0) ≡ true }
{
    let mut all = true;
    for c in s {
        all = all & is_digit(*c);
    }
    all
}

fn is_digit(c: u8) -> bool
    ensures { result ≡ is_digit c }
{
    (48 <= c) & (c < 58)
}

// The value of thirteen digits, which always fits 64 bits.
// Kept (loop): no plainer: the loop of 13 is unrolled, and k is a place that the requires clause names.
fn thirteen(text: &[u8]) -> u64
    requires { Thirteen text.now }
    ensures { result ≡ decimal_of (take 13 text.now) }
{
    let mut n: u64 = 0;
    for k in 0..13 {
        n = n * 10 + (text[k] - 48) as u64;
    }
    n
}

// The most characters of a time and the space after it: 2^64 - 1 has twenty digits.
const TIME_LIMIT: usize = 21;

// Reads the time at the start of a text. A line may be all digits, so only its front is looked at.
fn read_time(text: &[u8]) -> Option<(u64, usize)>
    ensures { result ≡ timed_of text.now }
{
    read_front(&text[..text.len().min(TIME_LIMIT)])
}

// The same: digits up to the first character that is none, which must be a space.
fn read_front(text: &[u8]) -> Option<(u64, usize)>
    ensures { result ≡ timed_of text.now }
{
    let end = text.iter().position(|c| !is_digit(*c))?;
    if text[end] != 32 {
        return None;
    }
    Some((number(&text[..end])?, end))
}

// The 64-bit number without leading zeros that digits say.
fn number(digits: &[u8]) -> Option<u64>
    ensures { result ≡ number_if (is_time digits.now) (decimal_of digits.now) }
{
    if digits.is_empty() {
        return None;
    }
    if (1 < digits.len()) & (digits[0] == 48) {
        return None;
    }
    let mut n = 0;
    for c in digits {
        n = append(n, *c)?;
    }
    Some(n)
}

// n with the digit c appended.
fn append(n: u64, c: u8) -> Option<u64>
    ensures { result ≡ appended n c }
{
    if !is_digit(c) {
        return None;
    }
    n.checked_mul(10)?.checked_add(u64::from(c - 48))
}

// Writes the bytes of the pairs of digits at the front of s to the front of `bytes`, at most MAX_BYTES, and returns how many there are.
fn decode(s: &[u8], bytes: &mut [u8; MAX_BYTES]) -> usize
    ensures { Decoded s.now bytes.new result }
{
    let Some(n) = count_pairs(s) else {
        return decode_pairs(s, bytes);
    };
    *bytes = [0u8; MAX_BYTES];
    if !decode_at_once(s, n, bytes) {
        return decode_pairs(s, bytes);
    }
    n
}

// How many pairs of characters come before a newline: 8 to 24, which includes every length of a subtelegram. None if there is no such newline, or if
// the text is too short for 24 pairs and a newline. It does not test whether they are digits.
fn count_pairs(s: &[u8]) -> Option<usize>
    ensures { IfSome result (λ n. EndedPairs s.now n) }
{
    if s.len() < 49 {
        return None;
    }
    for n in 8..25 {
        if s[2 * n] == 10 {
            return Some(n);
        }
    }
    None
}

// Writes the bytes of n pairs to the front of zeros, eight at a time; the last eight end where the pairs end. Returns whether all are digits.
fn decode_at_once(s: &[u8], n: usize, bytes: &mut [u8; MAX_BYTES]) -> bool
    requires { EndedPairs s.now n × (bytes.old ≡ replicate max_bytes 0) }
    ensures { result ≡ true → Decoded s.now bytes.new n }
{
    if n <= 16 {
        return put_two(s, 0, n - 8, bytes);
    }
    if !put_two(s, 0, 8, bytes) {
        return false;
    }
    put_two(s, 8, n - 8, bytes)
}

// Writes the bytes of the eight pairs from pair i on, and of those from pair j on. Returns whether all are digits. There is no branch on a character,
// so sixteen pairs are read in one vector.
fn put_two(s: &[u8], i: usize, j: usize, bytes: &mut [u8; MAX_BYTES]) -> bool
    requires { (i + 8 ≤ max_bytes) × (j + 8 ≤ max_bytes) × (2 * i + 16 ≤ length s.now) × (2 * j + 16 ≤ length s.now) }
    ensures { PutTwo s.now i j bytes.old bytes.new result }
{
    let mut c = [0u8; 32];
    copy_part(s, 2 * i, 16, &mut c, 0);
    copy_part(s, 2 * j, 16, &mut c, 16);
    let v = nibbles(c);
    let b = joined(v);
    copy_part(&b, 0, 8, bytes, i);
    copy_part(&b, 8, 8, bytes, j);
    are_nibbles(v)
}

// Copies n bytes of a slice into another slice.
// Kept (loop): tried: with `copy_from_slice`, twenty million lines read and written take 0.57 s in place of 0.45 s.
pub fn copy_part(src: &[u8], from: usize, n: usize, dst: &mut [u8], to: usize)
    requires { (from + n ≤ length src.now) × (to + n ≤ length dst.old) }
    ensures { CopiedPart src.now from n dst.old to dst.new }
{
    for k in 0..n {
        dst[to + k] = src[from + k];
    }
}

// The values of characters as hexadecimal digits.
// Kept (loop): a count that is a constant makes one vector of all 32; by two iterators in step this needs more lines, and is no plainer.
fn nibbles(c: [u8; 32]) -> [u8; 32]
    ensures { (length result ≡ 32) × ((k : ℕ) → k < 32 → get_or result k 0 ≡ nibble_of (get_or c k 0)) }
{
    let mut v = [0u8; 32];
    for k in 0..32 {
        v[k] = nibble(c[k]);
    }
    v
}

// Whether all are digits.
fn are_nibbles(v: [u8; 32]) -> bool
    ensures { result ≡ true → (k : ℕ) → k < 32 → get_or v k 0 < 16 }
{
    let mut all = true;
    for x in &v {
        all = all & (*x < 16);
    }
    all
}

// The bytes of these pairs.
// Kept (loop): a count that is a constant makes one vector of all 16; each byte is of two places of v, so pairs in step are no plainer.
fn joined(v: [u8; 32]) -> [u8; 16]
    ensures { (length result ≡ 16) × ((k : ℕ) → k < 16
        → get_or result k 0 ≡ get_or v (2 * k) 0 % 16 * 16 + get_or v (2 * k + 1) 0 % 16) }
{
    let mut b = [0u8; 16];
    for k in 0..16 {
        b[k] = v[2 * k] % 16 * 16 + v[2 * k + 1] % 16;
    }
    b
}

// The same, one pair after the other, for any text.
fn decode_pairs(s: &[u8], bytes: &mut [u8; MAX_BYTES]) -> usize
    ensures { Decoded s.now bytes.new result }
{
    *bytes = [0u8; MAX_BYTES];
    let limit = (s.len() / 2).min(MAX_BYTES);
    for i in 0..limit {
        let high = nibble(s[2 * i]);
        let low = nibble(s[2 * i + 1]);
        if (15 < high) | (15 < low) {
            return i;
        }
        bytes[i] = high * 16 + low;
    }
    limit
}

// The value of c as a hexadecimal digit; 16 for any other character.
fn nibble(c: u8) -> u8
    ensures { result ≡ nibble_of c }
{
    if (48 <= c) & (c < 58) {
        return c - 48;
    }
    if (65 <= c) & (c < 71) {
        return c - 55;
    }
    if (97 <= c) & (c < 103) {
        return c - 87;
    }
    16
}
