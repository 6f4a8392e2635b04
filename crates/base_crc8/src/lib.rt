// CRC-8 with the generator x^8 + x^2 + x + 1, from 0 and with no final XOR: the hash of ERP1 (source document 001, 3.3.3).
#![tactic(auto)]

ghost use Rattle.std.specs.Prelude.{◌≡◌, true, ◌+◌, ◌-◌, ◌*◌, ◌/◌, ◌^◌, ◌<◌, ◌≤◌, length, take, drop};
ghost use Rattle.base_crc8.specs.Crc8.{is_table, step_of, crc_of};
ghost use Rattle.base_crc8.specs.Words.{EightBits, value_of, join_words, folded_of, halved_of, shorter_of, word_remainder};

// The remainder of each byte times x^8.
const TABLE: [u8; 256] = [
    0, 7, 14, 9, 28, 27, 18, 21, 56, 63, 54, 49, 36, 35, 42, 45, 112, 119, 126, 121, 108, 107, 98,
    101, 72, 79, 70, 65, 84, 83, 90, 93, 224, 231, 238, 233, 252, 251, 242, 245, 216, 223, 214,
    209, 196, 195, 202, 205, 144, 151, 158, 153, 140, 139, 130, 133, 168, 175, 166, 161, 180, 179,
    186, 189, 199, 192, 201, 206, 219, 220, 213, 210, 255, 248, 241, 246, 227, 228, 237, 234, 183,
    176, 185, 190, 171, 172, 165, 162, 143, 136, 129, 134, 147, 148, 157, 154, 39, 32, 41, 46, 59,
    60, 53, 50, 31, 24, 17, 22, 3, 4, 13, 10, 87, 80, 89, 94, 75, 76, 69, 66, 111, 104, 97, 102,
    115, 116, 125, 122, 137, 142, 135, 128, 149, 146, 155, 156, 177, 182, 191, 184, 173, 170, 163,
    164, 249, 254, 247, 240, 229, 226, 235, 236, 193, 198, 207, 200, 221, 218, 211, 212, 105, 110,
    103, 96, 117, 114, 123, 124, 81, 86, 95, 88, 77, 74, 67, 68, 25, 30, 23, 16, 5, 2, 11, 12, 33,
    38, 47, 40, 61, 58, 51, 52, 78, 73, 64, 71, 82, 85, 92, 91, 118, 113, 120, 127, 106, 109, 100,
    99, 62, 57, 48, 55, 34, 37, 44, 43, 6, 1, 8, 15, 26, 29, 20, 19, 174, 169, 160, 167, 178, 181,
    188, 187, 150, 145, 152, 159, 138, 141, 132, 131, 222, 217, 208, 215, 194, 197, 204, 203, 230,
    225, 232, 239, 250, 253, 244, 243,
];

// The CRC of all of `bytes`; 0 if there are none. For 8 to 16 bytes it is computed from two words, without a table and without a loop.
pub fn crc8(bytes: &[u8]) -> u8
    ensures { result ≡ crc_of bytes.now }
{
    let n = bytes.len();
    if n < 8 || 16 < n {
        return each(bytes);
    }
    let last = n - 8;
    let high = begun(word(bytes, 0), last);
    let low = word(bytes, last);
    remainder(folded(high, low))
}

// The first n bytes of a word, as a number.
fn begun(word: u64, n: usize) -> u64
    requires { n ≤ 8 }
    ensures { result ≡ word / 2 ^ (32 - 4 * n) / 2 ^ (32 - 4 * n) }
{
    let half = 32 - 4 * n;
    let part = word >> half;
    part >> half
}

// Two words reduced to one: the remainder of x^32 is x^4 + x^2 + x.
fn folded(high: u64, low: u64) -> u64
    ensures { result ≡ folded_of high low }
{
    let a = join(high / 4_294_967_296, high % 4_294_967_296);
    let b = join(a, low / 4_294_967_296);
    join(b, low % 4_294_967_296)
}

fn join(a: u64, w: u64) -> u64
    ensures { result ≡ join_words a w }
{
    ((a << 1) ^ (a << 2)) ^ ((a << 4) ^ w)
}

// The remainder of a word times x^8. The remainder of x^16 is x^4 + x^2 + 1, and that of x^8 is x^2 + x + 1.
fn remainder(v: u64) -> u8
    ensures { result ≡ word_remainder v }
{
    let b = join(v / 4_294_967_296, v % 4_294_967_296);
    let c = halved(b);
    let d = shorter(shorter(c));
    let e = shorter((d ^ (d << 1)) ^ (d << 2));
    (e % 256) as u8
}

fn halved(v: u64) -> u64
    ensures { result ≡ halved_of v }
{
    let h = v / 65_536;
    (h ^ (h << 2)) ^ ((h << 4) ^ (v % 65_536))
}

fn shorter(v: u64) -> u64
    ensures { result ≡ shorter_of v }
{
    let h = v / 256;
    (h ^ (h << 1)) ^ ((h << 2) ^ (v % 256))
}

// Eight bytes as a number, the first byte highest.
fn word(b: &[u8], from: usize) -> u64
    requires { from + 8 ≤ length b.now }
    ensures { (result ≡ value_of (take 8 (drop from b.now))) × EightBits b.now }
{
    quad(b, from) * 4_294_967_296 + quad(b, from + 4)
}

fn quad(b: &[u8], from: usize) -> u64
    requires { from + 4 ≤ length b.now }
    ensures { (result ≡ value_of (take 4 (drop from b.now))) × (result < 2 ^ 32) × EightBits b.now }
{
    let b0 = base_numbers::u64_of_byte(b[from]);
    let b1 = base_numbers::u64_of_byte(b[from + 1]);
    let b2 = base_numbers::u64_of_byte(b[from + 2]);
    let b3 = base_numbers::u64_of_byte(b[from + 3]);
    b0 * 16_777_216 + (b1 * 65_536 + (b2 * 256 + b3))
}

// The CRC, one byte after the other. The table is named only once here, because a constant array is built again at each place that names it.
fn each(bytes: &[u8]) -> u8
    ensures { result ≡ crc_of bytes.now }
{
    let table = TABLE;
    let mut crc: u8 = 0;
    for b in bytes {
        crc = step(&table, crc, *b);
    }
    crc
}

// One byte: XOR it in, multiply by x^8 and look up the remainder in the table.
fn step(table: &[u8; 256], crc: u8, byte: u8) -> u8
    requires { is_table table.now ≡ true }
    ensures { result ≡ step_of crc byte }
{
    table[usize::from(crc ^ byte)]
}
