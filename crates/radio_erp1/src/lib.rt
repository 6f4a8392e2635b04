// ERP1 subtelegrams: STATUS, HASH, the check, and when two are the same telegram (document 01, "Subtelegram" and "Merging").
#![tactic(auto)]

pub mod status;

ghost use Rattle.std.specs.Prelude.{◌≡◌, ◌+◌, ◌%◌, ◌≤◌, length, take};
ghost use Rattle.base_refusal.specs.Number.{outcome_number};
ghost use Rattle.base_lists.specs.Lists.{equal};
ghost use Rattle.radio_erp1.specs.Subtelegram.{sum_of, hash_of, wrong_hash, check_of};
ghost use Rattle.radio_erp1.specs.Same.{is_same};
ghost use Rattle.radio_erp1.specs.Private.{SameBytes};

use base_refusal::Refusal;

// The house limits: the length of a subtelegram, and of an addressed one.
pub const MIN_LEN: usize = 8;

pub const MAX_LEN: usize = 21;

pub const MIN_ADDRESSED_LEN: usize = 13;

// RORG of an addressed telegram.
pub const ADDRESSED: u8 = 0xA6;

// The check, with the tests in document 01's order.
pub fn check(bytes: &[u8]) -> Result<(), Refusal>
    ensures { outcome_number result ≡ check_of bytes.now }
{
    let n = bytes.len();
    if n < MIN_LEN {
        return Err(Refusal::Length);
    }
    if MAX_LEN < n {
        return Err(Refusal::Length);
    }
    let last = n - 1;
    if bytes[last] != hash(&bytes[..last]) {
        return Err(wrong_hash(bytes[n - 2]));
    }
    if bytes[0] != ADDRESSED {
        return Ok(());
    }
    if n < MIN_ADDRESSED_LEN {
        return Err(Refusal::Length);
    }
    if bytes[1] == ADDRESSED {
        return Err(Refusal::Nested);
    }
    Ok(())
}

// Why a wrong HASH is refused: STATUS selects the hash.
fn wrong_hash(status: u8) -> Refusal
    ensures { result ≡ wrong_hash status }
{
    let parts = status::split(status);
    if parts.crc {
        return Refusal::Crc;
    }
    Refusal::Sum
}

// HASH over `body`, which is all bytes before it. The last byte of the body is STATUS, which selects the hash. Without bytes it is 0.
pub fn hash(body: &[u8]) -> u8
    ensures { result ≡ hash_of body.now }
{
    if body.len() == 0 {
        return 0;
    }
    let status = status::split(body[body.len() - 1]);
    if status.crc {
        return base_crc8::crc8(body);
    }
    sum(body)
}

// Whether two subtelegrams are the same telegram: equal except for HASH and the level.
pub fn same(a: &[u8], b: &[u8]) -> bool
    ensures { result ≡ is_same a.now b.now }
{
    let n = a.len();
    if n != b.len() {
        return false;
    }
    if n < 2 {
        return true;
    }
    let status = n - 2;
    if status::upper(a[status]) != status::upper(b[status]) {
        return false;
    }
    agree(a, b, status)
}

// The sum of the bytes, ignoring overflow.
fn sum(bytes: &[u8]) -> u8
    ensures { result ≡ sum_of bytes.now % 256 }
{
    let mut sum: u8 = 0;
    // Kept (loop): tried: speed. `for b in bytes` took a third longer for 12 bytes.
    for i in 0..bytes.len() {
        sum = sum.wrapping_add(bytes[i]);
    }
    sum
}

// Whether the first `n` bytes agree. It compares from their end, because TXID is there, and most telegrams differ in it. For most telegrams these are
// two blocks of eight bytes, or of four, which may overlap.
fn agree(a: &[u8], b: &[u8], n: usize) -> bool
    requires { (n ≤ length a.now) × (n ≤ length b.now) }
    ensures { result ≡ equal (take n a.now) (take n b.now) }
{
    match n {
        8..=16 => agree_ends::<8>(a, b, n),
        4..=7 => agree_ends::<4>(a, b, n),
        _ => a[..n] == b[..n],
    }
}

// Whether the last W and the first W of `n` bytes agree, which are all of them.
fn agree_ends<const W: usize>(a: &[u8], b: &[u8], n: usize) -> bool
    requires { (n ≤ length a.now) × (n ≤ length b.now) × (W ≤ n) × (n ≤ W + W) }
    ensures { result ≡ equal (take n a.now) (take n b.now) }
{
    agree_block::<W>(a, b, n - W) && agree_block::<W>(a, b, 0)
}

// Whether W bytes agree. There is no branch before all are read, so they are compared at once.
// Kept (loop): no branch before all bytes are read, so that they are compared at once (speed).
fn agree_block<const W: usize>(a: &[u8], b: &[u8], from: usize) -> bool
    requires { (from + W ≤ length a.now) × (from + W ≤ length b.now) }
    ensures { SameBytes a.now b.now from W result }
{
    let mut all = true;
    for k in 0..W {
        all = all & (a[from + k] == b[from + k]);
    }
    all
}
