// Bytes in lent slices: copied, searched, compared.
#![tactic(auto)]

ghost use Rattle.std.specs.Prelude.{◌≡◌, true, ◌+◌, ◌≤◌, ◌++◌, length, take, drop};
ghost use Rattle.base_lists.specs.Lists.{padded};
ghost use Rattle.base_bytes.specs.Bytes.{index_of, slice};

// Copies all of `src` to the front of `out`, and says how many bytes these are. The bytes after them stay.
pub fn copy(src: &[u8], out: &mut [u8]) -> usize
    requires { length src.now ≤ length out.old }
    ensures { (result ≡ length src.now)
        × (out.new ≡ take (length src.now) src.now ++ drop (length src.now) out.old) }
{
    let n = src.len();
    out[..n].copy_from_slice(src);
    n
}

// The bytes of `src`, with zeros after them.
pub fn padded<const N: usize>(src: &[u8]) -> [u8; N]
    requires { length src.now ≤ N }
    ensures { result ≡ padded N src.now }
{
    let mut out = [0u8; N];
    copy(src, &mut out);
    out
}

// All of `src`, which has as many bytes as the array.
pub fn array_of<const N: usize>(src: &[u8]) -> [u8; N]
    requires { length src.now ≡ N }
    ensures { result ≡ src.now }
{
    let mut out = [0u8; N];
    out.copy_from_slice(src);
    out
}

// The index of the first `byte` in `text` from `from` on and before `to`; `to` if there is none.
pub fn find(text: &[u8], from: usize, to: usize, byte: u8) -> usize
    requires { (from ≤ to) × (to ≤ length text.now) }
    ensures { (result ≡ from + index_of byte (slice from to text.now)) × (result ≤ to) }
{
    match text[from..to].iter().position(|b| *b == byte) {
        Some(at) => from + at,
        None => to,
    }
}

// Whether two slices have the same bytes.
// Kept (twin): block_layout::equal has another contract, and a loop for its speed.
pub fn same(a: &[u8], b: &[u8]) -> bool
    ensures { (result ≡ true → a.now ≡ b.now) × (a.now ≡ b.now → result ≡ true) }
{
    a == b
}
