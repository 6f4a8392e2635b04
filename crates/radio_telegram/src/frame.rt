// A frame: the bytes of a subtelegram by value, zero filled to 21, with their length.
ghost use Rattle.std.specs.Prelude.{◌≡◌, List, [], ◌∷◌, ℕ, ◌+◌, ◌≤◌, ◌<◌, length};
ghost use Rattle.radio_erp1.specs.Subtelegram.{max_length, sealed_of};
ghost use Rattle.radio_telegram.specs.Frame.{frame_of};
ghost use Rattle.radio_telegram.specs.Private.{Extended};
ghost use Rattle.radio_telegram.specs.Output.{result_of, put_of};

use base_refusal::Refusal;

// Kept (buffer): no heap, and C lends its 22 bytes.
#[derive(Clone, Copy)]
pub struct Frame {
    pub len: usize,
    pub bytes: [u8; radio_erp1::MAX_LEN],
}

impl Frame {
    // No bytes.
    pub fn empty() -> Frame
        ensures { result ≡ frame_of [] }
    {
        Frame {
            len: 0,
            bytes: [0u8; radio_erp1::MAX_LEN],
        }
    }

    // One byte appended.
    pub(crate) fn push(self, b: u8) -> Frame
        requires { self.len < max_length }
        ensures { Extended self result (b ∷ []) }
    {
        let mut bytes = self.bytes;
        bytes[self.len] = b;
        Frame {
            len: self.len + 1,
            bytes,
        }
    }

    // All of `src` appended.
    pub(crate) fn append(self, src: &[u8]) -> Frame
        requires { self.len + length src.now ≤ max_length }
        ensures { Extended self result src.now }
    {
        let mut bytes = self.bytes;
        let n = base_bytes::copy(src, &mut bytes[self.len..]);
        Frame {
            len: self.len + n,
            bytes,
        }
    }

    // HASH over all the bytes, appended.
    pub(crate) fn sealed(self) -> Frame
        requires { self.len < max_length }
        ensures { (xs : List ℕ) → self ≡ frame_of xs → result ≡ frame_of (sealed_of xs) }
    {
        self.push(radio_erp1::hash(&self.bytes[..self.len]))
    }
}

// Copies a frame to the front of `out`, which may be too short for it.
pub(crate) fn emit(f: Frame, out: &mut [u8]) -> Result<usize, Refusal>
    requires { f.len ≤ max_length }
    ensures { (xs : List ℕ) → f ≡ frame_of xs → result_of result out.new ≡ put_of xs out.old }
{
    if out.len() < f.len {
        return Err(Refusal::ShortOutput);
    }
    base_bytes::copy(&f.bytes[..f.len], out);
    Ok(f.len)
}
