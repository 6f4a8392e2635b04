// Numbers in a wider type. The name of a function says the type that it gives and the one that it takes; a byte is a `u8`.
#![tactic(auto)]

ghost use Rattle.std.specs.Prelude.{◌≡◌, ◌<◌};

pub fn usize_of_byte(b: u8) -> usize
    ensures { (result ≡ b) × (result < 256) }
{
    usize::from(b)
}

pub fn u32_of_byte(b: u8) -> u32
    ensures { (result ≡ b) × (result < 256) }
{
    u32::from(b)
}

pub fn u64_of_byte(b: u8) -> u64
    ensures { (result ≡ b) × (result < 256) }
{
    u64::from(b)
}

pub fn u64_of_u16(n: u16) -> u64
    ensures { (result ≡ n) × (result < 65536) }
{
    u64::from(n)
}
