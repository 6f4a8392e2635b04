// The byte STATUS in its parts: level, hash selector, and the bits between (source document 001, Tables 3 and 4).
ghost use Rattle.std.specs.Prelude.{◌≡◌};
ghost use Rattle.radio_erp1.specs.Status.{split_of, join_of, upper_of};

#[derive(Clone, Copy)]
pub struct Status {
    // Bits 0 to 3: how often the telegram was repeated.
    pub level: u8,
    // Bits 4 to 6, which are not changed.
    pub flags: u8,
    // Bit 7, the hash selector: HASH is the CRC if it is set, else the sum.
    pub crc: bool,
}

// The parts of a STATUS byte.
// Kept (conversion): contracts and edits name it, and From would say the same without a name.
pub fn split(status: u8) -> Status
    ensures { result ≡ split_of status }
{
    Status {
        level: status % 16,
        flags: status / 16 % 8,
        crc: status / 128 == 1,
    }
}

// The byte with these parts. If the level or the flags are too large, only the bits that fit are used.
// Kept (conversion): contracts and edits name it, and From would say the same without a name.
pub fn join(s: Status) -> u8
    ensures { result ≡ join_of s }
{
    let low = s.flags % 8 * 16 + s.level % 16;
    if s.crc {
        return 128 + low;
    }
    low
}

// STATUS without the level.
pub fn upper(status: u8) -> u8
    ensures { result ≡ upper_of status }
{
    status / 16
}
