// The fields of an ERP2 telegram as a value (document 02, A4; source document 004, 4.4 to 4.6). Reading and building are defined in specs/; that each
// undoes the other is in specs/Claims.antt.
#![tactic(auto)]

// The longest data of any telegram: 255 bytes without a header, an Originator-ID of 24 bits and the CRC.
pub const MAX_DATA: usize = 250;

// The longest optional data: its length has four bits.
pub const MAX_OPTIONAL: usize = 15;

// The header's three parts (004, figure 11).
#[derive(Clone, Copy)]
pub struct Header {
    // Address control: which IDs there are, and how many bits they have.
    pub control: u8,
    // An extended header is available.
    pub extended: bool,
    // Telegram type.
    pub kind: u8,
}

// The extended header (004, figure 12).
#[derive(Clone, Copy)]
pub struct Extension {
    // Repeater count.
    pub hops: u8,
    // Length of optional data.
    pub announced: u8,
}

#[derive(Clone, Copy)]
pub struct Telegram {
    // The Length of a short form, 1 to 6; 0 for a long form.
    // Kept (code): as an Option it is no plainer, because Some(0) and Some(7) would be values too, and the C call gives the byte itself.
    pub short: u8,
    pub header: Header,
    pub extension: Option<Extension>,
    // The extended telegram type (004, figure 13).
    pub subtype: Option<u8>,
    pub originator: u64,
    pub destination: Option<u32>,
    // Data_DL: the first `len` bytes.
    // Kept (buffer): no heap; the theorem ReadBuilt speaks of the zeros after the data.
    pub payload: [u8; MAX_DATA],
    pub len: usize,
    // Optional data: as many bytes as the extended header announces.
    pub optional: [u8; MAX_OPTIONAL],
}

// How many bytes each field except the data has; a field that is not present has none.
// Kept (code): with 0 for "not there", all forms have one order of fields, and the sum of the sizes is the length.
#[derive(Clone, Copy)]
pub struct Sizes {
    pub header: usize,
    pub extension: usize,
    pub subtype: usize,
    pub originator: usize,
    pub destination: usize,
    pub optional: usize,
    pub crc: usize,
}
