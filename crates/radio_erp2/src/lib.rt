// ERP2 telegrams (document 02, A4; source document 004, 4.4 to 4.6): the length byte and Data_PL, read and built.
#![tactic(auto)]

ghost use Rattle.std.specs.Prelude.{◌≡◌, cond, ◌+◌, ◌^◌, ◌≤◌, ◌<◌, length, get_or, leb};
ghost use Rattle.base_refusal.specs.Number.{outcome_number};
ghost use Rattle.block_layout.specs.BigEndian.{unbe};
ghost use Rattle.radio_erp2_model.specs.Header.{header_fields, header_byte, extension_byte, announced_of};
ghost use Rattle.radio_erp2_model.specs.Sizes.{max_short, short_originators, originators, short_sizes, long_sizes, overhead as overhead_of};
ghost use Rattle.radio_erp2_model.specs.Reading.{sizes_in, fields_by_size, fields_of, check_of, shown_erp2_reading, read_of};
ghost use Rattle.radio_erp2_model.specs.Building.{sizes_for, is_extension_over, is_unholdable, is_against_header, is_misfitting, build_of};
ghost use Rattle.radio_telegram.specs.Output.{result_of};
ghost use Rattle.radio_erp2_model.specs.Bounds.{Fitting, Placed, Buildable};
ghost use Rattle.radio_erp2.specs.Private.{FitsOutput, row_written, before_ids, id_bytes, data_bytes, admission_of};

use base_refusal::Refusal;
use radio_erp2_model::{Extension, Header, MAX_DATA, Sizes, Telegram};

// The longest Data_PL of a short form, and the shortest and longest of a long one.
const MAX_SHORT: usize = 6;

const MIN_LONG: usize = 7;

const MAX_LONG: usize = 255;

// The first reserved address control; and the one with a Destination-ID (004, figure 11).
const RESERVED: u8 = 4;

const ADDRESSED: u8 = 2;

// The telegram type that means that an extended telegram type follows.
const EXTENDED_TYPE: u8 = 15;

// Reads a length byte and Data_PL. Refused, in this order: a wrong length (1), and for a long form a wrong CRC (13), a reserved address control (14),
// fields that do not fit (15).
pub fn read(bytes: &[u8]) -> Result<Telegram, Refusal>
    ensures { shown_erp2_reading result ≡ read_of bytes.now }
{
    check(bytes)?;
    Ok(fields(bytes))
}

// Builds a telegram into `out`. Refused, in this order: a value that its bits can't hold, or an optional field that is present or missing against the
// header (10), a reserved address control (14), fields that do not fit (15), an output that is too short (6).
pub fn build(t: Telegram, out: &mut [u8]) -> Result<usize, Refusal>
    ensures { result_of result out.new ≡ build_of t out.old }
{
    admission(t)?;
    emit(t, out)
}

// Writes a telegram that can be built, if there is room.
fn emit(t: Telegram, out: &mut [u8]) -> Result<usize, Refusal>
    requires { Buildable t }
    ensures { result_of result out.new ≡ build_of t out.old }
{
    let z = sizes_for(t);
    let end = 1 + overhead(z) + t.len;
    if out.len() < end {
        return Err(Refusal::ShortOutput);
    }
    put_row(t, z, out);
    Ok(end)
}

// Writes the length byte, the fields by their sizes, one after the other, and the CRC if there is one.
fn put_row(t: Telegram, z: Sizes, out: &mut [u8])
    requires { FitsOutput t z (length out.old) }
    ensures { out.new ≡ row_written t z out.old }
{
    let size = overhead(z) + t.len;
    let ids = 1 + z.header + z.extension + z.subtype;
    let data = ids + z.originator + z.destination;
    let end = data + t.len + z.optional;
    // Kept (conversion): proved to fit; `try_from(..).unwrap()` is no plainer.
    put_head(&mut out[0..ids], t, z, size as u8);
    put_ids(&mut out[ids..data], t, z);
    put_data(&mut out[data..end], t, z);
    if z.crc != 1 {
        return;
    }
    let crc = base_crc8::crc8(&out[1..end]);
    out[end] = crc;
}

// Writes the length byte, and what comes before the IDs.
fn put_head(out: &mut [u8], t: Telegram, z: Sizes, size: u8)
    requires { length out.old ≡ 1 + z.header + z.extension + z.subtype }
    ensures { out.new ≡ before_ids t z size }
{
    let extension = 1 + z.header;
    let subtype = extension + z.extension;
    let end = subtype + z.subtype;
    out[0] = size;
    block_layout::put_number(&mut out[1..extension], header_byte(t.header));
    block_layout::put_number(&mut out[extension..subtype], extension_byte(t.extension));
    block_layout::put_number(&mut out[subtype..end], u64::from(t.subtype.unwrap_or(0)));
}

fn put_ids(out: &mut [u8], t: Telegram, z: Sizes)
    requires { length out.old ≡ z.originator + z.destination }
    ensures { out.new ≡ id_bytes t z }
{
    let destination = z.originator;
    let end = destination + z.destination;
    block_layout::put_number(&mut out[0..destination], t.originator);
    block_layout::put_number(
        &mut out[destination..end],
        u64::from(t.destination.unwrap_or(0)),
    );
}

fn put_data(out: &mut [u8], t: Telegram, z: Sizes)
    requires { (length out.old ≡ t.len + z.optional) × (t.len ≤ 250) × (z.optional ≤ 15) }
    ensures { out.new ≡ data_bytes t z }
{
    let optional = t.len;
    let end = optional + z.optional;
    block_layout::put_bytes(&mut out[0..optional], &t.payload[0..optional]);
    block_layout::put_bytes(&mut out[optional..end], &t.optional[0..z.optional]);
}

// Whether a telegram can be built in any output (10, 14, 15).
fn admission(t: Telegram) -> Result<(), Refusal>
    ensures { outcome_number result ≡ admission_of t }
{
    if is_unholdable(t) {
        return Err(Refusal::Argument);
    }
    if is_against_header(t) {
        return Err(Refusal::Argument);
    }
    let short = t.short != 0;
    let reserved = !short & (RESERVED <= t.header.control);
    if reserved {
        return Err(Refusal::ReservedAddress);
    }
    if is_misfitting(t) {
        return Err(Refusal::Misfit);
    }
    Ok(())
}

// Whether a value is too large for its bits.
fn is_unholdable(t: Telegram) -> bool
    ensures { result ≡ is_unholdable t }
{
    let z = sizes_for(t);
    let over = limit(z.originator) <= t.originator;
    if t.short != 0 {
        return over | (6 < t.short);
    }
    let h = t.header;
    over | ((7 < h.control) | (15 < h.kind) | is_extension_over(t.extension))
}

// Whether a value of an extended header is too large for its bits.
fn is_extension_over(e: Option<Extension>) -> bool
    ensures { result ≡ is_extension_over e }
{
    matches!(e, Some(e) if 15 < e.hops || 15 < e.announced)
}

// Whether an optional field is present or missing against the header.
fn is_against_header(t: Telegram) -> bool
    ensures { result ≡ is_against_header t }
{
    let short = t.short != 0;
    let h = t.header;
    let extension = t.extension.is_some() != (!short & h.extended);
    let subtype = t.subtype.is_some() != (!short & (h.kind == EXTENDED_TYPE));
    let destination = t.destination.is_some() != (!short & (h.control == ADDRESSED));
    extension | subtype | destination
}

// Whether the fields do not fit the length.
fn is_misfitting(t: Telegram) -> bool
    requires { t.short ≤ 6 }
    ensures { result ≡ is_misfitting t }
{
    if MAX_DATA < t.len {
        return true;
    }
    let size = overhead(sizes_for(t)) + t.len;
    if t.short != 0 {
        return size != usize::from(t.short);
    }
    (size < MIN_LONG) | (MAX_LONG < size)
}

// The tests of reading, in their order.
fn check(s: &[u8]) -> Result<(), Refusal>
    ensures { outcome_number result ≡ check_of s.now }
{
    let n = s.len();
    if n == 0 {
        return Err(Refusal::Length);
    }
    let l = usize::from(s[0]);
    if l == 0 {
        return Err(Refusal::Length);
    }
    if n != 1 + l {
        return Err(Refusal::Length);
    }
    if l <= MAX_SHORT {
        return Ok(());
    }
    if s[l] != base_crc8::crc8(&s[1..l]) {
        return Err(Refusal::Crc);
    }
    let h = header_of(s[1]);
    if RESERVED <= h.control {
        return Err(Refusal::ReservedAddress);
    }
    if l < overhead(long_sizes(h, s[2] % 16)) {
        return Err(Refusal::Misfit);
    }
    Ok(())
}

// The fields of a list in which they fit.
fn fields(s: &[u8]) -> Telegram
    requires { Fitting s.now }
    ensures { result ≡ fields_of s.now }
{
    let l = usize::from(s[0]);
    let z = sizes_in(s);
    let n = l - overhead(z);
    row(s, z, n, short_of(s[0]))
}

// The fields by their sizes, one after the other, with n bytes of data.
fn row(s: &[u8], z: Sizes, n: usize, short: u8) -> Telegram
    requires { Placed s.now z n }
    ensures { result ≡ fields_by_size s.now z n short }
{
    let extension = 1 + z.header;
    let subtype = extension + z.extension;
    let originator = subtype + z.subtype;
    let destination = originator + z.originator;
    let data = destination + z.destination;
    let optional = data + n;
    let end = optional + z.optional;
    let h = header_of(small(&s[1..extension]));
    let e = small(&s[extension..subtype]);
    let value = small(&s[subtype..originator]);
    let from = block_layout::read_number(&s[originator..destination]);
    // Kept (conversion): proved to fit; `try_from(..).unwrap()` is no plainer.
    let id = block_layout::read_number(&s[destination..data]) as u32;
    Telegram {
        short,
        header: h,
        extension: h.extended.then_some(Extension {
            hops: e / 16,
            announced: e % 16,
        }),
        subtype: (h.kind == EXTENDED_TYPE).then_some(value),
        originator: from,
        destination: (h.control == ADDRESSED).then_some(id),
        payload: base_bytes::padded(&s[data..optional]),
        len: n,
        optional: base_bytes::padded(&s[optional..end]),
    }
}

// ---- bits

fn header_byte(h: Header) -> u64
    ensures { result ≡ header_byte h }
{
    u64::from(h.control) * 32 + if h.extended { 16 } else { 0 } + u64::from(h.kind)
}

fn extension_byte(e: Option<Extension>) -> u64
    ensures { result ≡ extension_byte e }
{
    match e {
        Some(e) => u64::from(e.hops) * 16 + u64::from(e.announced),
        None => 0,
    }
}

// The first number that a number of bytes can't hold, by that number.
const LIMITS: [u64; 7] = [
    1,
    256,
    65_536,
    16_777_216,
    4_294_967_296,
    1_099_511_627_776,
    281_474_976_710_656,
];

fn limit(size: usize) -> u64
    requires { size ≤ 6 }
    ensures { result ≡ 256 ^ size }
{
    LIMITS[size]
}

// ---- sizes

// The sizes of the fields of a telegram.
fn sizes_for(t: Telegram) -> Sizes
    ensures { result ≡ sizes_for t }
{
    if t.short != 0 {
        return short_sizes(usize::from(t.short));
    }
    long_sizes(t.header, announced_of(t.extension))
}

fn announced_of(e: Option<Extension>) -> u8
    ensures { result ≡ announced_of e }
{
    match e {
        Some(e) => e.announced,
        None => 0,
    }
}

fn header_of(b: u8) -> Header
    ensures { result ≡ header_fields b }
{
    Header {
        control: b / 32,
        extended: b / 16 % 2 == 1,
        kind: b % 16,
    }
}

// The sizes of the fields of a list.
fn sizes_in(s: &[u8]) -> Sizes
    requires { Fitting s.now }
    ensures { result ≡ sizes_in s.now }
{
    let l = usize::from(s[0]);
    if l <= MAX_SHORT {
        return short_sizes(l);
    }
    long_sizes(header_of(s[1]), s[2] % 16)
}

// The sizes for a short form, by its Length.
fn short_sizes(length: usize) -> Sizes
    ensures { result ≡ short_sizes length }
{
    Sizes {
        header: 0,
        extension: 0,
        subtype: 0,
        originator: short_originator(length),
        destination: 0,
        optional: 0,
        crc: 0,
    }
}

// The sizes for a long form.
fn long_sizes(h: Header, announced: u8) -> Sizes
    ensures { result ≡ long_sizes h announced }
{
    Sizes {
        header: 1,
        extension: if_set(h.extended, 1),
        subtype: if_set(h.kind == EXTENDED_TYPE, 1),
        originator: originator_size(h.control),
        destination: if_set(h.control == ADDRESSED, 4),
        optional: if_set(h.extended, usize::from(announced)),
        crc: 1,
    }
}

// The number of bytes of the Originator-ID: for a short form by Length, and for a long form by address control.
const SHORT_ORIGINATORS: [usize; 7] = [0, 1, 1, 2, 3, 4, 4];

const ORIGINATORS: [usize; 4] = [3, 4, 4, 6];

fn short_originator(length: usize) -> usize
    ensures { result ≡ get_or short_originators length 0 }
{
    SHORT_ORIGINATORS.get(length).copied().unwrap_or(0)
}

fn originator_size(control: u8) -> usize
    ensures { result ≡ get_or originators control 6 }
{
    ORIGINATORS.get(usize::from(control)).copied().unwrap_or(6)
}

// The length of Data_PL without its data.
fn overhead(z: Sizes) -> usize
    requires { overhead_of z ≤ 300 }
    ensures { result ≡ overhead_of z }
{
    z.header + z.extension + z.subtype + z.originator + z.destination + z.optional + z.crc
}

fn if_set(flag: bool, n: usize) -> usize
    ensures { result ≡ cond flag n 0 }
{
    if flag { n } else { 0 }
}

fn short_of(length: u8) -> u8
    ensures { result ≡ cond (leb length max_short) length 0 }
{
    if length <= 6 { length } else { 0 }
}

// ---- parts as values

// The number in at most one byte.
fn small(part: &[u8]) -> u8
    requires { length part.now ≤ 1 }
    ensures { result ≡ unbe part.now }
{
    part.first().copied().unwrap_or(0)
}
