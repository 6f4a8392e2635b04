// Archives for C and Rust, on plain numbers and bytes: for the benchmark, and for the test with a buffer of more addresses than a test program can
// hold.

use archive_file::ArchiveError;

// The CRC over long inputs.
#[unsafe(no_mangle)]
pub extern "C" fn archive_bench_crc(bytes: &[u8]) -> u8 {
    base_crc8_long::crc8_long(bytes)
}

// The number of the answer is in the highest byte; below it are the rows, or the position with 12.
#[unsafe(no_mangle)]
pub extern "C" fn archive_bench_open(buffer: &[u8]) -> u64 {
    match archive_file::open(buffer) {
        Ok(n) => packed(0, n),
        Err(e) => refused(e),
    }
}

// The same for an append, with the position if the answer is 12.
#[unsafe(no_mangle)]
pub extern "C" fn archive_bench_append_at(
    buffer: &mut [u8],
    n: u64,
    bytes: &[u8],
    time: u64,
    loose: u8,
) -> u64 {
    match archive_file::append_at(buffer, n as usize, bytes, time, loose != 0) {
        Ok(()) => 0,
        Err(e) => refused(e),
    }
}

fn refused(e: ArchiveError) -> u64 {
    match e {
        ArchiveError::Damaged(k) => packed(12, k),
        ArchiveError::Refused(why) => packed(base_refusal::number(why), 0),
    }
}

fn packed(number: u8, value: usize) -> u64 {
    number as u64 * 72_057_594_037_927_936 + value as u64 % 72_057_594_037_927_936
}
