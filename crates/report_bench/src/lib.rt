// Reports for C and Rust, on plain numbers and bytes: for the benchmark.
use archive_file::ArchiveError;
use archive_report::{Adding, Report};

// Adds an archive to an empty report. The number of the answer is in the highest byte, then the lines in two bytes, then the rows.
#[unsafe(no_mangle)]
pub extern "C" fn report_bench_add(buffer: &[u8]) -> u64 {
    packed_of(Report::empty().add(buffer))
}

// The same in two pieces; the first has half of the blocks.
#[unsafe(no_mangle)]
pub extern "C" fn report_bench_pieces(buffer: &[u8]) -> u64 {
    let half = buffer.len() / 1024 * 512;
    let start = Adding::start(Report::empty());
    let between = start.feed(&buffer[0..half]).unwrap_or(start);
    let last = between.feed(&buffer[half..buffer.len()]).unwrap_or(between);
    packed_of(last.end())
}

fn packed_of(answer: Result<Report, ArchiveError>) -> u64 {
    match answer {
        Ok(next) => packed(0, next.count, next.kept, next.loose),
        Err(ArchiveError::Damaged(_)) => packed(12, 0, 0, 0),
        Err(ArchiveError::Refused(why)) => packed(base_refusal::number(why), 0, 0, 0),
    }
}

fn packed(number: u8, lines: usize, kept: u64, loose: u64) -> u64 {
    let rows = kept % 1_099_511_627_776 + loose % 1_099_511_627_776;
    number as u64 * 72_057_594_037_927_936
        + lines as u64 % 65_536 * 1_099_511_627_776
        + rows % 1_099_511_627_776
}
