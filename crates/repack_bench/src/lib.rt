// Salvage and removal for Rust, on plain numbers and bytes, for the benchmark.

// How many rows remain.
#[unsafe(no_mangle)]
pub extern "C" fn repack_bench_salvage(
    buffer: &[u8],
    out: &mut [u8],
    positions: &mut [u64],
) -> u64 {
    match archive_repack::salvage(buffer, out, positions) {
        Ok(done) => done.rows as u64,
        Err(_) => 0,
    }
}

// How many blocks are freed; 2^64 - 1 for a refusal.
#[unsafe(no_mangle)]
pub extern "C" fn repack_bench_remove(buffer: &mut [u8], identities: &[u32]) -> u64 {
    match archive_repack::remove(buffer, identities) {
        Ok(freed) => freed as u64,
        Err(_) => u64::MAX,
    }
}
