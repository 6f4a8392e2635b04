// Reads ERP2 telegrams, and reads and builds them again, for the benchmark.
use radio_erp2_model::Telegram;

// Reads a telegram, and returns a number made of its fields; 0 for a refusal.
#[unsafe(no_mangle)]
pub extern "C" fn bench_erp2_read(bytes: &[u8]) -> u64 {
    match radio_erp2::read(bytes) {
        Ok(t) => figure(t),
        Err(_) => 0,
    }
}

// Reads a telegram and builds it again, and returns the length written; 0 for a refusal.
#[unsafe(no_mangle)]
pub extern "C" fn bench_erp2_again(bytes: &[u8], out: &mut [u8]) -> usize {
    match radio_erp2::read(bytes) {
        Ok(t) => radio_erp2::build(t, out).unwrap_or(0),
        Err(_) => 0,
    }
}

fn figure(t: Telegram) -> u64 {
    let ends = u64::from(t.payload[0]) + u64::from(t.payload[249]);
    t.originator.wrapping_add(ends)
}
