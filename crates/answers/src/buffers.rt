// What a valuation leaves in two lent buffers, in two lines: F and the entries of the factor buffer, Z and those of the rate buffer.
// Both have 242 entries, all 7 beforehand, so that what a valuation leaves alone can be seen. To each zero rate 100,000 steps are added.
use super::row::row;
use std::io;
use std::io::Write;

// The rate in steps plus 100,000; 0 and 200,001 stand for rates outside -100,000 to 100,000.
fn raised(rate: i64) -> u64 {
    (rate.clamp(-100_000, 100_001) + 100_000) as u64
}

pub(super) fn print_buffers<W: Write>(out: &mut W, file: &[u8]) -> io::Result<()> {
    let mut factors = [7u64; 242];
    let mut rates = [7i64; 242];
    // the answer is that of the listing
    let _ = engine::value(file, &mut factors, &mut rates);
    out.write_all(b"F")?;
    row(out, &factors)?;
    out.write_all(b"\nZ")?;
    row(out, &rates.map(raised))?;
    out.write_all(b"\n")
}
