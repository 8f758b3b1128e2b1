// Numbers in a row, a space before each. A row is put together on the stack, which needs no memory from outside, and written at once: a
// write for each number would take most of a run's time.
use arrayvec::ArrayVec;
use std::io;
use std::io::Write;

// The longest row has the 242 entries of a buffer, each of up to 20 digits.
type Row = ArrayVec<u8, 5_082>;

pub(super) fn row<W: Write>(out: &mut W, numbers: &[u64]) -> io::Result<()> {
    let mut text = Row::new();
    for n in numbers {
        write!(text, " {n}")?;
    }
    out.write_all(text.as_slice())
}
