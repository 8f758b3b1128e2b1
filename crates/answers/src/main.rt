// Reads many files (crate batch), and prints three answers for each: its reading (one line), its listing, and what a valuation leaves
// in lent buffers (two lines).
#![tactic(auto)]

mod buffers;
mod reading;
mod row;

use batch::Stopped;
use refusal::Refusal;
use std::io;
use std::io::Write;

fn print_answers<W: Write>(out: &mut W, file: &[u8]) -> io::Result<()> {
    reading::print_reading(out, file)?;
    listing::print(out, engine::figures_of(file).map_err(Refusal::number))?;
    buffers::print_buffers(out, file)
}

// Ends with 1 where an answer cannot be written, and with 0 where the input cannot be read. Nothing is held back: the answers of a file are
// out before the next is read, for a caller who waits for them.
fn main(rt: HostRuntime) -> io::Result<()> {
    let mut out = rt.stdout();
    match batch::for_each(&mut rt.stdin(), |file| print_answers(&mut out, file)) {
        Ok(()) | Err(Stopped::Read(_)) => Ok(()),
        Err(Stopped::Write(error)) => Err(error),
    }
}
