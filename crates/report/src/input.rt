// Reading a case file, as far as its bytes decide, and valuing it.
ghost use Rattle.std.specs.Prelude.{◌≡◌, ◌≤◌, IfErr, IfOk, OnOk, length, take};
ghost use Rattle.batch.specs.Unread.{KeepsUnread};
ghost use Rattle.model.specs.Sizes.{deciding_bytes};
ghost use Rattle.report.specs.Valued.{valuation_with, IsFront, IsTold, Printed, HasStatus, ValuedCall, IsPromised};

use crate::numbers::{Numbers, numbers_of};
use batch::{Cut, Stopped};
use model::figures::Valuation;
use refusal::Refusal;
use std::io::{Read, Write};

// As many bytes as decide about an input: one more than the longest file that is accepted. `promises::sizes::first_bytes_decide` says so.
const MOST_BYTES: usize = 17_626;

/// A history of months, and the place of its oldest month.
#[derive(Clone, Copy)]
pub struct History<'a> {
    pub bytes: &'a [u8],
    pub start: u64,
}

/// What is told of a file that was read: its valuation, or why it is refused; and the numbers of its case, none of a refused file.
#[derive(Clone, Copy)]
pub struct Told {
    pub valuation: Result<Valuation, Refusal>,
    pub numbers: Option<Numbers>,
}

// The valuation of a file, with its own UFR or with that of a history.
fn value_file(file: &[u8], history: Option<History<'_>>) -> Result<Valuation, Refusal>
    ensures value { result ≡ valuation_with history.entry file.now }
    ensures call { ValuedCall history.entry file.now result }
{
    match history {
        None => engine::figures_of(file),
        Some(months) => {
            let mut factors = [0u64; 240];
            let mut rates = [0i64; 240];
            months::value_with_months(file, months.bytes, months.start, &mut factors, &mut rates)
        }
    }
}

// Reads the bytes that decide to the front of `file`, and answers how many there are.
fn read_front<R: Read>(input: &mut R, file: &mut [u8]) -> Result<usize, Cut>
    requires { length file.old ≡ deciding_bytes }
    ensures most { IfOk result (λ count. count ≤ deciding_bytes) }
    ensures front { IfOk result (λ count. IsFront (R.remaining input.old) (take count file.new)) }
{
    // By `?`, since the goal of a call in the last place names the buffer in no way that an answer can use.
    let count = batch::read_full(input, file)?;
    Ok(count)
}

/// What is told of the file that a reader gives: of all its bytes, of which no more are read than decide.
pub fn tell_input<R: Read>(input: &mut R, history: Option<History<'_>>) -> Result<Told, Cut>
    ensures told { IfOk result (IsTold (R.remaining input.old) history.entry) }
    ensures call { IfOk result (λ told. IsPromised history.entry (R.remaining input.old)) }
{
    let mut file = [0u8; MOST_BYTES];
    let count = read_front(input, &mut file)?;
    let file = &file[..count];
    Ok(Told {
        valuation: value_file(file, history),
        numbers: numbers_of(file, history),
    })
}

/// Prints the listing of the file that a reader gives, and answers the status to end with: 1 for a refused file, else 0. Where a read fails
/// nothing is printed: the bytes before it need not be the whole file.
pub fn print_input<R: Read, W: Write>(
    input: &mut R,
    history: Option<History<'_>>,
    out: &mut W,
) -> Result<u8, Stopped>
    ensures printed { OnOk result (Printed history.entry (R.remaining input.old) (W.contents out.old) (W.contents out.new)) }
    ensures status { IfOk result (HasStatus history.entry (R.remaining input.old)) }
    ensures call { IfOk result (λ status. IsPromised history.entry (R.remaining input.old)) }
    ensures unread { IfErr result (KeepsUnread (W.contents out.old) (W.contents out.new)) }
{
    let mut file = [0u8; MOST_BYTES];
    let count = read_front(input, &mut file).map_err(Stopped::Read)?;
    let valuation = value_file(&file[..count], history);
    match listing::print(out, valuation.map_err(Refusal::number)) {
        Ok(()) => Ok(u8::from(valuation.is_err())),
        Err(error) => Err(Stopped::Write(error)),
    }
}
