// Reads many files (crate batch), and prints how the search for each zero rate goes. Of an accepted file it prints a line for each rate,
// term by term and the lower rate first: L or U, the term, and the first and the last step that is left after 0, 1, .. 15 tests. Of a
// refused file it prints R and the number.
#![tactic(auto)]

ghost use Rattle.std.specs.Prelude.{IfOk, ◌≤◌};

use arith::bracket::Bracket;
use arith::end::{High, Low};
use arrayvec::ArrayVec;
use batch::Stopped;
use std::io;
use std::io::Write;
use zerorates::known::{LAST_GUESS, known_near};
use zerorates::rates::TESTS;
use zerorates::search::{RateEnd, Search};

// A letter, 33 numbers of up to 20 digits, a space before each, and the line's end: 695 bytes.
type Row = ArrayVec<u8, 695>;

// The row of one search, put together on the stack and written at once. Each number of tests is a search of its own, from the beginning.
fn print_row<E: RateEnd, W: Write>(out: &mut W, letter: u8, search: Search) -> io::Result<()> {
    let mut row = Row::new();
    row.write_all(&[letter])?;
    write!(row, " {}", search.term)?;
    // `tests` is not an index: a search asks for the number of tests.
    for tests in 0..=TESTS {
        let left = search.steps_left::<E>(tests).left;
        write!(row, " {} {}", left.first, left.last)?;
    }
    row.write_all(b"\n")?;
    out.write_all(row.as_slice())
}

// The rows of both rates of a term. Answers the step of the lower rate, as a guess for the next term.
fn print_term<W: Write>(out: &mut W, t: usize, factor: Bracket, guess: u64) -> io::Result<u64>
    requires { (t ≤ 120) × (guess ≤ 21998) }
    ensures { IfOk result (λ step. step ≤ 21998) }
{
    let known = known_near(t, guess, factor);
    let by_upper = Search {
        term: t,
        factor: factor.upper,
        known,
    };
    let by_lower = Search {
        term: t,
        factor: factor.lower,
        known,
    };
    print_row::<Low, W>(out, b'L', by_upper)?;
    print_row::<High, W>(out, b'U', by_lower)?;
    let lower = by_upper.steps_left::<Low>(TESTS).left;
    Ok(lower.first.min(LAST_GUESS))
}

// `factors` are those that the engine lends: lower, upper, term by term.
fn print_terms<W: Write>(out: &mut W, factors: &[u64; 240]) -> io::Result<()> {
    let mut guess = 0;
    let (brackets, _) = factors.as_chunks::<2>();
    // i is not only an index: a row has the term, which is i + 1.
    for (i, &[lower, upper]) in brackets.iter().enumerate() {
        guess = print_term(out, i + 1, Bracket { lower, upper }, guess)?;
    }
    Ok(())
}

fn print_searches<W: Write>(out: &mut W, file: &[u8]) -> io::Result<()> {
    let mut factors = [0u64; 240];
    let mut rates = [0i64; 240];
    match engine::value(file, &mut factors, &mut rates) {
        Ok(_) => print_terms(out, &factors),
        Err(refusal) => writeln!(out, "R {}", refusal.number()),
    }
}

// Ends with 1 where a row cannot be written, and with 0 where the input cannot be read. Nothing is held back: the rows of a file are out
// before the next is read, for a caller who waits for them.
fn main(rt: HostRuntime) -> io::Result<()> {
    let mut out = rt.stdout();
    match batch::for_each(&mut rt.stdin(), |file| print_searches(&mut out, file)) {
        Ok(()) | Err(Stopped::Read(_)) => Ok(()),
        Err(Stopped::Write(error)) => Err(error),
    }
}
