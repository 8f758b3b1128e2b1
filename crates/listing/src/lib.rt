// What a host shows of a valuation: its listing, as a text that is printed or written to a lent buffer, and the points of its window. The
// engine has no heap, so the text is put together in a buffer of fixed size.
// Goals of three functions stay open where what a listing is made of is not unfolded.
#![tactic(auto, unfolding(crate::specs::inner::Parts::spaced, method::specs::Listing::ascii, method::specs::Listing::word, method::specs::Listing::listing, model::specs::Numbers::table))]

pub mod figures;
pub mod points;

ghost use Rattle.std.specs.Prelude.{◌≡◌, ◌+◌, ◌≤◌, ◌++◌, OnOk, length, take};
ghost use Rattle.std.specs.Io.KnownBytes.{Appends};
ghost use Rattle.arrayvec.specs.ArrayVec.{array_vec_len};
ghost use Rattle.method.specs.Listing.{line, figure_lines, word, listing, listing_after, listing_length};
ghost use Rattle.method.specs.Sizes.{ListingCall};
ghost use Rattle.listing.specs.Lines.{IsLineByLine};
ghost use Rattle.listing.specs.inner.Parts.{spaced};

use arrayvec::ArrayVec;
use figures::named_figures;
use itoa::Buffer;
use model::figures::{Bracket, Figures, Valuation, Verdict};
use std::io;
use std::io::Write;

// No listing is longer: `promises::sizes::listings_are_short`. Callees ask for room in a clause, since `ArrayVec` is the toolchain's own type: it
// tells how many bytes it can hold, and not how many more.
pub type Text = ArrayVec<u8, 512>;

// By parts, and not by `write!`: of what `write!` appends its contract speaks only where it succeeds, and it does not say that it does where
// there is room.

// Appends bytes.
fn push(text: &mut Text, bytes: &[u8])
    requires { array_vec_len text.old + length bytes.now ≤ 512 }
    ensures items { text.new.items ≡ text.old.items ++ bytes.now }
    ensures len { array_vec_len text.new ≡ array_vec_len text.old + length bytes.now }
{
    let _fits = text.try_extend_from_slice(bytes);
}

// A space and a number.
fn push_number(text: &mut Text, n: u64)
    requires { array_vec_len text.old + 21 ≤ 512 }
    ensures items { text.new.items ≡ text.old.items ++ spaced n }
    ensures len { array_vec_len text.new ≤ array_vec_len text.old + 21 }
{
    push(text, b" ");
    let mut buffer = Buffer::new();
    push(text, buffer.format(n).as_bytes());
}

// One line: name, lower, upper.
#[tactic(auto, unfolding(crate::specs::inner::Parts::spaced, method::specs::Listing::line, method::specs::Listing::ascii, model::specs::Numbers::table))]
fn push_line(text: &mut Text, name: &[u8], b: Bracket)
    requires { (length name.now ≤ 2) × (array_vec_len text.old + 45 ≤ 512) }
    ensures items { text.new.items ≡ text.old.items ++ line name.now b }
    ensures len { array_vec_len text.new ≤ array_vec_len text.old + 45 }
{
    push(text, name);
    push_number(text, b.lower);
    push_number(text, b.upper);
    push(text, b"\n");
}

// The lines of all ten figures.
fn push_figures(text: &mut Text, f: Figures)
    requires { array_vec_len text.old + 450 ≤ 512 }
    ensures items { text.new.items ≡ text.old.items ++ figure_lines f }
    ensures len { array_vec_len text.new ≤ array_vec_len text.old + 450 }
{
    for (name, bracket) in named_figures(f) {
        push_line(text, name, bracket);
    }
}

// The word of a verdict. A function and no `Display`, since the type is `model`'s, where definitions are without functions.
fn word_of(v: Verdict) -> &'static [u8]
    ensures word { result.now ≡ word v }
    ensures short { length result.now ≤ 14 }
{
    match v {
        Verdict::Dekkingstekort => b"DEKKINGSTEKORT",
        Verdict::Reservetekort => b"RESERVETEKORT",
        Verdict::VrijVermogen => b"VRIJ VERMOGEN",
        Verdict::Onbeslist => b"ONBESLIST",
    }
}

// The listing of a valuation, or of the number of a refusal.
pub fn text_of(v: Result<Valuation, u8>) -> Text
    ensures { result.items ≡ listing v }
{
    let mut text = Text::new();
    match v {
        Ok(valued) => {
            push_figures(&mut text, valued.figures);
            push(&mut text, b"V ");
            push(&mut text, word_of(valued.verdict));
        }
        Err(number) => {
            push(&mut text, b"R");
            push_number(&mut text, u64::from(number));
        }
    }
    push(&mut text, b"\n");
    text
}

/// The listing of a valuation is ten lines, each of a figure under its own name, and that of the verdict. It does nothing: its contract is
/// this law.
#[tactic(auto, using(crate::proofs::Texts::line_by_line))]
pub fn listing_line_by_line()
    ensures { IsLineByLine }
{}

/// Prints the listing of a valuation, or of the number of a refusal.
pub fn print<W: Write>(out: &mut W, v: Result<Valuation, u8>) -> io::Result<()>
    ensures { OnOk result (Appends (W.contents out.old) (W.contents out.new) (listing v)) }
{
    out.write_all(text_of(v).as_slice())
}

/// Writes the listing of a valuation to the front of a buffer, and answers its length. A buffer that is too short is left alone; then
/// the answer is 0, as C is told it. The error is the number of a refusal, also one that a host made up.
#[tactic(auto, using(theory::proofs::sizes::Listed::listing_call))]
pub fn write_listing(v: Result<Valuation, u8>, out: &mut [u8]) -> usize
    ensures count { result ≡ listing_length v (length out.old) }
    ensures text { out.new ≡ listing_after v out.old }
    ensures call { ListingCall v out.old }
    ensures part { (result ≤ length out.new) × (result ≡ length (take result out.new)) }
{
    let text = text_of(v);
    let used = text.len();
    // By the lengths, since `get_mut(..used)` does not say what `out` holds after it.
    if out.len() < used {
        return 0;
    }
    out[..used].copy_from_slice(text.as_slice());
    used
}
