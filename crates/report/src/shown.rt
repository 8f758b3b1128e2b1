// The words under which figures, a verdict and the source of a UFR are shown, and the numbers of a case under their names.
ghost use Rattle.std.specs.Prelude.{◌≡◌, Some, map};
ghost use Rattle.method.specs.Listing.{named_figures, word};
ghost use Rattle.report.specs.Shown.{source_word, Shows};

use crate::numbers::{Numbers, UfrSource};
use model::figures::{Bracket, Figures, Verdict};
use serde::Serialize;

// The listing writes names and words as bytes; JSON and CSV want them as text. Both are those of one definition.

/// The word of a verdict, as the listing has it.
#[tactic(auto, unfolding(method::specs::Listing::ascii, method::specs::Listing::word, model::specs::Numbers::table))]
pub fn word_of(verdict: Verdict) -> &'static str
    ensures { result.now ≡ word verdict }
{
    match verdict {
        Verdict::Dekkingstekort => "DEKKINGSTEKORT",
        Verdict::Reservetekort => "RESERVETEKORT",
        Verdict::VrijVermogen => "VRIJ VERMOGEN",
        Verdict::Onbeslist => "ONBESLIST",
    }
}

/// Where a UFR comes from, in a word.
pub fn source_word_of(source: UfrSource) -> &'static str
    ensures { result.now ≡ source_word source }
{
    match source {
        UfrSource::History => "history",
        UfrSource::Default => "default",
        UfrSource::File => "file",
    }
}

/// The figures under their names, in the order of the listing.
#[tactic(auto, unfolding(method::specs::Listing::ascii, model::specs::Numbers::table))]
pub fn named_figures(f: Figures) -> [(&'static str, Bracket); 10]
    ensures { map (λ named. (named.0.now, named.1)) result ≡ named_figures f }
{
    [
        ("L", f.l),
        ("B", f.b),
        ("A", f.a),
        ("S1", f.s1),
        ("S2", f.s2),
        ("S3", f.s3),
        ("S4", f.s4),
        ("S5", f.s5),
        ("S6", f.s6),
        ("S", f.s),
    ]
}

/// The numbers of a case under their names; none of a file that was not valued.
#[derive(Default, Drop, Serialize)]
pub struct NumbersShown {
    pub ufr: Option<u64>,
    pub ufr_from: Option<&'static str>,
    pub rate_bytes: Option<u64>,
    pub days: Option<u64>,
    pub pension_flows: Option<usize>,
    pub pension_sum: Option<u64>,
    pub bond_flows: Option<usize>,
    pub bond_sum: Option<u64>,
    pub assets_sum: Option<u64>,
}

fn some_numbers(found: Numbers) -> NumbersShown
    ensures { Shows (Some found) result }
{
    NumbersShown {
        ufr: Some(found.ufr),
        ufr_from: Some(source_word_of(found.ufr_source)),
        rate_bytes: Some(found.rate_bytes),
        days: Some(found.days),
        pension_flows: Some(found.pension_flows),
        pension_sum: Some(found.pension_sum),
        bond_flows: Some(found.bond_flows),
        bond_sum: Some(found.bond_sum),
        assets_sum: Some(found.assets_sum),
    }
}

/// The numbers of a case as JSON and CSV show them.
pub fn show_numbers(numbers: Option<Numbers>) -> NumbersShown
    ensures { Shows numbers result }
{
    match numbers {
        Some(found) => some_numbers(found),
        None => NumbersShown::default(),
    }
}
