// Which files are accepted, and what a valuation answers of one: every call, whatever the file and the lent buffers. What is said of a case is
// said of every case within the limits, and of the case of every accepted file.
ghost use Rattle.model.specs.Promises.{FilesAreAcceptedExactly, NoFileHoldsTwoCases, EveryRefusalCall, EveryPartCall};
ghost use Rattle.method.specs.Promises.{EveryCall, EveryFiguresCall, RefusedCallsChangeNothing, AcceptedCallsGiveTheRoundedWorking, OfEvery};
ghost use Rattle.method.specs.Promises.{FactorsLieInTheirBrackets, ZeroRatesLieInTheirBrackets, MoneyLiesInItsBrackets};
ghost use Rattle.method.specs.Promises.{FactorsAreNarrow, ZeroRatesAreNarrow, MoneyIsNarrow};
ghost use Rattle.method.specs.Promises.{VerdictsAreExact, UndecidedOnlyNearABorder, NothingIsCutOff, ExactWorkingIsContained, TogetherTheClassesAreSummed};

/// A file is accepted exactly when it keeps the layout and limits. The case that is read is then the one that it holds, and within the limits.
#[tactic(auto, using(theory::proofs::acceptance::Promised::a_file_is_accepted_exactly_when_it_keeps_the_layout_and_limits))]
pub fn a_file_is_accepted_exactly_when_it_keeps_the_layout_and_limits()
    ensures { FilesAreAcceptedExactly }
{}

/// No file is the bytes of two cases.
#[tactic(auto, using(theory::proofs::acceptance::Promised::no_file_holds_two_cases))]
pub fn no_file_holds_two_cases()
    ensures { NoFileHoldsTwoCases }
{}

/// Whatever the bytes, the number that a file is refused with is that of the first check that fails, 1 to 12, and 0 exactly where the file
/// keeps the layout and limits.
#[tactic(auto, using(theory::proofs::acceptance::Promised::every_call_for_the_refusal))]
pub fn every_call_for_the_refusal()
    ensures { EveryRefusalCall }
{}

/// Whatever the bytes, the part that holds the rates is empty exactly where the file is refused. Of an accepted one it follows the count
/// n of the days, inside the file, and has n × 120 bytes, or n × 240 of rates of four bytes.
#[tactic(auto, using(theory::proofs::acceptance::Promised::every_call_for_the_rates))]
pub fn every_call_for_the_rates()
    ensures { EveryPartCall }
{}

/// Whatever the bytes and both buffers, a call that values a file is refused or accepted as its file and its buffers have it, and keeps what
/// is said below of a refused and of an accepted call.
#[tactic(auto, using(theory::proofs::containment::Promised::every_call))]
pub fn every_call()
    ensures { EveryCall }
{}

/// The same of a file that is valued without buffers.
#[tactic(auto, using(theory::proofs::containment::Promised::every_call_without_buffers))]
pub fn every_call_without_buffers()
    ensures { EveryFiguresCall }
{}

/// A call that is refused, with whichever refusal, answers that refusal, and both lent buffers then hold what they held.
#[tactic(auto, using(theory::proofs::containment::Promised::a_refused_call_changes_nothing))]
pub fn a_refused_call_changes_nothing()
    ensures { RefusedCallsChangeNothing }
{}

/// An accepted call answers the figures and the verdict of the rounded working of its case. Entries 0 to 239 of both buffers hold the lower and
/// upper factors, in units of 10^-12, and zero rates, in steps, term by term; later entries keep what they held.
#[tactic(auto, using(theory::proofs::containment::Promised::an_accepted_call_gives_the_rounded_working))]
pub fn an_accepted_call_gives_the_rounded_working()
    ensures { AcceptedCallsGiveTheRoundedWorking }
{}

/// The exact factor of every term from 1 to 120 lies in its bracket, in units of 10^-12.
#[tactic(auto, using(theory::proofs::containment::Promised::exact_factors_lie_in_their_brackets))]
pub fn exact_factors_lie_in_their_brackets()
    ensures { OfEvery FactorsLieInTheirBrackets }
{}

/// The exact zero rate of every term from 1 to 120 lies in its bracket, in steps of 0.00001.
#[tactic(auto, using(theory::proofs::containment::Promised::exact_zero_rates_lie_in_their_brackets))]
pub fn exact_zero_rates_lie_in_their_brackets()
    ensures { OfEvery ZeroRatesLieInTheirBrackets }
{}

/// The exact liabilities L, bonds B, assets A, losses S1 to S6 and buffer S lie in their brackets, in cents.
#[tactic(auto, using(theory::proofs::containment::Promised::exact_money_lies_in_its_brackets))]
pub fn exact_money_lies_in_its_brackets()
    ensures { OfEvery MoneyLiesInItsBrackets }
{}

/// The bracket of the factor of term t is at most 4 × t × t units of 10^-12 wide.
#[tactic(auto, using(theory::proofs::containment::Promised::factors_are_narrow))]
pub fn factors_are_narrow()
    ensures { OfEvery FactorsAreNarrow }
{}

/// The bracket of a zero rate is at most 2 steps wide.
#[tactic(auto, using(theory::proofs::containment::Promised::zero_rates_are_narrow))]
pub fn zero_rates_are_narrow()
    ensures { OfEvery ZeroRatesAreNarrow }
{}

/// The bracket of L is at most WL cents wide, those of B and A at most WB, that of S at most 3 × WL + 2 × WB + 8.
#[tactic(auto, using(theory::proofs::containment::Promised::money_is_narrow))]
pub fn money_is_narrow()
    ensures { OfEvery MoneyIsNarrow }
{}

/// Each verdict that is given, other than undecided, is the exact one.
#[tactic(auto, using(theory::proofs::containment::Promised::each_verdict_is_the_exact_one))]
pub fn each_verdict_is_the_exact_one()
    ensures { OfEvery VerdictsAreExact }
{}

/// Undecided is said only where the exact figures are within the margins of a border.
#[tactic(auto, using(theory::proofs::containment::Promised::undecided_only_near_a_border))]
pub fn undecided_only_near_a_border()
    ensures { OfEvery UndecidedOnlyNearABorder }
{}

/// No exact figure is a fraction over 0, no P(t) is cut off at 0 on any of the three curves, and both zero rates of every term are found among
/// the steps from -2,000 to 20,000.
#[tactic(auto, using(theory::proofs::containment::Promised::nothing_is_cut_off))]
pub fn nothing_is_cut_off()
    ensures { OfEvery NothingIsCutOff }
{}

/// Whatever is given of a case by its rounded working, as what a call answers and writes, meets all of this.
#[tactic(auto, using(theory::proofs::containment::Promised::the_exact_working_is_contained))]
pub fn the_exact_working_is_contained()
    ensures { OfEvery ExactWorkingIsContained }
{}

/// Where the correlation between the equity classes is 1,000, as in every accepted file without its field, S2 is the sum of the four class
/// losses, rounded once, and S and the verdict are those with that sum, in both workings.
#[tactic(auto, using(theory::proofs::containment::Promised::classes_that_fall_together_are_summed))]
pub fn classes_that_fall_together_are_summed()
    ensures { TogetherTheClassesAreSummed }
{}
