// The search for a zero rate.
ghost use Rattle.searchmodel.specs.Promises.{SearchesAreShort};

/// The search for either end of the zero rate of a term from 1 to 120, of a case within the limits and of an accepted file: after j tests at
/// most 22,001 / 2^j steps of 0.00001, rounded up, are left, the rate among them; after 15 tests it is the only one; and no more tests are
/// made than the budget, and never more than 15.
#[tactic(auto, using(theory::proofs::curve::Promised::searches_are_short))]
pub fn searches_are_short()
    ensures { SearchesAreShort }
{}
