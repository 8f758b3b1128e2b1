// The points of a host's window.
ghost use Rattle.listing.specs.Shown.{ShownAfterValuations};

/// After every accepted valuation each point from 1 to 120 shows the factor of that term over the buffer of factors as it is then, and each point
/// from 121 to 130 a money figure over any buffer, both as two doubles that hold the whole numbers of the bracket; every other point is blank.
#[tactic(auto, using(listing::proofs::points::Shown::points_are_shown_after_valuations))]
pub fn points_are_shown_after_valuations()
    ensures { ShownAfterValuations }
{}
