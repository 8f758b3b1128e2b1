// Bonds, whose flows are worth what they are off the adjusted curve.
ghost use Rattle.method.specs.Bonds.{BondFactorsInBrackets, BondsNotByTheUfr, BondsToTerm20AsAdjusted};

/// What bonds are worth, exact and rounded, on each of the three curves, does not depend on the UFR.
#[tactic(auto, using(theory::proofs::containment::Bonds::bonds_are_not_by_the_ufr))]
pub fn bonds_are_not_by_the_ufr()
    ensures { BondsNotByTheUfr }
{}

/// Of a case that has no bond flow past term 20 bonds, every figure and the verdict are those of bond flows at the adjusted factors.
#[tactic(auto, using(theory::proofs::containment::Bonds::bonds_to_term_20_are_as_adjusted))]
pub fn bonds_to_term_20_are_as_adjusted()
    ensures { BondsToTerm20AsAdjusted }
{}

/// Of a case within the limits the exact bond factor of every term t to 60 lies in its bracket, on each of the three curves, and the bracket is
/// at most 4 × t × t units of 10^-12 wide.
#[tactic(auto, using(theory::proofs::containment::Bonds::bond_factors_are_in_brackets))]
pub fn bond_factors_are_in_brackets()
    ensures { BondFactorsInBrackets }
{}
