// The twelve hand-worked cases, gathered in one result, and more of their files, as computed statements about the definitions of `model` and
// `method`, in proofs/. No other crate depends on this one: no edit pays for what takes long to compute.
#![tactic(auto)]

ghost use Rattle.twelvecases.specs.TwelveCases.{TwelveCases};

/// Each of the twelve hand-worked cases gives what was worked out by hand.
#[tactic(auto, using(crate::proofs::TwelveCases::twelve_cases))]
pub fn twelve_cases()
    ensures { TwelveCases }
{}
