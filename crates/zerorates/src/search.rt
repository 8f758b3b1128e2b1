// The search for a zero rate of a term. It halves the steps 0 to 22,000 until one is left: the results of the tests fall as the step rises,
// so each test rules out all steps on one side of the step that it tests. The tests are counted where they are made, in `TermStep::compare`.
ghost use Rattle.std.specs.Prelude.{◌≡◌, ◌≤◌, ◌<◌, ◌+◌};
ghost use Rattle.searchmodel.specs.Bisection as Bisection;
ghost use Rattle.searchmodel.specs.Bisection.{halved, after_tests, tests_of, tests_made};
ghost use Rattle.zerorates.specs.inner.Results.{passed, passing};
ghost use Rattle.zerorates.specs.inner.Known.{Known};
ghost use Rattle.zerorates.specs.inner.Ranges.{LeftWithin};

use super::known::{Interval, LAST_STEP};
use super::step::TermStep;
use arith::end::{End, High, Low};
use searchmodel::StepsLeft;
use std::cmp::Ordering;

/// The search for a zero rate of a term: by one end of the term's factor, with the steps whose tests are known.
#[derive(Clone, Copy)]
pub struct Search {
    pub term: usize,
    pub factor: u64,
    pub known: Interval,
    ghost within: { term ≤ 120 },
    ghost sure: { Known term factor known },
}

/// What a search answers: the steps that are left, and how many tests it made.
#[derive(Clone, Copy)]
pub struct Searched {
    pub left: StepsLeft,
    pub made: u64,
}

/// An end of a zero rate's bracket: the lower rate is the largest step that passes, the upper rate the smallest.
// `LeftWithin` is said in clauses and is no ghost field of `StepsLeft`, since the definitions make a `StepsLeft` of any two numbers.
pub trait RateEnd: End {
    /// Whether a step passes, by how its result compares with the factor.
    fn passes(compared: Ordering) -> bool
        ensures { result ≡ passing Self.end compared };

    /// The step that is tested next.
    fn middle(left: StepsLeft) -> u64
        requires { LeftWithin left }
        ensures { result ≡ Bisection.middle Self.end left };

    /// What is left where a step passes, and where it does not.
    fn leaves(step: u64, passes: bool, left: StepsLeft) -> StepsLeft
        requires { LeftWithin left × (left.first < left.last) × (step ≡ Bisection.middle Self.end left) }
        ensures { result ≡ Bisection.leaves Self.end step passes left };
}

impl RateEnd for Low {
    fn passes(compared: Ordering) -> bool {
        compared.is_ge()
    }

    fn middle(left: StepsLeft) -> u64 {
        (left.first + left.last + 1) / 2
    }

    fn leaves(step: u64, passes: bool, left: StepsLeft) -> StepsLeft {
        if passes {
            StepsLeft {
                first: step,
                ..left
            }
        } else {
            StepsLeft {
                last: step - 1,
                ..left
            }
        }
    }
}

impl RateEnd for High {
    fn passes(compared: Ordering) -> bool {
        compared.is_le()
    }

    fn middle(left: StepsLeft) -> u64 {
        (left.first + left.last) / 2
    }

    fn leaves(step: u64, passes: bool, left: StepsLeft) -> StepsLeft {
        if passes {
            StepsLeft { last: step, ..left }
        } else {
            StepsLeft {
                first: step + 1,
                ..left
            }
        }
    }
}

impl Search {
    // What one test leaves, and `made` counts it: never more than 15 before it. A single step is not tested.
    fn halve<E: RateEnd>(self, left: StepsLeft, made: &mut u64) -> StepsLeft
        requires within { LeftWithin left }
        requires room { made.old ≤ 15 }
        ensures remain { result ≡ halved E.end (passed E.end self.term self.factor) left }
        ensures counted { made.new ≡ made.old + tests_of left }
    {
        if left.last <= left.first {
            return left;
        }
        let middle = TermStep {
            term: self.term,
            step: E::middle(left),
        };
        let compared = middle.compare::<E>(self.factor, self.known, made);
        E::leaves(middle.step, E::passes(compared), left)
    }

    /// The steps that are left for a rate after a number of tests, and how many tests were made: of the lower rate, by the upper end of the
    /// factor, or of the upper rate, by the lower end.
    pub fn steps_left<E: RateEnd>(self, tests: usize) -> Searched
        ensures remain { result.left ≡ after_tests E.end (passed E.end self.term self.factor) tests }
        ensures counted { result.made ≡ tests_made E.end (passed E.end self.term self.factor) tests }
    {
        let mut left = StepsLeft {
            first: 0,
            last: LAST_STEP,
        };
        let mut made = 0;
        for _ in 0..tests {
            left = self.halve::<E>(left, &mut made);
        }
        Searched { left, made }
    }
}
