// Steps whose tests are known before a search. Bounds of the results of two steps that lie on either side of the factor decide the tests of
// all steps beyond them, because the results fall as the step rises. A wrong guess of the rate costs time only: then fewer steps are known.
ghost use Rattle.std.specs.Prelude.{◌≤◌};
ghost use Rattle.zerorates.specs.inner.Known.{Known};
ghost use Rattle.zerorates.specs.inner.Ranges.{GuessWithin};

use super::results::FIRST_DIVISOR;
use super::step::TermStep;
use arith::bracket::Bracket;
use heldcase::Case;

// The steps whose tests are not known, from lo on and below hi: the results of all steps below lo are above the factor, and those of all
// steps from hi on are below it.
#[derive(Clone, Copy)]
pub struct Interval {
    pub lo: u64,
    pub hi: u64,
}

// The last of the steps, which are counted from 0.
pub const LAST_STEP: u64 = 22_000;

impl Interval {
    // No test is known.
    const NOTHING: Interval = Interval {
        lo: 0,
        hi: LAST_STEP + 1,
    };
}

// The last step that is guessed, so that two steps follow it.
pub const LAST_GUESS: u64 = 21_998;

// The step of the lower zero rate of term t + 1, or the step before it, by a mean: of t years at the step of term t, and of one year at
// the growth from the factor of term t, `before`, to the factor of term t + 1. Nothing but speed depends on it.
pub fn guess_rate(t: usize, step: u64, before: u64, factor: u64) -> u64
    requires { GuessWithin t step before factor }
    ensures { result ≤ 21998 }
{
    let years = t as u64;
    let growth = before * Case::STEPS_PER_ONE / factor;
    let mean = (years * (FIRST_DIVISOR + step) + growth) / (years + 1);
    mean.saturating_sub(FIRST_DIVISOR).min(LAST_GUESS)
}

impl TermStep {
    // What is known from this step: that the results of the steps up to it are above both ends of the factor, or those of the steps from it
    // on below both, or nothing.
    fn known(self, factor: Bracket) -> Interval
        ensures lower { Known self.term factor.lower result }
        ensures upper { Known self.term factor.upper result }
    {
        let bounds = self.result_bounds();
        if factor.lower < bounds.lower && factor.upper < bounds.lower {
            return Interval {
                lo: self.step + 1,
                ..Interval::NOTHING
            };
        }
        if bounds.upper < factor.lower && bounds.upper < factor.upper {
            return Interval {
                hi: self.step,
                ..Interval::NOTHING
            };
        }
        Interval::NOTHING
    }
}

// What is known near a guess, at both ends of the factor. The step after the guess is asked first. Mostly its results are above the factor,
// and then the step after it is asked, or below, and then the guess itself; where they are neither, both are.
pub fn known_near(t: usize, guess: u64, factor: Bracket) -> Interval
    requires term { t ≤ 120 }
    requires guess { guess ≤ 21998 }
    ensures lower { Known t factor.lower result }
    ensures upper { Known t factor.upper result }
{
    let before = TermStep {
        term: t,
        step: guess,
    };
    let middle = TermStep {
        term: t,
        step: guess + 1,
    };
    let after = TermStep {
        term: t,
        step: guess + 2,
    };
    let mut known = middle.known(factor);
    if known.lo == 0 {
        known.lo = before.known(factor).lo;
    }
    if known.hi == LAST_STEP + 1 {
        known.hi = after.known(factor).hi;
    }
    known
}
