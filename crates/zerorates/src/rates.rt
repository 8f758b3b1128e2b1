// The zero rates of the terms, from the factors.
ghost use Rattle.std.specs.Prelude.{◌≡◌, ◌≤◌};
ghost use Rattle.method.specs.Rounded.{step_at, rate_of};
ghost use Rattle.curves.specs.inner.ByTerm.{factor_at};
ghost use Rattle.zerorates.specs.inner.ByTerm.{rate_brackets};
ghost use Rattle.zerorates.specs.inner.Ranges.{RatesWithin};

use super::known::{guess_rate, known_near};
use super::search::Search;
use arith::bracket::Bracket;
use arith::end::{High, Low};
use heldcase::Case;

/// 15 tests always leave one step: each halves what is left, and 2^15 is above 22,001.
pub const TESTS: usize = 15;

/// The zero rate of a term, in steps of 0.00001. Both ends are included.
// A type of its own, for rates go below 0: with a parameter, every clause that says `Bracket` would have to say of what.
#[derive(Clone, Copy)]
pub struct RateBracket {
    pub lower: i64,
    pub upper: i64,
}

// The rate of a step.
fn rate_at(step: u64) -> i64
    requires { step ≤ 22000 }
    ensures { result ≡ step_at step }
{
    step as i64 - 2_000
}

/// The zero rates of the terms 1 to 120. The lower rate goes by the upper factor, and the upper rate by the lower.
pub fn zero_rates(factors: &[Bracket; 120]) -> [RateBracket; 120]
    requires { RatesWithin factors.now }
    ensures { result ≡ rate_brackets (rate_of (factor_at factors.now)) 120 }
{
    let mut out = [RateBracket { lower: 0, upper: 0 }; 120];
    // The upper factor and the step of the lower rate of the term before, by which the rate is guessed.
    let mut before = Case::UNIT;
    let mut step: u64 = 0;
    // t is not only an index: the working asks for the term.
    for t in 0..Case::LAST_TERM {
        let factor = factors[t];
        let guess = guess_rate(t, step, before, factor.lower);
        let known = known_near(t + 1, guess, factor);
        let by_upper = Search {
            term: t + 1,
            factor: factor.upper,
            known,
        };
        let by_lower = Search {
            term: t + 1,
            factor: factor.lower,
            known,
        };
        let lower = by_upper.steps_left::<Low>(TESTS).left;
        let upper = by_lower.steps_left::<High>(TESTS).left;
        step = lower.first;
        out[t] = RateBracket {
            lower: rate_at(lower.first),
            upper: rate_at(upper.first),
        };
        before = factor.upper;
    }
    out
}
