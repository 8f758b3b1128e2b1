// The tests of a zero rate, which compare a result of a step with a factor. A result is 10^12, multiplied t times by 100,000 ÷ (100,000 + z)
// and rounded each time, down or up.
ghost use Rattle.std.specs.Prelude.{◌≡◌, ◌≤◌, ◌<◌, ◌+◌, ◌-◌, ◌^◌, IfSome};
ghost use Rattle.std.specs.Ordering.{nat_cmp};
ghost use Rattle.method.specs.Rounded.{tested};
ghost use Rattle.zerorates.specs.inner.Known.{Known};
ghost use Rattle.zerorates.specs.inner.Results.{BothCompare, Results};

use super::known::Interval;
use super::step::TermStep;
use arith::bracket::Bracket;
use arith::end::End;
use arith::ratio::Ratio;
use arith::scale::Short;
use heldcase::Case;
use std::cmp::Ordering;

/// 100,000 + z at step 0.
pub const FIRST_DIVISOR: u64 = 98_000;

// The result that is rounded down and the one that is rounded up are at most this far apart.
const WIDEST: u64 = 1_000;

impl TermStep {
    // The result, rounded at an end each year. That is a test of the step, and `made` counts it.
    fn rounded_result<E: End>(self, made: &mut u64) -> u64
        requires { made.old < 2 ^ 64 - 1 }
        ensures is { result ≡ tested E.end self.term self.step }
        ensures counted { made.new ≡ made.old + 1 }
    {
        *made += 1;
        let year = Ratio::of(Case::STEPS_PER_ONE, FIRST_DIVISOR + self.step);
        let mut x = Case::UNIT;
        for _ in 0..self.term {
            x = E::times(x, &year);
        }
        x
    }

    /// Bounds of both results, from bounds of the unrounded result, which lies between them. 10^12 ÷ 2^30 is 5^12 ÷ 2^18. One end
    /// goes down and the other up by `WIDEST`: no operation of `Bracket` does that.
    pub fn result_bounds(self) -> Bracket
        ensures { Results result self.term self.step }
    {
        let unrounded = self.power_bounds().scaled::<Short>(244_140_625, 0x4_0000);
        Bracket {
            lower: unrounded.lower.saturating_sub(WIDEST),
            upper: unrounded.upper + WIDEST,
        }
    }

    // How both results compare with a factor, where that is known or their bounds tell it.
    fn sure_order(self, factor: u64, known: Interval) -> Option<Ordering>
        requires { Known self.term factor known }
        ensures { IfSome result (λ o. BothCompare o self.term self.step factor) }
    {
        // Mostly every test is known. That is asked first, since it is the same at each step of a search, and on which side of `lo` the
        // step lies is as good as chance: the compiler makes of the latter a choice of two values, where a branch would be foreseen
        // wrongly half of the times.
        if known.hi <= known.lo {
            let above = self.step < known.lo;
            return Some(if above {
                Ordering::Greater
            } else {
                Ordering::Less
            });
        }
        if self.step < known.lo {
            return Some(Ordering::Greater);
        }
        if known.hi <= self.step {
            return Some(Ordering::Less);
        }
        let bounds = self.result_bounds();
        if factor < bounds.lower {
            return Some(Ordering::Greater);
        }
        if bounds.upper < factor {
            return Some(Ordering::Less);
        }
        None
    }

    /// The test of a step: how its result, rounded at an end, compares with a factor. `made` counts the tests, and this is one whether the
    /// result is worked out or not.
    pub fn compare<E: End>(self, factor: u64, known: Interval, made: &mut u64) -> Ordering
        requires known { Known self.term factor known }
        requires room { made.old ≤ 15 }
        ensures compared { result ≡ nat_cmp (tested E.end self.term self.step) factor }
        ensures counted { made.new ≡ made.old + 1 }
    {
        match self.sure_order(factor, known) {
            Some(order) => {
                *made += 1;
                order
            }
            None => self.rounded_result::<E>(made).cmp(&factor),
        }
    }
}
