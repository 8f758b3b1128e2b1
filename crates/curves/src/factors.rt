// The rounded discount factors of a curve: adjusted, those that pension flows use and that are lent and shown, and unadjusted, those that
// bond flows use.
ghost use Rattle.std.specs.Prelude.{◌≡◌, ◌++◌, ◌+◌, ◌*◌, ◌-◌, ◌≤◌, ◌<◌, max, drop, suc};
ghost use Rattle.arith.specs.Rounding.{divide};
ghost use Rattle.arith.specs.Brackets.{bracket, end_of};
ghost use Rattle.model.specs.Numbers.{table};
ghost use Rattle.method.specs.Rounded as Rounded;
ghost use Rattle.method.specs.Rounded.{scaled};
ghost use Rattle.curves.specs.inner.Shifted.{curve_of};
ghost use Rattle.curves.specs.inner.ByTerm.{brackets};
ghost use Rattle.curves.specs.inner.Ranges.{GrowthWithin, WeighWithin, FactorsWithin, NextWithin};

use super::sums::CurveSums;
use super::weights::weight_of;
use super::years::over_years;
use arith::bracket::Bracket;
use arith::ratio::Ratio;
use arith::scale::Long;
use heldcase::Case;

// The growth of term j + 1, where p is P(j + 1), and q is P(j): over j years, and then times p / n.
fn growth(n: u64, p: u64, q: u64, j: usize) -> Bracket
    requires { GrowthWithin n p q j }
    ensures { result ≡ bracket (λ e. divide e (scaled e p q j * p) n) }
{
    over_years(p, q, j).scaled_either_way(p, n)
}

// A growth weighed with the UFR growth, by a weight in thousandths.
fn weigh(growth: Bracket, weight: u64, ufr: u64) -> Bracket
    requires { WeighWithin growth weight ufr }
    ensures { result ≡ bracket (λ e. divide e ((1000 - weight) * end_of growth e + weight * ufr) 1000) }
{
    let part = Bracket::exactly(weight * ufr);
    growth.times(1_000 - weight).plus(part).divided(1_000)
}

impl CurveSums {
    // The growth that the factor of a term from 21 to 60, the last with market rates, is divided by: that of its rates, weighed with the
    // UFR growth. A step of the UFR is 10^7 units.
    fn weighed_growth(&self, t: usize) -> Bracket
        requires { FactorsWithin self.now × (20 < t) × (t ≤ 60) }
        ensures { result ≡ bracket (λ e. Rounded.weighed (curve_of self.now) e t) }
    {
        let ufr_growth = Case::UNIT + self.ufr * 10_000_000;
        let unweighed = growth(self.n, self.sums[t], self.sums[t - 1], t - 1);
        weigh(unweighed, weight_of(t), ufr_growth)
    }

    // The factor of term t. Up to term 20 it is the unadjusted one, which follows from P(t) alone; from 21 on it is `before`, the factor of
    // term t - 1, divided by the growth of term t. From 61 on that is the UFR growth, whose
    // inverse is `late`: that multiplies.
    fn next_factor(&self, before: Bracket, late: &Ratio, t: usize) -> Bracket
        requires { NextWithin self.now late.now before t }
        ensures { result ≡ bracket (λ e. Rounded.factor (curve_of self.now) e t) }
    {
        if t <= Case::LAST_UNWEIGHED_TERM {
            return over_years(self.n, self.sums[t], t);
        }
        if Case::LAST_MARKET_TERM < t {
            return before.scaled_by(late);
        }
        before.over::<Long>(self.weighed_growth(t), Case::UNIT)
    }

    /// The factors of the terms 1 to 120.
    pub fn factors(&self) -> [Bracket; 120]
        requires { FactorsWithin self.now }
        ensures { result ≡ brackets (Rounded.factor (curve_of self.now)) 120 }
    {
        // What a factor from term 61 on is of the one before it: 10^12 over the UFR growth, both divided by the 10^7 units of a step.
        let late = Ratio::of(Case::STEPS_PER_ONE, Case::STEPS_PER_ONE + self.ufr);
        let mut factor = Bracket::exactly(Case::UNIT);
        let mut out = [factor; 120];
        // t is not only an index: the working asks for the term.
        for t in 0..Case::LAST_TERM {
            factor = self.next_factor(factor, &late, t + 1);
            out[t] = factor;
        }
        out
    }

    /// The unadjusted factors of the terms 1 to `count`. Up to term 20 they are the adjusted ones, which are handed in; each later one is 1,
    /// multiplied t times by N / P(t). The entries of the terms after `count` stay as handed in.
    pub fn unadjusted_factors(&self, adjusted: &[Bracket; 120], count: usize) -> [Bracket; 120]
        requires sums { FactorsWithin self.now }
        requires adjusted { adjusted.now ≡ brackets (Rounded.factor (curve_of self.now)) 120 }
        requires few { count ≤ 60 }
        ensures { result ≡ brackets (Rounded.unadjusted (curve_of self.now)) (max 20 count) ++ drop (max 20 count) adjusted.now }
    {
        let mut out = *adjusted;
        // t is not only an index: the working asks for the term.
        for t in Case::LAST_UNWEIGHED_TERM..count {
            out[t] = over_years(self.n, self.sums[t + 1], t + 1);
        }
        out
    }
}
