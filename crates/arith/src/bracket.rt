// A bracket of two whole numbers, and what is worked out with brackets: each operation is that of the exact numbers, rounded at either
// end.
ghost use Rattle.std.specs.Prelude.{◌≡◌, ◌+◌, ◌-◌, ◌*◌, ◌^◌, ◌≤◌, ◌<◌, max};
ghost use Rattle.arith.specs.Rounding.{other, divide};
ghost use Rattle.arith.specs.Brackets.{bracket, end_of};
ghost use Rattle.arith.specs.inner.Range.{TimesWithin, BothIn, Pairwise, Crosswise, UpTo};

use super::end::{End, High, Low};
use super::ratio::Ratio;
use super::scale::{Long, Quotient, Short};

/// Both ends are included. Hosts are given brackets as C lays structs out.
#[repr(C)]
#[derive(Clone, Copy, Default)]
pub struct Bracket {
    pub lower: u64,
    pub upper: u64,
}

impl Bracket {
    /// A number that is known exactly.
    pub fn exactly(n: u64) -> Bracket
        ensures { result ≡ bracket (λ e. n) }
    {
        Bracket { lower: n, upper: n }
    }

    /// n ÷ d.
    pub fn quotient(n: u64, d: u64) -> Bracket
        requires { (0 < d) × (n + d ≤ 2 ^ 64) }
        ensures { result ≡ bracket (λ e. divide e n d) }
    {
        Bracket {
            lower: Low::divide(n, d),
            upper: High::divide(n, d),
        }
    }

    /// Divided by d.
    pub fn divided(self, d: u64) -> Bracket
        requires { (0 < d) × UpTo (2 ^ 64 - d) self }
        ensures { result ≡ bracket (λ e. divide e (end_of self e) d) }
    {
        Bracket {
            lower: Low::divide(self.lower, d),
            upper: High::divide(self.upper, d),
        }
    }

    /// Times a whole number.
    pub fn times(self, n: u64) -> Bracket
        requires { (n * self.lower < 2 ^ 64) × (n * self.upper < 2 ^ 64) }
        ensures { result ≡ bracket (λ e. n * end_of self e) }
    {
        Bracket {
            lower: n * self.lower,
            upper: n * self.upper,
        }
    }

    /// Times a ratio.
    pub fn scaled_by(self, ratio: &Ratio) -> Bracket
        requires { UpTo (2 ^ 46 - 1) self }
        ensures { result ≡ bracket (λ e. divide e (end_of self e * ratio.now.dividend) ratio.now.divisor) }
    {
        Bracket {
            lower: Low::times(self.lower, ratio),
            upper: High::times(self.upper, ratio),
        }
    }

    /// Times a ÷ b, in a way that is known to fit.
    pub fn scaled<Q: Quotient>(self, a: u64, b: u64) -> Bracket
        requires { BothIn Q.Takes self a b }
        ensures { result ≡ bracket (λ e. divide e (end_of self e * a) b) }
    {
        Bracket {
            lower: Q::quotient::<Low>(self.lower, a, b),
            upper: Q::quotient::<High>(self.upper, a, b),
        }
    }

    /// Times a ÷ b, in the short way where the product surely fits.
    pub fn scaled_either_way(self, a: u64, b: u64) -> Bracket
        requires { TimesWithin self a b }
        ensures { result ≡ bracket (λ e. divide e (end_of self e * a) b) }
    {
        if a < 0x80_0000 && self.upper < 0x200_0000_0000 {
            self.scaled::<Short>(a, b)
        } else {
            self.scaled::<Long>(a, b)
        }
    }

    /// Times a bracket that counts units.
    pub fn product<Q: Quotient>(self, factor: Bracket, unit: u64) -> Bracket
        requires { Pairwise Q.Takes self factor unit }
        ensures { result ≡ bracket (λ e. divide e (end_of self e * end_of factor e) unit) }
    {
        Bracket {
            lower: Q::quotient::<Low>(self.lower, factor.lower, unit),
            upper: Q::quotient::<High>(self.upper, factor.upper, unit),
        }
    }

    /// Divided by a bracket that counts units, crosswise: the lower end by the upper, and the upper by the lower.
    pub fn over<Q: Quotient>(self, divisor: Bracket, unit: u64) -> Bracket
        requires { Crosswise Q.Takes self unit divisor }
        ensures { result ≡ bracket (λ e. divide e (end_of self e * unit) (end_of divisor (other e))) }
    {
        Bracket {
            lower: Q::quotient::<Low>(self.lower, unit, divisor.upper),
            upper: Q::quotient::<High>(self.upper, unit, divisor.lower),
        }
    }

    /// The sum.
    pub fn plus(self, more: Bracket) -> Bracket
        requires { UpTo (2 ^ 63 - 1) self × UpTo (2 ^ 63) more }
        ensures { result ≡ bracket (λ e. end_of self e + end_of more e) }
    {
        Bracket {
            lower: self.lower + more.lower,
            upper: self.upper + more.upper,
        }
    }

    /// The difference, or 0: an end of it pairs an end with the other one.
    pub fn less(self, less: Bracket) -> Bracket
        ensures { result ≡ bracket (λ e. end_of self e - end_of less (other e)) }
    {
        Bracket {
            lower: self.lower.saturating_sub(less.upper),
            upper: self.upper.saturating_sub(less.lower),
        }
    }

    /// The larger.
    pub fn larger(self, another: Bracket) -> Bracket
        ensures { result ≡ bracket (λ e. max (end_of self e) (end_of another e)) }
    {
        Bracket {
            lower: self.lower.max(another.lower),
            upper: self.upper.max(another.upper),
        }
    }
}
