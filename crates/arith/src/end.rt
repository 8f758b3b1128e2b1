// The two ends of a bracket, as types: what is rounded is written once, over either.
// `divide` is opened in the goals of both ends, which stay open without it.
#![tactic(auto, unfolding(crate::specs::Rounding::divide))]

ghost use Rattle.std.specs.Prelude.{◌≡◌, ◌+◌, ◌*◌, ◌^◌, ◌≤◌, ◌<◌};
ghost use Rattle.arith.specs.Rounding as Rounding;
ghost use Rattle.arith.specs.Rounding.{low, high, divide};
ghost use Rattle.arith.specs.Root.{root};
ghost use Rattle.arith.specs.Brackets.{end_of};

use super::bracket::Bracket;
use super::digits::Wide;
use super::halving::{root_ceil, root_floor};
use super::ratio::{Ratio, UNITS};

/// An end of a bracket. A lower number rounds down at every step, an upper one up.
pub trait End {
    ghost end: { Rounding.End };

    /// The number of a bracket at this end.
    fn of(bracket: Bracket) -> u64
        ensures { result ≡ end_of bracket end };

    /// a ÷ b.
    fn divide(a: u64, b: u64) -> u64
        requires { (0 < b) × (a + b ≤ 2 ^ 64) }
        ensures { result ≡ divide end a b };

    /// x times a ratio, with two products and no division.
    fn times(x: u64, ratio: &Ratio) -> u64
        requires { x < 2 ^ 46 }
        ensures { result ≡ divide end (x * ratio.now.dividend) ratio.now.divisor };

    /// The root of n ÷ d.
    fn root(n: u128, d: u64) -> u64
        requires { n < 2 ^ 112 * d }
        ensures value { result ≡ root end n d }
        ensures bound { result ≤ 2 ^ 56 };
}

/// The lower end.
pub struct Low;

/// The upper end.
pub struct High;

impl End for Low {
    ghost end = { low };

    fn of(bracket: Bracket) -> u64 {
        bracket.lower
    }

    fn divide(a: u64, b: u64) -> u64 {
        a / b
    }

    // With one unit more the ratio is no longer too small: a product that is whole is not missed.
    fn times(x: u64, ratio: &Ratio) -> u64 {
        (x as u128 * (ratio.units + 1) / UNITS) as u64
    }

    fn root(n: u128, d: u64) -> u64 {
        root_floor(Wide::of(n), d)
    }
}

impl End for High {
    ghost end = { high };

    fn of(bracket: Bracket) -> u64 {
        bracket.upper
    }

    fn divide(a: u64, b: u64) -> u64 {
        (a + (b - 1)) / b
    }

    // The units as they are make the ratio too small, or right: a product that is whole is not passed.
    fn times(x: u64, ratio: &Ratio) -> u64 {
        ((x as u128 * ratio.units + (UNITS - 1)) / UNITS) as u64
    }

    fn root(n: u128, d: u64) -> u64 {
        root_ceil(Wide::of(n), d)
    }
}
