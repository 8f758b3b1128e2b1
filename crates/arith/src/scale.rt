// The product of two numbers divided by a third, rounded at an end.
ghost use Rattle.std.specs.Prelude.{◌≡◌, ◌*◌, ℕ, ◌≤◌};
ghost use Rattle.arith.specs.Rounding.{divide};
ghost use Rattle.arith.specs.inner.Range.{Small, InRange};

use super::end::End;

/// How a product is divided.
pub trait Quotient {
    // Whether x × a ÷ b can be worked out in this way.
    ghost Takes: { ℕ → ℕ → ℕ → Type 0 };

    /// x × a ÷ b.
    fn quotient<E: End>(x: u64, a: u64, b: u64) -> u64
        requires { Takes x a b }
        ensures { result ≡ divide E.end (x * a) b };

    ghost smaller: { (x y a b : ℕ) → x ≤ y → Takes y a b → Takes x a b };
}

/// Where the product fits 64 bits: one product and one quotient.
pub struct Short;

/// Where it passes them: by hand, with two digits of base 2^21. The upper digit of a goes first, and the remainder that it leaves is
/// carried, times 2^21, to the lower digit.
pub struct Long;

impl Quotient for Short {
    ghost Takes = { Small };

    ghost use Rattle.arith.specs.inner.Ways.{small-smaller};

    ghost smaller = { small-smaller };

    fn quotient<E: End>(x: u64, a: u64, b: u64) -> u64 {
        E::divide(x * a, b)
    }
}

impl Quotient for Long {
    ghost Takes = { InRange };

    ghost use Rattle.arith.specs.inner.Ways.{range-smaller};

    ghost smaller = { range-smaller };

    fn quotient<E: End>(x: u64, a: u64, b: u64) -> u64 {
        let upper = x * (a / 0x20_0000);
        let lower = upper % b * 0x20_0000 + x * (a % 0x20_0000);
        upper / b * 0x20_0000 + E::divide(lower, b)
    }
}
