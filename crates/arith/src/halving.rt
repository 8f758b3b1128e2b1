// Roots of fractions whose numerator has 192 bits. A root is found by halving an interval that it lies in, with products and no division:
// one of 128 bits is a function of the compiler's library, which a host need not have.
ghost use Rattle.std.specs.Prelude.{◌≡◌, ◌*◌, ◌^◌, ◌≤◌, ◌<◌};
ghost use Rattle.arith.specs.Rounding.{low, high};
ghost use Rattle.arith.specs.Root.{root};
ghost use Rattle.arith.specs.inner.Value.{val};

use super::digits::{Wide, at_most, product};

/// The root of num ÷ den, rounded down. It is at least `lo` and below `hi`.
pub fn root_floor(num: Wide, den: u64) -> u64
    requires { val num < 2 ^ 112 * den }
    ensures value { result ≡ root low (val num) den }
    ensures bound { result < 2 ^ 56 }
{
    let mut lo: u64 = 0;
    let mut hi: u64 = 0x100_0000_0000_0000;
    while lo + 1 < hi {
        let mid = (lo + hi) / 2;
        let square = product(mid, mid, den);
        if at_most(square, num) {
            lo = mid;
        } else {
            hi = mid;
        }
    }
    lo
}

/// The root of num ÷ den, rounded up: one more than rounded down, where that is not exact.
pub fn root_ceil(num: Wide, den: u64) -> u64
    requires { val num < 2 ^ 112 * den }
    ensures value { result ≡ root high (val num) den }
    ensures bound { result ≤ 2 ^ 56 }
{
    let r = root_floor(num, den);
    let square = product(r, r, den);
    if at_most(num, square) { r } else { r + 1 }
}
