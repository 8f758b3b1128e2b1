// A ratio by which numbers are multiplied again and again: it is divided once for all of them.
ghost use Rattle.std.specs.Prelude.{◌≡◌, ◌*◌, ◌/◌, ◌^◌, ◌≤◌, ◌<◌};

/// The units of 1: 2^80.
pub const UNITS: u128 = 0x1_0000_0000_0000_0000_0000;

/// `dividend` ÷ `divisor`, which is at most 2, and how many units of 2^-80 that is, rounded down. x times these units are too few by less
/// than x units: by less than 1 ÷ `divisor`, where x × `divisor` is below 2^80. And x × `dividend` ÷ `divisor` is whole, or at least
/// 1 ÷ `divisor` away from the next whole number on either side. So `End::times` rounds as the quotient does, without a remainder.
#[derive(Clone, Copy)]
pub struct Ratio {
    pub dividend: u64,
    pub divisor: u64,
    pub units: u128,
    pub ghost some: { 0 < divisor },
    pub ghost most: { divisor ≤ 2 ^ 34 },
    pub ghost ratio: { dividend ≤ 2 * divisor },
    pub ghost is: { units ≡ dividend * 2 ^ 80 / divisor },
}

impl Ratio {
    /// The ratio of two numbers, divided by hand in digits of 28, 26 and 26 bits: what is left each time is below 2^34, so that the next
    /// digit takes a division of 64 bits. One of 128 bits is a function of the compiler's library, which a host need not have.
    pub fn of(dividend: u64, divisor: u64) -> Ratio
        requires { (0 < divisor) × (divisor ≤ 2 ^ 34) × (dividend ≤ 2 * divisor) }
        ensures { (result.dividend ≡ dividend) × (result.divisor ≡ divisor) }
    {
        let first = dividend * 0x1000_0000;
        let second = first % divisor * 0x400_0000;
        let third = second % divisor * 0x400_0000;
        let upper = first / divisor * 0x400_0000 + second / divisor;
        Ratio {
            dividend,
            divisor,
            units: upper as u128 * 0x400_0000 + (third / divisor) as u128,
        }
    }
}
