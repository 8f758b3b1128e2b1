// Numbers below 2^192, as six digits of base 2^32. They are added, multiplied and compared by words of two digits.
ghost use Rattle.std.specs.Prelude.{◌≡◌, ◌+◌, ◌*◌, ◌^◌, ◌<◌, leb};
ghost use Rattle.arith.specs.inner.Value.{val};

// The base of a digit, and that of a word, which is two digits. Both are powers of 2: a division by them is a shift.
const BASE: u128 = 0x1_0000_0000;

const WORD: u128 = 0x1_0000_0000_0000_0000;

/// Six digits, the least first. Every value of the type is a number: `val` in specs/inner/Value.antt says which.
#[derive(Clone, Copy)]
pub struct Wide {
    pub d0: u32,
    pub d1: u32,
    pub d2: u32,
    pub d3: u32,
    pub d4: u32,
    pub d5: u32,
}

impl Wide {
    /// A number of 128 bits.
    pub fn of(n: u128) -> Wide
        ensures { val result ≡ n }
    {
        carried(n, 0)
    }
}

// A word of 64 bits, and the number above it.
#[derive(Clone, Copy)]
struct Parts {
    lower: u128,
    upper: u128,
    ghost word: { lower < 2 ^ 64 },
}

impl Parts {
    fn of(w: Wide) -> Parts
        ensures { val w ≡ result.lower + 2 ^ 64 * result.upper }
    {
        Parts {
            lower: pair(w.d0, w.d1),
            upper: pair(w.d4, w.d5) * WORD + pair(w.d2, w.d3),
        }
    }

    fn joined(self) -> Wide
        ensures { val result ≡ self.lower + 2 ^ 64 * self.upper }
    {
        let n3 = self.upper / BASE;
        let n4 = n3 / BASE;
        let n5 = n4 / BASE;
        Wide {
            d0: (self.lower % BASE) as u32,
            d1: (self.lower / BASE) as u32,
            d2: (self.upper % BASE) as u32,
            d3: (n3 % BASE) as u32,
            d4: (n4 % BASE) as u32,
            d5: n5 as u32,
        }
    }
}

// Two digits as a word.
fn pair(lower: u32, upper: u32) -> u128
    ensures value { result ≡ lower + 2 ^ 32 * upper }
    ensures bound { result < 2 ^ 64 }
{
    upper as u128 * BASE + lower as u128
}

// A number of words of which the lowest may be too large, and carries what does not fit.
fn carried(lower: u128, upper: u128) -> Wide
    requires { lower + 2 ^ 64 * upper < 2 ^ 192 }
    ensures { val result ≡ lower + 2 ^ 64 * upper }
{
    let parts = Parts {
        lower: lower % WORD,
        upper: upper + lower / WORD,
    };
    parts.joined()
}

/// x + y.
pub fn sum(x: Wide, y: Wide) -> Wide
    requires { val x + val y < 2 ^ 192 }
    ensures { val result ≡ val x + val y }
{
    let a = Parts::of(x);
    let b = Parts::of(y);
    carried(a.lower + b.lower, a.upper + b.upper)
}

/// x × y × z, for any three numbers of 64 bits: both words of x × y times z.
pub fn product(x: u64, y: u64, z: u64) -> Wide
    ensures { val result ≡ x * y * z }
{
    let first = x as u128 * y as u128;
    carried(first % WORD * z as u128, first / WORD * z as u128)
}

/// Whether x ≤ y: what is above the lowest word says so, where it differs.
pub fn at_most(x: Wide, y: Wide) -> bool
    ensures { result ≡ leb (val x) (val y) }
{
    let a = Parts::of(x);
    let b = Parts::of(y);
    if a.upper == b.upper {
        a.lower <= b.lower
    } else {
        a.upper < b.upper
    }
}
