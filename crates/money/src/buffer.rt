// The root buffer S.
ghost use Rattle.std.specs.Prelude.{◌≡◌, ◌*◌, ◌^◌, ◌≤◌};
ghost use Rattle.arith.specs.Brackets.{bracket, end_of};
ghost use Rattle.method.specs.Rounded as Rounded;
ghost use Rattle.arith.specs.inner.Range.{UpTo};
ghost use Rattle.money.specs.inner.Buffer.{buffer_of};
ghost use Rattle.money.specs.inner.Ranges.{LossesFit};

use arith::bracket::Bracket;
use arith::end::{End, High, Low};

/// The losses S1 to S6.
#[derive(Clone, Copy)]
pub struct Losses {
    pub s1: Bracket,
    pub s2: Bracket,
    pub s3: Bracket,
    pub s4: Bracket,
    pub s5: Bracket,
    pub s6: Bracket,
}

fn square(s: u64) -> u128
    requires { s ≤ 50 * 10 ^ 12 }
    ensures value { result ≡ s * s }
    ensures bound { result ≤ 25 * 10 ^ 26 }
{
    s as u128 * s as u128
}

// An end of S: the root of the six squares, and of twice the correlation times the first two losses, over 1,000 for the thousandths.
fn root_of_squares<E: End>(correlation: u64, s: &Losses) -> u64
    requires correlation { correlation ≤ 1000 }
    requires losses { LossesFit s.now }
    ensures value { result ≡ buffer_of correlation s.now E.end }
    ensures bound { result ≤ 2 ^ 56 }
{
    let first = E::of(s.s1);
    let second = E::of(s.s2);
    let squares = square(first)
        + square(second)
        + square(E::of(s.s3))
        + square(E::of(s.s4))
        + square(E::of(s.s5))
        + square(E::of(s.s6));
    let correlated = 2 * correlation as u128 * (first as u128 * second as u128);
    E::root(1_000 * squares + correlated, 1_000)
}

/// S, with the correlation in thousandths. An end is a line of its own: a closure cannot be generic over `End`.
pub fn buffer(correlation: u64, s: &Losses) -> Bracket
    requires correlation { correlation ≤ 1000 }
    requires losses { LossesFit s.now }
    ensures value { result ≡ bracket (buffer_of correlation s.now) }
    ensures bound { UpTo (2 ^ 56) result }
{
    Bracket {
        lower: root_of_squares::<Low>(correlation, s),
        upper: root_of_squares::<High>(correlation, s),
    }
}
