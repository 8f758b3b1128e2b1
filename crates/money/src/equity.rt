// S2: the loss on the four classes of equity and property, with the correlation between them.
ghost use Rattle.std.specs.Prelude.{◌≡◌, ◌*◌, ◌^◌, ◌≤◌, ◌<◌};
ghost use Rattle.arith.specs.Brackets.{bracket};
ghost use Rattle.model.specs.Limits.{AmountsWithin, ShocksWithin};
ghost use Rattle.method.specs.Rounded.{class_squares, equity_loss};
ghost use Rattle.money.specs.inner.Ranges.{ClassesFit, LossFits};

use super::losses::loss;
use arith::bracket::Bracket;
use arith::end::{End, High, Low};
use model::case::{Amounts, Shocks};

// Two losses multiplied, in tenths of a cent.
fn product(a: u64, b: u64) -> u128
    requires { (a ≤ 10 ^ 14) × (b ≤ 10 ^ 14) }
    ensures value { result ≡ a * b }
    ensures bound { result ≤ 10 ^ 28 }
{
    a as u128 * b as u128
}

// 1,000 times what is under the root: the squares of the four losses, and twice the correlation times the product of each of the six pairs.
fn class_squares(correlation: u64, mature: u64, emerging: u64, private: u64, property: u64) -> u128
    requires { ClassesFit correlation mature emerging private property }
    ensures value { result ≡ class_squares correlation mature emerging private property }
    ensures bound { result < 2 ^ 112 * 100000 }
{
    let squares = product(mature, mature)
        + product(emerging, emerging)
        + product(private, private)
        + product(property, property);
    let pairs = product(mature, emerging)
        + product(mature, private)
        + product(mature, property)
        + product(emerging, private)
        + product(emerging, property)
        + product(private, property);
    1_000 * squares + 2 * correlation as u128 * pairs
}

/// S2: the root over the four amounts times their thousandths, which are tenths of a cent, rounded once. The 100,000 are 1,000 for the
/// correlation and 100 for the tenths of a cent, squared. The amounts and shocks are within their limits, as in `losses`.
pub fn s2(a: &Amounts, x: &Shocks) -> Bracket
    requires { AmountsWithin a.now × ShocksWithin x.now }
    ensures value { result ≡ bracket (equity_loss a.now x.now) }
    ensures bound { LossFits result }
{
    let squares = class_squares(
        x.equity_correlation,
        loss(a.mature, x.mature_fall),
        loss(a.emerging, x.emerging_fall),
        loss(a.private, x.private_fall),
        loss(a.property, x.property_fall),
    );
    Bracket {
        lower: Low::root(squares, 100_000),
        upper: High::root(squares, 100_000),
    }
}
