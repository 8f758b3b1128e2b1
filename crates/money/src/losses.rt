// S1 and S3 to S6: what each shock costs the fund, in cents. S2 is in `equity`.
ghost use Rattle.std.specs.Prelude.{◌≡◌, ◌*◌, ◌^◌, ◌≤◌, ◌<◌, ◌+◌};
ghost use Rattle.arith.specs.Root.{root};
ghost use Rattle.arith.specs.Brackets.{bracket, end_of};
ghost use Rattle.model.specs.Limits.{AmountsWithin, ShocksWithin, PeopleWithin};
ghost use Rattle.model.specs.Case.{age_gap};
ghost use Rattle.method.specs.Rounded.{fall_of, interest_loss, currency_loss, commodity_loss, credit_loss, mortality, mortality_loss};
ghost use Rattle.curves.specs.inner.Three.{on};
ghost use Rattle.money.specs.inner.OnCurves.{ends};
ghost use Rattle.money.specs.inner.Ranges.{LossFits, WorthFits, WorthsFit};

use arith::bracket::Bracket;
use arith::end::{End, High, Low};
use arith::scale::Long;
use curves::three::Three;
use model::case::{Amounts, People, Shocks};

// (B - L) - (Bm - Lm), or 0, where Bm and Lm are the worths on a moved curve.
fn fall(b: Bracket, l: Bracket, bm: Bracket, lm: Bracket) -> Bracket
    requires { WorthFits b × WorthFits l × WorthFits bm × WorthFits lm }
    ensures { result ≡ bracket (fall_of (end_of l) (end_of b) (end_of lm) (end_of bm)) }
{
    b.plus(lm).less(bm.plus(l))
}

/// S1, the larger fall of bonds less liabilities from the base curve to the up or the down curve.
// That the worths fit is asked of the caller: a `Three` of brackets is one of factors too, of other sizes.
pub fn s1(l: Three<Bracket>, b: Three<Bracket>) -> Bracket
    requires { WorthsFit l × WorthsFit b }
    ensures value { result ≡ bracket (interest_loss (ends l) (ends b)) }
    ensures bound { LossFits result }
{
    let up = fall(b.base, l.base, b.up, l.up);
    let down = fall(b.base, l.base, b.down, l.down);
    up.larger(down)
}

// The loss on an amount in euros, in thousandths of a euro, which are tenths of a cent.
pub fn loss(euros: u64, thousandths: u64) -> u64
    requires { (euros ≤ 100000000000) × (thousandths ≤ 1000) }
    ensures value { result ≡ euros * thousandths }
    ensures bound { result ≤ 10 ^ 14 }
{
    euros * thousandths
}

// Amounts and shocks are the structs that a host hands in, with any numbers in them: that they are within their limits is asked of each
// caller below, since no type of C's can hold it.

/// S3: the currency exposure times its thousandths.
pub fn s3(a: &Amounts, x: &Shocks) -> Bracket
    requires { AmountsWithin a.now × ShocksWithin x.now }
    ensures value { result ≡ bracket (currency_loss a.now x.now) }
    ensures bound { LossFits result }
{
    Bracket::quotient(100 * loss(a.currency, x.currency_fall), 1_000)
}

/// S4: commodities likewise.
// S3 and S4 are a line each, with a definition each: a function for both would save nothing.
pub fn s4(a: &Amounts, x: &Shocks) -> Bracket
    requires { AmountsWithin a.now × ShocksWithin x.now }
    ensures value { result ≡ bracket (commodity_loss a.now x.now) }
    ensures bound { LossFits result }
{
    Bracket::quotient(100 * loss(a.commodities, x.commodities_fall), 1_000)
}

/// S5: credit × duration × spread × spread rise, by 100 ÷ 10^9, which is 1 ÷ 10^7. The product of all four can pass 64 bits.
pub fn s5(a: &Amounts, x: &Shocks) -> Bracket
    requires { AmountsWithin a.now × ShocksWithin x.now }
    ensures value { result ≡ bracket (credit_loss a.now x.now) }
    ensures bound { LossFits result }
{
    let widened = x.duration * x.spread * x.spread_rise;
    Bracket::exactly(a.credit).scaled::<Long>(widened, 10_000_000)
}

// An end of S6.
fn mortality_loss<E: End>(l: Bracket, p: &People) -> u64
    requires { WorthFits l × PeopleWithin p.now }
    ensures value { result ≡ mortality_loss (end_of l) p.now E.end }
    ensures bound { result ≤ 50 * 10 ^ 12 }
{
    let gap = p.pension_age.saturating_sub(p.mean_age);
    let years = 320 + 3 * gap;
    let share = p.heads * (years * years) + 92_160_000;
    let owed = E::of(l) as u128;
    E::root(owed * owed * share as u128, 256_000_000 * p.heads)
}

/// S6: the liabilities times the root of TSO² + NSA², which are one fraction of whole numbers. An end is a line of its own, as in `buffer`.
pub fn s6(l: Bracket, p: &People) -> Bracket
    requires { WorthFits l × PeopleWithin p.now }
    ensures value { result ≡ bracket (mortality_loss (end_of l) p.now) }
    ensures bound { LossFits result }
{
    Bracket {
        lower: mortality_loss::<Low>(l, p),
        upper: mortality_loss::<High>(l, p),
    }
}
