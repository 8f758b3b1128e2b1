// The assets, all ten figures, and the verdict that they give.
ghost use Rattle.std.specs.Prelude.{◌≡◌};
ghost use Rattle.arith.specs.Brackets.{bracket, end_of};
ghost use Rattle.model.specs.Limits.{AmountsWithin, ShocksWithin, PeopleWithin};
ghost use Rattle.method.specs.Rounded as Rounded;
ghost use Rattle.method.specs.Rounded.{figures_of};
ghost use Rattle.money.specs.inner.OnCurves.{ends};
ghost use Rattle.money.specs.inner.ByWorths.{money_by};
ghost use Rattle.money.specs.inner.Ranges.{WorthFits, WorthsFit, Judgeable};

use super::buffer::{Losses, buffer};
use super::equity::s2;
use super::losses::{s1, s3, s4, s5, s6};
use super::verdict::verdict_of;
use arith::bracket::Bracket;
use curves::three::Three;
use model::case::{Amounts, People, Shocks};
use model::figures::{Figures, Valuation};

// That amounts, shocks and people are within their limits is asked of the callers, as in `losses`: they are a host's own structs.

// A: the bonds and all amounts except currency exposure, which are whole cents.
fn assets(bonds: Bracket, a: &Amounts) -> Bracket
    requires { WorthFits bonds × AmountsWithin a.now }
    ensures { result ≡ bracket (Rounded.assets (end_of bonds) a.now) }
{
    let euros = a.mature + a.emerging + a.private + a.property + a.commodities + a.credit + a.cash;
    bonds.plus(Bracket::exactly(100 * euros))
}

// All ten figures, from the worth of the pension flows and the bonds on the three curves.
fn figures(l: Three<Bracket>, b: Three<Bracket>, a: &Amounts, x: &Shocks, p: &People) -> Figures
    requires { WorthsFit l × WorthsFit b × AmountsWithin a.now × ShocksWithin x.now × PeopleWithin p.now }
    ensures value { result ≡ figures_of (ends l) (ends b) a.now x.now p.now }
    ensures bound { Judgeable result.a result.l result.s }
{
    let losses = Losses {
        s1: s1(l, b),
        s2: s2(a, x),
        s3: s3(a, x),
        s4: s4(a, x),
        s5: s5(a, x),
        s6: s6(l.base, p),
    };
    Figures {
        l: l.base,
        b: b.base,
        a: assets(b.base, a),
        s1: losses.s1,
        s2: losses.s2,
        s3: losses.s3,
        s4: losses.s4,
        s5: losses.s5,
        s6: losses.s6,
        s: buffer(x.correlation, &losses),
    }
}

/// The figures and the verdict by them.
// The goal stays open where `judge` is not unfolded.
#[tactic(auto, unfolding(method::specs::Rounded::judge))]
pub fn money_by(
    l: Three<Bracket>,
    b: Three<Bracket>,
    a: &Amounts,
    x: &Shocks,
    p: &People,
) -> Valuation
    requires { WorthsFit l × WorthsFit b × AmountsWithin a.now × ShocksWithin x.now × PeopleWithin p.now }
    ensures { result ≡ money_by (ends l) (ends b) a.now x.now p.now }
{
    let figures = figures(l, b, a, x, p);
    let verdict = verdict_of(figures.a, figures.l, figures.s);
    Valuation { figures, verdict }
}
