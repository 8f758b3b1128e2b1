// What flows are worth at the factors of a curve.
ghost use Rattle.std.specs.Prelude.{◌≡◌, length};
ghost use Rattle.arith.specs.Brackets.{bracket};
ghost use Rattle.method.specs.Rounded.{worth};
ghost use Rattle.curves.specs.inner.ByTerm.{factor_at};
ghost use Rattle.money.specs.inner.Ranges.{FlowsFit, FactorsFit, WorthFits};

use arith::bracket::Bracket;
use arith::scale::Long;

// The units in a cent of a euro.
const UNITS_PER_CENT: u64 = 10_000_000_000;

/// Flows, the first at term 1, times the factors of their terms: each rounded, then summed.
pub fn worth_of(flows: &[u64], factors: &[Bracket]) -> Bracket
    requires { FlowsFit flows.now × FactorsFit factors.now (length flows.now) }
    ensures value { result ≡ bracket (λ e. worth e (factor_at factors.now e) 1 flows.now) }
    ensures bound { WorthFits result }
{
    let mut total = Bracket::exactly(0);
    for (euros, factor) in flows.iter().zip(factors) {
        total = total.plus((*factor).scaled::<Long>(*euros, UNITS_PER_CENT));
    }
    total
}
