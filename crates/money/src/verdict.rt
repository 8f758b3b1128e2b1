// The verdict.
ghost use Rattle.std.specs.Prelude.{◌≡◌};
ghost use Rattle.arith.specs.Brackets.{end_of};
ghost use Rattle.method.specs.Rounded.{judge};
ghost use Rattle.money.specs.inner.Ranges.{Judgeable};

use arith::bracket::Bracket;
use model::figures::Verdict;

/// The verdict, from the ends of A, L and S.
// The goals stay open where `judge` is not unfolded.
#[tactic(auto, unfolding(method::specs::Rounded::judge))]
pub fn verdict_of(a: Bracket, l: Bracket, s: Bracket) -> Verdict
    requires { Judgeable a l s }
    ensures { result ≡ judge (end_of a) (end_of l) (end_of s) }
{
    if 20 * a.upper < 21 * l.lower {
        return Verdict::Dekkingstekort;
    }
    if 20 * a.lower < 21 * l.upper {
        return Verdict::Onbeslist;
    }
    if a.upper < l.lower + s.lower {
        return Verdict::Reservetekort;
    }
    if l.upper + s.upper <= a.lower {
        return Verdict::VrijVermogen;
    }
    Verdict::Onbeslist
}
