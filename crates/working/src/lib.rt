// The rounded working of a case that the engine holds: the factors of its three curves, adjusted for its pension flows and unadjusted for
// its bonds, its zero rates, its figures and its verdict.
#![tactic(auto)]

mod lend;

ghost use Rattle.std.specs.Prelude.{◌≡◌, ◌≤◌, ◌++◌, length, drop};
ghost use Rattle.arith.specs.Brackets.{bracket};
ghost use Rattle.method.specs.Curve.{base, Move};
ghost use Rattle.method.specs.Rounded as Rounded;
ghost use Rattle.method.specs.Rounded.{worth};
ghost use Rattle.curves.specs.inner.Shifted.{curve_of};
ghost use Rattle.curves.specs.inner.ByTerm.{brackets, factor_at};
ghost use Rattle.curves.specs.inner.Ranges.{FactorsWithin};
ghost use Rattle.money.specs.inner.Ranges.{FlowsFit, FactorsFit, WorthFits};
ghost use Rattle.working.specs.inner.Working.{sums_on, adjusted_by, factors_on, rates_on, money_of};
ghost use Rattle.working.specs.inner.Ranges.{CaseFits};

use arith::bracket::Bracket;
use curves::sums::{CurveSums, shifted};
use curves::three::Three;
use heldcase::Case;
use lend::lend;
use model::figures::Valuation;
use money::figures::money_by;
use money::worth::worth_of;
use zerorates::rates::zero_rates;

// N and the sums P(t) of the three curves. `CaseFits` is said in clauses and is no invariant of `Case`: the default case has no head, and
// is out of these ranges.
fn sums_of(case: &Case) -> Three<CurveSums>
    requires { CaseFits case.now }
    ensures { result ≡ sums_on case.now }
{
    Three {
        base: shifted(case, 0, 0),
        up: shifted(case, case.shocks.up_shift, 0),
        down: shifted(case, 0, case.shocks.down_shift),
    }
}

// What bond flows are worth on a curve, by its sums and its adjusted factors.
fn bonds_worth(bonds: &[u64], sums: &CurveSums, adjusted: &[Bracket; 120]) -> Bracket
    requires flows { FlowsFit bonds.now }
    requires few { length bonds.now ≤ 60 }
    requires sums { FactorsWithin sums.now }
    requires adjusted { adjusted.now ≡ brackets (Rounded.factor (curve_of sums.now)) 120 }
    ensures value { result ≡ bracket (λ e. worth e (Rounded.unadjusted (curve_of sums.now) e) 1 bonds.now) }
    ensures bound { WorthFits result }
{
    worth_of(bonds, &sums.unadjusted_factors(adjusted, bonds.len()))
}

// The figures and the verdict of a case, by its sums and its adjusted factors.
fn money_at(case: &Case, sums: &Three<CurveSums>, adjusted: &Three<[Bracket; 120]>) -> Valuation
    requires case { CaseFits case.now }
    requires sums { sums.now ≡ sums_on case.now }
    requires adjusted { adjusted.now ≡ adjusted_by sums.now }
    ensures { result ≡ money_of case.now }
{
    let pension = case.pension.as_slice();
    let bonds = case.bonds.as_slice();
    let owed = adjusted.map(
        |factors: &[Bracket; 120]| -> Bracket
            requires { FlowsFit pension.now × FactorsFit factors.now (length pension.now) }
            ensures { (result ≡ bracket (λ e. worth e (factor_at factors.now e) 1 pension.entry.now)) × WorthFits result }
        { worth_of(pension, factors) },
    );
    let invested = sums.map_with(
        adjusted,
        |sums: &CurveSums, factors: &[Bracket; 120]| -> Bracket
            requires { FlowsFit bonds.now × FactorsWithin sums.now × (length bonds.now ≤ 60) × (factors.now ≡ brackets (Rounded.factor (curve_of sums.now)) 120) }
            ensures { (result ≡ bracket (λ e. worth e (Rounded.unadjusted (curve_of sums.now) e) 1 bonds.entry.now)) × WorthFits result }
        { bonds_worth(bonds, sums, factors) },
    );
    money_by(owed, invested, &case.amounts, &case.shocks, &case.people)
}

/// The figures and the verdict of a case. No zero rate is worked out.
pub fn money_of(case: &Case) -> Valuation
    requires { CaseFits case.now }
    ensures { result ≡ money_of case.now }
{
    let sums = sums_of(case);
    let adjusted = sums.map(CurveSums::factors);
    money_at(case, &sums, &adjusted)
}

/// Values a case: writes its factors and its zero rates, lower and upper, term by term, and answers the figures and the verdict. The rooms
/// of 240 entries are what `first_chunk_mut` gives of a lent buffer.
pub fn value_into(case: &Case, factors: &mut [u64; 240], rates: &mut [i64; 240]) -> Valuation
    requires { CaseFits case.now }
    ensures value { result ≡ money_of case.now }
    ensures factors { factors.new ≡ factors_on case.now base }
    ensures rates { rates.new ≡ rates_on case.now }
{
    let sums = sums_of(case);
    let adjusted = sums.map(CurveSums::factors);
    lend(&adjusted.base, factors);
    lend(&zero_rates(&adjusted.base), rates);
    money_at(case, &sums, &adjusted)
}

/// Values a case into the fronts of two buffers of 240 entries or more, as `value_into` does: their later entries keep their content.
pub fn value_case(case: &Case, factors: &mut [u64], rates: &mut [i64]) -> Valuation
    requires case { CaseFits case.now }
    requires room { (240 ≤ length factors.old) × (240 ≤ length rates.old) }
    ensures value { result ≡ money_of case.now }
    ensures factors { factors.new ≡ factors_on case.now base ++ drop 240 factors.old }
    ensures rates { rates.new ≡ rates_on case.now ++ drop 240 rates.old }
{
    let factors = factors.first_chunk_mut().unwrap();
    let rates = rates.first_chunk_mut().unwrap();
    value_into(case, factors, rates)
}
