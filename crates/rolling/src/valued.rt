// The valuation of a rolling window with the other fields of a case, as a host calls it.
ghost use Rattle.std.specs.Prelude.{◌≡◌, true, ◌≤◌, length, is_ok, IfOk, IfErr};
ghost use Rattle.std.specs.Result.{result_err};
ghost use Rattle.heldcase.specs.Held.{held};
ghost use Rattle.model.specs.Case.{with_days};
ghost use Rattle.model.specs.Refusals.{failing};
ghost use Rattle.fields.specs.Sums.{raised};
ghost use Rattle.rollingmodel.specs.Rolling.{days_held, sums_of, rolling_right, rolling_checks, rolling_valuation, rolling_factors_after, rolling_rates_after};
ghost use Rattle.rollingmodel.specs.Promises.{WindowCall};
ghost use Rattle.saving.specs.Said.{said};
ghost use Rattle.refusal.specs.declared.Refusal.TheVariants.{Damaged};
ghost use Rattle.rolling.specs.inner.Joined.{joined};

use crate::place_of;
use fields::check::check;
use fields::sums::DaySums;
use heldcase::Case;
use heldcase::flows::Flows;
use model::figures::Valuation;
use refusal::Refusal;
use rollingmodel::RollingWindow;
use saving::case::checked_file;
use saving::given::GivenCase;
use working::value_into;

/// How many days a window holds, and of each term the sum of their rates, in steps of 0.00001; 27 for a window that is not right.
pub fn days_in(w: &RollingWindow) -> Result<DaySums, Refusal>
    ensures right { is_ok result ≡ rolling_right w.now }
    ensures count { IfOk result (λ days. days.per_step ≡ w.now.count) }
    ensures sums { IfOk result (λ days. days.sums ≡ sums_of (days_held w.now)) }
    ensures stored { IfOk result (λ days. days.sums ≡ w.now.sums) }
    ensures refusal { IfErr result (λ e. e ≡ Damaged) }
{
    place_of(w)?;
    Ok(DaySums {
        per_step: w.count,
        sums: w.sums,
    })
}

// The case as the engine holds it, from the fields that a host hands in and the sums of some days.
fn join(given: &GivenCase, days: DaySums) -> Case
    requires pension { length given.now.pension.now ≤ 120 }
    requires bonds { length given.now.bonds.now ≤ 60 }
    ensures { result ≡ joined (said given.now) days.per_step (raised days.per_step days.sums) }
{
    let fields = given.fields;
    Case {
        ufr: fields.ufr,
        per_step: days.per_step,
        sums: days.raised(),
        pension: Flows::from_slice(given.pension),
        bonds: Flows::from_slice(given.bonds),
        amounts: fields.amounts,
        shocks: fields.shocks,
        people: fields.people,
    }
}

// The days that a right window holds with the other fields of a case. Refused by the case's own checks, then with 4 and 6 by the window's
// days: as the window is with two buffers of 240 entries.
fn window_case(w: &RollingWindow, days: DaySums, given: &GivenCase) -> Result<Case, Refusal>
    requires right { rolling_right w.now ≡ true }
    requires count { days.per_step ≡ w.now.count }
    requires sums { days.sums ≡ w.now.sums }
    ensures refusal { result_err result ≡ failing (rolling_checks w.now (said given.now) 240 240) }
    ensures case { IfOk result (λ c. c ≡ held (with_days 2 (days_held w.now) (said given.now))) }
{
    checked_file(given)?;
    check(0 < days.per_step, Refusal::DayCount)?;
    days.forwards_within()?;
    Ok(join(given, days))
}

/// Values the days that the window holds with the other fields of a case into two lent buffers, as `engine::value` does a file. A refusal
/// leaves both buffers as they were. Hosts in C lend each by a pointer and a length, so they stay two slices.
pub fn value_window(
    w: &RollingWindow,
    given: &GivenCase,
    factors: &mut [u64],
    rates: &mut [i64],
) -> Result<Valuation, Refusal>
    ensures value { result ≡ rolling_valuation w.now (said given.now) (length factors.old) (length rates.old) }
    ensures factors { factors.new ≡ rolling_factors_after w.now (said given.now) factors.old rates.old }
    ensures rates { rates.new ≡ rolling_rates_after w.now (said given.now) factors.old rates.old }
    ensures call { WindowCall w.now (said given.now) factors.old rates.old }
{
    let days = days_in(w)?;
    let factors = factors.first_chunk_mut().ok_or(Refusal::Buffers)?;
    let rates = rates.first_chunk_mut().ok_or(Refusal::Buffers)?;
    // Not by `?`, which gets no proof of a result that holds a case: contracts see its flows as lists.
    match window_case(w, days, given) {
        Ok(case) => Ok(value_into(&case, factors, rates)),
        Err(refusal) => Err(refusal),
    }
}
