// Days as a host hands them in, as a list of rates.
ghost use Rattle.std.specs.Prelude.{◌≡◌, ◌*◌, [], ◌∷◌, length, IfOk, None};
ghost use Rattle.std.specs.Result.{result_err};
ghost use Rattle.refusal.specs.declared.Refusal.TheVariants.{Forward};
ghost use Rattle.model.specs.Case.{units_per_step};
ghost use Rattle.model.specs.Fields.{within};
ghost use Rattle.model.specs.Layout.{day, days};
ghost use Rattle.model.specs.Refusals.{failing, forwards_right};
ghost use Rattle.savingmodel.specs.Saving.{days_of};
ghost use Rattle.fields.specs.Sums.{Bounded, added, sums_of, days_checks};

use crate::check::check;
use crate::rates::RateForm;
use crate::sums::DaySums;
use refusal::Refusal;
use std::marker::PhantomData;

// The days of a list of rates, 60 a day. A list that is no whole number of days has none.
pub fn days_in(rates: &[i32]) -> &[[i32; 60]]
    ensures { result.now ≡ days_of rates.now }
{
    let (held, rest) = rates.as_chunks::<60>();
    if rest.is_empty() { held } else { &[] }
}

// The limits of refusal 4.
fn is_day_count(count: usize) -> bool
    ensures { result ≡ within 1 70 count }
{
    (1..=70).contains(&count)
}

// Adds the rates of a day to the sums of their terms, and says whether each is within its limits. It goes on past one that is not, since
// the compiler then makes several terms at a time. That the sums are of at most 69 days is asked here alone.
fn add_day<F: RateForm>(rates: &[i32; 60], sums: &mut [i64; 60]) -> bool
    requires { Bounded 69000000 sums.old }
    ensures right { result ≡ (day F.WIDTH).right rates.now }
    ensures sums { sums.new ≡ added sums.old rates.now }
{
    let mut right = true;
    // By an index: what a loop over `iter_mut().zip(..)` has written so far has no name for its invariant.
    for (t, sum) in sums.iter_mut().enumerate() {
        right &= F::is_rate(rates[t]);
        *sum += i64::from(rates[t]);
    }
    right
}

// The sums of days, if their count and each of their rates is within its limits.
fn sum_days<F: RateForm>(held: &[[i32; 60]]) -> Result<[i64; 60], Refusal>
    ensures refusal { result_err result ≡ failing ((days F.WIDTH).limits held.now) }
    ensures sums { IfOk result (λ sums. sums ≡ sums_of held.now) }
{
    check(is_day_count(held.len()), Refusal::DayCount)?;
    let mut sums = [0; 60];
    for rates in held {
        check(add_day::<F>(rates, &mut sums), Refusal::Rate)?;
    }
    Ok(sums)
}

// Refusal 6, of days that are within their own limits, by their sums: as the reader checks the days of a file.
fn forwards_within<F: RateForm>(held: &[[i32; 60]], sums: [i64; 60]) -> Result<(), Refusal>
    requires right { failing ((days F.WIDTH).limits held.now) ≡ None }
    requires sums { sums ≡ sums_of held.now }
    ensures { result_err result ≡ failing ((forwards_right (units_per_step F.WIDTH * length held.now) held.now, Forward) ∷ []) }
{
    let summed = DaySums {
        per_step: F::UNITS_PER_STEP * held.len() as u64,
        sums,
    };
    summed.forwards_within()
}

// Days of rates of one form, in its units. What their limits say is found once, when they are taken from a list: one loop sums the rates and
// looks at their limits.
#[derive(Drop)]
pub struct GivenDays<'a, F: RateForm> {
    pub held: &'a [[i32; 60]],
    form: PhantomData<F>,
    // By their count and their rates.
    pub within: Result<(), Refusal>,
    // By these, and then by their forward rates.
    pub forwards: Result<(), Refusal>,
    ghost within_told: { result_err within ≡ failing ((days F.WIDTH).limits held.now) },
    ghost forwards_told: { result_err forwards ≡ failing (days_checks F.WIDTH held.now) },
}

impl<'a, F: RateForm> GivenDays<'a, F> {
    pub fn of(rates: &'a [i32]) -> Self
        ensures { result.held.now ≡ days_of rates.now }
    {
        let held = days_in(rates);
        let form = PhantomData;
        match sum_days::<F>(held) {
            Ok(sums) => GivenDays {
                held,
                form,
                within: Ok(()),
                forwards: forwards_within::<F>(held, sums),
            },
            Err(refusal) => GivenDays {
                held,
                form,
                within: Err(refusal),
                forwards: Err(refusal),
            },
        }
    }
}
