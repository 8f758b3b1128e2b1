// The UFR from ten years of months.
ghost use Rattle.std.specs.Prelude.{◌≡◌, pos};
ghost use Rattle.model.specs.Fields.{within_z};
ghost use Rattle.monthsmodel.specs.Months.{ufr_answer};
ghost use Rattle.monthsmodel.specs.Promises.{UfrCall};

use fields::rates::{RateForm, TwoBytes};
use refusal::Refusal;
use rings::Place;

// The limits of refusal 19.
fn is_ufr(ufr: i64) -> bool
    ensures { result ≡ within_z (pos 0) (pos 5000) ufr }
{
    (0..=5_000).contains(&ufr)
}

// The mean of the months of a ring, rounded to the nearest 100 steps, halves upward: 17 for a history that is no full ring of 120 months,
// 18 for a month out of limits, 19 for a mean that is no UFR. Hosts in C hand in the months and their start apart.
pub fn ufr_of(history: &[u8], start: u64) -> Result<u64, Refusal>
    ensures value { result ≡ ufr_answer history.now start }
    ensures call { UfrCall history.now start }
{
    if history.len() != 240 {
        return Err(Refusal::History);
    }
    // Only whether there is such a place: the sum is the same from any month on.
    Place::<120>::new(120, start).ok_or(Refusal::History)?;
    let (months, _) = history.as_chunks::<2>();
    let mut sum: i64 = 0;
    // A month has the form of a rate.
    for bytes in months {
        let month = TwoBytes::rate_of(bytes);
        if !TwoBytes::is_rate(month) {
            return Err(Refusal::Month);
        }
        sum += i64::from(month);
    }
    let ufr = (sum + 6_000).div_euclid(12_000) * 100;
    if !is_ufr(ufr) {
        return Err(Refusal::MonthsUfr);
    }
    Ok(ufr as u64)
}
