// The days: their count, 1 to 70, and their rates one after another, 60 a day, of one form.
#![tactic(auto, using(crate::proofs::Lengths::lengths))]

ghost use Rattle.std.specs.Prelude.{◌≡◌, true, ◌+◌, ◌*◌, ◌/◌, ◌≤◌, [], ◌∷◌, length, MatchOption, None};
ghost use Rattle.refusal.specs.declared.Refusal.TheVariants.{Rate};
ghost use Rattle.model.specs.Fields.{bytes_all, value_all, right_all};
ghost use Rattle.model.specs.Layout.{daily_rate, day, days};
ghost use Rattle.fields.specs.Checks.{Checked};
ghost use Rattle.fields.specs.IsDays.{IsDays};
ghost use Rattle.fields.specs.Sums.{Bounded, added, sums_of};
ghost use Rattle.fields.specs.Wrote.{Wrote};

use crate::check::check;
use crate::cursor::Cursor;
use crate::field::{Absent, Field};
use crate::given_days::GivenDays;
use crate::rates::RateForm;
use crate::sums::{DaySums, FileDays};
use crate::writer::Writer;
use refusal::Refusal;

// Adds the rates of a day to the sums of their terms, if each is within its limits. That the sums are of at most 254 days is asked here
// alone.
fn add_day<F: RateForm>(day: &[u8], sums: &mut [i64; 60]) -> Result<(), Refusal>
    requires terms { length day.now ≡ F.WIDTH * 60 }
    requires room { Bounded 254000000 sums.old }
    ensures { let rates = value_all (daily_rate F.WIDTH) day.now 0 60 in
        Checked ((right_all (daily_rate F.WIDTH) rates, Rate) ∷ []) (λ _. sums.new ≡ added sums.old rates) result }
{
    let width = F::WIDTH;
    // By an index: what a loop over `iter_mut().zip(..)` has written so far has no name for its invariant.
    for (t, sum) in sums.iter_mut().enumerate() {
        let rate = F::rate_of(&day[width * t..width * t + width]);
        check(F::is_rate(rate), Refusal::Rate)?;
        *sum += i64::from(rate);
    }
    Ok(())
}

// The sums of the whole days of these rates, if each rate is within its limits: of up to 255 days, as many as a count byte can say.
pub fn sum_days<F: RateForm>(rates: &[u8]) -> Result<[i64; 60], Refusal>
    requires few { length rates.now / (F.WIDTH * 60) ≤ 255 }
    ensures { let ds = value_all (day F.WIDTH) rates.now 0 (length rates.now / (F.WIDTH * 60)) in
        Checked ((right_all (day F.WIDTH) ds, Rate) ∷ []) (λ sums. sums ≡ sums_of ds) result }
{
    let mut sums = [0; 60];
    for day in rates.chunks_exact(F::WIDTH * 60) {
        add_day::<F>(day, &mut sums)?;
    }
    Ok(sums)
}

// The last bytes of a rate's 32 bits.
fn write_rate<F: RateForm>(rate: i32, out: &mut Writer<'_>)
    requires right { (daily_rate F.WIDTH).right rate ≡ true }
    requires room { out.old.at + F.WIDTH ≤ length out.old.out.now }
    ensures { Wrote out.old ((daily_rate F.WIDTH).bytes rate) out.new }
{
    let bytes = rate.to_be_bytes();
    out.put(&bytes[4 - F::WIDTH..]);
}

fn write_day<F: RateForm>(rates: &[i32], out: &mut Writer<'_>)
    requires right { (day F.WIDTH).right rates.now ≡ true }
    requires room { out.old.at + F.WIDTH * 60 ≤ length out.old.out.now }
    ensures { Wrote out.old (bytes_all (daily_rate F.WIDTH) rates.now) out.new }
{
    for rate in rates {
        write_rate::<F>(*rate, out);
    }
}

fn write_days<F: RateForm>(held: &[[i32; 60]], out: &mut Writer<'_>)
    requires right { right_all (day F.WIDTH) held.now ≡ true }
    requires room { out.old.at + F.WIDTH * 60 * length held.now ≤ length out.old.out.now }
    ensures { Wrote out.old (bytes_all (day F.WIDTH) held.now) out.new }
{
    for day in held {
        write_day::<F>(day, out);
    }
}

// Of a file the sums are kept, and the bytes; `None` is a field that is not there.
#[derive(Drop)]
pub struct Days<F>(pub F);

impl<'a, F: RateForm + Drop> Field<'a> for Days<F> {
    type Read = Option<FileDays<'a>>;

    type Given = GivenDays<'a, F>;

    type Value = [[i32; 60]; 70];

    ghost told = { λ _. days F.WIDTH };

    ghost is_read = { λ _ file at v x. MatchOption v ⊥ (λ d. IsDays F.WIDTH file at d x) };

    ghost said = { λ d. d.held.now };

    fn read(&self, cursor: &mut Cursor<'a>) -> Result<Option<FileDays<'a>>, Refusal> {
        let count_at = cursor.at;
        let (count, rates) = cursor.counted(70, F::WIDTH * 60, Refusal::DayCount)?;
        let summed = DaySums {
            per_step: F::UNITS_PER_STEP * count as u64,
            sums: sum_days::<F>(rates)?,
        };
        Ok(Some(FileDays {
            summed,
            rates,
            rates_at: count_at + 1,
        }))
    }

    fn check(&self, given: &GivenDays<'a, F>) -> Result<(), Refusal> {
        given.within
    }

    fn room_after(&self, given: &GivenDays<'a, F>, room: usize) -> Option<usize> {
        room.checked_sub(1 + F::WIDTH * 60 * given.held.len())
    }

    fn write(&self, given: &GivenDays<'a, F>, out: &mut Writer<'_>) {
        out.number(1, given.held.len() as u64);
        write_days::<F>(given.held, out);
    }
}

impl<'a, F: RateForm + Drop> Absent<'a> for Days<F> {
    ghost absent = { [] };

    ghost is_absent = { λ v. v ≡ None };

    fn absent() -> Option<FileDays<'a>> {
        None
    }
}
