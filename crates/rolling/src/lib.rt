// A rolling window of up to 70 trading days, and its valuation with the other fields of a case.
#![tactic(auto)]

pub mod valued;

ghost use Rattle.std.specs.Prelude.{◌≡◌, ◌<◌, [], is_ok, IfOk, IfErr};
ghost use Rattle.model.specs.Fields.{right_all};
ghost use Rattle.model.specs.Layout.{daily_rate, day};
ghost use Rattle.fields.specs.Sums.{Bounded};
ghost use Rattle.rollingmodel.specs.Rolling.{day_in, with_day_in, days_held, sums_of, rolling_right, add_day, drop_day, empty_window};
ghost use Rattle.rollingmodel.specs.Promises.{Holds, AddCall, DropCall};
ghost use Rattle.refusal.specs.declared.Refusal.TheVariants.{Damaged, Rate};
ghost use Rattle.refusal.specs.Numbered.{refused_by};
ghost use Rattle.rolling.specs.inner.Sums.{plus, minus};

use fields::rates::{RateForm, TwoBytes};
use refusal::Refusal;
use rings::Place;
use rollingmodel::{Day, RollingWindow};

const TERMS: usize = 60;

// An empty window: it is right, and holds no day.
#[tactic(auto, using(theory::proofs::rolling::Holds::empty_holds))]
pub fn empty() -> RollingWindow
    ensures value { result ≡ empty_window }
    ensures holds { Holds result [] }
{
    RollingWindow {
        count: 0,
        start: 0,
        rates: [0; 4200],
        sums: [0; 60],
    }
}

// The rates in a slot.
fn day_in(rates: &[i16; 4200], slot: usize) -> &[i16; 60]
    requires { slot < 70 }
    ensures { result.now ≡ day_in rates.now slot }
{
    &rates.as_chunks::<TERMS>().0[slot]
}

// Writes a day into a slot. By a range, since the contract of `as_chunks_mut` says nothing of what the array ends as.
fn put_day(rates: &mut [i16; 4200], slot: usize, new: &[i16; 60])
    requires { slot < 70 }
    ensures { rates.new ≡ with_day_in rates.old slot new.now }
{
    rates[TERMS * slot..TERMS * slot + TERMS].copy_from_slice(new);
}

// Whether each rate of a day that is held is within the limits.
fn is_right(held: &[i16; 60]) -> bool
    ensures { result ≡ right_all (daily_rate 2) held.now }
{
    held.iter().all(|rate| TwoBytes::is_rate(i32::from(*rate)))
}

// The rates of a day that a host hands in, if each is within the limits. By an index, as `add`.
fn checked(new: &Day) -> Result<[i16; 60], Refusal>
    ensures right { is_ok result ≡ (day 2).right new.now.rates }
    ensures same { IfOk result (λ rates. rates ≡ new.now.rates) }
    ensures refusal { IfErr result (λ e. e ≡ Rate) }
{
    let mut rates = [0; 60];
    for (t, rate) in new.rates.iter().enumerate() {
        if !TwoBytes::is_rate(*rate) {
            return Err(Refusal::Rate);
        }
        rates[t] = *rate as i16;
    }
    Ok(rates)
}

// Adds a day to the sums per term. By an index, since a loop over `iter_mut().zip(..)` has no name for what it has written so far, of which
// its invariant has to speak. One function for the days of files and of cases too would be no plainer: these come as bytes and as `i32`, and
// are tested in the same loop, while a day here is added only after all of it is tested. Only `add` and `subtract` ask for small sums.
fn add(sums: &mut [i64; 60], new: &[i16; 60])
    requires { Bounded 1000000 sums.old }
    ensures { sums.new ≡ plus sums.old new.now }
{
    for (t, sum) in sums.iter_mut().enumerate() {
        *sum += i64::from(new[t]);
    }
}

// Takes a day from the sums per term, as `add` adds it. A sign as a parameter of `add` would hide which way it goes.
fn subtract(sums: &mut [i64; 60], oldest: &[i16; 60])
    requires { Bounded 1000000 sums.old }
    ensures { sums.new ≡ minus sums.old oldest.now }
{
    for (t, sum) in sums.iter_mut().enumerate() {
        *sum -= i64::from(oldest[t]);
    }
}

// Where the days of a window are, whose stored sums are then those of these days. Refusal 27 for one with a count or place out of range, a
// held rate out of limits or a wrong sum.
pub fn place_of(w: &RollingWindow) -> Result<Place<70>, Refusal>
    ensures right { is_ok result ≡ rolling_right w.now }
    ensures sums { IfOk result (λ _. w.now.sums ≡ sums_of (days_held w.now)) }
    ensures count { IfOk result (λ place. place.count ≡ w.now.count) }
    ensures start { IfOk result (λ place. place.start ≡ w.now.start) }
    ensures refusal { IfErr result (λ e. e ≡ Damaged) }
{
    let place = Place::<70>::new(w.count, w.start).ok_or(Refusal::Damaged)?;
    let mut sums = [0i64; 60];
    // i counts the days from the oldest, whose slots go round the ring.
    for i in 0..place.count {
        let held = day_in(&w.rates, place.slot(i));
        if !is_right(held) {
            return Err(Refusal::Damaged);
        }
        add(&mut sums, held);
    }
    if sums != w.sums {
        return Err(Refusal::Damaged);
    }
    Ok(place)
}

// Adds a trading day after the newest: 27 for a window that is not right, 15 for one of 70 days, 5 for a rate out of limits. A refused
// day changes nothing.
pub fn add_day(w: &mut RollingWindow, new: &Day) -> Result<(), Refusal>
    ensures changed { record { refusal = refused_by result; window = w.new } ≡ add_day w.old new.now.rates }
    ensures call { AddCall w.old new.now.rates }
{
    let place = place_of(w)?;
    let slot = place.free().ok_or(Refusal::WindowFull)?;
    let rates = checked(new)?;
    put_day(&mut w.rates, slot, &rates);
    add(&mut w.sums, &rates);
    w.count += 1;
    Ok(())
}

// Drops the oldest day: 27 for a window that is not right, 16 for an empty one. A refused drop changes nothing.
pub fn drop_day(w: &mut RollingWindow) -> Result<(), Refusal>
    ensures changed { record { refusal = refused_by result; window = w.new } ≡ drop_day w.old }
    ensures call { DropCall w.old }
{
    let place = place_of(w)?;
    let slot = place.oldest().ok_or(Refusal::WindowEmpty)?;
    let oldest = day_in(&w.rates, slot);
    subtract(&mut w.sums, oldest);
    w.start = place.slot(1) as u64;
    w.count -= 1;
    Ok(())
}
