// The functions that hosts in C, Rust and Python call. Each takes any bytes, any lengths and any
// numbers: none has a `requires`. include/ginghamowl.h declares them.
#![tactic(auto)]

ghost use Rattle.std.specs.Prelude.{◌≡◌, [], length, take, drop};
ghost use Rattle.method.specs.Buffers.{valuation_of, factors_after, rates_after};
ghost use Rattle.method.specs.Promises.{Call};
ghost use Rattle.monthsmodel.specs.Months.{ufr_answer, months_valuation, months_factors_after, months_rates_after};
ghost use Rattle.model.specs.Refusals.{refusal, rates_part};
ghost use Rattle.model.specs.Promises.{RefusalCall, PartCall};
ghost use Rattle.rollingmodel.specs.Rolling.{empty_window, add_day, drop_day, rolling_valuation, rolling_factors_after, rolling_rates_after};
ghost use Rattle.rollingmodel.specs.Promises.{Holds, AddCall, DropCall, WindowCall};
ghost use Rattle.monthsmodel.specs.Promises.{UfrCall, MonthsCall};
ghost use Rattle.method.specs.Window.{window_point};
ghost use Rattle.method.specs.Listing.{listing_after, listing_length};
ghost use Rattle.method.specs.Sizes.{ListingCall};
ghost use Rattle.savingmodel.specs.Promises.{SaveCall};
ghost use Rattle.savingmodel.specs.Saving.{given, save_answer, saved_after};
ghost use Rattle.flat.specs.Flat.{host_valuation, host_point, valuation_from, host_saved, host_ufr};
ghost use Rattle.flat.specs.Version.{engine_version};
ghost use Rattle.flat.specs.Part.{host_part};
ghost use Rattle.refusal.specs.Numbered.{refused_by};

use engine::value;
use flat::part::{HostPart, rates_place};
use flat::{HostPoint, HostSaved, HostUfr, HostValuation, HostVersion};
use listing::points::window_point;
use listing::write_listing;
use model::case::CaseFields;
use model::figures::{Figures, Valuation};
use months::ufr::ufr_of;
use months::value_with_months;
use reader::file::refusal_of;
use refusal::Refusal;
use rolling::valued::value_window;
use rolling::{add_day, drop_day, empty};
use rollingmodel::{ChangedWindow, Day, RollingWindow};
use saving::given::GivenCase;
use saving::save;

mod version;

// The number of a refusal, and 0 where there is none.
fn number_of(answer: Result<(), Refusal>) -> u8
    ensures { result ≡ refused_by answer }
{
    match answer {
        Ok(()) => 0,
        Err(refusal) => refusal.number(),
    }
}

// The version of the engine, and the kit that it is proved with: by these a host sees at run time what it has linked or loaded.
#[unsafe(no_mangle)]
pub extern "C" fn ginghamowl_version() -> HostVersion
    ensures { result ≡ engine_version }
{
    HostVersion {
        major: version::MAJOR,
        minor: version::MINOR,
        patch: version::PATCH,
        kit: version::KIT,
    }
}

// Values a case file into two lent buffers, as `engine::value` does.
#[unsafe(no_mangle)]
pub extern "C" fn ginghamowl_value(
    file: &[u8],
    factors: &mut [u64],
    rates: &mut [i64],
) -> HostValuation
    ensures value { result ≡ host_valuation (valuation_of (length factors.old) (length rates.old) file.now) }
    ensures factors { factors.new ≡ factors_after file.now factors.old rates.old }
    ensures rates { rates.new ≡ rates_after file.now factors.old rates.old }
    ensures call { Call file.now factors.old rates.old }
{
    value(file, factors, rates).into()
}

// The number that a file is refused with; 0 where it is accepted. No buffers are lent, so never 13.
#[unsafe(no_mangle)]
pub extern "C" fn ginghamowl_refusal(file: &[u8]) -> u8
    ensures value { result ≡ refusal file.now }
    ensures call { RefusalCall file.now }
{
    refusal_of(file)
}

// Where the rates are in the file, as `flat::part::rates_place` finds it: n × 120 bytes, or n × 240 of rates of four bytes; 0 and 0
// where the file is refused. Only a refused file has an empty part.
#[unsafe(no_mangle)]
pub extern "C" fn ginghamowl_rates_part(file: &[u8]) -> HostPart
    ensures value { result ≡ host_part file.now }
    ensures part { take result.length (drop result.offset file.now) ≡ rates_part file.now }
    ensures call { PartCall file.now }
{
    rates_place(file)
}

// A point of the window, over the factors that a valuation wrote and the figures that it gave. A money figure
// needs no factor, and a factor only its own two entries.
#[unsafe(no_mangle)]
pub extern "C" fn ginghamowl_window_point(
    point: u64,
    factors: &[u64],
    figures: Figures,
) -> HostPoint
    ensures { result ≡ host_point (window_point point factors.now figures) }
{
    window_point(point, factors, figures).into()
}

// Writes the listing to the front of a lent buffer, and answers its length. A buffer that is too short
// is left alone, and the answer is 0.
#[unsafe(no_mangle)]
pub extern "C" fn ginghamowl_listing(valuation: HostValuation, out: &mut [u8]) -> usize
    ensures value { result ≡ listing_length (valuation_from valuation) (length out.old) }
    ensures text { out.new ≡ listing_after (valuation_from valuation) out.old }
    ensures call { ListingCall (valuation_from valuation) out.old }
{
    write_listing(Valuation::try_from(valuation), out)
}

// Saves a case, as `saving::save` does: writes its shortest file to the front of a lent buffer, and answers its length.
#[unsafe(no_mangle)]
pub extern "C" fn ginghamowl_save(
    fields: CaseFields,
    rates: &[i32],
    pension: &[u64],
    bonds: &[u64],
    out: &mut [u8],
) -> HostSaved
    ensures value { result ≡ host_saved
        (save_answer (given fields rates.now pension.now bonds.now) (length out.old)) }
    ensures buffer { out.new ≡ saved_after (given fields rates.now pension.now bonds.now) out.old }
    ensures call { SaveCall (given fields rates.now pension.now bonds.now) out.old }
{
    let case = GivenCase {
        fields: &fields,
        rates,
        pension,
        bonds,
    };
    save(&case, out).into()
}

// An empty rolling window.
#[unsafe(no_mangle)]
pub extern "C" fn ginghamowl_rolling_empty() -> RollingWindow
    ensures value { result ≡ empty_window }
    ensures holds { Holds result [] }
{
    empty()
}

// The rolling window with a day after the newest, as `rolling::add_day` gives it.
#[unsafe(no_mangle)]
pub extern "C" fn ginghamowl_rolling_add(window: RollingWindow, day: Day) -> ChangedWindow
    ensures value { result ≡ add_day window day.rates }
    ensures call { AddCall window day.rates }
{
    let mut changed = ChangedWindow { refusal: 0, window };
    changed.refusal = number_of(add_day(&mut changed.window, &day));
    changed
}

// The rolling window without its oldest day, as `rolling::drop_day` gives it.
#[unsafe(no_mangle)]
pub extern "C" fn ginghamowl_rolling_drop(window: RollingWindow) -> ChangedWindow
    ensures value { result ≡ drop_day window }
    ensures call { DropCall window }
{
    let mut changed = ChangedWindow { refusal: 0, window };
    changed.refusal = number_of(drop_day(&mut changed.window));
    changed
}

// Values the days of a rolling window with the other fields of a case, as `rolling::valued::value_window` does.
#[unsafe(no_mangle)]
pub extern "C" fn ginghamowl_rolling_value(
    window: RollingWindow,
    fields: CaseFields,
    case_rates: &[i32],
    pension: &[u64],
    bonds: &[u64],
    factors: &mut [u64],
    rates: &mut [i64],
) -> HostValuation
    ensures value { result ≡ host_valuation
        (rolling_valuation window (given fields case_rates.now pension.now bonds.now)
        (length factors.old) (length rates.old)) }
    ensures factors { factors.new ≡ rolling_factors_after window (given fields case_rates.now pension.now bonds.now)
        factors.old rates.old }
    ensures rates { rates.new ≡ rolling_rates_after window (given fields case_rates.now pension.now bonds.now)
        factors.old rates.old }
    ensures call { WindowCall window (given fields case_rates.now pension.now bonds.now) factors.old rates.old }
{
    let case = GivenCase {
        fields: &fields,
        rates: case_rates,
        pension,
        bonds,
    };
    value_window(&window, &case, factors, rates).into()
}

// The UFR that a history of months gives, as `months::ufr::ufr_of` finds it.
#[unsafe(no_mangle)]
pub extern "C" fn ginghamowl_ufr_of(history: &[u8], start: u64) -> HostUfr
    ensures value { result ≡ host_ufr (ufr_answer history.now start) }
    ensures call { UfrCall history.now start }
{
    ufr_of(history, start).into()
}

// Values a case file with the UFR that a history of months gives, as `months::value_with_months` does.
#[unsafe(no_mangle)]
pub extern "C" fn ginghamowl_value_with_months(
    file: &[u8],
    history: &[u8],
    start: u64,
    factors: &mut [u64],
    rates: &mut [i64],
) -> HostValuation
    ensures value { result ≡ host_valuation
        (months_valuation file.now history.now start (length factors.old) (length rates.old)) }
    ensures factors { factors.new ≡ months_factors_after file.now history.now start factors.old rates.old }
    ensures rates { rates.new ≡ months_rates_after file.now history.now start factors.old rates.old }
    ensures call { MonthsCall file.now history.now start factors.old rates.old }
{
    value_with_months(file, history, start, factors, rates).into()
}
