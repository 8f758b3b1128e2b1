// A case as a host hands it in: the file that it makes, and its checks.
ghost use Rattle.std.specs.Prelude.{◌≡◌, cond, if◌then◌else◌, nat_eq, [], IfOk, None};
ghost use Rattle.std.specs.Result.{result_err};
ghost use Rattle.model.specs.Case.{known_form};
ghost use Rattle.model.specs.Layout.{parts_of as fields_in};
ghost use Rattle.model.specs.Refusals.{failing};
ghost use Rattle.fields.specs.Sums.{days_checks};
ghost use Rattle.saving.specs.Said.{said};
ghost use Rattle.savingmodel.specs.Saving.{case_checks, shortest};

use crate::given::GivenCase;
use crate::included::{map_of, needed};
use fields::check::check;
use fields::field::{Field, Then};
use fields::given_days::GivenDays;
use fields::layout::{Layout, layout};
use fields::map::{Map, MapField};
use refusal::Refusal;

// What a host hands in, field by field.
pub type Parts<'a> = <Layout as Field<'a>>::Given;

pub type Fields = Then<MapField, Layout>;

// The file that a case makes: its map and the fields that it announces, and what is written of each.
#[derive(Drop)]
pub struct File<'a> {
    pub fields: Fields,
    pub given: (Map, Parts<'a>),
}

// Whether rates of this many bytes have a days field.
fn is_form(rate_bytes: u64) -> bool
    ensures { result ≡ known_form rate_bytes }
{
    matches!(rate_bytes, 2 | 4)
}

// A list, or an empty one.
fn list_if(there: bool, rates: &[i32]) -> &[i32]
    ensures { result.now ≡ cond there rates.now [] }
{
    if there { rates } else { &[] }
}

// The fields of a case in the order of the layout. Its days are in the field of their form, and the other has none.
fn parts_of<'a>(case: &GivenCase<'a>) -> Parts<'a>
    ensures { ⟦<Layout as Field<'static>>⟧.said result ≡ fields_in (said case.now) }
{
    let f = case.fields;
    let short = GivenDays::of(list_if(f.rate_bytes == 2, case.rates));
    let long = GivenDays::of(list_if(f.rate_bytes == 4, case.rates));
    (
        (
            f.ufr,
            (
                short,
                (
                    case.pension,
                    (case.bonds, (f.amounts, (f.shocks, f.people))),
                ),
            ),
        ),
        (long, f.shocks.equity_correlation),
    )
}

// The limits of the days and of their forward rates, of days of the form that the case has.
fn forwards_of(rate_bytes: u64, parts: &Parts<'_>) -> Result<(), Refusal>
    ensures { result_err result ≡ (if nat_eq rate_bytes 2 then failing (days_checks 2 parts.now.0.1.0.held.now) else failing (days_checks 4 parts.now.1.0.held.now)) }
{
    if rate_bytes == 2 {
        parts.0.1.0.forwards
    } else {
        parts.1.0.forwards
    }
}

// The shortest file of a case, or the first of its checks that fails: `WrongFields` where a rate has neither 2 nor 4 bytes, then each
// field's limits in bit order, then `Forward`.
pub fn checked_file<'a>(case: &GivenCase<'a>) -> Result<File<'a>, Refusal>
    ensures refusal { result_err result ≡ failing (case_checks (said case.now)) }
    ensures bytes { IfOk result (λ file. (⟦<Fields as Field<'static>>⟧.told file.fields).bytes (⟦<Fields as Field<'static>>⟧.said file.given) ≡ shortest (said case.now)) }
    ensures limits { IfOk result (λ file. failing ((⟦<Fields as Field<'static>>⟧.told file.fields).limits (⟦<Fields as Field<'static>>⟧.said file.given)) ≡ None) }
{
    let rate_bytes = case.fields.rate_bytes;
    check(is_form(rate_bytes), Refusal::WrongFields)?;
    let map = Map {
        bits: map_of(rate_bytes, needed(case)),
    };
    let parts = parts_of(case);
    let announced = layout(map);
    announced.check(&parts)?;
    forwards_of(rate_bytes, &parts)?;
    Ok(File {
        fields: Then(MapField, announced),
        given: (map, parts),
    })
}
