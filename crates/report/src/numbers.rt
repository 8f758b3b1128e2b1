// The numbers by which an office knows its case again.
ghost use Rattle.std.specs.Prelude.{◌≡◌, ◌≤◌, ◌/◌, All, cond, get_or, length, sum};
ghost use Rattle.model.specs.Case.{units_per_step, all_except_currency};
ghost use Rattle.model.specs.Layout.{case_of, stands, rate_bytes_in, file_map};
ghost use Rattle.model.specs.Limits.{WithinLimits, AmountsWithin};
ghost use Rattle.heldcase.specs.Held.{held};
ghost use Rattle.model.specs.Refusals.{failing, checks};
ghost use Rattle.report.specs.Numbered.{own_numbers, numbers_if, numbers_with};
ghost use Rattle.report.specs.declared.numbers.UfrSource.TheVariants as source;

use crate::input::History;
use heldcase::Case;
use model::case::Amounts;
use months::ufr::ufr_of;
use reader::file::read;

/// Where the UFR comes from.
#[derive(Clone, Copy)]
pub enum UfrSource {
    History,
    Default,
    File,
}

/// Of a valued case: the UFR in rate steps and where it comes from, how many bytes a rate has in the file, the number of days, and the number
/// of flows and the sums of flows and of assets, in euros. The currency exposure is no asset.
#[derive(Clone, Copy)]
pub struct Numbers {
    pub ufr: u64,
    pub ufr_source: UfrSource,
    pub rate_bytes: u64,
    pub days: u64,
    pub pension_flows: usize,
    pub pension_sum: u64,
    pub bond_flows: usize,
    pub bond_sum: u64,
    pub assets_sum: u64,
}

// The low byte of the map; 0 of a file that has none.
fn low_byte(file: &[u8]) -> u8
    ensures { result ≡ get_or file.now 1 0 }
{
    match file {
        [_, low, ..] => *low,
        _ => 0,
    }
}

// Whether a file has a UFR of its own: bit 0 of its map.
fn has_ufr(file: &[u8]) -> bool
    ensures { result ≡ stands 0 (file_map file.now) }
{
    low_byte(file) % 2 == 1
}

// Where it comes from, if no history gives it.
fn ufr_source_of(file: &[u8]) -> UfrSource
    ensures { result ≡ cond (stands 0 (file_map file.now)) source.File source.Default }
{
    if has_ufr(file) {
        UfrSource::File
    } else {
        UfrSource::Default
    }
}

// Whether its rates have four bytes: bit 7 of its map.
fn has_long_rates(file: &[u8]) -> bool
    ensures { result ≡ stands 7 (file_map file.now) }
{
    low_byte(file) >= 128
}

fn rate_bytes_of(file: &[u8]) -> u64
    ensures { result ≡ rate_bytes_in (file_map file.now) }
{
    if has_long_rates(file) { 4 } else { 2 }
}

// The number of days, by what one rate step adds to a sum over them.
fn days_of(per_step: u64, rate_bytes: u64) -> u64
    ensures { result ≡ per_step / units_per_step rate_bytes }
{
    if rate_bytes == 4 {
        per_step / 100
    } else {
        per_step
    }
}

// The sum of flows.
fn sum_of(flows: &[u64]) -> u64
    requires { (length flows.now ≤ 120) × All (λ flow. flow ≤ 100000000) flows.now }
    ensures { result ≡ sum flows.now }
{
    let mut total = 0;
    for flow in flows {
        total += flow;
    }
    total
}

fn assets_of(amounts: &Amounts) -> u64
    requires { AmountsWithin amounts.now }
    ensures { result ≡ all_except_currency amounts.now }
{
    amounts.mature
        + amounts.emerging
        + amounts.private
        + amounts.property
        + amounts.commodities
        + amounts.credit
        + amounts.cash
}

// The numbers of an accepted file, with its own UFR.
fn numbers_in(file: &[u8], case: &Case) -> Numbers
    requires { (case.now ≡ held (case_of file.now)) × WithinLimits (case_of file.now) }
    ensures { result ≡ own_numbers file.now }
{
    let pension = case.pension.as_slice();
    let bonds = case.bonds.as_slice();
    let rate_bytes = rate_bytes_of(file);
    Numbers {
        ufr: case.ufr,
        ufr_source: ufr_source_of(file),
        rate_bytes,
        days: days_of(case.per_step, rate_bytes),
        pension_flows: pension.len(),
        pension_sum: sum_of(pension),
        bond_flows: bonds.len(),
        bond_sum: sum_of(bonds),
        assets_sum: assets_of(&case.amounts),
    }
}

// The same, none of a refused file.
fn read_numbers(file: &[u8]) -> Option<Numbers>
    ensures { result ≡ numbers_if (failing (checks file.now)) file.now }
{
    match read(file) {
        Ok(reading) => Some(numbers_in(file, &reading.case)),
        Err(_) => None,
    }
}

/// The numbers of a file, with its own UFR or with that of a history; none where the file or the history is refused.
pub fn numbers_of(file: &[u8], history: Option<History<'_>>) -> Option<Numbers>
    ensures { result ≡ numbers_with history.entry file.now }
{
    let own = read_numbers(file)?;
    let Some(months) = history else {
        return Some(own);
    };
    let ufr = ufr_of(months.bytes, months.start).ok()?;
    Some(Numbers {
        ufr,
        ufr_source: UfrSource::History,
        ..own
    })
}
