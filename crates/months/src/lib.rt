// The UFR from ten years of months, and the valuation of a case file with it, as a host calls them.
#![tactic(auto)]

pub mod ufr;

ghost use Rattle.std.specs.Prelude.{◌≡◌, length};
ghost use Rattle.monthsmodel.specs.Months.{months_valuation, months_factors_after, months_rates_after};
ghost use Rattle.monthsmodel.specs.Promises.{MonthsCall};

use heldcase::Case;
use model::figures::Valuation;
use reader::file::read;
use refusal::Refusal;
use ufr::ufr_of;
use working::value_into;

/// Values a case file with the UFR that a history gives into two lent buffers, as `engine::value` does a file that has that UFR in its
/// field. A refusal leaves both buffers as they were. Hosts in C lend each by a pointer and a length, so they stay two slices.
pub fn value_with_months(
    file: &[u8],
    history: &[u8],
    start: u64,
    factors: &mut [u64],
    rates: &mut [i64],
) -> Result<Valuation, Refusal>
    ensures value { result ≡ months_valuation file.now history.now start (length factors.old) (length rates.old) }
    ensures factors { factors.new ≡ months_factors_after file.now history.now start factors.old rates.old }
    ensures rates { rates.new ≡ months_rates_after file.now history.now start factors.old rates.old }
    ensures call { MonthsCall file.now history.now start factors.old rates.old }
{
    let factors = factors.first_chunk_mut().ok_or(Refusal::Buffers)?;
    let rates = rates.first_chunk_mut().ok_or(Refusal::Buffers)?;
    // Not by `?`, which gets no proof of a result that holds a case: contracts see its flows as lists.
    let own = match read(file) {
        Ok(reading) => reading.case,
        Err(refusal) => return Err(refusal),
    };
    let ufr = ufr_of(history, start)?;
    let case = Case { ufr, ..own };
    Ok(value_into(&case, factors, rates))
}
