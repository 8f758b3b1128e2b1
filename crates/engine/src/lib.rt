// The valuation of one case file, as a host calls it.
#![tactic(auto)]

ghost use Rattle.std.specs.Prelude.{◌≡◌, length};
ghost use Rattle.method.specs.Buffers.{answered, valuation_of, factors_after, rates_after};
ghost use Rattle.model.specs.Layout.{case_of};
ghost use Rattle.model.specs.Refusals.{failing, checks};
ghost use Rattle.method.specs.Promises.{Call, FiguresCall};

use model::figures::Valuation;
use reader::file::read;
use refusal::Refusal;
use working::{money_of, value_into};

/// Values a case file into two lent buffers, for factors and for zero rates, lower and upper, term by term. A buffer of fewer than
/// 240 entries is `Buffers`, ahead of all; a refused file has its own refusal. A refusal leaves both buffers as they were. Hosts in C lend
/// each by a pointer and a length, so they stay two slices.
pub fn value(file: &[u8], factors: &mut [u64], rates: &mut [i64]) -> Result<Valuation, Refusal>
    ensures value { result ≡ valuation_of (length factors.old) (length rates.old) file.now }
    ensures factors { factors.new ≡ factors_after file.now factors.old rates.old }
    ensures rates { rates.new ≡ rates_after file.now factors.old rates.old }
    ensures call { Call file.now factors.old rates.old }
{
    let factors = factors.first_chunk_mut().ok_or(Refusal::Buffers)?;
    let rates = rates.first_chunk_mut().ok_or(Refusal::Buffers)?;
    // Not by `?`, which gets no proof of a result that holds a case: contracts see its flows as lists.
    match read(file) {
        Ok(reading) => Ok(value_into(&reading.case, factors, rates)),
        Err(refusal) => Err(refusal),
    }
}

/// The figures and the verdict of a case file, or its refusal: no buffer is lent and no zero rate is worked out.
pub fn figures_of(file: &[u8]) -> Result<Valuation, Refusal>
    ensures value { result ≡ answered (failing (checks file.now)) (case_of file.now) }
    ensures call { FiguresCall file.now }
{
    // Not by `?`, as above.
    match read(file) {
        Ok(reading) => Ok(money_of(&reading.case)),
        Err(why) => Err(why),
    }
}
