// Reading a whole file: the map, then each field of the layout that it announces, then that nothing follows, then what only the sums show.
ghost use Rattle.std.specs.Prelude.{◌≡◌};
ghost use Rattle.model.specs.Refusals.{refusal};
ghost use Rattle.model.specs.Promises.{RefusalCall, PartCall};
ghost use Rattle.reader.specs.Answers.{Read, ReadExactly, RatesPart, IsFirstOfAll};

use fields::cursor::Cursor;
use fields::field::Field;
use fields::layout::layout;
use fields::map::MapField;
use heldcase::Case;
use model::case::Shocks;
use refusal::Refusal;

// The case of an accepted file, the caller's own bytes that hold its rates, and where in the file these are.
#[derive(Clone, Copy)]
pub struct Reading<'a> {
    pub case: Case,
    pub rates: &'a [u8],
    // For hosts, as in `FileDays`.
    pub rates_at: usize,
}

impl<'a> Reading<'a> {
    fn of(file: &'a [u8]) -> Result<Reading<'a>, Refusal>
        ensures { Read file.entry result }
    {
        let mut cursor = Cursor::new(file);
        let map = MapField.read(&mut cursor)?;
        // No proof was found of `?` on a result whose value holds a slice beside flows.
        let parts = match layout(map).read(&mut cursor) {
            Ok(parts) => parts,
            Err(refusal) => return Err(refusal),
        };
        let (
            (ufr, (short, (pension, (bonds, (amounts, (shocks, people)))))),
            (long, equity_correlation),
        ) = parts;
        cursor.finish()?;
        // A right map announces one of the two days fields.
        let days = short.or(long).unwrap();
        days.summed.forwards_within()?;
        let case = Case {
            ufr,
            per_step: days.summed.per_step,
            sums: days.summed.raised(),
            pension,
            bonds,
            amounts,
            shocks: Shocks {
                equity_correlation,
                ..shocks
            },
            people,
        };
        let rates = days.rates;
        Ok(Reading {
            case,
            rates,
            rates_at: days.rates_at,
        })
    }
}

// The case of a file and its rates, or why it is refused.
pub fn read(file: &[u8]) -> Result<Reading<'_>, Refusal>
    ensures value { Read file.entry result }
    ensures exactly { ReadExactly file.now result }
{
    Reading::of(file)
}

// The number that a file is refused with; 0 where it is accepted, as C is told it.
pub fn refusal_of(file: &[u8]) -> u8
    ensures value { result ≡ refusal file.now }
    ensures call { RefusalCall file.now }
{
    match read(file) {
        Ok(_) => 0,
        Err(refusal) => refusal.number(),
    }
}

// The caller's own bytes that hold the rates; none of them where the file is refused.
pub fn rates_part(file: &[u8]) -> &[u8]
    ensures value { RatesPart file.entry result }
    ensures call { PartCall file.now }
{
    match read(file) {
        Ok(reading) => reading.rates,
        Err(_) => &file[..0],
    }
}

/// The number of a refusal is that of the first check that fails, one check after the other. It does nothing: its contract is this law.
#[tactic(auto, using(crate::proofs::First::first_of_all))]
pub fn refusal_is_the_first()
    ensures { IsFirstOfAll }
{}
