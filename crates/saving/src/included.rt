// The shortest form of a case: which optional fields it has, and its map.
ghost use Rattle.std.specs.Prelude.{◌≡◌, nat_eq};
ghost use Rattle.std.specs.List.{list_all};
ghost use Rattle.model.specs.Layout.{map_of};
ghost use Rattle.savingmodel.specs.Saving.{needed};
ghost use Rattle.saving.specs.Present.{present_of};
ghost use Rattle.saving.specs.Said.{said};

use crate::given::GivenCase;
use fields::amounts::amounts_in_order;
use heldcase::Case;

// Which of the optional fields are written: the four answers of the definition's `Present`, from which both the map and the fields follow.
#[derive(Clone, Copy)]
pub struct Included {
    pub ufr: bool,
    pub bonds: bool,
    pub amounts: bool,
    pub equity: bool,
}

fn all_zero(numbers: &[u64]) -> bool
    ensures { result ≡ list_all (λ number. nat_eq number 0) numbers.now }
{
    numbers.iter().all(|number| *number == 0)
}

pub fn needed(case: &GivenCase) -> Included
    ensures { present_of result ≡ needed (said case.now) }
{
    Included {
        ufr: case.fields.ufr != Case::DEFAULT_UFR,
        bonds: !case.bonds.is_empty(),
        amounts: !all_zero(&amounts_in_order(&case.fields.amounts)),
        equity: case.fields.shocks.equity_correlation != Case::DEFAULT_EQUITY_CORRELATION,
    }
}

// Bits 2, 5 and 6, which are always set, that of the days field, which a host tells by its bytes, and those of the optional fields.
pub fn map_of(rate_bytes: u64, p: Included) -> u16
    ensures { result ≡ map_of rate_bytes (present_of p) }
{
    100 + u16::from(p.ufr)
        + 2 * u16::from(rate_bytes == 2)
        + 8 * u16::from(p.bonds)
        + 16 * u16::from(p.amounts)
        + 128 * u16::from(rate_bytes == 4)
        + 256 * u16::from(p.equity)
}
