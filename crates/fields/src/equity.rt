// The correlation between the equity classes, in thousandths.
#![tactic(auto, using(crate::proofs::Lengths::lengths))]

ghost use Rattle.std.specs.Prelude.{◌≡◌};
ghost use Rattle.refusal.specs.declared.Refusal.TheVariants.{Shock};
ghost use Rattle.model.specs.Constants.{default_equity_correlation};
ghost use Rattle.model.specs.Fields.{field};
ghost use Rattle.model.specs.Layout.{equity_correlation};

use crate::check::check;
use crate::cursor::Cursor;
use crate::field::{Absent, Field};
use crate::writer::Writer;
use heldcase::Case;
use refusal::Refusal;

#[derive(Drop)]
pub struct EquityCorrelation;

impl<'a> Absent<'a> for EquityCorrelation {
    ghost absent = { default_equity_correlation };

    ghost is_absent = { λ v. v ≡ default_equity_correlation };

    fn absent() -> u64 {
        Case::DEFAULT_EQUITY_CORRELATION
    }
}

impl<'a> Field<'a> for EquityCorrelation {
    type Read = u64;

    type Given = u64;

    type Value = u64;

    ghost told = { λ _. field Shock equity_correlation };

    ghost is_read = { λ _ _ _ v x. v ≡ x };

    ghost said = { λ v. v };

    fn read(&self, cursor: &mut Cursor<'a>) -> Result<u64, Refusal> {
        let correlation = cursor.number::<2>()?;
        check(correlation <= 1_000, Refusal::Shock)?;
        Ok(correlation)
    }

    fn check(&self, given: &u64) -> Result<(), Refusal> {
        check(*given <= 1_000, Refusal::Shock)
    }

    fn room_after(&self, _given: &u64, room: usize) -> Option<usize> {
        room.checked_sub(2)
    }

    fn write(&self, given: &u64, out: &mut Writer<'_>) {
        out.number(2, *given);
    }
}
