// The UFR, in rate steps.
#![tactic(auto, using(crate::proofs::Lengths::lengths))]

ghost use Rattle.std.specs.Prelude.{◌≡◌};
ghost use Rattle.refusal.specs.declared.Refusal.TheVariants as refused;
ghost use Rattle.model.specs.Constants.{default_ufr};
ghost use Rattle.model.specs.Fields.{field, number_of};

use crate::check::check;
use crate::cursor::Cursor;
use crate::field::{Absent, Field};
use crate::writer::Writer;
use heldcase::Case;
use refusal::Refusal;

#[derive(Drop)]
pub struct Ufr;

impl<'a> Absent<'a> for Ufr {
    ghost absent = { default_ufr };

    ghost is_absent = { λ v. v ≡ default_ufr };

    fn absent() -> u64 {
        Case::DEFAULT_UFR
    }
}

impl<'a> Field<'a> for Ufr {
    type Read = u64;

    type Given = u64;

    type Value = u64;

    ghost told = { λ _. field refused.Ufr (number_of 2 0 5000) };

    ghost is_read = { λ _ _ _ v x. v ≡ x };

    ghost said = { λ v. v };

    fn read(&self, cursor: &mut Cursor<'a>) -> Result<u64, Refusal> {
        let ufr = cursor.number::<2>()?;
        check(ufr <= 5_000, Refusal::Ufr)?;
        Ok(ufr)
    }

    fn check(&self, given: &u64) -> Result<(), Refusal> {
        check(*given <= 5_000, Refusal::Ufr)
    }

    fn room_after(&self, _given: &u64, room: usize) -> Option<usize> {
        room.checked_sub(2)
    }

    fn write(&self, given: &u64, out: &mut Writer<'_>) {
        out.number(2, *given);
    }
}
