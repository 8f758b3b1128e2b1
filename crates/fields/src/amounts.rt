// The amounts, in whole euros: 0 to 100,000,000,000 each.
#![tactic(auto, using(crate::proofs::Lengths::lengths, crate::proofs::Digits::all_right))]

ghost use Rattle.std.specs.Prelude.{◌≡◌};
ghost use Rattle.refusal.specs.declared.Refusal.TheVariants.{Amount};
ghost use Rattle.model.specs.Fields.{field};
ghost use Rattle.model.specs.Layout.{amounts, amounts_in_order, no_amounts};

use crate::check::check;
use crate::cursor::Cursor;
use crate::field::{Absent, Field};
use crate::numbers::all_at_most;
use crate::writer::Writer;
use model::case;
use refusal::Refusal;

// By name: hosts in C lay amounts out as a struct, and `model` holds definitions and no conversion.
pub fn amounts_in_order(a: &case::Amounts) -> [u64; 8]
    ensures { result ≡ amounts_in_order a.now }
{
    [
        a.mature,
        a.emerging,
        a.private,
        a.property,
        a.commodities,
        a.credit,
        a.cash,
        a.currency,
    ]
}

fn amounts_within(a: &case::Amounts) -> bool
    ensures { result ≡ amounts.right a.now }
{
    all_at_most(&amounts_in_order(a), 100_000_000_000)
}

#[derive(Drop)]
pub struct Amounts;

impl<'a> Field<'a> for Amounts {
    type Read = case::Amounts;

    type Given = case::Amounts;

    type Value = case::Amounts;

    ghost told = { λ _. field Amount amounts };

    ghost is_read = { λ _ _ _ v x. v ≡ x };

    ghost said = { λ v. v };

    fn read(&self, cursor: &mut Cursor<'a>) -> Result<case::Amounts, Refusal> {
        let [
            mature,
            emerging,
            private,
            property,
            commodities,
            credit,
            cash,
            currency,
        ] = cursor.numbers::<8, 8>()?;
        let amounts = case::Amounts {
            mature,
            emerging,
            private,
            property,
            commodities,
            credit,
            cash,
            currency,
        };
        check(amounts_within(&amounts), Refusal::Amount)?;
        Ok(amounts)
    }

    fn check(&self, given: &case::Amounts) -> Result<(), Refusal> {
        check(amounts_within(given), Refusal::Amount)
    }

    fn room_after(&self, _given: &case::Amounts, room: usize) -> Option<usize> {
        room.checked_sub(64)
    }

    fn write(&self, given: &case::Amounts, out: &mut Writer<'_>) {
        out.numbers(8, &amounts_in_order(given));
    }
}

impl<'a> Absent<'a> for Amounts {
    ghost absent = { no_amounts };

    ghost is_absent = { λ v. v ≡ no_amounts };

    fn absent() -> case::Amounts {
        case::Amounts::default()
    }
}
