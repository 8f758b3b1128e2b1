// The shocks, the credit spread and the credit duration. The correlation between the equity classes, which the struct has too, is a field of
// its own.
#![tactic(auto, using(crate::proofs::Lengths::lengths, crate::proofs::Digits::all_right))]

ghost use Rattle.std.specs.Prelude.{◌≡◌};
ghost use Rattle.refusal.specs.declared.Refusal.TheVariants.{Shock};
ghost use Rattle.model.specs.Constants.{default_equity_correlation};
ghost use Rattle.model.specs.Fields.{field};
ghost use Rattle.model.specs.Layout.{shocks, shocks_from, shocks_in_order};

use crate::check::check;
use crate::cursor::Cursor;
use crate::field::Field;
use crate::numbers::all_at_most;
use crate::writer::Writer;
use heldcase::Case;
use model::case;
use refusal::Refusal;

// By name, as the amounts: the ten of one limit, which is all but the credit spread and the credit duration.
pub fn shocks_in_order(x: &case::Shocks) -> [u64; 10]
    ensures { result ≡ (shocks_in_order x.now).0 }
{
    [
        x.up_shift,
        x.down_shift,
        x.mature_fall,
        x.emerging_fall,
        x.private_fall,
        x.property_fall,
        x.currency_fall,
        x.commodities_fall,
        x.spread_rise,
        x.correlation,
    ]
}

// Ten shocks of 0 to 1,000, a credit spread of 0 to 10,000 and a credit duration of 0 to 500.
fn shocks_within(x: &case::Shocks) -> bool
    ensures { result ≡ shocks.right (shocks_in_order x.now) }
{
    all_at_most(&shocks_in_order(x), 1_000) && x.spread <= 10_000 && x.duration <= 500
}

#[derive(Drop)]
pub struct Shocks;

impl<'a> Field<'a> for Shocks {
    type Read = case::Shocks;

    type Given = case::Shocks;

    type Value = ([u64; 10], (u64, u64));

    ghost told = { λ _. field Shock shocks };

    ghost is_read = { λ _ _ _ v x. v ≡ shocks_from x default_equity_correlation };

    ghost said = { shocks_in_order };

    // With the correlation between the equity classes of a file without that field.
    fn read(&self, cursor: &mut Cursor<'a>) -> Result<case::Shocks, Refusal> {
        let [
            up_shift,
            down_shift,
            mature_fall,
            emerging_fall,
            private_fall,
            property_fall,
            currency_fall,
            commodities_fall,
            spread_rise,
            correlation,
            spread,
            duration,
        ] = cursor.numbers::<2, 12>()?;
        let shocks = case::Shocks {
            up_shift,
            down_shift,
            mature_fall,
            emerging_fall,
            private_fall,
            property_fall,
            currency_fall,
            commodities_fall,
            spread_rise,
            correlation,
            spread,
            duration,
            equity_correlation: Case::DEFAULT_EQUITY_CORRELATION,
        };
        check(shocks_within(&shocks), Refusal::Shock)?;
        Ok(shocks)
    }

    fn check(&self, given: &case::Shocks) -> Result<(), Refusal> {
        check(shocks_within(given), Refusal::Shock)
    }

    fn room_after(&self, _given: &case::Shocks, room: usize) -> Option<usize> {
        room.checked_sub(24)
    }

    fn write(&self, given: &case::Shocks, out: &mut Writer<'_>) {
        out.numbers(2, &shocks_in_order(given));
        out.number(2, given.spread);
        out.number(2, given.duration);
    }
}
