// The people: how many heads, and their ages, in months.
#![tactic(auto, using(crate::proofs::Lengths::lengths))]

ghost use Rattle.std.specs.Prelude.{◌≡◌};
ghost use Rattle.refusal.specs.declared.Refusal.TheVariants as refused;
ghost use Rattle.model.specs.Fields.{field};
ghost use Rattle.model.specs.Layout.{people};

use crate::check::check;
use crate::cursor::Cursor;
use crate::field::Field;
use crate::writer::Writer;
use model::case;
use refusal::Refusal;

// 1 to 1,000,000 heads, and ages of 0 to 1,200 months.
pub fn people_within(p: &case::People) -> bool
    ensures { result ≡ people.right p.now }
{
    (1..=1_000_000).contains(&p.heads) && p.pension_age <= 1_200 && p.mean_age <= 1_200
}

#[derive(Drop)]
pub struct People;

impl<'a> Field<'a> for People {
    type Read = case::People;

    type Given = case::People;

    type Value = case::People;

    ghost told = { λ _. field refused.People people };

    ghost is_read = { λ _ _ _ v x. v ≡ x };

    ghost said = { λ v. v };

    fn read(&self, cursor: &mut Cursor<'a>) -> Result<case::People, Refusal> {
        let people = case::People {
            heads: cursor.number::<4>()?,
            pension_age: cursor.number::<2>()?,
            mean_age: cursor.number::<2>()?,
        };
        check(people_within(&people), Refusal::People)?;
        Ok(people)
    }

    fn check(&self, given: &case::People) -> Result<(), Refusal> {
        check(people_within(given), Refusal::People)
    }

    fn room_after(&self, _given: &case::People, room: usize) -> Option<usize> {
        room.checked_sub(8)
    }

    fn write(&self, given: &case::People, out: &mut Writer<'_>) {
        out.number(4, given.heads);
        out.number(2, given.pension_age);
        out.number(2, given.mean_age);
    }
}
