// The map: which fields a file has, as it says.
#![tactic(auto, using(crate::proofs::Lengths::lengths))]

ghost use Rattle.std.specs.Prelude.{◌≡◌, ◌<◌};
ghost use Rattle.model.specs.Layout.{stands};
ghost use Rattle.model.specs.Refusals.{bits_right};
ghost use Rattle.fields.specs.MapField.{map_field};

use crate::check::check;
use crate::cursor::Cursor;
use crate::field::Field;
use crate::writer::Writer;
use refusal::Refusal;

// The map of a case that is saved is made.
#[derive(Clone, Copy)]
pub struct Map {
    pub bits: u16,
}

impl Map {
    // Whether a bit is set; bit 0 is the lowest.
    pub fn stands(self, bit: u32) -> bool
        requires { bit < 16 }
        ensures { result ≡ stands bit self.bits }
    {
        (self.bits >> bit) % 2 == 1
    }

    // One of the bits 1 and 7 is set, of the two days fields; bits 2, 5 and 6 are set, and none above bit 8.
    #[tactic(auto, using(crate::proofs::Bits::bits_above))]
    fn is_right(self) -> bool
        ensures { result ≡ bits_right self.bits }
    {
        self.stands(1) != self.stands(7)
            && self.stands(2)
            && self.stands(5)
            && self.stands(6)
            && self.bits < 512
    }
}

#[derive(Drop)]
pub struct MapField;

impl<'a> Field<'a> for MapField {
    type Read = Map;

    type Given = Map;

    type Value = u16;

    ghost told = { λ _. map_field };

    ghost is_read = { λ _ _ _ v x. v.bits ≡ x };

    ghost said = { λ v. v.bits };

    fn read(&self, cursor: &mut Cursor<'a>) -> Result<Map, Refusal> {
        let map = Map {
            bits: cursor.number::<2>()? as u16,
        };
        check(map.is_right(), Refusal::WrongFields)?;
        Ok(map)
    }

    fn check(&self, given: &Map) -> Result<(), Refusal> {
        check(given.is_right(), Refusal::WrongFields)
    }

    fn room_after(&self, _given: &Map, room: usize) -> Option<usize> {
        room.checked_sub(2)
    }

    fn write(&self, given: &Map, out: &mut Writer<'_>) {
        out.number(2, u64::from(given.bits));
    }
}
