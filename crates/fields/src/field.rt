// What a field of a case file is: how it is read, what is checked of it, how many bytes it takes and how it is written. It is told once, as
// a value that both reading a file and saving a case go over: a field of its own, a field that need not be there, or one field and then
// more.
ghost use Rattle.std.specs.Prelude.{◌≡◌, ◌+◌, ◌-◌, ◌≤◌, ℕ, List, length, None};
ghost use Rattle.std.specs.Option.{SomeIff};
ghost use Rattle.std.specs.Result.{result_err};
ghost use Rattle.std.specs.Borrow.{Bor};
ghost use Rattle.std.proofs.lemmas.List.Edits.{sets};
ghost use Rattle.model.specs.Fields.{Field as FieldOf, optional, ◌then◌};
ghost use Rattle.model.specs.Refusals.{failing};
ghost use Rattle.fields.specs.Reading.{Reads, IfThere};
ghost use Rattle.fields.specs.Wrote.{Wrote};

use crate::cursor::Cursor;
use crate::writer::Writer;
use refusal::Refusal;

pub trait Field<'a> {
    // What a file gives.
    type Read: Drop;

    // What a host hands in.
    type Given;

    // What the definitions have of both. No code has a value of it.
    type Value;

    ghost told: { Self → FieldOf Self.Value };

    // What a file gives, where it is in a file, holds a value.
    ghost is_read: { Self → Bor (List ℕ) → ℕ → Self.Read → Self.Value → Type 0 };

    ghost said: { Self.Given → Self.Value };

    fn read(&self, cursor: &mut Cursor<'a>) -> Result<Self::Read, Refusal>
        ensures { Reads (told self.now) (is_read self.now cursor.old.file cursor.old.at) cursor.old cursor.new result };

    // The first of its limits that is passed.
    fn check(&self, given: &Self::Given) -> Result<(), Refusal>
        ensures { result_err result ≡ failing ((told self.now).limits (said given.now)) };

    // The room that its bytes leave, if they fit.
    fn room_after(&self, given: &Self::Given, room: usize) -> Option<usize>
        requires { failing ((told self.now).limits (said given.now)) ≡ None }
        ensures { let long = length ((told self.now).bytes (said given.now)) in SomeIff result (long ≤ room) (room - long) };

    fn write(&self, given: &Self::Given, out: &mut Writer<'_>)
        requires right { failing ((told self.now).limits (said given.now)) ≡ None }
        requires room { out.old.at + length ((told self.now).bytes (said given.now)) ≤ length out.old.out.now }
        ensures { Wrote out.old ((told self.now).bytes (said given.now)) out.new };
}

// A field that a file need not have: what a case has without it.
pub trait Absent<'a>: Field<'a> {
    ghost absent: { Self.Value };

    ghost is_absent: { Self.Read → Type 0 };

    fn absent() -> Self::Read
        ensures { is_absent result };
}

// A field that is there or is not.
#[derive(Drop)]
pub struct Optional<F> {
    pub there: bool,
    pub field: F,
}

impl<'a, F: Absent<'a>> Field<'a> for Optional<F> {
    type Read = F::Read;

    type Given = F::Given;

    type Value = F::Value;

    ghost told = { λ s. optional s.there F.absent (F.told s.field) };

    ghost is_read = { λ s file at v x. IfThere s.there (F.is_read s.field file at v x) (F.is_absent v × (x ≡ F.absent)) };

    ghost said = { F.said };

    fn read(&self, cursor: &mut Cursor<'a>) -> Result<F::Read, Refusal> {
        if self.there {
            self.field.read(cursor)
        } else {
            Ok(F::absent())
        }
    }

    fn check(&self, given: &F::Given) -> Result<(), Refusal> {
        if self.there {
            self.field.check(given)
        } else {
            Ok(())
        }
    }

    fn room_after(&self, given: &F::Given, room: usize) -> Option<usize> {
        if self.there {
            self.field.room_after(given, room)
        } else {
            Some(room)
        }
    }

    fn write(&self, given: &F::Given, out: &mut Writer<'_>) {
        if self.there {
            self.field.write(given, out);
        }
    }
}

// One field and then another.
#[derive(Drop)]
pub struct Then<A, B>(pub A, pub B);

impl<'a, A: Field<'a>, B: Field<'a>> Field<'a> for Then<A, B> {
    type Read = (A::Read, B::Read);

    type Given = (A::Given, B::Given);

    type Value = (A::Value, B::Value);

    ghost told = { λ s. A.told s.0 then B.told s.1 };

    ghost is_read = { λ s file at v x.
        A.is_read s.0 file at v.0 x.0 × B.is_read s.1 file ((A.told s.0).end file.now at) v.1 x.1 };

    ghost said = { λ g. (A.said g.0, B.said g.1) };

    fn read(&self, cursor: &mut Cursor<'a>) -> Result<(A::Read, B::Read), Refusal> {
        let first = self.0.read(cursor)?;
        let second = self.1.read(cursor)?;
        Ok((first, second))
    }

    fn check(&self, given: &(A::Given, B::Given)) -> Result<(), Refusal> {
        self.0.check(&given.0)?;
        self.1.check(&given.1)
    }

    fn room_after(&self, given: &(A::Given, B::Given), room: usize) -> Option<usize> {
        let room = self.0.room_after(&given.0, room)?;
        self.1.room_after(&given.1, room)
    }

    fn write(&self, given: &(A::Given, B::Given), out: &mut Writer<'_>) {
        self.0.write(&given.0, out);
        self.1.write(&given.1, out);
    }
}

// Writes what is given of some fields to the front of a lent buffer that has room for it.
pub fn write_front<'a, F: Field<'a>>(fields: &F, given: &F::Given, out: &mut [u8])
    requires right { failing ((F.told fields.now).limits (F.said given.now)) ≡ None }
    requires room { length ((F.told fields.now).bytes (F.said given.now)) ≤ length out.old }
    ensures { out.new ≡ sets out.old 0 ((F.told fields.now).bytes (F.said given.now)) }
{
    fields.write(given, &mut Writer::new(out));
}
