// A cursor over the caller's bytes: the file's slice, and an offset in it.
ghost use Rattle.std.specs.Prelude.{◌≡◌, [], ◌∷◌, ◌+◌, ◌*◌, ◌^◌, ◌<◌, ◌≤◌, leb, get_or, length};

use crate::check::check;
use crate::numbers::{big_endian, big_endian_all};
use refusal::Refusal;

#[derive(Drop)]
pub struct Cursor<'a> {
    pub file: &'a [u8],
    pub at: usize,
    ghost inside: { at ≤ length file.now },
}

impl<'a> Cursor<'a> {
    ghost use Rattle.model.specs.Numbers.{number};
    ghost use Rattle.model.specs.Fields.{reaches, number_of, value_all};
    ghost use Rattle.fields.specs.Checks.{Checked, count_checks};
    ghost use Rattle.refusal.specs.declared.Refusal.TheVariants.{EndsEarly, BytesFollow};
    ghost use Rattle.fields.specs.Reading.{Moved, IsPart};

    pub fn new(file: &'a [u8]) -> Cursor<'a>
        ensures { (result.file ≡ file.entry) × (result.at ≡ 0) }
    {
        Cursor { file, at: 0 }
    }

    // The next bytes, if the file has this many.
    pub fn take(&mut self, count: usize) -> Result<&'a [u8], Refusal>
        ensures { Checked ((reaches self.old.file.now (self.old.at + count), EndsEarly) ∷ [])
            (λ part. IsPart self.old.file part self.old.at count × Moved self.old self.new (self.old.at + count)) result }
    {
        let file = self.file;
        let at = self.at;
        if file.len() - at < count {
            return Err(Refusal::EndsEarly);
        }
        self.at = at + count;
        Ok(&file[at..at + count])
    }

    // The next number, if the file has its bytes.
    pub fn number<const W: usize>(&mut self) -> Result<u64, Refusal>
        requires { W ≤ 8 }
        ensures { Checked ((reaches self.old.file.now (self.old.at + W), EndsEarly) ∷ [])
            (λ v. (v ≡ number self.old.file.now self.old.at W) × (v < 256 ^ W) × Moved self.old self.new (self.old.at + W)) result }
    {
        Ok(big_endian(self.take(W)?))
    }

    // The next numbers, if the file has the bytes of all of them.
    pub fn numbers<const W: usize, const N: usize>(&mut self) -> Result<[u64; N], Refusal>
        requires { (1 ≤ W) × (W ≤ 8) × (W * N < 2 ^ 64) }
        ensures { Checked ((reaches self.old.file.now (self.old.at + W * N), EndsEarly) ∷ [])
            (λ vs. (vs ≡ value_all (number_of W 0 0) self.old.file.now self.old.at N) × Moved self.old self.new (self.old.at + W * N)) result }
    {
        Ok(big_endian_all::<W, N>(self.take(W * N)?))
    }

    // A count byte of 1 to `most`, and the bytes of as many values: their number, and these bytes.
    pub fn counted(
        &mut self,
        most: usize,
        size: usize,
        refusal: Refusal,
    ) -> Result<(usize, &'a [u8]), Refusal>
        requires { size ≤ 240 }
        ensures { let count = get_or self.old.file.now self.old.at 0 in
            Checked (count_checks most refusal size self.old.file.now self.old.at)
            (λ v. (v.0 ≡ count) × (1 ≤ v.0) × (v.0 ≤ most) × IsPart self.old.file v.1 (self.old.at + 1) (size * v.0)
            × Moved self.old self.new (self.old.at + 1 + size * count)) result }
    {
        let count = self.number::<1>()? as usize;
        check((1..=most).contains(&count), refusal)?;
        Ok((count, self.take(size * count)?))
    }

    // Nothing may follow.
    pub fn finish(&self) -> Result<(), Refusal>
        ensures { Checked ((leb (length self.now.file.now) self.now.at, BytesFollow) ∷ []) (λ _. Unit {0}) result }
    {
        check(self.file.len() <= self.at, Refusal::BytesFollow)
    }
}
