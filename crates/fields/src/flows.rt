// Flows of pensions or bonds, in whole euros: a count of one byte, 1 to `MOST`, and then as many flows, 0 to 100,000,000 each.
#![tactic(auto, using(crate::proofs::Lengths::lengths, crate::proofs::Digits::all_right))]

ghost use Rattle.std.specs.Prelude.{◌≡◌, ◌≤◌, ◌*◌, ◌/◌, [], ◌∷◌, length};
ghost use Rattle.refusal.specs.declared.Refusal.TheVariants.{FlowCount, Flow};
ghost use Rattle.model.specs.Fields.{counted, value_all, right_all};
ghost use Rattle.model.specs.Layout.{flow};
ghost use Rattle.fields.specs.Checks.{Checked};

use crate::check::check;
use crate::cursor::Cursor;
use crate::field::{Absent, Field};
use crate::numbers::{all_at_most, big_endian};
use crate::writer::Writer;
use heldcase::flows;
use refusal::Refusal;

fn flows_within(flows: &[u64]) -> bool
    ensures { result ≡ right_all flow flows.now }
{
    all_at_most(flows, 100_000_000)
}

// The flows that these bytes are, if each is within its limit.
fn flows_in<const MOST: usize>(bytes: &[u8]) -> Result<flows::Flows<MOST>, Refusal>
    requires { length bytes.now ≤ 4 * MOST }
    ensures { let flows = value_all flow bytes.now 0 (length bytes.now / 4) in
        Checked ((right_all flow flows, Flow) ∷ []) (λ v. v ≡ flows) result }
{
    let (chunks, _) = bytes.as_chunks::<4>();
    let mut flows = flows::Flows::default();
    for chunk in chunks {
        let flow = big_endian(chunk);
        check(flow <= 100_000_000, Refusal::Flow)?;
        flows.push(flow);
    }
    Ok(flows)
}

// Those that are given are lent: those of a case that was read own their numbers, since a file has them as bytes.
#[derive(Drop)]
pub struct Flows<const MOST: usize>;

impl<'a, const MOST: usize> Field<'a> for Flows<MOST> {
    type Read = flows::Flows<MOST>;

    type Given = &'a [u64];

    type Value = [u64; MOST];

    ghost told = { λ _. counted MOST FlowCount Flow flow };

    ghost is_read = { λ _ _ _ v x. v ≡ x };

    ghost said = { λ v. v.now };

    fn read(&self, cursor: &mut Cursor<'a>) -> Result<flows::Flows<MOST>, Refusal> {
        let (_, bytes) = cursor.counted(MOST, 4, Refusal::FlowCount)?;
        flows_in(bytes)
    }

    fn check(&self, given: &&'a [u64]) -> Result<(), Refusal> {
        let count = given.len();
        check((1..=MOST).contains(&count), Refusal::FlowCount)?;
        check(flows_within(given), Refusal::Flow)
    }

    fn room_after(&self, given: &&'a [u64], room: usize) -> Option<usize> {
        room.checked_sub(1 + 4 * given.len())
    }

    fn write(&self, given: &&'a [u64], out: &mut Writer<'_>) {
        out.number(1, given.len() as u64);
        out.numbers(4, given);
    }
}

impl<'a, const MOST: usize> Absent<'a> for Flows<MOST> {
    ghost absent = { [] };

    ghost is_absent = { λ v. v ≡ [] };

    fn absent() -> flows::Flows<MOST>
        ensures { result ≡ [] }
    {
        flows::Flows::default()
    }
}
