// A case written back in its shortest form.
#![tactic(auto)]

pub mod case;
pub mod given;
pub mod included;

ghost use Rattle.std.specs.Prelude.{◌≡◌, length};
ghost use Rattle.savingmodel.specs.Promises.{SaveCall};
ghost use Rattle.savingmodel.specs.Saving.{save_answer, saved_after};
ghost use Rattle.saving.specs.Said.{said};

use case::checked_file;
use fields::field::{Field, write_front};
use given::GivenCase;
use refusal::Refusal;

// Writes the shortest file of a case to the front of a lent buffer, and answers its length. A refusal writes no byte: the case is checked,
// and the room, before the first is written.
pub fn save(case: &GivenCase, out: &mut [u8]) -> Result<usize, Refusal>
    ensures value { result ≡ save_answer (said case.now) (length out.old) }
    ensures buffer { out.new ≡ saved_after (said case.now) out.old }
    ensures call { SaveCall (said case.now) out.old }
{
    let file = checked_file(case)?;
    let left = file
        .fields
        .room_after(&file.given, out.len())
        .ok_or(Refusal::Room)?;
    let length = out.len() - left;
    write_front(&file.fields, &file.given, out);
    Ok(length)
}
