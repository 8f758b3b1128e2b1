// One check of a file.
ghost use Rattle.std.specs.Prelude.{◌≡◌, [], ◌∷◌, if◌then◌else◌, None, Some};
ghost use Rattle.std.specs.Result.{result_err};
ghost use Rattle.fields.specs.Checks.{Checked};

use refusal::Refusal;

// One check: its refusal where it fails.
pub fn check(holds: bool, refusal: Refusal) -> Result<(), Refusal>
    ensures checked { Checked ((holds, refusal) ∷ []) (λ _. Unit {0}) result }
    ensures refused { result_err result ≡ (if holds then None else Some refusal) }
{
    if holds { Ok(()) } else { Err(refusal) }
}
