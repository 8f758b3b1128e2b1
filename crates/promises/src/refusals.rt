// The numbers that offices and hosts know refusals by.
ghost use Rattle.std.specs.Prelude.{ℕ};
ghost use Rattle.model.specs.declared.figures.Valuation.{Valuation};
ghost use Rattle.refusal.specs.Promises.{EachRefusalHasItsNumber, AnswersToldWhole};

/// No two refusals have the same number, none has 0, by which a host knows that nothing is refused, and each fits into a byte.
#[tactic(auto, using(refusal::proofs::Seen::each_refusal_has_its_number))]
pub fn each_refusal_has_its_number()
    ensures { EachRefusalHasItsNumber }
{}

/// An answer that is told with the number of its refusal in place of the refusal is told whole: a valuation, and a count of bytes or a UFR.
#[tactic(auto, using(refusal::proofs::Seen::answers_told_whole))]
pub fn answers_are_told_whole()
    ensures valuation { AnswersToldWhole Valuation }
    ensures number { AnswersToldWhole ℕ }
{}
