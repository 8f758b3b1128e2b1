// What a host is given, and hands back.
ghost use Rattle.flat.specs.Promises.{HandedBackAsGiven};

/// The struct of a valuation or of a refusal, handed back by a host, says what the engine put into it: so it lists as the file that it came
/// from.
#[tactic(auto, using(flat::proofs::Said::handed_back_as_given))]
pub fn what_is_handed_back_is_as_it_was_given()
    ensures { HandedBackAsGiven }
{}
