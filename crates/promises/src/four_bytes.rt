// Rates in four bytes, which count 0.0000001.
ghost use Rattle.savingmodel.specs.Forms.{FormsAreDifferent};
ghost use Rattle.method.specs.FourBytes.{FourByteCases, FourByteParts, RewrittenFilesAsBefore};

/// An accepted file of two-byte rates, rewritten to four-byte rates with every rate times 100, is accepted, holds that case, and has the same
/// listing, the same answer and the same entries in both buffers, of whatever lengths these are.
#[tactic(auto, using(theory::proofs::fourbytes::Promised::rewritten_files_are_as_before))]
pub fn rewritten_files_are_as_before()
    ensures { RewrittenFilesAsBefore }
{}

/// Of a case of n days with four-byte rates N is 10,000,000 × n, and a shift adds or takes 100 × n × shift; within the limits each rate is from
/// -100,000 to 1,000,000, and each forward from -200,000 × n to 1,200,000 × n.
#[tactic(auto, using(theory::proofs::fourbytes::Promised::four_byte_cases_count_finer))]
pub fn four_byte_cases_count_finer()
    ensures { FourByteCases }
{}

/// The part of an accepted file of n days with four-byte rates that holds the rates is n × 240 bytes, after the count of days.
#[tactic(auto, using(theory::proofs::fourbytes::Promised::four_byte_parts_are_of_240))]
pub fn four_byte_parts_are_of_240()
    ensures { FourByteParts }
{}

/// Two cases within the limits whose rates are of different widths are saved as different bytes.
#[tactic(auto, using(theory::proofs::fourbytes::Promised::forms_are_different))]
pub fn forms_are_different()
    ensures { FormsAreDifferent }
{}
