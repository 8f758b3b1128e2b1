// How long things are that others make room for.
ghost use Rattle.method.specs.Sizes.{ListingsAreShort, EveryListingCall};
ghost use Rattle.model.specs.Sizes.{AcceptedFilesAreShort, LongestFileIsAccepted, FirstBytesDecide};

/// An accepted case file has at most 17,625 bytes.
#[tactic(auto, using(theory::proofs::sizes::Promised::accepted_files_are_short))]
pub fn accepted_files_are_short()
    ensures { AcceptedFilesAreShort }
{}

/// A case file of 17,625 bytes is accepted.
#[tactic(auto, using(theory::proofs::sizes::Promised::longest_file_is_accepted))]
pub fn longest_file_is_accepted()
    ensures { LongestFileIsAccepted }
{}

/// The first 17,626 bytes of a case file decide: they are refused with the number that the whole file is refused with, and where the file is
/// accepted they are all of it, and its case is theirs.
#[tactic(auto, using(theory::proofs::sizes::Promised::first_bytes_decide))]
pub fn first_bytes_decide()
    ensures { FirstBytesDecide }
{}

/// A listing has at most 463 bytes, whatever its figures and its verdict are, or the number of its refusal.
#[tactic(auto, using(theory::proofs::sizes::Promised::listings_are_short))]
pub fn listings_are_short()
    ensures { ListingsAreShort }
{}

/// What the contract of a written listing says of its own valuation and buffer holds of every valuation and of every buffer: in a buffer of 463
/// bytes or more it is whole, bytes after it keep their content, and where the answer is 0 the buffer holds what it held.
#[tactic(auto, using(theory::proofs::sizes::Promised::every_listing_call))]
pub fn every_listing_call()
    ensures { EveryListingCall }
{}
