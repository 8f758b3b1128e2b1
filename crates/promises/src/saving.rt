// A case written back in its shortest form.
ghost use Rattle.savingmodel.specs.Promises.{SavedBytesGiveTheCase, SameBytesExactlyWhenEqual, NoFileOfTheCaseIsShorter};
ghost use Rattle.savingmodel.specs.Promises.{CaseRefusedExactlyOutsideLimits, OwnRefusalFirst, FourteenExactlyForWantOfRoom};
ghost use Rattle.savingmodel.specs.Promises.{RefusedSaveChangesNothing, SavedWhereThereIsRoom, EveryCaseCanBeHandedIn};
ghost use Rattle.savingmodel.specs.Promises.{SavedFilesAreShort, EverySaveCall};

/// The bytes that a case within the limits is saved as are an accepted file, and the case that they hold is the one that was saved.
#[tactic(auto, using(theory::proofs::saving::Promised::saved_bytes_give_the_case))]
pub fn saved_bytes_give_the_case()
    ensures { SavedBytesGiveTheCase }
{}

/// Two cases within the limits are saved as the same bytes exactly when they are equal: all their numbers, the lengths of their lists and the
/// order of their days.
#[tactic(auto, using(theory::proofs::saving::Promised::same_bytes_exactly_when_equal))]
pub fn same_bytes_exactly_when_equal()
    ensures { SameBytesExactlyWhenEqual }
{}

/// No file that keeps the layout and limits has fewer bytes than its case is saved as, whichever of the optional fields it has.
#[tactic(auto, using(theory::proofs::saving::Promised::no_file_of_the_case_is_shorter))]
pub fn no_file_of_the_case_is_shorter()
    ensures { NoFileOfTheCaseIsShorter }
{}

/// A case that is handed in is refused by its own checks exactly where it is outside the limits.
#[tactic(auto, using(theory::proofs::saving::Promised::case_refused_exactly_outside_limits))]
pub fn case_refused_exactly_outside_limits()
    ensures { CaseRefusedExactlyOutsideLimits }
{}

/// A case outside the limits gets its own refusal, however long or short the lent buffer is.
#[tactic(auto, using(theory::proofs::saving::Promised::own_refusal_first))]
pub fn own_refusal_first()
    ensures { OwnRefusalFirst }
{}

/// A save gets 14 exactly where the case is within the limits and the lent buffer has fewer bytes than the case is saved as.
#[tactic(auto, using(theory::proofs::saving::Promised::fourteen_exactly_for_want_of_room))]
pub fn fourteen_exactly_for_want_of_room()
    ensures { FourteenExactlyForWantOfRoom }
{}

/// A refused save, whatever the refusal, answers that refusal, and the lent buffer holds what it held.
#[tactic(auto, using(theory::proofs::saving::Promised::refused_save_changes_nothing))]
pub fn refused_save_changes_nothing()
    ensures { RefusedSaveChangesNothing }
{}

/// A case within the limits is saved in every buffer that is long enough: the answer is the count of bytes written, they are at the front
/// of the buffer, and all bytes after them keep their content.
#[tactic(auto, using(theory::proofs::saving::Promised::saved_where_there_is_room))]
pub fn saved_where_there_is_room()
    ensures { SavedWhereThereIsRoom }
{}

/// Every case within the limits can be handed in: its fields, its days one after another and its flows are that case.
#[tactic(auto, using(theory::proofs::saving::Promised::every_case_can_be_handed_in))]
pub fn every_case_can_be_handed_in()
    ensures { EveryCaseCanBeHandedIn }
{}

/// The bytes that a case within the limits is saved as are at most 17,625.
#[tactic(auto, using(theory::proofs::saving::Promised::saved_files_are_short))]
pub fn saved_files_are_short()
    ensures { SavedFilesAreShort }
{}

/// What the contract of a save says of its own case and buffer holds of every case and of every buffer.
#[tactic(auto, using(theory::proofs::saving::Promised::every_save_call))]
pub fn every_save_call()
    ensures { EverySaveCall }
{}
