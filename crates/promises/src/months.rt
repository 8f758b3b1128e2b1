// A UFR from a history of 120 month-end forward rates, and the valuation of a case file with it. Months and the UFR are in steps of 0.00001.
ghost use Rattle.monthsmodel.specs.Promises.{RoundedToHundred, SumFromAnyMonth, HistoryAcceptedExactly, UfrFoundOfAll, EveryUfrCall};
ghost use Rattle.monthsmodel.specs.Promises.{OwnNumbersFirst, FileWithFieldAccepted, MonthsValuedWithField, MonthsAcceptedExactly};
ghost use Rattle.monthsmodel.specs.Promises.{MonthsKeepContainment, RefusedMonthsLeaveBuffers, EveryMonthsCall};

/// Of every sum of 120 months the hundreds of steps that are found are the nearest to the mean, of two that are equally near the higher, and
/// no other number of hundreds is.
#[tactic(auto, using(theory::proofs::months::Promised::rounded_to_hundred))]
pub fn mean_rounded_to_nearest_hundred()
    ensures { RoundedToHundred }
{}

/// The sum of the months of a ring is the same from its first byte on and from the oldest month on, whichever of the 120 that is.
#[tactic(auto, using(theory::proofs::months::Promised::sum_from_any_month))]
pub fn sum_the_same_from_any_month()
    ensures { SumFromAnyMonth }
{}

/// A history gives a UFR exactly where it has 240 bytes, its start is 0 to 119, each month is -1,000 to 10,000 steps, and the rounded mean is
/// 0 to 5,000 steps.
#[tactic(auto, using(theory::proofs::months::Promised::history_accepted_exactly))]
pub fn history_accepted_exactly()
    ensures { HistoryAcceptedExactly }
{}

/// The UFR found is at most 5,000 steps, and is the multiple of 100 steps nearest to the mean of the months from the oldest on.
#[tactic(auto, using(theory::proofs::months::Promised::ufr_found_of_all))]
pub fn ufr_found_is_nearest_to_the_mean()
    ensures { UfrFoundOfAll }
{}

/// The refusals of a valuation come first, 13 and the file's own; where there is none, the history's come.
#[tactic(auto, using(theory::proofs::months::Promised::own_numbers_first))]
pub fn own_numbers_come_first()
    ensures { OwnNumbersFirst }
{}

/// An accepted file with a UFR of 0 to 5,000 steps in its UFR field, in place of its own if it has one, is accepted, and its case is the file's
/// with that UFR.
#[tactic(auto, using(theory::proofs::months::Promised::file_with_field_accepted))]
pub fn file_with_field_accepted()
    ensures { FileWithFieldAccepted }
{}

/// An accepted file that is valued with a history that gives a UFR gives what the file with that UFR in its field gives: the same answer, in
/// cents, and the same factors and zero rates in both lent buffers.
#[tactic(auto, using(theory::proofs::months::Promised::months_valued_with_field))]
pub fn valued_as_with_the_field()
    ensures { MonthsValuedWithField }
{}

/// A file is valued with a history exactly where both lent buffers have 240 entries, the file keeps the layout and limits, and the history
/// gives a UFR.
#[tactic(auto, using(theory::proofs::months::Promised::months_accepted_exactly))]
pub fn months_accepted_exactly()
    ensures { MonthsAcceptedExactly }
{}

/// Containment and width hold of every file that is valued with a history: of the figures and the verdict that are answered, and of the
/// factors and zero rates that are written.
#[tactic(auto, using(theory::proofs::months::Promised::months_keep_containment))]
pub fn months_keep_containment()
    ensures { MonthsKeepContainment }
{}

/// A valuation with a history that is refused, with whatever number, leaves both lent buffers as they were.
#[tactic(auto, using(theory::proofs::months::Promised::refused_months_leave_buffers))]
pub fn refused_months_leave_buffers()
    ensures { RefusedMonthsLeaveBuffers }
{}

/// What the call that finds a UFR has in its contract holds of every history and start.
#[tactic(auto, using(theory::proofs::months::Promised::every_ufr_call))]
pub fn every_ufr_call()
    ensures { EveryUfrCall }
{}

/// What the call that values a file with a history has in its contract holds of every file, history, start and pair of buffers.
#[tactic(auto, using(theory::proofs::months::Promised::every_months_call))]
pub fn every_months_call()
    ensures { EveryMonthsCall }
{}
