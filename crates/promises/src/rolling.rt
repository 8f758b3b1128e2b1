// A rolling window of up to 70 trading days. Its rates are in steps of 0.00001, its sums per term in the same steps.
ghost use Rattle.rollingmodel.specs.Promises.{RightExactly, EmptyHoldsNothing, ChangesHold, ChangesOfRightHold};
ghost use Rattle.rollingmodel.specs.Promises.{DamagedAheadOfAll, FullExactly, EmptyExactly, RefusedChangesNothing};
ghost use Rattle.rollingmodel.specs.Promises.{WindowValuedAsFile, WindowAcceptedExactly, WindowKeepsContainment, RefusedWindowLeavesBuffers};
ghost use Rattle.rollingmodel.specs.Promises.{AlikeAnswers, ChangesAlike, FreeSlotsAlike, EveryAddCall, EveryDropCall, EveryWindowCall};

/// A window is not refused with 27 exactly where it has at most 70 days from a slot 0 to 69 on, every rate held is -1,000 to 10,000 steps,
/// and each of its 60 sums is that of the days held.
#[tactic(auto, using(theory::proofs::rolling::Promised::right_exactly))]
pub fn right_window_exactly()
    ensures { RightExactly }
{}

/// The empty window is right, and holds no day.
#[tactic(auto, using(theory::proofs::rolling::Promised::empty_holds_nothing))]
pub fn empty_window_holds_nothing()
    ensures { EmptyHoldsNothing }
{}

/// After every list of additions and drops from an empty window, any of which may be refused, it holds the days added and not dropped,
/// oldest first, each of its 60 sums is theirs, and 27 does not apply to it.
#[tactic(auto, using(theory::proofs::rolling::Promised::changes_hold))]
pub fn changes_of_empty_window_hold()
    ensures { ChangesHold }
{}

/// The same of every right window: after every list of changes it holds the days it held and those added, but for those dropped.
#[tactic(auto, using(theory::proofs::rolling::Promised::changes_of_right_hold))]
pub fn changes_of_right_window_hold()
    ensures { ChangesOfRightHold }
{}

/// An addition, a drop and a valuation are refused with 27 exactly where the window is not right, whatever else is wrong.
#[tactic(auto, using(theory::proofs::rolling::Promised::damaged_ahead_of_all))]
pub fn damaged_window_ahead_of_all()
    ensures { DamagedAheadOfAll }
{}

/// An addition is refused with 15 exactly where the window is right and has 70 days, whatever the rates of the new day are.
#[tactic(auto, using(theory::proofs::rolling::Promised::full_exactly))]
pub fn full_window_exactly()
    ensures { FullExactly }
{}

/// A drop is refused with 16 exactly where the window is right and has no day.
#[tactic(auto, using(theory::proofs::rolling::Promised::empty_exactly))]
pub fn empty_window_exactly()
    ensures { EmptyExactly }
{}

/// An addition or a drop that is refused, with whatever number, gives back the very window that was handed in, and the number.
#[tactic(auto, using(theory::proofs::rolling::Promised::refused_changes_nothing))]
pub fn refused_change_changes_nothing()
    ensures { RefusedChangesNothing }
{}

/// A right window, also an empty one, that is valued with the other fields of an accepted case gives what every file with its days and these
/// fields gives: the same answer, in cents, and the same factors and zero rates in both lent buffers.
#[tactic(auto, using(theory::proofs::rolling::Promised::window_valued_as_file))]
pub fn window_valued_as_file()
    ensures { WindowValuedAsFile }
{}

/// A window is valued exactly where it is right, both lent buffers have 240 entries, the case handed in is within the limits with its own
/// days, and the days held are within them too.
#[tactic(auto, using(theory::proofs::rolling::Promised::window_accepted_exactly))]
pub fn window_accepted_exactly()
    ensures { WindowAcceptedExactly }
{}

/// Containment and width hold of every window that is valued: of the figures and the verdict that are answered, and of the factors and
/// zero rates that are written.
#[tactic(auto, using(theory::proofs::rolling::Promised::window_keeps_containment))]
pub fn window_keeps_containment()
    ensures { WindowKeepsContainment }
{}

/// A valuation of a window that is refused, with whatever number, leaves both lent buffers as they were.
#[tactic(auto, using(theory::proofs::rolling::Promised::refused_window_leaves_buffers))]
pub fn refused_window_leaves_buffers()
    ensures { RefusedWindowLeavesBuffers }
{}

/// Two windows that hold the same days with the same sums, each from a slot of its own on, give the same answers to every call.
#[tactic(auto, using(theory::proofs::rolling::Promised::alike_answers))]
pub fn alike_windows_answer_alike()
    ensures { AlikeAnswers }
{}

/// After the same list of changes they hold the same days with the same sums again.
#[tactic(auto, using(theory::proofs::rolling::Promised::changes_alike))]
pub fn changes_keep_windows_alike()
    ensures { ChangesAlike }
{}

/// What lies in a slot that is not held makes no difference: with any 60 rates in it the window holds the same days with the same sums.
#[tactic(auto, using(theory::proofs::rolling::Promised::free_slots_alike))]
pub fn free_slots_make_no_difference()
    ensures { FreeSlotsAlike }
{}

/// What the call that adds a day has in its contract holds of every window and day.
#[tactic(auto, using(theory::proofs::rolling::Promised::every_add_call))]
pub fn every_add_call()
    ensures { EveryAddCall }
{}

/// What the call that drops the oldest day has in its contract holds of every window.
#[tactic(auto, using(theory::proofs::rolling::Promised::every_drop_call))]
pub fn every_drop_call()
    ensures { EveryDropCall }
{}

/// What the call that values a window has in its contract holds of every window, case and pair of buffers.
#[tactic(auto, using(theory::proofs::rolling::Promised::every_window_call))]
pub fn every_window_call()
    ensures { EveryWindowCall }
{}
