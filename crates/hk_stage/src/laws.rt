//! The laws of foundings, over the definition of [`crate::Opening::step`].

ghost use Rattle.hk_stage.specs.Group.{NeverTwo, OpenMeansAllFounded};
ghost use Rattle.hk_stage.specs.Laws.{OpenForGood, OpensByItsOwn, FoundWhileReserved, LogTellsTheStage, CanBeFoundedAnew};

/// An open manager stays open with its founding. No board of another founding opens one, and none while it is reserved.
pub fn managers_open_by_their_own_founding()
    ensures good { OpenForGood }
    ensures own { OpensByItsOwn }
{}

/// A founding is taken only by a manager that is reserved for it, and what a step logs tells the stage behind it.
pub fn foundings_are_logged()
    ensures reserved { FoundWhileReserved }
    ensures stage { LogTellsTheStage }
{}

/// Wherever a founding was cut short, another one founds the manager and opens it.
pub fn foundings_can_be_made_again()
    ensures { CanBeFoundedAnew }
{}

/// Whoever types `init` and how often: never are two managers open with different foundings, and where one is open, all were founded so.
pub fn two_foundings_never_open()
    ensures two { NeverTwo }
    ensures all { OpenMeansAllFounded }
{}
