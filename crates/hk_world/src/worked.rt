//! Worlds worked by hand.

ghost use Rattle.hk_world.specs.Worked.{AloneAnswers, OthersRead, HigherTopLeavesInvalid, OneIncrementWins, ReplayCompletes, LeaseRunsOut, ClocksKeepTheRate, JoinerCopies, ManagersChangeTheView};

/// What the events of some worlds answer: of a group of one; of a write that two others acknowledge; of a write that another
/// overtakes; of two increments of one base; of a replay after a crash; of a view that waits for a lease to end; of clocks that
/// would run too far apart; of a joiner; and of a view on which managers agree.
pub fn worked_worlds()
    ensures alone { AloneAnswers }
    ensures others { OthersRead }
    ensures higher { HigherTopLeavesInvalid }
    ensures increments { OneIncrementWins }
    ensures replay { ReplayCompletes }
    ensures lease { LeaseRunsOut }
    ensures clocks { ClocksKeepTheRate }
    ensures joiner { JoinerCopies }
    ensures managers { ManagersChangeTheView }
{}
