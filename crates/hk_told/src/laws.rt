//! What holds of every step of a node.

ghost use Rattle.hk_told.specs.Held.{StepsKeepAsks, CallsKeepAsks, DropsKeepAsks, NoneAreHeld, DeliversInTurn};
ghost use Rattle.hk_told.specs.Shown.{CallsBeginInLists, AsksAreShown, LooksAreJoined, AtOnceIsShown, AfterLooksIsShown, UnknownIsShown, ShownSuits, UnknownSuits};
ghost use Rattle.hk_told.specs.Steps.{StepMoves, CallsAnswerOrStart, ReadsLeaveNodes, KeyEventsChangeOneRow, StepsKeepNumbers};

/// What becomes of a call that waits, at each key and in every step that is no call: its update waits on by its stamp, kind and reply, in
/// Write or, if it is a write, in Trans, and nothing is told at its key; or its call is told the answer that was kept, and the row is Valid
/// or Invalid, at the stamp of a read-modify-write; or a read-modify-write is given up for the stamp that the row then has. What is told
/// was waited for, and no reply is kept that was not kept before.
///
/// A call itself is told at once and leaves the node as it was, by the lease, the row's state, what its operation does to the row's
/// register and the limit of versions; or it begins an update at a Valid row, which waits in Write, or is complete and told.
pub fn waiting_calls_move()
    ensures step { StepMoves }
    ensures call { CallsAnswerOrStart }
{}

/// A read leaves its node as it was, whatever it is answered.
pub fn reads_leave_nodes()
    ensures { ReadsLeaveNodes }
{}

/// An event that names a key, which is a call, a letter of a key, a resend or a replay, changes nothing of its node but that key's row. No
/// event changes the node's number, nor by how much clocks may differ.
pub fn key_events_change_one_row()
    ensures one { KeyEventsChangeOneRow }
    ensures numbers { StepsKeepNumbers }
{}

/// What stands under a shard's lock beside the shard is kept by each step: a step that is no call publishes its rows, and delivers its
/// replies by the numbers of their calls; a call that is answered at once leaves the asks, and one whose update waits adds its own; asks that
/// were told something may be dropped; and where no update waits there need be no asks. Replies that are delivered one
/// after the other are delivered all.
pub fn asks_stay_held()
    ensures steps { StepsKeepAsks }
    ensures calls { CallsKeepAsks }
    ensures drops { DropsKeepAsks }
    ensures none { NoneAreHeld }
    ensures turn { DeliversInTurn }
{}

/// How a desk comes to what it tells. The step of a call, at a shard whose lists show its rows, tells at once what its cell's list then shows, or
/// begins an update in that list. Of each ask that is kept, the list shows what it was told, or that its update has not ended.
pub fn asks_are_shown()
    ensures begin { CallsBeginInLists }
    ensures look { AsksAreShown }
    ensures looks { LooksAreJoined }
{}

/// What a desk tells is shown by what its pass has seen of the key's cell: what a call is told at once, what an ask is told after looks, and that an
/// update has not ended where after so many looks nothing was told. What is shown suits its operation.
pub fn told_is_shown()
    ensures now { AtOnceIsShown }
    ensures told { AfterLooksIsShown }
    ensures unknown { UnknownIsShown }
    ensures suits { ShownSuits }
    ensures update { UnknownSuits }
{}
