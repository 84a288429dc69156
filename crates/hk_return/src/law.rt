//! The laws of managers that return.

ghost use Rattle.hk_return.specs.Guarded.{GuardedWithReturns, GuardedWhereViewsMayBegin};
ghost use Rattle.hk_return.specs.Group.{ReturningManagersAgree};
ghost use Rattle.hk_return.specs.Log.{GrantsAreCovered, LogsAreReplayed, NotedByAsks, UntilsAreNotedAnew};
ghost use Rattle.hk_return.specs.Worked.{MissedWithLatest, MissedWithNone, WorkedDisk, WorkedReturn};
ghost use Rattle.hk_return.specs.WorkedLog.{WorkedLog};

/// With managers that stop and return, and whose clocks begin anew then, each view that any node has installed has ended, and so has each
/// view for which a majority sent ACTIVATE.
pub fn returned_managers_let_views_end()
    ensures installed { GuardedWithReturns }
    ensures letters { GuardedWhereViewsMayBegin }
{}

/// There is a run in which a manager stops and returns, loses what was not on the disk, grants a lease anew, and lets a view begin
/// without the node that had it.
pub fn a_manager_returns()
    ensures { WorkedReturn }
{}

/// Where a manager that returns notes no until anew, or only those of the view that it holds at the end of its log, there is a run in
/// which a view is installed while a lease runs that it leaves out.
pub fn a_manager_that_forgets_is_not_safe()
    ensures none { MissedWithNone }
    ensures latest { MissedWithLatest }
{}

/// Where the disk lost a record that was synced, there is a run in which a view is installed while a lease runs that it leaves out. An
/// until that is noted also for a view that the manager comes to hold again soon after its return keeps that view from beginning.
pub fn a_view_may_come_again()
    ensures { WorkedDisk }
{}

/// A manager made anew from its log is one that it was, but for its clock and untils, and nothing that it said is taken back. For each
/// member of each view that it came to hold by its log it notes an until anew, so for each node to which a letter that went out granted
/// a lease. To note them for the members of the view that it holds it takes an ask of each, and keeps the answers to itself.
pub fn logs_are_replayed()
    ensures replay { LogsAreReplayed }
    ensures returned { UntilsAreNotedAnew }
    ensures covered { GrantsAreCovered }
    ensures asks { NotedByAsks }
{}

/// Managers that stop and return, each made anew from its log, agree as managers that never stop.
pub fn returning_managers_agree()
    ensures { ReturningManagersAgree }
{}

/// There is a run in which a manager stops in the midst of an instance of Paxos, returns by its log, ends the instance, and lets the view
/// begin that leaves a founder out, at the first reading at which it may.
pub fn a_log_is_lost_in_part()
    ensures { WorkedLog }
{}
