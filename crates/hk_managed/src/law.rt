//! The laws of worlds with managers.

ghost use Rattle.hk_managed.specs.Council.{WorldsAgree};
ghost use Rattle.hk_managed.specs.Guarded.{Earned, Guarded, ViewsStay};
ghost use Rattle.hk_managed.specs.Rate.{WorldsKeepTheRate};
ghost use Rattle.hk_managed.specs.Refusing.{WorldsRefuseExactly};
ghost use Rattle.hk_managed.specs.Worked.{WorkedRun};

use hk_council::managers_agree;
use hk_world::worlds_stay_sound;

/// Whatever events are tried in a group, with managers or without, no clock of a live actor falls, and any two run apart by one part in
/// ten and the skew at most.
pub fn clocks_of_worlds_keep_the_rate()
    ensures { WorldsKeepTheRate }
{
    worlds_stay_sound();
}

/// A tick is refused for the rate just where it would not be kept, and the first live actor with which it would not is told.
pub fn worlds_refuse_exactly()
    ensures { WorldsRefuseExactly }
{
    worlds_stay_sound();
}

/// At every moment of every run the managers agree on one view for each epoch, each made of the one before by one change.
pub fn managers_of_worlds_agree()
    ensures { WorldsAgree }
{
    worlds_stay_sound();
    managers_agree();
}

/// With managers, at every moment of every run each view that may have begun leaves out no live node whose lease still runs, and
/// each view that a node has may have begun: it leaves out no such node then, nor ever after, and is the one that the managers
/// learned for its epoch.
pub fn views_that_begin_have_ended()
    ensures moment { Guarded }
    ensures ever { Earned }
    ensures learned { ViewsStay }
{
    worlds_stay_sound();
    managers_agree();
}

/// There is a run in which a view is installed that leaves out a live node, which had a lease.
pub fn a_view_begins_without_a_node()
    ensures { WorkedRun }
{}
