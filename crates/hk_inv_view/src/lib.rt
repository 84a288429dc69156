//! The part of the invariant on epochs, leases and copies, kept by each kind of event.
//!
//! Nothing runs here. Each law is about a run in which all parts held of every key at every moment, and one more accepted event
//! of its kind: this part holds of every key afterwards. `hk_parts` has the definitions.
#![tactic(auto)]

ghost use Rattle.hk_parts.specs.EventKinds.{IsCall, IsTake, IsTick, IsTickAll, IsCrash, IsResend, IsReplay, IsCopy, IsStart, IsAgree, IsInstall, IsLease, IsAskLease, IsPropose, IsActivate};
ghost use Rattle.hk_parts.specs.Held.{Keeps};
ghost use Rattle.hk_parts.specs.ViewPart.{ViewPart};

use hk_parts::runs_hold;

/// Kept by a call at a node.
pub fn keeps_call()
    ensures { Keeps ViewPart IsCall }
{
    runs_hold();
}

/// Kept by a letter that is taken.
pub fn keeps_take()
    ensures { Keeps ViewPart IsTake }
{
    runs_hold();
}

/// Kept by a clock that rises.
pub fn keeps_tick()
    ensures { Keeps ViewPart IsTick }
{
    runs_hold();
}

/// Kept by all clocks that rise.
pub fn keeps_tick_all()
    ensures { Keeps ViewPart IsTickAll }
{
    runs_hold();
}

/// Kept by a crash.
pub fn keeps_crash()
    ensures { Keeps ViewPart IsCrash }
{
    runs_hold();
}

/// Kept by a pending update that is sent again.
pub fn keeps_resend()
    ensures { Keeps ViewPart IsResend }
{
    runs_hold();
}

/// Kept by an update that is replayed.
pub fn keeps_replay()
    ensures { Keeps ViewPart IsReplay }
{
    runs_hold();
}

/// Kept by a joiner that asks for rows.
pub fn keeps_copy()
    ensures { Keeps ViewPart IsCopy }
{
    runs_hold();
}

/// Kept by a joiner that starts.
pub fn keeps_start()
    ensures { Keeps ViewPart IsStart }
{
    runs_hold();
}

/// Kept by a view that is agreed.
pub fn keeps_agree()
    ensures { Keeps ViewPart IsAgree }
{
    runs_hold();
}

/// Kept by a view that is installed.
pub fn keeps_install()
    ensures { Keeps ViewPart IsInstall }
{
    runs_hold();
}

/// Kept by a lease that is granted.
pub fn keeps_lease()
    ensures { Keeps ViewPart IsLease }
{
    runs_hold();
}

/// Kept by a request for a lease, which goes to one manager.
pub fn keeps_ask_lease()
    ensures { Keeps ViewPart IsAskLease }
{
    runs_hold();
}

/// Kept by a proposal, with which a manager asks all managers for the next view.
pub fn keeps_propose()
    ensures { Keeps ViewPart IsPropose }
{
    runs_hold();
}

/// Kept by an activation, with which a manager tells the members of the view that it holds that the view begins.
pub fn keeps_activate()
    ensures { Keeps ViewPart IsActivate }
{
    runs_hold();
}
