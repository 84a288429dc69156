//! The part of the invariant on rows, pending updates and the letters INV, ACK and VAL, kept by each kind of event.
//!
//! Nothing runs here. Each law is about a run in which all parts held of every key at every moment, and one more accepted event
//! of its kind: this part holds of every key afterwards. `hk_parts` has the definitions.
#![tactic(auto)]

ghost use Rattle.hk_parts.specs.EventKinds.{IsCall, IsTake, IsTick, IsTickAll, IsCrash, IsResend, IsReplay, IsCopy, IsStart, IsAgree, IsInstall, IsLease, IsAskLease, IsPropose, IsActivate};
ghost use Rattle.hk_parts.specs.Held.{Keeps};
ghost use Rattle.hk_parts.specs.UpdatePart.{UpdatePart};

use hk_parts::runs_hold;

/// Kept by a call at a node.
pub fn keeps_call()
    ensures { Keeps UpdatePart IsCall }
{
    runs_hold();
}

/// Kept by a letter that is taken.
pub fn keeps_take()
    ensures { Keeps UpdatePart IsTake }
{
    runs_hold();
}

/// Kept by a clock that rises.
pub fn keeps_tick()
    ensures { Keeps UpdatePart IsTick }
{
    runs_hold();
}

/// Kept by all clocks that rise.
pub fn keeps_tick_all()
    ensures { Keeps UpdatePart IsTickAll }
{
    runs_hold();
}

/// Kept by a crash.
pub fn keeps_crash()
    ensures { Keeps UpdatePart IsCrash }
{
    runs_hold();
}

/// Kept by a pending update that is sent again.
pub fn keeps_resend()
    ensures { Keeps UpdatePart IsResend }
{
    runs_hold();
}

/// Kept by an update that is replayed.
pub fn keeps_replay()
    ensures { Keeps UpdatePart IsReplay }
{
    runs_hold();
}

/// Kept by a joiner that asks for rows.
pub fn keeps_copy()
    ensures { Keeps UpdatePart IsCopy }
{
    runs_hold();
}

/// Kept by a joiner that starts.
pub fn keeps_start()
    ensures { Keeps UpdatePart IsStart }
{
    runs_hold();
}

/// Kept by a view that is agreed.
pub fn keeps_agree()
    ensures { Keeps UpdatePart IsAgree }
{
    runs_hold();
}

/// Kept by a view that is installed.
pub fn keeps_install()
    ensures { Keeps UpdatePart IsInstall }
{
    runs_hold();
}

/// Kept by a lease that is granted.
pub fn keeps_lease()
    ensures { Keeps UpdatePart IsLease }
{
    runs_hold();
}

/// Kept by a request for a lease, which goes to one manager.
pub fn keeps_ask_lease()
    ensures { Keeps UpdatePart IsAskLease }
{
    runs_hold();
}

/// Kept by a proposal, with which a manager asks all managers for the next view.
pub fn keeps_propose()
    ensures { Keeps UpdatePart IsPropose }
{
    runs_hold();
}

/// Kept by an activation, with which a manager tells the members of the view that it holds that the view begins.
pub fn keeps_activate()
    ensures { Keeps UpdatePart IsActivate }
{
    runs_hold();
}
