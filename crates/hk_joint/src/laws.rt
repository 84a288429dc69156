//! What holds of every run.

ghost use Rattle.hk_safety.specs.Moment.{MomentsAreFirst, MomentsFollowCompletions};
ghost use Rattle.hk_joint.specs.Joint.{KeysKeepTheirOrder};
ghost use Rattle.hk_joint.specs.Placing.{PlacedAreJoint};
ghost use Rattle.hk_joint.specs.Batch.{BatchesAreFound};
ghost use Rattle.hk_joint.specs.Legal.{JointOrdersAreLegal};

use hk_effects::{event_is_effects, runs_keep_parts};
use hk_safety::runs_are_legal;

/// The moment of a stamp is the number of the first event after which an update of the key with a stamp of at least that one is complete.
pub fn moments_are_first()
    ensures { MomentsAreFirst }
{}

/// A stamp's moment is that of the next stamp, unless its own update is complete before.
pub fn moments_follow_completions()
    ensures { MomentsFollowCompletions }
{}

/// The entries of each key in the joint order of a run are the key's printed order.
pub fn keys_keep_their_order()
    ensures { KeysKeepTheirOrder }
{
    runs_keep_parts();
    event_is_effects();
}

/// The joint order of every run is legal: with one register for each key it gives each answered call its answer, a call that was answered before another began stands before it, on
/// whatever keys, and between the reads of one batch nothing changes.
pub fn joint_orders_are_legal()
    ensures { JointOrdersAreLegal }
{
    runs_keep_parts();
    event_is_effects();
    runs_are_legal();
}

/// Noting each event of a run gives the calls of its batches.
pub fn batches_are_found()
    ensures { BatchesAreFound }
{}

/// The printed orders of all keys, one behind the other and then brought into the order of their events, are the joint order.
pub fn placed_are_joint()
    ensures { PlacedAreJoint }
{
    runs_keep_parts();
    event_is_effects();
}
