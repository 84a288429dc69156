//! Whose asks a step told.

ghost use Rattle.std.specs.Prelude.{◌≡◌};
ghost use Rattle.hk_locked.specs.Steps.{told_asks};

use hk_base::CallNo;
use hk_node::StepReplies;

/// Whose asks a step told.
#[derive(Clone, Copy)]
pub enum ToldAsks {
    /// No call was answered.
    Nobody,
    /// The ask of this call.
    One(CallNo),
    /// Those of several calls.
    Several,
}

/// Whose asks these replies tell.
#[tactic(auto, unfolding(crate::specs::Steps::told_asks))]
pub(crate) fn told_asks(replies: &StepReplies) -> ToldAsks
    ensures { result ≡ told_asks replies.now }
{
    match replies.as_slice() {
        [] => ToldAsks::Nobody,
        [reply] => ToldAsks::One(reply.call),
        _ => ToldAsks::Several,
    }
}
