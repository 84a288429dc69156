//! Why an order is not legal.

use thiserror::Error;

/// A rule that a legal order keeps.
#[derive(Clone, Copy, Debug, PartialEq, Eq, Error)]
pub enum Rule {
    /// An answered call was given another answer than its operation gives at its place.
    #[error("answer")]
    Answer,
    /// A call that was aborted, or has no reply, stands where it changes nothing.
    #[error("idle")]
    Idle,
    /// A call stands twice.
    #[error("twice")]
    Twice,
    /// A call that was Busy or Exhausted stands.
    #[error("void")]
    Void,
    /// An answered call does not stand.
    #[error("lacking")]
    Lacking,
    /// What stands is no call of the history.
    #[error("stranger")]
    Stranger,
    /// A tag does not rise over the one before, or stands where nothing changes, or lacks where something does.
    #[error("tags")]
    Tags,
    /// A call stands before one that was answered before it began.
    #[error("early")]
    Early,
}

/// Why an order was not found legal.
#[derive(Clone, Copy, Debug, PartialEq, Eq, Error)]
pub enum CheckFault {
    /// An allocation was refused.
    #[error("no memory")]
    Memory,
    /// The order breaks the rule at two calls, named by their numbers. Where the rule concerns one call it is named
    /// twice; for `Early`, `first` was answered before `second` began.
    #[error("the order breaks the rule {rule} at calls {first} and {second}")]
    Breach { rule: Rule, first: u64, second: u64 },
}

impl From<hk_base::Memory> for CheckFault {
    ghost use Rattle.std.specs.Prelude.{◌≡◌};
    ghost use Rattle.hk_history.specs.declared.fault.CheckFault.TheVariants.{Memory};

    ghost from_gives = { λ _ fault. fault ≡ Memory };

    fn from(_fault: hk_base::Memory) -> CheckFault {
        CheckFault::Memory
    }
}
