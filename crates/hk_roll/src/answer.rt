//! What a manager answers to those that want a number.

ghost use Rattle.std.specs.Prelude.{◌≡◌};
ghost use Rattle.hk_roll.specs.Steps.{refusal_code};

use crate::binding::Binding;
use hk_base::NodeId;
use thiserror::Error;

/// Why a process does not get a number from this manager.
#[derive(Clone, Copy, Debug, PartialEq, Eq, Error)]
pub enum RollRefusal {
    /// The number is another process's, or was given and is never given again.
    #[error("number {0} is taken")]
    Taken(u16),
    /// It may be asked for again later.
    #[error("wait")]
    Wait,
}

impl RollRefusal {
    /// The code by which NO tells it.
    pub fn code(&self) -> u8
        ensures { result ≡ refusal_code self.now }
    {
        match self {
            RollRefusal::Taken(_) => 7,
            RollRefusal::Wait => 8,
        }
    }
}

/// What SEAT or CLAIM is answered.
#[derive(Clone, Copy, Debug, PartialEq, Eq)]
pub enum RollAnswer {
    /// SEATED: the asker has this number, as far as this manager knows.
    Seated(NodeId),
    /// YES: the number is the asker's, as far as this manager knows.
    Yes,
    /// NO.
    No(RollRefusal),
}

/// What SEAT or CLAIM comes to.
#[derive(Clone, Copy, Debug, PartialEq, Eq)]
pub struct RollStep {
    pub answer: RollAnswer,
    /// What has to be in the log, and then in the roll, before the answer goes.
    pub logged: Option<Binding>,
}
