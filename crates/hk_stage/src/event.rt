//! What a manager hears of foundings, and what it answers.

ghost use Rattle.std.specs.Prelude.{◌≡◌};
ghost use Rattle.hk_stage.specs.Stages.{refusal_code};

use crate::stage::Stage;
use thiserror::Error;

/// What another manager's board told.
#[derive(Clone, Copy, Debug, PartialEq, Eq)]
pub struct Board {
    /// The place of the manager that told it.
    pub from: u8,
    pub stage: Stage,
    /// The reading of the asker's clock when it was asked for, in milliseconds.
    pub asked: u64,
}

/// What happens to a manager.
#[derive(Clone, Copy, Debug, PartialEq, Eq)]
pub enum StageEvent {
    /// LOOK: `init` asks how it stands, and wants it reserved for this founding.
    Look(u64),
    /// FOUND: `init` founds the group with this number.
    Found(u64),
    /// Another manager told how it stands.
    Told(Board),
    /// Time goes by.
    Tick,
}

/// Why `init` has to stop or to wait.
#[derive(Clone, Copy, Debug, PartialEq, Eq, Error)]
pub enum StageRefusal {
    /// The manager is open with this founding.
    #[error("the group lives: founding {0:016x}")]
    Lives(u64),
    /// The manager is not reserved for the founding, or not any more.
    #[error("wait")]
    Wait,
    /// The manager is reserved for another founding.
    #[error("another init runs")]
    AnotherInit,
}

impl StageRefusal {
    /// The code by which NO tells it.
    pub fn code(&self) -> u8
        ensures { result ≡ refusal_code self.now }
    {
        match self {
            StageRefusal::Lives(_) => 1,
            StageRefusal::Wait => 8,
            StageRefusal::AnotherInit => 10,
        }
    }
}

/// What a request of `init` is answered.
#[derive(Clone, Copy, Debug, PartialEq, Eq)]
pub enum StageAnswer {
    /// STATE: how the manager stood before. It is reserved now.
    State(Stage),
    /// YES: it is founded.
    Yes,
    /// NO.
    No(StageRefusal),
}

/// What has to be in the log before a step is taken, in this order and in one record.
#[derive(Clone, Copy, Debug, PartialEq, Eq)]
pub struct Logged {
    /// The group was founded with this number.
    pub founded: Option<u64>,
    /// The group was opened.
    pub opened: bool,
}
