//! An ask of an update.

ghost use Rattle.std.specs.Prelude.{◌≡◌};

use hk_base::{Answer, Key};

/// An update that a desk asked and that was begun. It is kept under its call's number.
#[derive(PartialEq, Eq, Drop)]
pub struct Ask {
    pub key: Key,
    /// The ticket of the step that began the update.
    pub ticket: u64,
    /// What was delivered, if anything was.
    pub told: Option<Answer>,
    /// Whether its desk still waits for it.
    pub wanted: bool,
}

impl Ask {
    ghost use Rattle.hk_told.specs.Kept.{told_ask};

    /// Delivers an answer. What was delivered first stays.
    pub fn tell(&mut self, answer: Answer)
        ensures { self.new ≡ told_ask answer self.old }
    {
        if self.told.is_none() {
            self.told = Some(answer);
        }
    }
}
