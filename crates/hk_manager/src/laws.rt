//! What holds of every step of a manager.

ghost use Rattle.hk_manager.specs.Laws.{StepKeepsManager, LettersInRange};

/// A step keeps what every manager keeps, and sends only letters that are in range, 16 at most.
pub fn steps_keep_managers()
    ensures manager { StepKeepsManager }
    ensures letters { LettersInRange }
{}
