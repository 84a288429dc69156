//! The four kinds of call.

ghost use Rattle.std.specs.Prelude.{◌≡◌};
ghost use Rattle.std.specs.Option.{option_copied};
ghost use Rattle.hk_history.specs.History.{is_void, is_unsure, is_answered};

use hk_base::Answer;

/// Whether nothing was begun.
pub fn is_void(answer: Option<&Answer>) -> bool
    ensures { result ≡ is_void (option_copied answer.entry) }
{
    match answer {
        Some(Answer::Busy(_)) => true,
        Some(Answer::Exhausted(_)) => true,
        Some(_) => false,
        None => false,
    }
}

/// Whether the call may have acted, or may act yet.
pub fn is_unsure(answer: Option<&Answer>) -> bool
    ensures { result ≡ is_unsure (option_copied answer.entry) }
{
    match answer {
        Some(Answer::Aborted(_)) => true,
        Some(_) => false,
        None => true,
    }
}

/// Whether the call did what its answer says.
pub fn is_answered(answer: Option<&Answer>) -> bool
    ensures { result ≡ is_answered (option_copied answer.entry) }
{
    match answer {
        Some(Answer::Busy(_)) => false,
        Some(Answer::Exhausted(_)) => false,
        Some(Answer::Aborted(_)) => false,
        Some(_) => true,
        None => false,
    }
}
