//! What holds of the letters that are kept, and of what is told.

ghost use Rattle.hk_assemble.specs.Known.{LettersStayKnown};
ghost use Rattle.hk_assemble.specs.Single.{AnswersAreOne};

use hk_merge::{kept_is_shown, merged_is_single, reads_leave, sameness_is_equality};

/// What is kept of letters tells the first copy of each, and tells it still when an entry has sent more.
pub fn letters_stay_known()
    ensures { LettersStayKnown }
{
    sameness_is_equality();
}

/// Of one input one answer is told, but for want of memory: one run, or one entry or note that fails.
pub fn answers_are_one()
    ensures { AnswersAreOne }
{
    reads_leave();
    kept_is_shown();
    merged_is_single();
}
