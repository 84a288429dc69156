//! The laws of the worked journals.

ghost use Rattle.hk_worked.specs.Merging.{WorkedMerge};
ghost use Rattle.hk_worked.specs.Assembling.{WorkedRun};
ghost use Rattle.hk_worked.specs.Storming.{WorkedStorm};

use hk_merge::merge_is_merged;
use hk_safety::runs_are_legal;

/// Two journals and a note are one list, by tickets; a note stands before the next entry of its key at its node.
pub fn two_journals_are_merged()
    ensures { WorkedMerge }
{
    merge_is_merged();
}

/// Their run, and three ways in which journals and notes come to none.
pub fn their_run_is_assembled()
    ensures { WorkedRun }
{
    merge_is_merged();
}

/// A storm of these two calls tells that both were answered, or which one was not made.
pub fn a_storm_of_two_calls_is_told()
    ensures { WorkedStorm }
{
    merge_is_merged();
    runs_are_legal();
}
