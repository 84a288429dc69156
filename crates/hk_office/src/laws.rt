//! The laws of offices, over the definitions of [`crate::Office::answer`] and its like.

ghost use Rattle.hk_office.specs.Laws.{LogTellsTheOffice, AnswersAreBound, NothingBeforeItIsOpen};
ghost use Rattle.hk_office.specs.Ranges.{StaysInRange};

use hk_roll::numbers_are_bound_by_the_rule;
use hk_stage::foundings_are_logged;

/// What a step logs makes of what the log told before just the stage and the roll behind the step.
pub fn offices_are_made_again()
    ensures { LogTellsTheOffice }
{
    foundings_are_logged();
}

/// Who is answered that a number is its own has it in the roll behind the step.
pub fn answers_are_bound()
    ensures { AnswersAreBound }
{
    numbers_are_bound_by_the_rule();
}

/// Before the group is open a manager binds nothing but by FOUND, and its cores have nothing to do.
pub fn nothing_before_it_is_open()
    ensures { NothingBeforeItIsOpen }
{}

/// Of an inquiry that names no founding out of range, what is logged may stand in a log, and what is answered in a frame.
pub fn answers_stay_in_range()
    ensures { StaysInRange }
{
    foundings_are_logged();
    numbers_are_bound_by_the_rule();
}
