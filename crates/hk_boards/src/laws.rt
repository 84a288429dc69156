//! The laws of holders, over the definition of [`crate::Boards::holder`].

ghost use Rattle.hk_boards.specs.Laws.{HeldByMost, OneHolderIsHeard, HoldersAreReached};

use hk_roll::{a_number_has_one_holder, boards_name_whom_most_tell};

/// A process is told as a number's holder exactly where the boards of more than half of the managers bind the number to
/// it.
pub fn holders_are_told_by_most()
    ensures { HeldByMost }
{
    boards_name_whom_most_tell()
}

/// Two processes never take different ones for the holder of a number, whichever boards came to each, and however old
/// they are.
pub fn processes_agree_on_holders()
    ensures { OneHolderIsHeard }
{
    boards_name_whom_most_tell();
    a_number_has_one_holder()
}

/// Each holder of which some board tells an address is reached: where the newest of these boards tells it.
pub fn holders_are_reached()
    ensures { HoldersAreReached }
{}
