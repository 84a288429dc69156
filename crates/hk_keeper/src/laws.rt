//! The laws of wishes, over the table of [`crate::Heard::decide`].

ghost use Rattle.hk_keeper.specs.Laws.{BeginBehindTheWait, LastReadyStays, NumbersMoveTogether};

/// A manager wishes no view to begin in the first moments of its process, in which a lease may run that an earlier one granted.
pub fn views_begin_behind_the_wait()
    ensures { BeginBehindTheWait }
{}

/// The last member that is ready is never dropped, but in a change on which a majority agreed before.
pub fn the_last_ready_stays()
    ensures { LastReadyStays }
{}

/// A new number is added in all shards or in none.
pub fn numbers_move_together()
    ensures { NumbersMoveTogether }
{}
