//! What the reports of steps tell of open rows.

ghost use Rattle.hk_due.specs.Keys.{FollowingKeepsThem, OpenKeysStay};

/// Whoever follows each step has just the keys of the open rows, unless some are missing, and then of open rows alone. A key that stays open keeps its ticket.
pub fn steps_keep_the_open_keys()
    ensures kept { FollowingKeepsThem }
    ensures stay { OpenKeysStay }
{}
