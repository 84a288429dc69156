//! The laws of a council of managers, and a run that shows they are not empty.

ghost use Rattle.hk_council.specs.Chain.{NeverReturns};
ghost use Rattle.hk_council.specs.Agreed.{Agreement, HeldRises};
ghost use Rattle.hk_council.specs.Worked.{Overtaken};

/// In every run the managers agree on one view for each epoch, each a change of the one before.
pub fn managers_agree()
    ensures { Agreement }
{}

/// A node that a view of a chain leaves out is in no later one.
pub fn a_node_never_returns()
    ensures { NeverReturns }
{}

/// No event lowers the epoch of the view that a manager holds.
pub fn held_views_rise()
    ensures { HeldRises }
{}

/// A run that is worked by hand: two managers propose rival changes, one overtakes the other and is chosen, and a view begins.
pub fn a_rival_is_overtaken()
    ensures { Overtaken }
{}
