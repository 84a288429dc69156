//! The law of leases, and a run that shows it is not empty.

ghost use Rattle.hk_earned.specs.Earned.{Guarded};
ghost use Rattle.hk_earned.specs.Worked.{WorkedRun};

/// In every run each view that any node has installed has ended: no call is served at a live node that it leaves out.
pub fn installed_views_have_ended()
    ensures { Guarded }
{}

/// There is a run in which a view is installed that leaves out a live node which was granted a lease.
pub fn a_view_leaves_out_a_node()
    ensures { WorkedRun }
{}
