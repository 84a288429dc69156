//! Runs worked by hand.

ghost use Rattle.hk_joint.specs.Worked.{BatchStandsTogether, MomentsOrderKeys};

/// What the joint orders and the batches of two runs are: one in which a batch reads two keys, and one in which the later of two writes is
/// complete first.
pub fn worked_runs()
    ensures batch { BatchStandsTogether }
    ensures moments { MomentsOrderKeys }
{}
