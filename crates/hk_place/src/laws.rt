//! What the place of snapshots means.

ghost use Rattle.hk_place.specs.Cut.{JointReadsAreCuts, FoundWereShown, PlacedReadsAreSince};

/// Snapshots that readers of a shard's cells were shown, as a joint read finds them, and that have a place by the shard's base and journal, are the rows of one state: that behind the
/// journal's steps up to this place. So a joint read that has a place is a consistent cut through its keys. One that was shown before the journal began has no place by it.
pub fn joint_reads_are_cuts()
    ensures cuts { JointReadsAreCuts }
    ensures found { FoundWereShown }
    ensures since { PlacedReadsAreSince }
{}
