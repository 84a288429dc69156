//! What holds of every journal.

ghost use Rattle.hk_journal.specs.Laws.{ReplaysAreJoined, ReplaysStayReplays, ShownIsJoined, EntriesGive, ChangedAreReported, ChangedAreAll};

/// A journal that goes on from where another ends is one journal with it: the same node at its end, with the same rows shown in
/// the same order; and it is a replay where both are and the tickets rise over the seam. The entry of a step is a replay of it.
pub fn journals_are_joined()
    ensures replay { ReplaysAreJoined }
    ensures replays { ReplaysStayReplays }
    ensures shown { ShownIsJoined }
    ensures entry { EntriesGive }
{}

/// The rows that a step shows are those whose keys its report names, in the same order, as the node has them after the step.
/// What another key has is not changed by the step.
pub fn changed_rows_are_reported()
    ensures keys { ChangedAreReported }
    ensures all { ChangedAreAll }
{}
