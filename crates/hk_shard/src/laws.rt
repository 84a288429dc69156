//! What holds of every shard.

ghost use Rattle.hk_shard.specs.Laws.{CellsShowThePart, LeasesNeverFall};
ghost use Rattle.hk_shard.specs.Reading.{LocalReadsAreReads, EarlierLeasesDo};

/// What was published last of a key, in its cell, is the row that the part has now; a key that the part has no row of was never
/// published.
pub fn cells_show_the_part()
    ensures { CellsShowThePart }
{}

/// No step lowers the end of a node's lease, which is 0 while the node is not ready, or its clock.
pub fn leases_never_fall()
    ensures { LeasesNeverFall }
{}

/// A read that is told from what the shard shows is told what the part answers to it, were the part's clock at the reading, and nothing
/// else comes of it: its content and tag, that there is none, or that it is busy. Where the end of the lease was loaded earlier, so that
/// it may be below the part's, the same holds unless the read is told that this lease may be over.
pub fn local_reads_are_reads()
    ensures reads { LocalReadsAreReads }
    ensures earlier { EarlierLeasesDo }
{}
