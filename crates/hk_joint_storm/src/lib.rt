//! Keys of a shard that are written in several threads, and read together in another.
//!
//! [`joint_storm`] makes a shard of the only node of a group, behind a lock, and writes four keys of it once. Then some
//! writers write them in turn, each in a thread of its own, while a reader reads all four together from their cells,
//! which takes no lock; its last read comes when the writers are joined. What it found goes with the shard's base and
//! journal to [`conclude_joint`], which places each read by the journal.
//!
//! The caller gives a runtime value that can start a thread. Where none can be made, the reads and the writes come one after the other.
//!
//! What is proved. `conclude_joint` answers Gap exactly where a read has no place, and its line tells of the first;
//! else Done, with how many were placed and how many of the asked reads found nothing; WriteFault only where the sink's
//! faults rose, after a front of the text (`exact`, `write_fault`). `joint_storm` ends by it (`HasConcluded`): with the
//! base and the journal of a shard of a group of one, and at most as many lists as it was asked for reads, each of a
//! snapshot of each of the four keys in turn. So those that found nothing are just the other reads.
//!
//! What no clause says: that the reads are those of its own reader, and that writers ran beside it.
#![tactic(auto)]

mod command;
mod ending;
mod gaps;
mod keys;
mod reading;
mod text;

pub use command::joint_storm;
pub use ending::conclude_joint;
pub use gaps::{JointFounds, JointGap};
pub use keys::{KeysWriter, storm_keys};
