//! One key of a shard, written in one thread and watched in another.
//!
//! [`watch_writes`] makes a shard of the only node of a group, behind a lock. One thread writes the key that often, while another looks
//! by a watch of it, which takes no lock; when the writer has ended and both are joined, the watch looks once more. Then the one line of
//! the command is written. That the stamps of a watch rise is what `hk_watch` proves; that the last one is the last write's is compared
//! here before the line is written.
//!
//! The caller gives a runtime value that can start a thread. Where none can be made, the writes come first and then the looks.
//!
//! What is proved. Done comes only where the line of its words was written (`done`), WriteFault only where the sink's
//! faults rose (`write_fault`), and whatever comes, a front of that line was written (`front`). Each write is one step
//! of the shard (`KeyWriter::write`).
//!
//! What no clause says, and no test shows: that the threads write and look at all, since the line is a function of the
//! words. Were the stamps that were told not those of the writes, the answer would be Memory, and no line.
#![tactic(auto)]

mod command;
mod follower;
mod writer;

pub use command::watch_writes;
pub use writer::KeyWriter;
