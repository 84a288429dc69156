//! What a process begins with that finds a log: which group it is of, whether that is open, which numbers its manager
//! bound, and the managers of its eight shards, as they return.
//!
//! [`restore`] goes over the records that `hk_disk::recover` gave, entry after entry. A founding begins a group, with
//! managers that hold the first view and made no step; what stands before it is of an earlier group, and counts for
//! nothing. Behind it the group is opened, once, and only an open one has steps, each of which the manager of its shard
//! makes anew, as `hk_durable` does. A founding of another host, one on other terms, or an entry that none of these
//! allows is told, the first one of the log, and the process must not go on: such a log is none of its own.
//!
//! The caller owes its place among the hosts, the terms that it was started with, and the first view, of which all
//! hosts are members. The managers have the clock 1, and noted for each member of each view that they held by the log
//! the until of a lease that is granted then.
//!
//! What is proved. [`restore`] gives exactly what `restored` of `specs/Restoring.antt` gives, or just its fault, but for
//! want of memory. The managers are those that return, of which `hk_return` has the laws
//! (`restored_managers_return`).
//!
//! What no clause says: that the records are those of this host's disk, and all of them.
#![tactic(auto)]

mod fault;
mod group;
mod law;
mod records;

pub use fault::RestoreFault;
pub use group::{Bindings, Restored, RestoredGroup, Terms};
pub use law::restored_managers_return;
pub use records::restore;
