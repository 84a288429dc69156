//! Several keys of a shard, read from its cells at one moment.
//!
//! [`read_joint`] loads each key's cell twice and takes no lock. What it finds are snapshots of cells that did not move between their two loads.
//!
//! What is proved (`IsJointRead`). The lease is loaded once, each key's cell once in turn, and then each again. The
//! answer is the first of Elsewhere, Moved, Busy and Large that holds of a key, and else Found, with what the second
//! loads showed (`joint_of`). Where it is Found, each cell's list at its second load is the one at its first (`still`).
//!
//! What no clause says: that what the cells showed stood together, since each has a rule of its own (`hk_place` tells
//! that by the journal); and that the lease is loaded first and the clock read last, which a test shows.
#![tactic(auto)]

mod judge;
mod look;
mod read;

pub use look::KeyLoads;
pub use read::{Joint, Snapshots, read_joint};
