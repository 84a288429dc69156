//! The loop of a worker, which keeps a node's shards going.
//!
//! A worker ([`Worker`]) has inlets and outlets of its node's links. [`work`] makes its turns, each asked of a gate
//! before. A turn takes one parcel and gives its letter to the shard that it is for; where all inlets are empty it
//! makes one request for a lease that is due, or else it sends again the update of a key for which someone waits, or of
//! the next key, in the order of shards and keys, that was open at the call of `work` before. What the step sends goes
//! on for the same shard, each letter asked of the gate. A turn that has nothing to do yields. One that finds no
//! memory, or whose letter the shard refuses, loses its parcel. What turns do is a definition, `specs/Turns.antt`.
//!
//! Letters are put quietly, and who waits for a step is not woken by it: behind its last turn, before one that finds no
//! parcel, and behind each sixteenth [`work`] rings for all that was put, and wakes all. So whoever sleeps between
//! calls of it owes nobody anything.
//!
//! Where the steps are made is behind a trait ([`Workplace`]), so that this crate knows of no lock. The caller owes
//! that all workers of a node share its shards.
//!
//! What is proved. `work` makes just the turns that it tells, the stated number at most, and fewer only where the gate
//! has closed (`made`, `most`, `fewer`). A request for a lease comes before what is sent again, and each time that
//! asking was called for asks each manager once (`LeaseRequests`). In place of the next open key may come one for whose
//! row someone waits, if the shards tell one (`SendsWanted`). A round has only the keys that were open at the call
//! before (`Round`). What a step sends goes out for the same shard, each letter as the gate answers (`GoOut`). An event
//! is lost only where the shard says why (`IsLost`).
//!
//! What no clause says: that workers run at all, that they ring, and whom they wake.
#![tactic(auto)]

mod requests;
mod round;
mod turning;
mod worker;
mod workplace;

pub use requests::LeaseRequests;
pub use turning::work;
pub use worker::{Inlets, Worker};
pub use workplace::{Unmade, Workplace};
