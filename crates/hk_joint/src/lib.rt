//! Several keys of a run at one moment.
//!
//! The joint order of a run has the printed orders of all its keys in one. A change stands at the first event after
//! which it, or a later one of its key, is complete; any other call stands at the event that replied to it.
//!
//! What is proved. The joint order has the entries by event, then by key, then by stamp (`specs/Joint.antt`), and a
//! moment is the first such event (`moments_are_first`). That of one key is its printed order
//! (`keys_keep_their_order`). The joint order of every run is legal (`joint_orders_are_legal`: `JointLegal`): every
//! operation, on the register of its key, gives the answer that was given; no call stands behind one that began after
//! its answer; between two reads of a batch, which are reads of several keys by one node with nothing between, nothing
//! changes. [`Batching`] finds exactly the batches of a run (`batches_are_found`). `sort_by_event` keeps the order of
//! equals (`IsByEvent`), which makes the keys' orders the joint order (`placed_are_joint`). `joint_order` and
//! `live_joint_order` give its entries, and that it is legal (`exact`, `legal`). A [`NotedRun`] notes its batches, one
//! event after the other; a [`Batching`] that finds no memory may have lost some.
#![tactic(auto)]

mod batch;
mod laws;
mod noted;
mod order;
mod placing;
mod worked;

pub use batch::{BatchCalls, Batches, Batching, Reading};
pub use laws::{
    batches_are_found, joint_orders_are_legal, keys_keep_their_order, moments_are_first,
    moments_follow_completions, placed_are_joint,
};
pub use noted::NotedRun;
pub use order::{JointEntries, joint_order, live_joint_order};
pub use placing::sort_by_event;
pub use worked::worked_runs;
