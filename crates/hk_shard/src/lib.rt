//! A shard of a node: its part of the keys, with the journal of what happened there.
//!
//! Each key belongs to one of eight shards of its node, and each shard is a [`Node`](hk_node::Node) of its own, its *part*. Beside
//! the part a [`Shard`] keeps its *base*, the node as it was when the journal began, and the *journal*: the part is the replay of
//! the journal from the base, at every moment. A checkpoint hands the journal out, and the part becomes the base. The base is not held: of
//! each step since then the shard keeps what it replaced, by which the base is made of the part when it is asked for.
//!
//! What a shard shows to readers that hold no lock stands in its cells (`hk_snap`): each row that an event changed is published
//! before [`Shard::apply`] or [`Shard::step`] returns, and the lease cell shows the end of the part's lease and its clock. So what is published in a
//! cell is just what the journal tells.
//!
//! The caller keeps a lock round each shard where threads share it, gives tickets that rise and events that are in range, and
//! brings together only readers of the same shard's cells.
//!
//! What is proved. `apply` makes exactly the node's step, adds its one entry, and has published each changed row before
//! it returns (`out`, `applied`); so does `step`, which the keys of the open rows follow (`followed`). `checkpoint`
//! hands out the journal (`journal`, `anew`), and `base` is the node as it was when that began. After want of memory
//! the whole shard is as it was (`err`), and so is a reader that was to be brought up to it (`meet`, `meet_lease`).
//! What its cells show last of a key is the row of its node (`cells_show_the_part`). What is published in each cell
//! rises by tickets, and by keys where these are equal (`IsShard`, `rises`). Neither the end of its lease nor its clock
//! falls (`leases_never_fall`). A read that is told from what it shows is told what its node answers, by the lease that
//! the cell shows now; by an earlier one too, or that this lease may be over (`local_reads_are_reads`).
//!
//! What no clause says: what a call costs, and how much the shard holds ([`Shard::held`]).
#![tactic(auto)]

mod cells;
mod held;
mod laws;
mod replaced;
mod shard;
mod show;

pub use cells::ShardCells;
pub use held::Held;
pub use laws::{cells_show_the_part, leases_never_fall, local_reads_are_reads};
pub use shard::{Shard, ShardOut, shard_of};
