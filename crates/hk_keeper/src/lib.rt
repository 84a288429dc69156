//! What a manager wishes for: who is dropped, who is added, and when a view may begin.
//!
//! A manager that runs beside nodes of other hosts hears of them by their asks for leases and by reports. From what it [`Heard`] at one moment
//! [`Heard::decide`] makes its wish in each of the eight shards, by the five rows of `specs/Table.antt`, the first that holds. It is asked at each beat.
//!
//! Nothing here is needed for safety: a wish is a proposal, on which managers agree by Paxos, or to let a view begin, which a manager refuses while a lease
//! may run that the view leaves out. What is told here of whom a wish drops keeps a group's data.
//!
//! What is proved. [`Heard::decide`] gives in each shard just the wish of the table, over the definitions of who is up,
//! heard, gone, ready and leaving (`specs/Heard.antt`), of at most 9 managers. No view is wished to begin up to 1 and
//! the wait on the manager's clock (`BeginBehindTheWait`). Whom it wishes to drop, another member is ready beside
//! (`LastReadyStays`), and a number that no shard gave is added only where it is the next one in all shards and its
//! node may join (`NumbersMoveTogether`); both but where a node asked of a later view than the one that is held (row
//! 2). Then the wish may name any change: Paxos gives the view that a majority accepted.
#![tactic(auto)]

mod heard;
mod laws;
mod standing;
mod table;

pub use heard::{
    AgeTold, Ask, Heard, ManagerHeard, NodeHeard, Proposal, ShardHeard, StateTold, Wish,
};
pub use laws::{numbers_move_together, the_last_ready_stays, views_begin_behind_the_wait};
