//! The entries of a log.

use hk_base::{Actor, Change, Letter, Sequence};
use hk_fields::{FoundingHosts, Ticket};

/// What a group is founded with.
#[derive(Drop)]
pub struct Founding {
    /// The number of the founding, not 0, by which a group is told from all others.
    pub number: u64,
    /// The place of this manager's host, counted from 0.
    pub place: u8,
    /// The length of a lease in milliseconds.
    pub lease: u32,
    /// How far clocks may jump, in milliseconds.
    pub skew: u32,
    /// The 1 to 9 hosts.
    pub hosts: FoundingHosts,
}

/// What a manager logs before anybody may hear of it.
#[derive(Drop)]
pub enum Entry {
    /// The group was founded. What stands before it in a log is of an earlier group.
    Founded(Founding),
    /// The group was opened.
    Open,
    /// This manager proposed a change of the view of this epoch, in one of the 8 shards.
    Propose {
        shard: u8,
        base: u64,
        change: Change,
    },
    /// It took a letter of another manager about one of the 8 shards.
    Receive {
        shard: u8,
        letter: Letter,
    },
    /// It bound an actor to the process with this ticket.
    Bound {
        actor: Actor,
        ticket: Ticket,
    },
}

/// What is logged at once.
pub type Record = Sequence<Entry>;

/// The records of a log, the first one first.
pub type Records = Sequence<Record>;
