//! What may happen in a world.

use hk_base::{Actor, Change, Key, NodeId, Op};

/// How a group begins.
#[derive(Clone, Copy, Debug, PartialEq, Eq)]
pub struct Header {
    /// How many founders there are, 1 to 16. They are the nodes 0 and up.
    pub nodes: u8,
    /// How many managers there are, 0 to 9. With none, views and leases come from outside.
    pub managers: u8,
    /// How long the leases of founders are, and those that managers grant, in milliseconds.
    pub lease: u64,
    /// By how much one clock of a live actor may run ahead of another, beside one part in ten, in milliseconds.
    pub skew: u64,
}

/// An event of a world. Times are in milliseconds, up to `MAX_TIME`.
#[derive(Drop)]
pub enum Event {
    /// A client calls an operation at a node.
    Call {
        node: NodeId,
        key: Key,
        op: Op,
    },
    /// The letter of this number is delivered to its addressee.
    Take {
        letter: u64,
    },
    /// The clock of an actor rises.
    Tick {
        actor: Actor,
        to: u64,
    },
    /// The clocks of all live actors rise.
    TickAll {
        to: u64,
    },
    /// The actor stops for good.
    Crash {
        actor: Actor,
    },
    /// The node sends INV of its pending update again.
    Resend {
        node: NodeId,
        key: Key,
    },
    /// The node sends the update of its Invalid row again.
    Replay {
        node: NodeId,
        key: Key,
    },
    /// The joiner `node` asks `from` for its next rows, `room` of them at most, 1 to 64.
    Copy {
        node: NodeId,
        from: NodeId,
        room: u8,
    },
    /// The joiner starts. The last view, or one that a manager holds, has it as a member.
    Start {
        node: NodeId,
    },
    /// The next view is agreed, in a group without managers.
    Agree {
        change: Change,
    },
    /// The node installs the agreed view of this epoch, in a group without managers.
    Install {
        node: NodeId,
        epoch: u64,
    },
    /// The node is granted a lease, in a group without managers.
    Lease {
        node: NodeId,
        end: u64,
    },
    /// The node asks a manager for a lease. Nothing comes of it where that manager is not there.
    AskLease {
        node: NodeId,
        manager: u8,
    },
    /// A manager proposes a change of the view of epoch `base`.
    Propose {
        manager: u8,
        base: u64,
        change: Change,
    },
    /// A manager sends ACTIVATE of the view that it holds.
    Activate {
        manager: u8,
    },
}
