//! What may happen at a node.

ghost use Rattle.std.specs.Prelude.{◌≡◌, IfOk};

use hk_base::{CallNo, Key, Letter, Memory, NodeId, Op, View};

/// An event of one node.
#[derive(Drop)]
pub enum NodeEvent {
    /// A client calls an operation on a key.
    Call { call: CallNo, key: Key, op: Op },
    /// A letter comes, which must be in range.
    Receive(Letter),
    /// INV of the key's pending update is sent again to those that have not acknowledged it.
    Resend(Key),
    /// The update of an Invalid row is sent again, as its coordinator did.
    Replay(Key),
    /// The node asks a manager for a lease. One whose number is not below the group's number of managers is not asked.
    AskLease { manager: u8 },
    /// A joiner asks another member for its next rows, `room` of them at most, 1 to 64.
    AskCopy { from: NodeId, room: u8 },
    /// The clock reads `now`, in milliseconds up to `MAX_TIME`. A clock never falls.
    Tick { now: u64 },
    /// A lease is granted that ends at `end`, in milliseconds up to `MAX_TIME`.
    Grant { end: u64 },
    /// A view is to be installed. It needs 1 to 16 members.
    Install(View),
}

impl NodeEvent {
    /// A call, which shares the key and what the operation holds.
    pub fn of_call(call: CallNo, key: &Key, op: &Op) -> Result<NodeEvent, Memory>
        ensures { IfOk result (λ event. event ≡ NodeEvent.Call call key.now op.now) }
    {
        let key = key.share()?;
        let op = op.share()?;
        Ok(NodeEvent::Call { call, key, op })
    }
}
