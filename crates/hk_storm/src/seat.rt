//! Where callers and workers are.

use hk_base::NodeId;

/// The place of a caller, or of a worker: all callers are numbered from 0, and so are all workers; the nodes take turns.
#[derive(Clone, Copy, Debug, PartialEq, Eq)]
pub(crate) struct Seat {
    /// The number among all.
    pub(crate) number: u8,
    /// The node.
    pub(crate) node: u8,
    /// The place at the node, from 0.
    pub(crate) place: u8,
}

impl Seat {
    /// The seat of this number at so many nodes. With no nodes it is at node 0.
    pub(crate) fn of(number: u8, nodes: u8) -> Seat {
        Seat {
            number,
            node: number.checked_rem(nodes).unwrap_or(0),
            place: number.checked_div(nodes).unwrap_or(0),
        }
    }

    /// The node's number.
    pub(crate) fn node_id(self) -> NodeId {
        NodeId(u16::from(self.node))
    }
}
