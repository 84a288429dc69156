//! What happens at a moment.

use hk_base::NodeId;
use hk_inside::{Inquiry, Response};
use hk_link::Parcel;

/// Who asks.
#[derive(Clone, Copy)]
pub struct Asker {
    /// The host from which it asks.
    pub host: usize,
    /// Which process of that host, or which command.
    pub life: u64,
    pub is_command: bool,
    /// When it asked, by its clock.
    pub asked: u64,
    /// The number that it claims.
    pub claimed: Option<NodeId>,
}

/// What happens at a moment.
#[derive(Drop)]
pub enum Happening {
    /// A process begins at a host where none runs.
    Start(usize),
    /// A process looks how it stands, reports, and renews its leases.
    Beat {
        host: usize,
        life: u64,
    },
    /// The manager of a process makes a turn.
    Turn {
        host: usize,
        life: u64,
    },
    /// A letter of a group comes to whom it is for.
    Letter {
        founding: u64,
        parcel: Parcel,
    },
    /// An inquiry comes to the manager of a place.
    Ask {
        asker: Asker,
        place: u8,
        inquiry: Inquiry,
    },
    /// What the manager of a place answered comes.
    Answer {
        asker: Asker,
        place: u8,
        response: Response,
    },
    /// What was cut is healed.
    Heal {
        from: usize,
        to: usize,
    },
    /// `leave` is typed for the node of a host, so many times.
    Leave {
        host: usize,
        times: u64,
    },
    /// `init` is typed.
    Init,
    /// Something goes wrong.
    Fault,
    /// A phase ends.
    Phase,
}
