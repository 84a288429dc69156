//! Which nodes are doubted, as workers find it.

ghost use Rattle.std.specs.Prelude.{◌<◌};
ghost use Rattle.std.specs.Option.{IfSome};

use hk_base::{Actor, NodeId};
use hk_locked::Doubt;
use std::sync::atomic::{AtomicU64, Ordering};

// A group has at most 16 nodes, and none is doubted whose number is higher. One bit for each that has forgotten, one for each that is no member, and one for this node.
const NODES: u32 = 16;

const HERE: u32 = 32;

/// What letters showed so far that none would show in a group whose nodes all run as they began. From then on no letter of a node that has forgotten is taken, and
/// none at all where this node has. Each doubt is told once.
#[derive(Drop)]
pub(crate) struct Doubts {
    noted: AtomicU64,
    told: AtomicU64,
}

// None where no group has a node of this number.
fn place_of(node: NodeId) -> Option<u32>
    ensures { IfSome result (λ place. place < 16) }
{
    let place = u32::from(node.0);
    if place < NODES { Some(place) } else { None }
}

fn bit_of(doubt: Doubt) -> u64 {
    match doubt {
        Doubt::Forgot(node) => match place_of(node) {
            Some(place) => 1 << place,
            None => 0,
        },
        Doubt::Stranger(node) => match place_of(node) {
            Some(place) => 1 << (NODES + place),
            None => 0,
        },
        Doubt::ForgotHere => 1 << HERE,
    }
}

fn doubt_of(place: u32) -> Doubt {
    let node = NodeId((place % NODES) as u16);
    if place < NODES {
        Doubt::Forgot(node)
    } else if place < HERE {
        Doubt::Stranger(node)
    } else {
        Doubt::ForgotHere
    }
}

impl Doubts {
    /// Nothing is doubted.
    pub(crate) fn new() -> Doubts {
        Doubts {
            noted: AtomicU64::new(0),
            told: AtomicU64::new(0),
        }
    }

    /// A letter showed this.
    pub(crate) fn note(&self, doubt: Doubt) {
        self.noted.fetch_or(bit_of(doubt), Ordering::SeqCst);
    }

    /// Whether letters of the sender are taken.
    pub(crate) fn takes(&self, from: Actor) -> bool {
        let noted = self.noted.load(Ordering::SeqCst);
        let doubted = match from {
            Actor::Node(node) => bit_of(Doubt::Forgot(node)) | bit_of(Doubt::ForgotHere),
            Actor::Manager(_) => bit_of(Doubt::ForgotHere),
        };
        noted & doubted == 0
    }

    /// A doubt that was not told yet, if there is one.
    pub(crate) fn next(&self) -> Option<Doubt> {
        let fresh = self.noted.load(Ordering::SeqCst) & !self.told.load(Ordering::SeqCst);
        if fresh == 0 {
            return None;
        }
        let place = fresh.trailing_zeros();
        let doubt = doubt_of(place);
        let before = self.told.fetch_or(bit_of(doubt), Ordering::SeqCst);
        if before & bit_of(doubt) == 0 {
            Some(doubt)
        } else {
            None
        }
    }
}
