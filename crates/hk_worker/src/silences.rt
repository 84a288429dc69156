//! Which nodes leave an update unacknowledged, as it is sent to them again.

use hk_base::{Actor, Body, Key, Letter, Letters, Memory, NodeId, Stamp};
use std::alloc::Global;
use std::sync::{Mutex, Wait};

// An update that was not sent again for so many looks was acknowledged, or given up.
const LOOKS: u64 = 2;

/// A node that has left one update unacknowledged over so many looks.
#[derive(Clone, Copy, Debug, PartialEq, Eq)]
pub struct Silent {
    /// The node.
    pub node: NodeId,
    /// The looks between that at which the update was first found sent again and the last one, at least 1.
    pub looks: u64,
}

// An update that was sent to a node again: first behind this look, and last behind that.
#[derive(Drop)]
struct Silence {
    node: NodeId,
    key: Key,
    stamp: Stamp,
    first: u64,
    last: u64,
}

#[derive(Drop)]
struct Noted {
    looks: u64,
    silences: Vec<Silence>,
}

/// Of each node one update that it has not acknowledged: that which was sent to it again before others. So of a node that
/// acknowledges late now and then nothing is told, and of one that is silent for how long it is.
#[derive(Drop)]
pub(crate) struct Silences {
    noted: Mutex<Noted>,
}

// The node to which a letter brings an update, with the update's key and stamp.
fn update_of(letter: &Letter) -> Option<(NodeId, &Key, Stamp)> {
    let Actor::Node(node) = letter.to else {
        return None;
    };
    match &letter.body {
        Body::Inv { key, stamp, .. } => Some((node, key, *stamp)),
        _ => None,
    }
}

impl Silence {
    fn new(node: NodeId, key: &Key, stamp: Stamp, look: u64) -> Result<Silence, Memory> {
        Ok(Silence {
            node,
            key: key.share()?,
            stamp,
            first: look,
            last: look,
        })
    }

    // Whether its update was not sent again for long.
    fn is_over(&self, look: u64) -> bool {
        self.last.saturating_add(LOOKS) < look
    }

    fn is_of(&self, key: &Key, stamp: Stamp) -> bool {
        self.stamp == stamp && self.key == *key
    }
}

impl Noted {
    // The update was sent to the node again. Another one takes the place of one that is over.
    fn note(&mut self, node: NodeId, key: &Key, stamp: Stamp) -> Result<(), Memory> {
        let look = self.looks;
        for silence in self.silences.iter_mut() {
            if silence.node == node {
                if silence.is_of(key, stamp) {
                    silence.last = look;
                } else if silence.is_over(look) {
                    *silence = Silence::new(node, key, stamp, look)?;
                }
                return Ok(());
            }
        }
        self.silences.push(Silence::new(node, key, stamp, look)?)?;
        Ok(())
    }

    // The nodes whose update was sent again since a look before the last one.
    fn silent(&self, alloc: Global) -> Result<Vec<Silent>, Memory> {
        let mut silent = Vec::new(alloc);
        for silence in self.silences.iter() {
            if silence.first < silence.last {
                silent.push(Silent {
                    node: silence.node,
                    looks: silence.last - silence.first,
                })?;
            }
        }
        Ok(silent)
    }
}

impl Silences {
    /// Nothing was sent again.
    pub(crate) fn new(alloc: Global) -> Silences {
        Silences {
            noted: Mutex::new(Noted {
                looks: 0,
                silences: Vec::new(alloc),
            }),
        }
    }

    /// These letters send an update again. Where memory is wanting it is not noted.
    pub(crate) fn note<R: Wait>(&self, rt: &R, letters: &Letters) {
        let mut guard = self.noted.lock(rt);
        let noted = &mut *guard;
        for letter in letters.as_slice() {
            if let Some((node, key, stamp)) = update_of(letter) {
                let _ = noted.note(node, key, stamp);
            }
        }
    }

    /// Looks at what was noted, and forgets what is over.
    pub(crate) fn look<R: Wait>(&self, rt: &R, alloc: Global) -> Result<Vec<Silent>, Memory> {
        let mut guard = self.noted.lock(rt);
        let noted = &mut *guard;
        noted.looks = noted.looks.saturating_add(1);
        let look = noted.looks;
        noted.silences.retain(|silence| !silence.is_over(look));
        noted.silent(alloc)
    }
}
