//! How much a shard holds.

use hk_key::Row;
use hk_node::PriorRow;

/// How much a shard holds. No clause speaks of it: it is for whoever runs the node.
#[derive(Clone, Copy, Debug, PartialEq, Eq)]
pub struct Held {
    /// How many keys have a row. A key that was deleted keeps its row.
    pub keys: u64,
    /// How many bytes these keys and their data have.
    pub bytes: u64,
}

fn data_len(row: &Row) -> u64 {
    match &row.content {
        Some(content) => content.bytes.bytes().len() as u64,
        None => 0,
    }
}

impl Held {
    /// Nothing.
    pub fn nothing() -> Held {
        Held { keys: 0, bytes: 0 }
    }

    /// What both hold together.
    pub fn with(self, other: Held) -> Held {
        Held {
            keys: self.keys.wrapping_add(other.keys),
            bytes: self.bytes.wrapping_add(other.bytes),
        }
    }

    /// A step changed the row of a key to this one.
    pub(crate) fn note(&mut self, prior: &PriorRow, row: &Row) {
        let gone = match &prior.row {
            Some(before) => data_len(before),
            None => {
                self.keys = self.keys.wrapping_add(1);
                self.bytes = self.bytes.wrapping_add(prior.key.bytes().len() as u64);
                0
            }
        };
        self.bytes = self.bytes.wrapping_sub(gone).wrapping_add(data_len(row));
    }
}
