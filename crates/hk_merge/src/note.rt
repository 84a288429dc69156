//! Local reads and journals, as a merged run takes them.

use hk_base::{Answer, CallNo, Key, NodeId, Sequence};
use hk_journal::Journal;

/// What a reader that took no lock noted of one read.
#[derive(Drop)]
pub struct Note {
    /// The number of the call.
    pub call: CallNo,
    /// The node whose row was read.
    pub node: NodeId,
    pub key: Key,
    /// The ticket that the reader drew for itself, behind its load.
    pub own: u64,
    /// What the reader was told.
    pub answer: Answer,
    /// The ticket of the entry whose row was loaded.
    pub ticket: u64,
}

/// Notes, as they are listed.
pub type Notes = Sequence<Note>;

/// The journals of one shard number: one for each node, node 0 first. In each the tickets rise.
pub type Journals = Sequence<Journal>;
