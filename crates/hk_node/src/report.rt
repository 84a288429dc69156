//! What a step of a node did to it.

use hk_base::{Key, Sequence, View};
use hk_key::Row;

/// A key whose row changed, and the row that it had, if it had one.
#[derive(Drop)]
pub struct PriorRow {
    pub key: Key,
    pub row: Option<Row>,
}

/// The keys whose rows changed, in their order.
pub type PriorRows = Sequence<PriorRow>;

/// What a step did to its node, for whoever watches it.
#[derive(Drop)]
pub struct Report {
    /// The epoch of the node before the step, 0 where it had no view.
    pub epoch: u64,
    /// Whether the step made the node ready.
    pub readied: bool,
    /// The keys whose rows changed, in their order, each with the row that it had, if it had one.
    pub rows: PriorRows,
}

/// What an event replaced beside rows, for whoever takes its step back.
#[derive(Drop)]
pub enum Undo {
    Nothing,
    /// The clock.
    Clock(u64),
    /// The greatest end of a lease.
    Lease(u64),
    /// The greatest end of a lease, and of each manager the greatest end that it granted.
    Granted {
        granted: u64,
        ends: Sequence<u64>,
    },
    /// Of each manager the greatest epoch of which it sent ACTIVATE.
    Activated(Sequence<u64>),
    /// The view that was installed before, if there was one, and the same of each manager.
    View {
        view: Option<View>,
        activated: Sequence<u64>,
    },
    /// The cursor of a node that was not ready.
    Cursor(Option<Key>),
}
