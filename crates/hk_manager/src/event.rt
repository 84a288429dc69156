//! What may happen at a manager.

use hk_base::{Change, Letter};

/// An event of one manager.
#[derive(Drop)]
pub enum ManagerEvent {
    /// A change of the view of the epoch `base`, which the manager must hold, is proposed.
    Propose { base: u64, change: Change },
    /// A letter comes, which must be in range.
    Receive(Letter),
    /// The members of the view that the manager holds are told that it may begin.
    Activate,
    /// The clock reads `now`, in milliseconds up to `MAX_TIME`. A clock never falls.
    Tick { now: u64 },
}
