//! What was counted.

use std::io::{self, Eprint};

/// What was counted, in all groups so far.
#[derive(Clone, Copy)]
pub struct Counts {
    pub events: u64,
    /// For how many milliseconds processes ran, all together.
    pub ran: u64,
    pub groups: u64,
    /// In how many groups no node was left that had all rows.
    pub lost: u64,
    /// How often a group served again behind faults.
    pub served: u64,
    /// How many nodes were made.
    pub nodes: u64,
    /// How many views began.
    pub views: u64,
}

impl Counts {
    /// Nothing was counted yet.
    pub fn new() -> Counts {
        Counts {
            events: 0,
            ran: 0,
            groups: 0,
            lost: 0,
            served: 0,
            nodes: 0,
            views: 0,
        }
    }

    /// Tells them on one line of standard error.
    pub fn tell<R: Eprint>(&self, rt: &R) -> io::Result<()> {
        eprintln!(rt;
            "{} events, {} host-hours, {} groups ({} lost), {} rounds served, {} nodes, {} views",
            self.events,
            self.ran / 3_600_000,
            self.groups,
            self.lost,
            self.served,
            self.nodes,
            self.views
        )
    }
}
