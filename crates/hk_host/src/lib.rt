//! A process of a group over hosts.
//!
//! [`serve_host`] starts the manager of this host, if it has one, what reports to all managers, and what takes the connections of other processes. Then it waits until
//! the group is open and the process has a number there: as a founder, or one that it asked for. With that the node is made. A joiner copies what the others have,
//! a shard by a job of its own (`src/copying.rt`), from members that are ready; once all eight shards are whole the node serves clients.
//!
//! Nodes come and go. Each actor of the process has lanes (`src/lanes.rt`), which lead to one node after the other, and a job that leads one to each node whose
//! number has a holder, and ends that four leases behind the last board that told the node (`src/routing.rt`). Workers, readers, desks and the manager follow the routes.
//!
//! A job looks at each beat how the node stands, for the reports, whether it is to leave, and whether it was left out (`src/watching.rt`). Then it knocks at the clients'
//! port, so that who takes connections there learns of it. A node that leaves closes that port and asks for no lease, but goes on to acknowledge what others write. Once
//! it is left out [`serve_host`] returns.
#![tactic(auto)]

mod clients;
mod copying;
mod fault;
mod lanes;
mod manager;
mod metronome;
mod node;
mod queues;
mod routing;
mod sending;
mod serve;
mod watching;

pub use fault::ServeFault;
pub use manager::{HostManager, Inside};
pub use sending::Dialers;
pub use serve::{Serving, serve_host};
