//! Leases: the numbers by which managers grant them to nodes.
//!
//! A *lease* of a node has an *end* on the node's own clock, in milliseconds: what the node asked at, and the length of a lease.
//! A node's lease ends at the greatest end that a majority of the managers granted it at least, [`node_end`]. The manager that
//! grants an end notes an *until* on its own clock: the present time, and [`wait`] of the length, by which the node's clock is
//! past the end, though it go slower by a tenth. A manager lets a view begin only once its clock is past every until that it
//! noted for a node outside the view, [`Grants::all_past`]. Nothing here knows of keys, of how a view is agreed on, or of clocks:
//! that they keep the rate is what the caller owes.
//!
//! What is proved. `wait` is the shortest time in whole milliseconds that is not below eleven tenths of a lease
//! (`tenth`). `grant` keeps the greatest until of its node and leaves the others (`greatest`, `others`); where it finds
//! no memory nothing changes (`err`). `all_past` is Ok exactly where every until noted outside the view is below now,
//! and else names the least such node (`least`). `node_end` is the greatest end that a majority granted at least
//! (`majority`). That an excluded node's lease has ended then, where clocks keep the rate, is the law of `hk_earned`,
//! and of `hk_managed` for worlds.
#![tactic(auto)]

mod end;
mod grants;
mod rate;

pub use end::node_end;
pub use grants::{Grants, NotPast};
pub use rate::wait;
