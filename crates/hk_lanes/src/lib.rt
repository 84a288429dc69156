//! Ways on which any thread of a process sends, without waiting for the other end.
//!
//! A [`Lane`] leads to one other actor, or nowhere: it may be ended, and begun for another one. Whoever put parcels into its
//! link calls [`Lane::send`]: one thread at a time sends what waits, also for those that come meanwhile, and none of them
//! waits. What would have to wait, since there is no connection or the other end does not read, is left to the lane's own
//! thread ([`LaneJob`]), and what is put meanwhile waits in the link, or is lost where that is full: so an actor that is slow
//! holds up nobody else.
//!
//! [`LaneDesks`] serves clients at desks that send what their updates say by themselves ([`LaneDesk`]). What comes from
//! another process it steps in the thread that reads it, and has what the node says to that leave.
//!
//! The caller gives each lane the one inlet of a link, the bell that puts for others to send ring, and a carrier of its own.
//!
//! Desks count what they tell ([`Tallies`]), for whoever runs the node.
//!
//! What is proved. A [`LaneDesk`] tells what the desk of its connection tells (`told`).
//!
//! What no clause says: that what was put is sent, or in which order over threads, and what was counted.
#![tactic(auto)]

mod desk;
mod job;
mod lane;
mod reader;
mod tally;

pub use desk::{LaneDesk, LaneDesks};
pub use job::LaneJob;
pub use lane::{Lane, Lanes};
pub use tally::{Tallies, Tally};
