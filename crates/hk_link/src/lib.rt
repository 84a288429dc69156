//! Links: bounded queues of parcels between workers, first in, first out.
//!
//! A link has outlets, which put, and inlets, which take; both may be split for more threads and joined again. What an end knows of its link goes with it and
//! takes no bytes: what was put and taken, as far as it has seen that, and its share of the right to put or to take. Whoever has a whole right has seen all.
//! So what is taken is a prefix of what was put, in order, and nothing is doubled or made up: [`close_link`] tells that of the last two ends. A put answers
//! [`Full`] only where the link held as many parcels as it has room for, a take `None` only where it was empty, each at a moment of that call.
//! That a thread which waits is ever served is no part of this.
//!
//! A [`Bell`] lets whoever takes sleep until something was put. A put rings it, or several quiet ones and one `ring`
//! behind them. The caller owes that `ring`, before it waits for anything: a parcel that is not rung for waits for the
//! next one that is.
//!
//! What is proved beside. A full link gives the parcel back and is as it was (`put`). An end that has the whole right
//! is told Full only where at least as many parcels were put as there is room for, and is given nothing only where it
//! took all that it knows to be put (`lone_ends_wait_for_a_reason`). A `split` that finds no memory changes nothing
//! (`err`).
//!
//! What no clause says: that a bell wakes who sleeps, and that a quiet put is rung for. Tests show it.
#![tactic(auto)]

mod bell;
mod ends;
mod laws;
mod parcel;
mod rule;
mod steps;

pub use bell::Bell;
pub use ends::{Inlet, Outlet, close_link, link};
pub use laws::{halves_make_the_whole, lone_ends_wait_for_a_reason};
pub use parcel::{Full, Parcel};
pub use rule::{Known, Side};
