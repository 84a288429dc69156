//! Single-decree Paxos, by which managers agree on one view.
//!
//! Each manager is an *acceptor* and, where it wants a view, a *proposer*. A proposer asks for promises at a ballot of
//! its own, proposes the view that the promises of a majority leave it, and reports a view once a majority accepted
//! it. All of it is one instance, which is named by the epoch of the view that is agreed on. The calls are exactly the
//! functions of `specs/Paxos.antt`. Of these a *run* is made, in `specs/Run.antt`: managers that propose, stop, and are
//! delivered any letter that was ever sent, in any order, once, often or never. `agreement` and `validity` are the laws over all runs,
//! and `worked_run` shows one.
//!
//! The algorithm is Lamport's, "Paxos made simple" (2001); the phases 1a to 2b are named as in his TLA+ of Paxos.
//!
//! What is proved. An acceptor gives None exactly where the ballot is below its promise. A proposer gives the view to
//! propose exactly at the promise that makes a majority: the one of the highest ballot that was accepted among them, or
//! its own; and the chosen view exactly at the acceptance that makes a majority. What does not count changes nothing,
//! and after want of memory each is as it was (`err`). `agreement`: in every run of one instance two chosen views are
//! equal, and a view that a proposer reports is chosen. `validity`: each view in a letter of a run was proposed in it.
#![tactic(auto)]

mod acceptor;
mod law;
mod proposer;

pub use acceptor::{Acceptor, Promise};
pub use law::{agreement, validity, worked_run};
pub use proposer::Proposer;
