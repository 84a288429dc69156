//! One manager of a group: one of those that agree on the views and grant the leases.
//!
//! A manager is a machine without threads: an event in, letters out. Beside a clock it has three parts. It is an acceptor and a
//! proposer of Paxos, with one instance for the view of each epoch; it *holds* the view of the greatest epoch that it learned;
//! and it grants leases to the members of that view, and lets a view begin, by ACTIVATE to its members, only once all that it
//! granted outside is past. What each event does is a definition, `specs/Steps.antt`; [`Manager::step`] equals it, or answers
//! that memory is wanting and leaves the manager as it was. A step tells what it replaced, by which [`Manager::undo`] takes it
//! back. Whoever makes the steps owes that all managers begin with the same
//! view, that a manager's number is its own, that a stopped manager never runs again, and that the clocks keep their rate.
//!
//! What is proved. Beside that `step` tells exactly one of its six refusals, in their order, and after one the manager
//! is as it was (`IsStepOf`). Over every step a manager stays one, and its letters are in range, sixteen at most
//! (`steps_keep_managers`). What a step replaced is given back exactly, without memory (`replaced`, `undo`).
#![tactic(auto)]

mod change;
mod event;
mod fault;
mod instance;
mod laws;
mod manager;
mod out;

pub use event::ManagerEvent;
pub use fault::ManagerFault;
pub use instance::{Instance, MAX_EPOCH, MAX_ROUND};
pub use laws::steps_keep_managers;
pub use manager::Manager;
pub use out::{ManagerOut, Replaced};
