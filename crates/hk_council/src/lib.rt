//! Why all managers agree on one view for each epoch, each of them a change of the one before.
//!
//! Managers propose changes of the view that they hold, and agree on them by Paxos, with one instance for the view of each epoch.
//! The *learned* views are those that any manager came to hold, in the order of their epochs. In every run, whatever letters come
//! late, again or never, and whoever stops: the learned views are the first one and then one change after the other, with no epoch
//! left out; each view that a manager holds, reports as chosen or lets begin is the learned one of its epoch; and what is agreed on
//! in the instance of an epoch is a change of the learned view before it.
//!
//! The crate has laws alone, over a machine that makes the steps of `hk_manager`. Whoever uses them owes that all managers begin
//! with the same view, whose epoch is 1, that a manager's number is its own, that a stopped manager makes no step, and that no
//! letter bears the name of a manager that did not send it.
//!
//! What is proved. `managers_agree`: so it is at the end of every run (`IsAgreed`). Each later view is chosen by a
//! majority in the instance of its epoch. That is a run of Paxos with the letters of the managers and no others, but
//! for reports of a chosen view, which stand for themselves (`HasPaxosRun`: `letters`, `sent`): only acceptances that
//! managers sent count. `held_views_rise`: no manager goes back to an earlier view. `a_node_never_returns`: a node that
//! a view leaves out is in no later one. `a_rival_is_overtaken` is a run worked by hand.
#![tactic(auto)]

mod law;

pub use law::{a_node_never_returns, a_rival_is_overtaken, held_views_rise, managers_agree};
