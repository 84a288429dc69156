//! Why a view that managers let begin leaves out no node whose lease still runs.
//!
//! A manager grants a node a lease whose end is on the node's clock, and notes an until on its own, a tenth longer than the lease.
//! It lets a view begin once its clock is past every until that it noted outside the view. A node's lease ends at the greatest
//! end that a majority granted, and a view is installed on a majority's word. So the two share a manager; its clock is past its
//! until, and by the rate at which clocks run apart the node's clock is past the end.
//!
//! The crate has laws alone, over a machine of managers, nodes and clocks in the words of the crates below. That the views on which
//! the managers agreed are one for each epoch, and leave a node out for good, is the premise.
//!
//! What is proved, as `installed_views_have_ended`: in every run of the machine (`specs/Machine.antt`) each view that
//! any node has installed leaves out no live node whose lease still runs, by the ends that the node received and by
//! those that a majority granted it. In a worked run of three managers a view leaves out a node which had a lease by a
//! majority (`a_view_leaves_out_a_node`).
#![tactic(auto)]

mod law;

pub use law::{a_view_leaves_out_a_node, installed_views_have_ended};
