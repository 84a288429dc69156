//! Why a group with managers needs no guard: a view that its managers let begin leaves out no node whose lease still runs.
//!
//! In a group without managers a view is installed behind a guard, and leases are granted to members of the last view alone. In one
//! with managers nobody sees the whole group. The managers agree on views, let them begin and grant leases by what each of them
//! knows, and nodes hear of it by letters that come late, again or never. The laws say that this is as good: whatever the events of
//! a world are, the managers are a council that agrees (`hk_council`), and what they noted and granted, with the clocks of all, is
//! what the machine of leases (`hk_earned`) has. So whatever view any node ever has, each live node that it leaves out has a clock
//! past its end, then and ever after.
//!
//! The crate has laws alone. Whoever uses them owes nothing but a header with managers and a run of accepted events. Two laws are of
//! all groups, also of those without managers, and of events that may be refused: the clocks of a world run apart by their rate at
//! most, as leases need it, and a tick is refused for the rate only where it would not be kept.
//!
//! What is proved. `managers_of_worlds_agree`: the managers are that council. `views_that_begin_have_ended`: each view
//! that may have begun, the first or one that a majority let begin, has left out no live node whose lease still runs,
//! by the ends that the node received (`ended`), and by those that a majority of the managers granted it, though it may
//! not have received them yet (`expired`); and each view that a node has is such a one (clause `moment`), then and ever
//! after (`ever`), and stays the one that managers learned for its epoch (`learned`). `clocks_of_worlds_keep_the_rate`.
//! `worlds_refuse_exactly`: a tick that is made keeps the rate, and of one that is refused for it the first live actor is
//! told with which it would not be kept. `a_view_begins_without_a_node` is worked by hand: three managers, two of them
//! rivals, and a node that had a lease by a majority and is left out.
#![tactic(auto)]

mod law;

pub use law::{
    a_view_begins_without_a_node, clocks_of_worlds_keep_the_rate, managers_of_worlds_agree,
    views_that_begin_have_ended, worlds_refuse_exactly,
};
