//! Histories of one key, and when an order of its calls is legal.
//!
//! A *history* is what clients saw of a key: the calls that they made and the replies that they were given, as they
//! happened. An *order* puts calls one after the other. It is legal where a single register, asked in that order,
//! gives each call its reply, and where no call stands before one that was answered before it began. Nothing here
//! knows of nodes, letters or time.
//!
//! [`check_order`] tells whether an order is legal, and else the first rule that it breaks and where. It asks for a
//! history, which [`is_history`] tests. Both sort by ordered maps, and take time in n log n.
//!
//! What is proved. [`check_order`] answers Ok only where the order is legal (`specs/Legal.antt`), and a breach only
//! where it is not: the first broken rule, at the least numbers of calls (`IsChecked`). The rules in their order:
//! strangers, calls that stand twice, void ones, lacking ones, early ones, and then the fold from the front.
//! [`is_history`] decides exactly what that asks for.
#![tactic(auto)]

mod case;
mod check;
mod early;
mod event;
mod fault;
mod folding;
mod history;
mod index;
mod kind;
mod rules;

pub use check::check_order;
pub use event::{Entries, Entry, Event, Items};
pub use fault::{CheckFault, Rule};
pub use history::is_history;
