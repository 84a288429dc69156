//! Who holds which number of a group, as one of its managers has it.
//!
//! A number belongs to a process for as long as it runs, and is told by its *ticket*. A manager *binds* a number to a ticket when the group is founded, when it
//! gives a newcomer the next number (SEAT), and when a node tells it the number that another manager gave (CLAIM). It changes a binding only to the ticket that
//! a majority's boards name, so a number has one holder, whatever two newcomers do at once: two majorities have a manager in common, and what it was told first
//! decides.
//!
//! [`Roll`] is what a manager has bound. [`Roll::seat`] and [`Roll::claim`] tell what it answers and what it binds, as `specs/Steps.antt` has it by cases. The
//! caller hands in the views of all shards, and what boards of this founding told of the number. It writes the binding that a step logs, and only then takes it
//! by [`Roll::bind`] and answers, or tells it by a board. After a restart [`Roll::replay`] makes the roll of what was logged.
#![tactic(auto)]

mod answer;
mod binding;
mod boards;
mod laws;
mod numbers;
mod roll;
mod steps;

pub use answer::{RollAnswer, RollRefusal, RollStep};
pub use binding::{Binding, Founder};
pub use boards::named;
pub use laws::{
    a_number_has_one_holder, boards_name_whom_most_tell, foundings_bind_the_places,
    numbers_are_bound_by_the_rule, rolls_are_made_again, two_newcomers_at_once,
};
pub use roll::Roll;
pub use steps::Seating;
