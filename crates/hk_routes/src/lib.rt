//! The outlets from an actor, as others come and go.
//!
//! An actor sends by outlets, one to each other actor. In a group whose members change there are others by and by: [`Routes`] has them as they are now, and
//! whoever sends by them, a worker, a desk or a manager, has a [`Follower`], which tells the outlets anew once they changed. To look costs one load.
//!
//! What is proved. A split gives one outlet more to each actor, to the same link, in the same order, with half of the old one's right to put; where memory is
//! wanting, each old one still leads where it led (`specs/Outlets.antt`). Who is taken away is just the actor that is named, and nobody else. A follower that
//! tells nothing is as it was.
//!
//! Its caller owes that each outlet leads to the actor that it is named for, and that it is put before others may expect letters there. What no clause says: which
//! outlets were there at a moment, since other threads put and remove them, and that a follower is told of each change.
#![tactic(auto)]

mod outlets;
mod routes;

pub use routes::{Follower, Routes};
