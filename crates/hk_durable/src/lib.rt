//! Managers whose steps are on the disk before anybody hears of them.
//!
//! A [`DurablePost`] has the managers of one number, one for each of eight shards, the inlet from which their letters come, the outlets by which theirs go, and the
//! writer of their log. [`DurablePost::turn`] makes a batch of steps: all parcels are taken first, 64 at most, the clock is read then, the clocks of the managers
//! rise to that, the steps are made one after the other, what of them is logged is appended as one record, and only once that is sure do the letters go. So no
//! step is made by a reading that is older than its letter, and what a letter says is never taken back: a manager that stops and returns by its log knows of it.
//!
//! What is logged are proposals and the letters of Paxos that were taken. No grant of a lease is, no ACTIVATE, and no reading of the clock. Beside that a turn logs
//! what was noted for it ([`DurablePost::note`]): that the group was founded, that it was opened, that a number was bound. Notes stand in the record of their turn
//! before its steps, and are sure once it answers. Their place matters where they begin something: behind a founding, or an opening, each step of the record is one
//! of that group.
//!
//! A manager lets no view begin before its clock reads more than 1 and the wait (`may_begin`). A manager that returns noted untils up to there for the views of its
//! log; of a view that it comes to hold again since nothing has to be noted.
//!
//! Where the log can't be written, the post says nothing any more, and takes nothing: that manager is stopped for good. Where memory is wanting for the record, the
//! next turn tries again, and takes nothing before. A letter that comes while memory is wanting is lost.
//!
//! After a stop managers are made anew: [`Managers::founding`], then [`Managers::take_up`] of each record since the founding, in their order, and at last
//! [`Managers::note_untils`]. They are those that return, of which `hk_return` has the laws (`replay_is_return`).
//!
//! What is proved. A turn that answered has taken the parcels, read the clock behind that (`LateClock::was_read` speaks of both), made the steps in their order, made
//! their record sure, and sent just their letters (`IsTurn`); one that failed has sent nothing, and keeps its batch (`IsHeldUp`). To each shard a turn is a batch of
//! `hk_return` (`turns_make_batches`). [`Managers::step`] and [`Managers::take_up`] tell just the fault by which a
//! manager refuses a step (`IsRefusal`, `all_taken_up`), or want of memory. What no clause says: why a step of a turn was not made, refused or for want of memory; that a
//! reading made behind the taking is no older than the letters, which is what reading means.
//!
//! The caller owes that the outlets lead to whom they are named for, that one process at a time has the log, and that the clock keeps its rate.
#![tactic(auto)]

mod batch;
mod late;
mod law;
mod managers;
mod post;
mod replay;

pub use batch::{Batch, Intent};
pub use late::{Late, LateClock};
pub use law::{replay_is_return, turns_make_batches};
pub use managers::Managers;
pub use post::{DurablePost, MOST_PARCELS};
