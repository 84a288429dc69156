//! The managers' side of a program: a loop that gives managers what comes for them, and the letters on their way.
//!
//! A program has for each manager number one [`ManagerPost`]: eight managers, one for each shard number, with the inlet
//! from which their letters come and the outlets by which theirs go. [`oversee`] makes its turns, each asked of a
//! [`Gate`] before: the managers' clocks rise to the reading of the clock, one letter at most is taken by the manager
//! of its shard number, and what that sends goes on for the same shard number. What a turn may do is a definition,
//! `specs/Turns.antt`. A letter for which there is no room is lost, as is one that comes while memory is wanting.
//!
//! Letters are put quietly, and [`ring_all`] rings for all that were put: `oversee` does so behind each turn.
//!
//! The caller owes what `hk_manager` asks of whoever makes the steps, and that a post's outlets lead to whom they are
//! named for. Whoever calls [`send`] itself owes that [`ring_all`] follows before it waits for anything.
//!
//! What is proved. `oversee` makes just the turns that it tells (`made`), the stated number at most (`most`), and fewer
//! only where the gate has closed (`fewer`). The reading is cut at the limit of clocks. What is sent is put for its
//! shard by the first outlet to its addressee, or is lost for one of three reasons: none leads there, it fits no frame,
//! or the link was full at a moment of the call (`AreSent`).
//!
//! What no clause says: that a turn lets its parcel go (`IsLetGo`) only where memory was wanting.
#![tactic(auto)]

mod gate;
mod outlets;
mod post;
mod turns;

pub use gate::Gate;
pub use outlets::{Outlets, ring_all, send, send_all};
pub use post::ManagerPost;
pub use turns::oversee;
