//! Runs of a world, and the order that is printed of each key.
//!
//! A [`Run`] is a header and the events that its world accepted. A [`LiveRun`] is one whose events are told to clauses
//! alone: it keeps the present world and, for each key that a call named, the numbers of its history and, by stamp, its
//! update, the event that completed it or who covered it so far, and the calls that found it. So [`order_of`],
//! [`LiveRun::placed`] and [`LiveRun::moment`] read what is kept, and never make the events again; [`Run::history`],
//! which gives operations and answers, does.
//!
//! The order of every run is legal: that is a clause of [`order_of`] and the law [`runs_are_legal`]. It rests on the laws of the register
//! and on the law that each event is effects of it, and on nothing of what an event does.
//!
//! What is proved. `push` makes an event as `world_step` says, or tells exactly its refusal, or finds no memory; after
//! the last two the run is as it was (`IsPushed`), but after want of memory it may answer Memory from then on.
//! `history` and `order_of` give exactly the history and the printed order (`specs/Run.antt`; `exact`, `legal`). Each
//! history is one, and its items are the calls and replies that the events show, in their order
//! (`histories_are_histories`). `placed` gives each entry of the printed order with its event (`specs/Placed.antt`): a
//! change stands at the moment of its stamp, the first event after which it or a later one is complete, any other call
//! at the event that replied to it. `moment` tells that of a stamp exactly where the stamp's own update is complete,
//! and None else (`meant`: `IsToldOf`).
#![tactic(auto)]

mod again;
mod cover;
mod evidence;
mod kept;
mod key_run;
mod laws;
mod live;
mod marked;
mod moment;
mod order;
mod past;
mod placed;
mod reading;
mod run;

pub use laws::{histories_are_histories, runs_are_legal};
pub use live::{Keys, LiveRun};
pub use marked::Mark;
pub use order::order_of;
pub use placed::{Placed, PlacedEntries};
pub use run::Run;
