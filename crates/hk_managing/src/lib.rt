//! The manager of a host: how it begins by its log, and its loop.
//!
//! [`begin_manager`] takes up the log of a file and gives with what the manager of this host begins: its office
//! (`hk_office`), its cores (`hk_durable`), and the writer of the log. A manager whose log tells of a founding is the one
//! that was founded, by the ticket of then; its node's ticket is new with each process. Where the group is open the cores
//! are those that return; else they hold the first view and made no step.
//!
//! [`ManagerJob`] is the loop. A turn takes what came: inquiries of processes, and boards of other managers. What the
//! office logs is gathered ([`Gathered`]), and the answers wait. Then the log takes what was gathered, in one record and in
//! front of the steps that the cores make in this turn, and letters of these steps go only behind that. Only where the log
//! took it are there answers to leave: [`Replies`] come of [`Gathered::sure`] alone, which gives none where the record was
//! not made sure.
//!
//! The manager *acts*, that is its cores take letters and send them, once it is open, and a majority of the managers, itself
//! counted, has answered reports that tell so. An open one that does not act yet answers reports, and how the group stands,
//! but binds no number. Where a manager was told of more records than the log has, this manager never acts, and
//! [`hk_shared_state::Standing`] tells whoever ends the process.
//!
//! Letters come to the cores by a [`Relay`]: of each ask for a lease it notes who asks, and of which view. At each beat,
//! once a majority of the managers has answered for long enough, the office is asked what it wishes, by what was noted and
//! reported so far; the cores propose that, or let a view begin, in the same turn, behind the letters that came. Which views
//! were let begin the office learns behind the turn. How long ago nodes asked goes into the next reports. A manager that stood
//! still itself, while its disk synced or for want of a processor, does not take for gone whom it only has not heard yet: for a
//! quarter of a lease behind that it wishes nothing ([`Looks`]).
//!
//! Where the log can't be written, or memory is wanting for what the office did, nothing of this manager is told any more:
//! it is stopped for good ([`Cores::Ended`]), and its process goes on with its node. An inquiry for which memory is wanting
//! before the office did anything is not answered. Who asks then asks again.
//!
//! Its caller owes that the outlets lead to whom they are named for, that one process at a time has the log, that the
//! clock of the shared state keeps its rate, and that the first view is that of the group's hosts.
//!
//! What is proved. [`begin_by`] gives just what the log's records give (`IsBegun`, of `hk_restore`'s `restored`), or just
//! its fault, or memory was wanting. [`begin_manager`] gives that of records which the file has and which are sure, and the
//! office is the one of which they tell (`Begins`). No step that the office makes of what came is without its note: what
//! told the office before it, with what was gathered, tells the office behind it (`StayTold`). What the log of a group that is not
//! open takes is these notes, as one record; what that of an open one takes is a turn of `hk_durable`, of which they are
//! the front (`IsTurn` behind `all_noted`), and its letters go behind the record. A relay puts what it took, in that order,
//! but a last parcel for which its link had no room, and notes just the asks among that (`NotesAll`); where memory was
//! wanting for the last one's ask, those before it (`NotesFront`). What is intended is made of wishes as `intents_of` has it,
//! and which views are told as begun is that of `begun_below`, by the managers as they stand behind the turn. When one that
//! stood still rests is that of `looked`. What others of
//! the process learn of the manager is that of `stands`.
//!
//! What no clause says: which faults of a file are told when; what is left at a slot, and that it is the answer to what
//! was asked there, which the code does in one place ([`Gathered::ask`]); when others of the process are told
//! ([`hk_shared_state::Standing`]); when the manager acts, and when it wishes; that the cores took what the relay put; that the step
//! was made by which a view is told as begun, for which memory may have been wanting; and how many records the log has.
#![tactic(auto)]

mod answers;
mod begin;
mod cores;
mod gathered;
mod looks;
mod managing;
mod notes;
mod relay;
mod stand;

pub use answers::{Answers, FIRST_BEATS, FIRST_WISH};
pub use begin::{BeginFault, Begun, ManagerStart, begin_by, begin_manager};
pub use cores::{Cores, NOTHING, Unlogged};
pub use gathered::{Gathered, Replies, Seen};
pub use looks::Looks;
pub use managing::{Behind, ManagerJob};
pub use notes::{are_notes, is_note};
pub use relay::Relay;
