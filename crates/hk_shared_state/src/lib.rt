//! What the threads of a process of a group over hosts share.
//!
//! A process is a node and, on a host that has one, a manager. Many threads serve it: some take connections and
//! letters, some report to the managers and hear their boards, one is the manager's loop. In a [`SharedState`] they
//! share what the process is ([`Identity`], which does not change), what it has come to know ([`Standing`], under a
//! lock), where letters to its manager go in (under another one) and what waits for the manager's loop ([`Mailbox`]).
//!
//! Whom the process knows: itself, since its manager takes requests at every stage and letters once it is open, and its
//! node takes letters once it has a number; managers by the roll of its own manager, once that is open, else by what
//! the last boards of a majority of the managers bind; nodes by these boards. A hello is judged by that
//! ([`SharedState`] is the `LookUp` of greetings).
//!
//! A process that is no founder of its group asks for a number until the boards of a majority bind one to it
//! ([`Standing::asks_of`], [`Standing::held`]). It is to end where a majority left its node out, or is open with
//! another founding ([`SharedState::look_out`]). Where the boards of a majority tell that its node is to leave it
//! leaves first: it serves no clients and asks for no lease ([`SharedState::is_leaving`]).
//!
//! What its operator is told is a [`Notice`], which has a level, and goes to standard error by [`SharedState::tell`]
//! alone.
//!
//! What is proved. An identity is exactly what words, a secret and a ticket tell, or it is told that no process may be
//! so (`specs/Identities.antt`). Its type keeps that the group has a name, that it has 1 to 9 hosts, that this host is
//! one of them if it has a manager, and that its addresses stand in a message: so each hello of it is in range, and is
//! exactly the one that was asked for. What a standing tells of actors is that of the definitions in
//! `specs/Standings.antt`, exactly: own tickets, what a hello is judged by, addresses. What a process asks managers for
//! its number, what becomes of their answers and boards, which number it holds, and when it is to end, is that of
//! `specs/Seeking.antt`, exactly; what its node is to be, and how it stands, that of `specs/Parts.antt`; when its node
//! leaves, and when it stays after all, that of `specs/Leaving.antt`.
//! Behind the lock it is that of some standing, as another thread may change it at any moment. At most 1,024 wait in a
//! mailbox, in their order. A refusal is to be told exactly where for a lease nothing but refusals came, and none was
//! told within a minute; who was there is gone exactly where nothing came for long enough; and lines of which levels
//! are wanted is exact too (`specs/Notices.antt`).
//!
//! Its caller owes, with each board that it has a standing hear, the place of the manager that sent it.
//!
//! No clause says which standing stood behind the lock at a moment, that what was put into a mailbox is taken, that who
//! waits at a [`Slot`] is woken, or that the answer there is the one to its inquiry: each inquiry has a slot of its
//! own, to which nothing else leads. Nor does one say that a line for the operator was written, or what it has, or that
//! a process which was left out ends: [`SharedState::look_out`] tells that to whoever asks.
#![tactic(auto)]

mod identity;
mod leaving;
mod mailbox;
mod making;
mod moment;
mod notices;
mod part;
mod resting;
mod seeking;
mod shared_state;
mod standing;
mod telling;
mod terms;

pub use identity::Identity;
pub use mailbox::{Coming, Mailbox, Slot};
pub use making::{IdentityFault, digest_of};
pub use moment::Moment;
pub use notices::{Presence, Told};
pub use part::{Part, state_behind};
pub use resting::rest;
pub use shared_state::SharedState;
pub use standing::{LostTail, ShardsSeen, Standing, copy_of};
pub use telling::{Level, Notice, Telling};
