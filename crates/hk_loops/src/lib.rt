//! Event loops: many connections on a few threads.
//!
//! An [`EventLoop`] has connections of which each is served when it is ready, one turn after the other: [`take_turn`] writes what its client takes, reads what it sent,
//! and answers at most 64 things, without waiting for the client. Nothing is read of a connection while replies to it wait to be written, and one that has more to say
//! is served again behind all others that are ready.
//!
//! Of the threads of a loop one has the lead: it learns whose turn it is, lets the lead go, and serves that connection. As long as no turn waits one thread does all, and
//! the others sleep. Before an update is waited for another thread is woken, which takes the lead; so it is where a turn lasts, as where a lease has run out
//! ([`WatchJob`]).
//!
//! The caller gives desks, one for each thread ([`LoopDesks`]), and starts the threads ([`EventLoops::job`], [`EventLoops::watch`]).
//!
//! What is proved. A turn is some calls of the connection's exchange, one after the other: what they gave it was read off the connection, and what they wrote was written
//! to it (`TakesTurn`). Turns one after the other are as one (`turns_are_as_one`), so that at each rest of a connection what was written is what is served of the bytes
//! that came and of what its desk told, however they were cut, and whatever was done in between (`turns_serve_what_is_said`).
//!
//! What no clause says: that a connection which is ready gets its turn, that others go on while one waits, that no turn waits for its client, and of a connection whose
//! turns are taken at several desks, that these tell one story: each turn's clause is of its own desk.
#![tactic(auto)]

mod cell;
mod desks;
mod event_loop;
mod loops;
mod table;
mod turn;

pub use desks::{LoopDesks, WornDesk};
pub use event_loop::EventLoop;
pub use loops::{EventLoops, LoopJob, THREADS, WatchJob};
pub use turn::{Others, Turned, take_turn, turns_are_as_one, turns_serve_what_is_said};
