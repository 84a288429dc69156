//! Greetings and requests over connections between the processes of a group.
//!
//! A [`Buffered`] is a connection together with the bytes that came off it and that nobody took yet, and is a
//! connection itself: whoever reads next is given these first. So no byte is lost that came in one read with a hello:
//! the letters behind it go on. [`knock`] is a greeting by who dials, [`admit`] by who accepts, and behind it [`ask`]
//! sends an inquiry and hears its response, and [`next_inquiry`] and [`respond`] are the other end of that. What
//! greetings are, and which hello is refused, is `hk_hello`'s; inquiries and responses are `hk_inside`'s.
//!
//! The caller draws a challenge for each connection and never uses it again, tells by a [`LookUp`] what stands at its
//! process when a hello came, and ends each connection on which a call failed: it may have ended within a message. It
//! also sets how long calls may wait behind a greeting ([`wait_at_most`](hk_hosts::Patient::wait_at_most)), since a
//! greeting leaves its own limits. An inquiry or a response is one that its printer takes.
//!
//! What is proved. Each call tells which bytes were taken off the connection and which were written (`Passes`, in
//! `specs/Standing.antt`), by what the connection tells and by what it records; what came beyond is still there. A
//! greeting that is well wrote and took just its own bytes, and who dials was shown that the acceptor knows the secret
//! too (`Knocks`). An acceptor admits exactly a hello that `judge` takes by what was looked up for it, and wrote a
//! challenge and its welcome; of one that is refused the first reason that holds was told (`Admits`, in
//! `specs/Greeting.antt`). Both ends meet (`who_belongs_is_welcomed`). Requests: `Asks`, `HearsNext`, `Responds`, in `specs/Exchange.antt`. Each other end has its
//! cause: reading failed, or writing, where the connection's count of faults rose, with a front written; the connection
//! told its end, and what had come is short of a message; or no message begins that, whatever follows.
//!
//! What no clause says: times. That a greeting ends within [`HELLO_MILLIS`] rests on the clock, and on calls that wait
//! no longer than they were told: it is looked at before each read, and a read brings a byte at least. Nor is it said
//! that who knows no secret finds no proof, or that a connection ends at who is meant.
#![tactic(auto)]

mod acceptor;
mod buffered;
mod dialler;
mod fault;
mod hear;
mod limit;
mod message;
mod requests;
mod stream;
mod taken;

ghost use Rattle.hk_greet.specs.Laws.{WhoBelongsIsWelcomed};

pub use acceptor::{AdmitFault, LookUp, admit};
pub use buffered::Buffered;
pub use dialler::{KnockFault, knock};
pub use fault::HearFault;
pub use limit::HELLO_MILLIS;
pub use requests::{AskFault, RespondFault, ask, next_inquiry, respond};

/// Who is of the acceptor's group and knows its secret is taken, and is shown that the acceptor knows it too.
pub fn who_belongs_is_welcomed()
    ensures { WhoBelongsIsWelcomed }
{}
