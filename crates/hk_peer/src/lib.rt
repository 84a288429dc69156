//! Peers: processes that send each other frames over connections.
//!
//! A connection from a peer carries frames, one behind the other. [`PeerCutter`] cuts what comes into parcels, and
//! [`serve_peer`] puts those that the connection carries into a link: to one actor and, where a greeting told who sends,
//! from that one alone ([`Course`], `is_on`). Which parcels some bytes hold is `AreFrames` and `NoFrame`
//! (`specs/Parcels.antt`), and no definition knows how the bytes were cut into pieces: what is put depends on the bytes
//! alone (`Serves`, in `specs/Serving.antt`).
//!
//! What was put is taken by threads that wait at the link's bell ([`Elsewhere`]), or by the very thread that put it, behind
//! each read ([`Taker`]).
//!
//! Whoever sends to another actor over connections is a [`Carrier`], or a [`PromptCarrier`] that can do so without waiting.
//!
//! That a frame comes, or that a parcel is ever taken, is no part of this: a connection that ends loses what was under way.
//!
//! The caller gives a link's outlet that it has to itself, if the clause is to say all that was put.
//!
//! What is proved. At each end but `Memory` the parcels that [`serve_peer`] put are all that there are: no frame begins
//! the rest. At `Memory`, which comes too where the link was full when nobody took from it any more, they are a
//! beginning, and nothing is said of the rest. The rest is bad exactly at `BadFrame`. `End` comes at a read of nothing,
//! `Spent` at 4,294,967,295 reads that each gave something, `ReadFault` only where the source's faults rose.
//! [`PeerCutter::next`] tells `Need` exactly where the bytes end within a frame, and `Bad` exactly where none can begin
//! them, for ever (`step`, `stays`). How bytes are cut makes no difference (`pieces_do_not_matter`).
//!
//! `send_parcel` writes the parcel's frame, a front of it where writing fails, or nothing where memory is wanting
//! (`sent`). `forward` does so, and first dials its port, once, where there is no connection (`forwarded`, `port`); it
//! tells a fault of dialling only where the dialer's count rose (`dial_fault`). `send_parcels` and `write_parcels` do
//! the same of several parcels, one frame behind the other (`frames_of`).
//!
//! What no clause says: that a put which waits is ever made, any order over processes, that what a read brought is put
//! before the next read (a test shows it), and what a [`Carrier`] sends. Nothing runs `write_parcels`.
#![tactic(auto)]

mod batch;
mod carrier;
mod course;
mod cutter;
mod ends;
mod pass;
mod send;
mod serve;
mod step;
mod taker;

ghost use Rattle.hk_peer.specs.Laws.{CutInOneWay, StepsStay, PutsAddUp};

pub use batch::{send_parcels, write_parcels};
pub use carrier::{Carrier, PromptCarrier, Prompted};
pub use course::Course;
pub use cutter::PeerCutter;
pub use ends::PeerEnd;
pub use send::{ForwardFault, SendFault, forward, send_parcel};
pub use serve::serve_peer;
pub use step::PeerStep;
pub use taker::{Elsewhere, Taker};

/// Bytes are cut into parcels in one way, whatever comes behind them; and what is told of them but `Need` stays so.
pub fn pieces_do_not_matter()
    ensures one_way { CutInOneWay }
    ensures stay { StepsStay }
{}

/// What was put by an end of a link that has it to itself is all that was put.
pub fn puts_add_up()
    ensures { PutsAddUp }
{}
