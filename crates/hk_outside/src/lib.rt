//! The outside, as traits with their meanings: where bytes come from and go to, clocks, doors through which
//! connections come, what starts jobs, and desks, which are asked one operation at a time.
//!
//! All that the product promises stands on these traits. Each object of the outside keeps a count of its faults that
//! never falls; a call answers `Failed` only where the count rose, so a fault can't be made up. A source tells the
//! bytes that it has left and a sink those that it was given, where they know: contracts speak of these bytes.
//!
//! Each trait has a form in memory, for tests and for use without an outside, and an adapter over the machine:
//! standard input and output, TCP on 127.0.0.1, the steady clock, threads. An adapter over a reader or a writer can't tell
//! what is left, but it records what its reader gave and its writer took: contracts speak of these bytes.
//!
//! What is proved. Each form in memory and each adapter keeps to what its trait says of the bytes left, the bytes held
//! and the counts. `Failed` comes only where the count rose, or stands at the last value of its type (`Rose`). A source
//! in memory fails at just the reads that it was told (`fails`), doors in memory open unless they were told to fail,
//! and a sink in memory fails at each write that it was told, and may fail at others. A new adapter over a reader or a
//! writer is over just that one and has recorded nothing (`reader`, `writer`, `given`, `taken`). `suits` tells exactly
//! whether a reply suits an operation, and what `act` answers suits (`act_suits`).
//!
//! An ask that waits at a desk stands in the list of its asks from its beginning, with what it is told in the end
//! (`Begins`, `Finishes`), which is never Busy (`settled`). A desk with no beginning of its own tells at once, as where
//! it is asked ([`Desk::begin`]).
//!
//! What no clause says. That a read asks the reader at all: clauses speak of what was recorded. So a clock may stand at
//! 0, a TCP connection read nothing, doors open or accept nothing, a spawner keep no room. Nor is it said how much room
//! a [`FakeDesk`] has.
#![tactic(auto)]

mod clock;
mod desk;
mod dial;
mod doors;
mod memory;
mod notices;
mod primed;
mod record;
mod standard;
mod status;
mod stream;
mod tcp;
mod threads;
mod wait;

pub use clock::{Clock, HandClock, SteadyClock};
pub use desk::{Asked, Begun, Desk, DeskReply, FakeDesk, NoWait, act_suits, answers, suits};
pub use dial::{Dial, MemoryDialer, NoDialer};
pub use doors::{Doors, MemoryDoors};
pub use memory::{MemoryConnection, MemorySink, MemorySource, SureSink, SureSource};
pub use primed::Primed;
pub use record::Record;
pub use standard::{ReaderSource, WriterSink};
pub use status::Status;
pub use stream::{Connection, Failed, Sink, Source, write_all};
pub use tcp::{TcpConnection, TcpDialer, TcpDoors};
pub use threads::{Job, NoSpawner, Refusal, Spawner, ThreadSpawner};
pub use wait::FakeWait;
