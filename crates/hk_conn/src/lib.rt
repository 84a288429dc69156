//! One connection: the bytes of a client in, the bytes of the replies out.
//!
//! `serve_connection` asks a desk what a client asks of it, and writes the replies. What the bytes of a client say, one
//! request after the other, is `said_in` (`specs/Said.antt`); what is replied to them, and what a desk is asked for
//! it, is `served` (`specs/Served.antt`); how much of that was written at each end is `Serves` (`specs/Ends.antt`).
//! None of them knows how the bytes were cut into pieces.
//!
//! The caller gives a connection, a desk that tells its asks, if the clause is to say which were made, and a patience
//! of at least one.
//!
//! `serve_connection` is a loop over an `Exchange`, which is what a connection is between two calls of its loop: the bytes
//! that came, the updates that wait at the desk, and the replies that are to be written. None of its calls waits for the
//! client, so a loop may hold many of them. `Exchange::owed` says what one waits for: bytes (`give`), a step (`take_step`),
//! an answer of the desk (`hear_next`), or that replies are written (`unwritten`, `written`). Whatever pieces and pauses a
//! loop gives it, at each rest what was written is `served` (`pieces_and_pauses_do_not_matter`, `specs/Calls.antt`).
//!
//! What is proved (`Serves`). The asks that were made are those that the bytes read call for. All of the text was
//! written at a quit, at the end, at a line that is too long, at a read that fails and at the last read that a
//! connection may make; a front of it where a write fails or memory is wanting. So it is too where updates wait at the
//! desk together: each reply is of its own request, in their order. `Spent` comes exactly at 4,294,967,295 reads that
//! each gave something, `End` at a read of nothing before that; where the source records its pieces, these are the
//! bytes that were served (`AreRead`). Faults come only where the connection's counts rose (`read_fault`,
//! `write_fault`).
//!
//! What no clause says: which updates wait together, and when replies are written. Tests show that all to one read are
//! written before more is read, that updates of one read wait together until one of their keys comes again, and that 64
//! do at most.
#![tactic(auto)]

mod answer;
mod connection;
mod ends;
mod exchange;
mod hear;
mod pending;
mod reader;
mod said;
mod step;

pub use connection::serve_connection;
pub use ends::ConnEnd;
pub use exchange::{Exchange, Owed};
pub use pending::hear_next;
pub use said::Said;
pub use step::{pieces_and_pauses_do_not_matter, take_step};
