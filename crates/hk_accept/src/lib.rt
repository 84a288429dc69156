//! Connections, each served by a job of its own.
//!
//! [`serve_each`] starts a job for each connection that comes through open doors. The job has a desk made for the
//! connection and serves the connection there to its end ([`Desks`]). When `serve_each` returns, all jobs that it
//! started have ended, so no reply is lost on the way. How it ends, and what shows it, stands in its contract; that
//! each job serves its connection, and that it waits for them, no clause says. [`take_each`] is the loop alone, over
//! whatever makes the jobs ([`MakeJob`]), and [`next_connection`] what it waits by.
//!
//! Nothing that a full machine does ends the loop. Where a connection can't be taken, it rests for a moment and tries
//! again; where there is no memory or no thread for a connection's job, that connection is closed.
//!
//! The caller gives doors, a spawner, and what makes the desks.
//!
//! What is proved. `serve_each` ends as Done or Memory alone (`ends`). At Done the stated number of connections came,
//! or all that were left, and for each the spawner took a job or counts one fault more (`done`, `HasServed`): no
//! connection is dropped that no count shows. At Memory none was taken (`none_taken`). The doors are closed at both
//! (`closed`). `next_connection` gives what comes next, however often the doors fail before. How long it rests no
//! clause says.
#![tactic(auto)]

mod accept;
mod conn_job;
mod desks;
mod make_job;
mod notices;
mod spawner;

pub use accept::{next_connection, serve_each, take_each};
pub use desks::{Desks, serve_at};
pub use make_job::MakeJob;
pub use spawner::LooseSpawner;
