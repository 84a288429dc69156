//! A node of a group in a process of its own.
//!
//! [`serve_process`] opens the port of one node of a group, without managers, founds the node, and starts threads: the
//! node's workers, a loop for each other node, which sends what is for that node to its port, and one for each
//! connection that comes. A connection whose first byte is 0 is a peer's, since each frame begins with that byte: its
//! parcels are put into the link to the node. Any other is a client's, and is served at a desk of its own.
//!
//! Nothing is promised of what is sent: a parcel that can't be sent is lost, as one is that comes to a process which
//! has ended. What was lost is sent again while someone waits for it.
//!
//! Each client that comes counts, and of peers one connection for each other node. As long as fewer came than were
//! asked for, or a client is served, peers may come again; a client that comes behind the last one is closed. Then the
//! port is closed and the workers end, and then the loops that send, once what they were given is sent. A peer's
//! connection that is still open then is left. How it ends, and what shows it, stands in the contract of
//! `serve_process`; who of those that came counted, and that clients and loops have ended then, is only tested.
//!
//! A loop that sends sleeps until something was put for its node. Such loops, over whichever carriers, are there for other
//! processes too ([`Sending`]).
//!
//! The caller gives the runtime value, a clock, doors, a spawner, and a process within the limits of `specs/Process.antt`.
//!
//! What is proved. `serve_process` is Done only where its spawner took a job for each worker and each loop that
//! sends, and then the stated number of connections came at least, or all that were left, and for each it took a
//! job or counts one fault more (`done`, `HasTakenBeside`); the doors are closed then (`closed`). DoorFault and
//! SpawnFault come only where that object's count rose. What becomes of parcels that a loop gives its route is what
//! `forward` of `hk_peer` says of one: their frames were written whole, or nothing was for want of memory, or
//! writing or dialling failed, and then that object's count rose. A connection on which writing failed is dropped,
//! and any other is kept (`forwarded`). So one that is kept has whole frames, and no front of one is followed by
//! another (`whole`); the route dials its port alone, where it has none (`port`).
//!
//! What no clause says: that a loop gives its route what was put for its node. What its dialers count shows in no
//! status.
#![tactic(auto)]

mod accept;
mod conn_job;
mod conn_limit;
mod process;
mod route;
mod sending;
mod server;

pub use process::Process;
pub use sending::{SendJob, Sending};
pub use server::serve_process;
