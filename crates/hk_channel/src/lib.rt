//! The connections of a process of a group over hosts with the others.
//!
//! A [`Channel`] leads from an actor of this process to another one, and carries its letters; an [`Asker`] asks a
//! manager, and a [`ReportJob`] does so at each beat, keeps the board that it is told, and asks for a number where the
//! process has none, or claims the one that it was given or has where the board lacks it. Both dial where they have no
//! connection, and greet there as `hk_greet` does, by a hello of this process. [`start_inside`] starts the jobs that
//! take the connections of others: each of these is greeted, and then its letters are put into the link of the actor
//! that it asked for, or its requests are answered by this host's manager. What the threads share is the state of
//! `hk_shared_state`.
//!
//! Letters that can't be sent are lost, as those are which a connection had under way when it ended. Whoever is not
//! reached is tried again behind a pause ([`Retry`]). A connection ends where a write fails or waits for a lease, where
//! none of its requests came for 10 seconds or no letter for 10 minutes, and where a request has no answer within a
//! lease. At most 128 connections of others are served at once; more wait until one of these ends. Where 64 greetings
//! are unfinished and one more begins, the oldest is ended. A connection whose hello is taken ends the earlier one that
//! has its purpose, its actor and the actor that it asked for.
//!
//! The caller gives a dialer to each channel and asker, open doors, random bytes, an entry and a shared state whose
//! outlet is that of its own actors. What an [`AskManager`] is asked is an inquiry in range.
//!
//! What is proved. [`Retry`] is exact: at once, behind a try in vain after its pause, which doubles up to a second, and
//! anew once it went well (`specs/Retrying.antt`). A channel that keeps a connection has written the frames of its
//! letters there whole, or nothing of them; and where the connection is a new one, behind a greeting in which the other
//! end took a hello of this actor for that one and showed that it knows the secret (`HasWhole`, in
//! `specs/Sending.antt`, and `IsGreeted`, in `specs/Greeted.antt`). An answer that an asker gives is the next response
//! that came on such a connection behind the inquiry; without an answer no connection is kept (`IsAsked`, in
//! `specs/Asking.antt`). Nobody is dialled where there is a connection, nor before it is due, and then the actor once
//! at most, where the shared state has it (`Redials`, in `specs/Dialled.antt`). Of a connection that another process
//! made, the letters that were put are those from one actor to another (`Serves` of `hk_peer`), which the code's one
//! call takes from the hello; of one for requests each was answered before the next was taken, and nothing else was
//! written (`EndsBehind`, in `specs/Answering.antt`). A report tells how the process stood, and what is asked beside it
//! is what the process had to ask, both at some moment of the call (`IsReport`, `IsAskedThen`, in
//! `specs/Reporting.antt`). A channel that is aimed anew is as one that was made for that actor (`aim`).
//!
//! What no clause says: times; how many connections and unfinished greetings there are, of which a few more may be
//! where jobs look at the same moment; that a job goes on, that it reports, and that it keeps the board and the answer
//! which it is told; that the answer to a request is the one which the manager left for it. Of a connection that is
//! dropped no clause of a channel speaks, since nothing is left of it: that letters are sent behind a welcome alone
//! stands in its steps, as `greet` of `src/approach.rt` has it. Who is ended where a connection begins, or its hello is
//! taken, is exact ([`IncomingConns`]); that ending it does so no clause says.
#![tactic(auto)]

mod approach;
mod asking;
mod channel;
mod entry;
mod incoming_conns;
mod inside;
mod ranges;
mod reporting;
mod retry;
mod serving;

pub use asking::{AskManager, Asker};
pub use channel::{AimedCarrier, Channel};
pub use entry::NodeEntry;
pub use incoming_conns::{ConnUse, IncomingConns};
pub use inside::{MOST_INCOMING, start_inside};
pub use reporting::{ReportJob, report_of};
pub use retry::Retry;
