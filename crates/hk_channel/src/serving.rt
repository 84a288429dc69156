//! Connections that other processes made.

ghost use Rattle.std.specs.Prelude.{◌≡◌, ℕ, true, Ok, IfSome, Some};
ghost use Rattle.hk_inside.specs.Messages.{IsResponseInRange};
ghost use Rattle.std.specs.Io.KnownBytes.{prepend_known};
ghost use Rattle.hk_link.specs.Ends.{IsSameLink};
ghost use Rattle.hk_peer.specs.Serving.{Serves};
ghost use Rattle.hk_channel.specs.Answering.{Answers, AreAnswered, EndsBehind};

use crate::entry::NodeEntry;
use crate::incoming_conns::{ConnUse, IncomingConns};
use crate::ranges::is_in_range;
use hk_base::Actor;
use hk_greet::{Buffered, HearFault, RespondFault, admit, next_inquiry, respond};
use hk_hello::{Challenge, Hello, Party, Purpose};
use hk_hosts::{Ender, Patient};
use hk_inside::{Inquiry, Response};
use hk_link::Outlet;
use hk_outside::Clock;
use hk_peer::{Course, Elsewhere, PeerEnd, serve_peer};
use hk_shared_state::{Coming, SharedState, Slot};
use std::sync::{Arc, Mutex, Wait};
use thiserror::Error;

// A connection for requests on which none comes for so many milliseconds is ended.
const SILENT_REQUESTS: u64 = 10_000;

// And one for letters, of which there may be none for long: that its other end is gone shows nowhere else.
const SILENT_LETTERS: u64 = 600_000;

/// How a connection for requests ends.
#[derive(Clone, Copy, Debug, PartialEq, Eq, Error)]
pub enum RequestsEnd {
    /// The connection ended between two requests.
    #[error("no more requests came")]
    Over,
    /// No request was heard.
    #[error("no request: {0}")]
    Unheard(HearFault),
    /// A request came, and there was no answer within a lease, or none that can be sent.
    #[error("there was no answer")]
    Unanswered,
    /// The answer was not sent.
    #[error("{0}")]
    Unsent(RespondFault),
}

// What the manager answers, if it does within a lease.
fn answer_of<R: Wait + Drop, C: Drop>(
    shared: &SharedState<R, C>,
    inquiry: Inquiry,
) -> Option<Response>
    ensures { IfSome result (λ response. IsResponseInRange response) }
{
    let slot = Arc::new(shared.alloc, Slot::new()).ok()?;
    let own = Arc::try_clone(&slot).ok()?;
    shared
        .mailbox
        .put(&shared.rt, Coming::Asked { inquiry, slot });
    let response = own.wait(&shared.rt, u64::from(shared.identity.lease))?;
    if is_in_range(&response) {
        Some(response)
    } else {
        None
    }
}

// Answers the next request of a connection.
fn answer_next<R: Wait + Drop, C: Drop, N: Patient>(
    shared: &SharedState<R, C>,
    conn: &mut Buffered<N>,
) -> Result<(), RequestsEnd>
    ensures { Answers result conn.old conn.new }
{
    let inquiry = match next_inquiry(shared.alloc, conn) {
        Ok(Some(inquiry)) => inquiry,
        Ok(None) => return Err(RequestsEnd::Over),
        Err(fault) => return Err(RequestsEnd::Unheard(fault)),
    };
    let Some(response) = answer_of(shared, inquiry) else {
        return Err(RequestsEnd::Unanswered);
    };
    match respond(shared.alloc, conn, &response) {
        Ok(()) => Ok(()),
        Err(fault) => Err(RequestsEnd::Unsent(fault)),
    }
}

// Answers the requests of a connection, to its end.
#[tactic(auto, using(crate::proofs::Answered::none_answered, crate::proofs::Answered::ends_behind))]
fn answer_requests<R: Wait + Drop, C: Drop, N: Patient>(
    shared: &SharedState<R, C>,
    conn: &mut Buffered<N>,
) -> RequestsEnd
    ensures { EndsBehind result conn.old conn.new }
{
    for _ in shared.rt.forever() {
        match answer_next(shared, conn) {
            Ok(()) => {}
            Err(end) => return end,
        }
    }
    unreachable!()
}

// Puts the letters of a connection from one actor to the manager of this process, to its end.
fn take_letters<R: Wait + Drop, C: Drop, N: Patient>(
    shared: &SharedState<R, C>,
    conn: &mut Buffered<N>,
    from: Actor,
    to: Actor,
    outlet: &mut Outlet,
) -> PeerEnd
    ensures link { IsSameLink outlet.new outlet.old }
    ensures served { Serves (record { from = Some from; to = to }) result (prepend_known conn.old.unread conn.old.left) (prepend_known conn.new.unread conn.new.left) (Some conn.old.gave) (Some conn.new.gave) outlet.old.known outlet.new.known }
{
    let course = Course {
        from: Some(from),
        to,
    };
    serve_peer(
        &shared.rt,
        shared.alloc,
        conn,
        course,
        outlet,
        &mut Elsewhere,
    )
}

// Serves a connection for letters, to its end, where this process has the actor to which they go.
fn serve_letters<R: Wait + Drop, C: Drop, E: NodeEntry, N: Patient>(
    shared: &SharedState<R, C>,
    entry: &E,
    conn: &mut Buffered<N>,
    from: Actor,
    to: Actor,
) {
    match to {
        Actor::Manager(_) => {
            if let Some(mut outlet) = shared.manager_outlet() {
                take_letters(shared, conn, from, to, &mut outlet);
            }
        }
        Actor::Node(_) => {
            let course = Course {
                from: Some(from),
                to,
            };
            entry.serve(conn, course);
        }
    }
}

// Serves a connection whose hello was taken.
fn serve_welcome<R: Wait + Drop, C: Clock + Drop, E: NodeEntry, N: Patient>(
    shared: &SharedState<R, C>,
    entry: &E,
    conn: &mut Buffered<N>,
    hello: &Hello,
) {
    let lease = u64::from(shared.identity.lease);
    match (hello.purpose, hello.from, hello.to) {
        (Purpose::Requests, _, _) => {
            conn.wait_at_most(SILENT_REQUESTS, lease);
            answer_requests(shared, conn);
        }
        (Purpose::Letters, Party::Actor(from), Party::Actor(to)) => {
            conn.wait_at_most(SILENT_LETTERS, lease);
            serve_letters(shared, entry, conn, from, to);
        }
        _ => {}
    }
}

// Whether the connection of this number is to be served, whose hello was taken. Earlier ones for the same are ended.
fn is_welcome<R: Wait>(
    rt: &R,
    incoming: &Mutex<IncomingConns>,
    number: u64,
    hello: &Hello,
    ender: Ender,
) -> bool {
    let conn_use = ConnUse {
        purpose: hello.purpose,
        from: hello.from,
        to: hello.to,
    };
    let mut guard = incoming.lock(rt);
    let incoming = &mut *guard;
    incoming.welcome(number, conn_use, ender).unwrap_or(false)
}

/// Greets who made the connection of this number, and serves it to its end.
pub fn serve<R: Wait + Drop, C: Clock + Drop, E: NodeEntry, N: Patient + Drop>(
    shared: &SharedState<R, C>,
    entry: &E,
    challenge: Challenge,
    incoming: &Mutex<IncomingConns>,
    number: u64,
    conn: N,
) {
    let Ok(ours) = shared.ours() else {
        return;
    };
    let Ok(ender) = conn.ender() else {
        return;
    };
    let mut conn = Buffered::new(shared.alloc, conn);
    let admitted = admit(
        shared.alloc,
        &*shared.clock,
        &mut conn,
        challenge,
        &ours,
        shared,
    );
    let Ok(hello) = admitted else {
        return;
    };
    if is_welcome(&shared.rt, incoming, number, &hello, ender) {
        serve_welcome(shared, entry, &mut conn, &hello);
    }
}
