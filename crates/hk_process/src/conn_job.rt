//! The job of one connection, as its first byte tells whose it is.

ghost use Rattle.std.specs.Io.KnownBytes.{Consumes};
ghost use Rattle.hk_outside.specs.First.{first_bytes};

use crate::conn_limit::{ConnLimit, Knock};
use crossbeam_utils::sync::WaitGroup;
use hk_accept::{Desks, MakeJob};
use hk_base::{Actor, Memory, NodeId};
use hk_link::Outlet;
use hk_outside::{Connection, Job, Primed, Source};
use hk_peer::{Course, Elsewhere, serve_peer};
use std::alloc::Global;
use std::sync::{Arc, Mutex, Wait};

// The first byte of each frame. No request of a client begins with it.
const FRAME: u8 = 0;

/// The node of this process, and what the jobs of all its connections share.
#[derive(Drop)]
pub(crate) struct PeerServer<R: Wait + Drop, K: Drop, G: Drop> {
    pub(crate) rt: R,
    pub(crate) alloc: Global,
    pub(crate) node: NodeId,
    /// Leads to the node. It is split for each peer.
    pub(crate) outlet: Mutex<Outlet>,
    pub(crate) desks: K,
    pub(crate) limit: ConnLimit<G>,
}

/// The job of a connection, of a client or of a peer.
#[derive(Drop)]
pub(crate) struct PeerConnJob<R: Wait + Drop, N: Drop, K: Drop, G: Drop> {
    conn: N,
    server: Arc<PeerServer<R, K, G>>,
    number: u32,
    // Left when the job is over, or known to be a peer's.
    clients: WaitGroup,
}

/// Makes the jobs of all connections. All jobs are of the group of clients until they are over, or known to be a peer's.
#[derive(Drop)]
pub(crate) struct PeerConnJobs<'a, R: Wait + Drop, K: Drop, G: Drop> {
    pub(crate) server: &'a Arc<PeerServer<R, K, G>>,
    pub(crate) clients: &'a WaitGroup,
}

impl<'a, R: Wait + Drop, K: Drop, G: Knock + Drop> PeerConnJobs<'a, R, K, G> {
    /// Whether no client is served, and none may come.
    pub(crate) fn is_over(&self) -> bool {
        self.server.limit.is_over(&self.server.rt)
    }
}

impl<
    'a,
    R: Wait + Send + Sync + Drop + 'static,
    N: Connection + Send + Drop + 'static,
    K: Desks + Send + Sync + Drop + 'static,
    G: Knock + Send + Drop + 'static,
> MakeJob<N> for PeerConnJobs<'a, R, K, G> {
    type ConnJob = PeerConnJob<R, N, K, G>;

    fn make_job(&self, conn: N, number: u32) -> Result<PeerConnJob<R, N, K, G>, Memory> {
        let server = Arc::try_clone(self.server)?;
        let clients = self.clients.clone()?;
        Ok(PeerConnJob {
            conn,
            server,
            number,
            clients,
        })
    }
}

// The first byte of a connection; none where none comes.
#[tactic(auto, using(crate::proofs::First::none_read, crate::proofs::First::one_read))]
fn first_byte<N: Source>(conn: &mut N) -> Option<u8>
    ensures { Consumes (N.left conn.old) (N.left conn.new) (first_bytes result) }
{
    let mut room = [0; 1];
    let Ok(count) = conn.read(&mut room) else {
        return None;
    };
    if count == 0 {
        return None;
    }
    Some(room[0])
}

// Puts what a peer sends, to its end. One for whose outlet there is no memory is closed: it may come again.
fn take_in<R: Wait + Drop, N: Source, K: Drop, G: Drop>(
    server: &PeerServer<R, K, G>,
    conn: &mut N,
) {
    let split = server.outlet.lock(&server.rt).split();
    if let Ok(mut outlet) = split {
        let course = Course::to(Actor::Node(server.node));
        serve_peer(
            &server.rt,
            server.alloc,
            conn,
            course,
            &mut outlet,
            &mut Elsewhere,
        );
    }
}

impl<
    R: Wait + Send + Sync + Drop + 'static,
    N: Connection + Send + Drop + 'static,
    K: Desks + Send + Sync + Drop + 'static,
    G: Knock + Send + Drop + 'static,
> Job for PeerConnJob<R, N, K, G> {
    // A connection that ends before its first byte counts as a client that came and ended.
    fn run(self) {
        let PeerConnJob {
            mut conn,
            server,
            number,
            clients,
        } = self;
        let first = first_byte(&mut conn);
        if first == Some(FRAME) {
            drop(clients);
            server.limit.meet_peer(&server.rt);
            take_in(&server, &mut Primed::new(FRAME, conn));
            return;
        }
        if server.limit.admit(&server.rt) {
            if let Some(first) = first {
                let mut primed = Primed::new(first, conn);
                server.desks.serve(&mut primed, number);
                drop(primed);
            }
            server.limit.part(&server.rt);
        }
        drop(clients);
    }
}
