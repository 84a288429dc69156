//! The jobs that take the connections of other processes.

ghost use Rattle.hk_outside.specs.Causes.{HasCause};

use crate::entry::NodeEntry;
use crate::incoming_conns::IncomingConns;
use crate::serving::serve;
use hk_base::Memory;
use hk_hello::{CHALLENGE_LEN, Challenge};
use hk_hosts::{DoorsAt, Ender, Patient, Random};
use hk_outside::{Clock, Failed, Job, Spawner};
use hk_shared_state::{SharedState, rest};
use std::alloc::Global;
use std::sync::{Arc, Mutex, Wait};

/// So many connections of other processes are served at once. Others wait until one of them ends.
pub const MOST_INCOMING: u32 = 128;

// A job rests for so many milliseconds where a connection can't be taken, as where too many files are open.
const REST_MILLIS: u64 = 20;

/// What the jobs share that take connections.
#[derive(Drop)]
struct ListenerState<D: Drop, X: Drop> {
    doors: Mutex<D>,
    random: Mutex<X>,
    incoming: Mutex<IncomingConns>,
}

/// Takes one connection after the other, each of which it greets and serves to its end. A job can't start others for what
/// its own doors give, so there is one for each connection that is served at once.
#[derive(Drop)]
struct InsideJob<R: Wait + Drop, C: Drop, E: Drop, D: Drop, X: Drop> {
    shared: Arc<SharedState<R, C>>,
    entry: Arc<E>,
    listener: Arc<ListenerState<D, X>>,
}

// The number of a connection that came. Where too many greetings are unfinished the oldest of them is ended.
fn begin<R: Wait>(rt: &R, incoming: &Mutex<IncomingConns>, ender: Ender) -> Result<u64, Memory> {
    let mut guard = incoming.lock(rt);
    let incoming = &mut *guard;
    incoming.begin(ender)
}

// The connection of this number has ended.
fn forget<R: Wait>(rt: &R, incoming: &Mutex<IncomingConns>, number: u64) {
    let mut guard = incoming.lock(rt);
    let incoming = &mut *guard;
    incoming.forget(number);
}

// A challenge that was never used, if one can be drawn.
fn challenge<R: Wait, X: Random>(rt: &R, random: &Mutex<X>) -> Option<Challenge> {
    let mut guard = random.lock(rt);
    let random = &mut *guard;
    let drawn = random.drawn::<CHALLENGE_LEN>().ok()?;
    Some(Challenge(drawn))
}

// Greets and serves a connection that came.
fn take_in<R: Wait + Drop, C: Clock + Drop, E: NodeEntry, X: Random, N: Patient + Drop>(
    shared: &SharedState<R, C>,
    entry: &E,
    random: &Mutex<X>,
    incoming: &Mutex<IncomingConns>,
    conn: N,
) {
    let Ok(ender) = conn.ender() else {
        return;
    };
    let Ok(number) = begin(&shared.rt, incoming, ender) else {
        return;
    };
    if let Some(challenge) = challenge(&shared.rt, random) {
        serve(shared, entry, challenge, incoming, number, conn);
    }
    forget(&shared.rt, incoming, number);
}

impl<
    R: Wait + Send + Sync + Drop + 'static,
    C: Clock + Send + Sync + Drop + 'static,
    E: NodeEntry + Send + Sync + Drop + 'static,
    D: DoorsAt + Send + Drop + 'static,
    X: Random + Send + Drop + 'static,
> Job for InsideJob<R, C, E, D, X> {
    fn run(self) {
        let InsideJob {
            shared,
            entry,
            listener,
        } = self;
        for _ in shared.rt.forever() {
            let come = {
                let mut guard = listener.doors.lock(&shared.rt);
                let doors = &mut *guard;
                doors.accept()
            };
            match come {
                Ok(Some(conn)) => take_in(
                    &*shared,
                    &*entry,
                    &listener.random,
                    &listener.incoming,
                    conn,
                ),
                Ok(None) => return,
                Err(_) => rest(&shared.rt, REST_MILLIS),
            }
        }
    }
}

// What the jobs share.
fn new_listener<D: Drop, X: Drop>(
    alloc: Global,
    doors: D,
    random: X,
) -> Result<Arc<ListenerState<D, X>>, Memory> {
    let listener = ListenerState {
        doors: Mutex::new(doors),
        random: Mutex::new(random),
        incoming: Mutex::new(IncomingConns::new(alloc)),
    };
    Ok(Arc::new(alloc, listener)?)
}

// One of the jobs, if there was memory for what they share.
fn inside_job<R: Wait + Drop, C: Drop, E: Drop, D: Drop, X: Drop>(
    shared: &Arc<SharedState<R, C>>,
    entry: &Arc<E>,
    listener: &Result<Arc<ListenerState<D, X>>, Memory>,
) -> Result<InsideJob<R, C, E, D, X>, Memory> {
    match listener {
        Ok(listener) => Ok(InsideJob {
            shared: Arc::try_clone(shared)?,
            entry: Arc::try_clone(entry)?,
            listener: Arc::try_clone(listener)?,
        }),
        Err(_) => Err(Memory),
    }
}

/// Starts the jobs that take the connections which come through open doors, [`MOST_INCOMING`] of them. Challenges are drawn
/// from `random`, and letters to the process's node go in by `entry`. It fails where one of them can't be started, for which the spawner counts a fault; those that were go on.
pub fn start_inside<
    R: Wait + Send + Sync + Drop + 'static,
    C: Clock + Send + Sync + Drop + 'static,
    E: NodeEntry + Send + Sync + Drop + 'static,
    D: DoorsAt + Send + Drop + 'static,
    X: Random + Send + Drop + 'static,
    S: Spawner,
>(
    shared: &Arc<SharedState<R, C>>,
    entry: &Arc<E>,
    doors: D,
    random: X,
    spawner: &mut S,
) -> Result<(), Failed>
    ensures { HasCause (S.faults spawner.old) (S.faults spawner.new) result }
{
    let listener = new_listener(shared.alloc, doors, random);
    for _ in 0..MOST_INCOMING {
        spawner.start_made(inside_job(shared, entry, &listener))?;
    }
    Ok(())
}
