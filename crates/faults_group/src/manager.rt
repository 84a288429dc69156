//! The manager of a process: the real one, and the ends of its links.

ghost use Rattle.std.specs.Prelude.{IfOk};
ghost use Rattle.hk_base.specs.View.{IsView};

use crate::clock::HostClock;
use crate::disk::DiskLog;
use crate::happening::{Asker, Happening};
use crate::let_go::let_go;
use hk_base::{Actor, MAX_TIME, Memory, NodeId, View};
use hk_inside::{HostTickets, Inquiry};
use hk_link::{Inlet, Outlet, Parcel, link};
use hk_managing::{ManagerJob, ManagerStart, begin_manager};
use hk_outside::Clock;
use hk_overseer::Outlets;
use hk_restore::Terms;
use hk_routes::Routes;
use hk_shared_state::{Coming, SharedState, Slot};
use std::alloc::Global;
use std::io::Eprint;
use std::mem;
use std::sync::{Arc, Wait};

// Room for all letters of a turn.
const ROOM: usize = 1_024;

/// What the parts of a process share.
pub type HostShared<R> = SharedState<R, HostClock>;

/// The loop of a manager.
pub type Job<R> = ManagerJob<R, HostClock, DiskLog<R>>;

// Where an answer will be left, and until when it is waited for.
#[derive(Drop)]
struct Waiting {
    asker: Asker,
    until: u64,
    slot: Arc<Slot>,
}

// How letters come to a manager, and go from it.
#[derive(Drop)]
struct Ends {
    inward: Outlet,
    // Split for each actor to whom it sends.
    outward: Outlet,
    wire: Inlet,
    routes: Arc<Routes>,
}

/// The manager of a process.
#[derive(Drop)]
pub struct Manager<R: Wait + Drop> {
    /// Its loop, of which this makes the turns.
    pub job: Job<R>,
    ends: Ends,
    // To how many nodes letters go.
    routed: usize,
    waiting: Vec<Waiting>,
}

// One outlet to each manager.
fn split_for(alloc: Global, outward: &mut Outlet, managers: u8) -> Result<Outlets, Memory> {
    let mut outlets = Outlets::new(alloc);
    for place in 0..managers {
        let outlet = outward.split()?;
        outlets.push((Actor::Manager(place), outlet))?;
    }
    Ok(outlets)
}

// One link out, split for each manager, and the routes by it.
fn lead_out(alloc: Global, managers: u8) -> Result<(Outlet, Inlet, Arc<Routes>), Memory> {
    let (mut outward, wire) = link(alloc, ROOM)?;
    let outlets = split_for(alloc, &mut outward, managers)?;
    let routes = Arc::new(alloc, Routes::new(outlets))?;
    Ok((outward, wire, routes))
}

// Letters come to it by the inlet.
fn new_ends(alloc: Global, managers: u8) -> Result<(Ends, Inlet), Memory> {
    let (outward, wire, routes) = lead_out(alloc, managers)?;
    let (inward, inlet) = link(alloc, ROOM)?;
    let ends = Ends {
        inward,
        outward,
        wire,
        routes,
    };
    Ok((ends, inlet))
}

// What the log has. There is nothing where the host has no manager, or its log is not taken up.
fn begin_log<R: Wait + Eprint + Copy + Drop>(
    shared: &HostShared<R>,
    log: DiskLog<R>,
    drawn: HostTickets,
) -> Result<Option<ManagerStart<DiskLog<R>>>, Memory> {
    let identity = &shared.identity;
    let managers = identity.managers();
    let first = View::first(shared.alloc, managers)?;
    let now = shared.clock.now().min(MAX_TIME);
    let Some(place) = identity.place else {
        return Ok(None);
    };
    if place >= managers {
        return Ok(None);
    }
    let terms = Terms {
        place,
        managers,
        lease: identity.lease,
        skew: identity.skew,
    };
    match begin_manager(shared.alloc, log, terms, drawn, &first, now) {
        Ok(start) => Ok(Some(start)),
        Err(_) => Ok(None),
    }
}

// Begins by what the log has. There is none where the host has none, or its log is not taken up.
fn begin_job<R: Wait + Eprint + Copy + Drop>(
    shared: &Arc<HostShared<R>>,
    log: DiskLog<R>,
    drawn: HostTickets,
    routes: &Arc<Routes>,
    inlet: Inlet,
) -> Result<Option<Job<R>>, Memory> {
    let own = Arc::try_clone(shared)?;
    let clock = Arc::try_clone(&shared.clock)?;
    let Some(start) = begin_log(&*shared, log, drawn)? else {
        return Ok(None);
    };
    let job = ManagerJob::new(own, start, inlet, routes, clock)?;
    Ok(Some(job))
}

// A manager with this loop, if there is one.
fn with_job<R: Wait + Drop>(alloc: Global, job: Option<Job<R>>, ends: Ends) -> Option<Manager<R>> {
    match job {
        Some(job) => Some(Manager {
            job,
            ends,
            routed: 0,
            waiting: Vec::new(alloc),
        }),
        None => {
            let_go(ends);
            None
        }
    }
}

impl<R: Wait + Eprint + Copy + Drop> Manager<R> {
    /// The manager of this process, by what its log has. There is none where the host has none, or its log is not taken
    /// up.
    pub fn begin(
        shared: &Arc<HostShared<R>>,
        log: DiskLog<R>,
        drawn: HostTickets,
    ) -> Result<Option<Manager<R>>, Memory> {
        let alloc = shared.alloc;
        let (ends, inlet) = new_ends(alloc, shared.identity.managers())?;
        match begin_job(shared, log, drawn, &ends.routes, inlet) {
            Ok(job) => Ok(with_job(alloc, job, ends)),
            Err(memory) => {
                let_go(ends);
                Err(memory)
            }
        }
    }

    /// Letters go to the nodes of these numbers too from now on.
    pub fn lead(&mut self, rt: &R, numbers: &[NodeId]) -> Result<(), Memory> {
        for number in numbers.iter().skip(self.routed) {
            let outlet = self.ends.outward.split()?;
            self.ends.routes.add(rt, Actor::Node(*number), outlet)?;
        }
        self.routed = numbers.len();
        Ok(())
    }

    /// A letter comes. It is lost where there is no room.
    pub fn put(&mut self, rt: &R, parcel: Parcel) {
        let_go(self.ends.inward.put_quietly(rt, parcel));
    }

    /// Somebody asks, and waits until then.
    pub fn ask(
        &mut self,
        shared: &HostShared<R>,
        asker: Asker,
        until: u64,
        inquiry: Inquiry,
    ) -> Result<(), Memory> {
        match self.await_answer(shared.alloc, asker, until) {
            Ok(slot) => {
                shared
                    .mailbox
                    .put(&shared.rt, Coming::Asked { inquiry, slot });
                Ok(())
            }
            Err(memory) => {
                let_go(inquiry);
                Err(memory)
            }
        }
    }

    // Where an answer to somebody is to be left who waits until then.
    fn await_answer(
        &mut self,
        alloc: Global,
        asker: Asker,
        until: u64,
    ) -> Result<Arc<Slot>, Memory> {
        let left = Arc::new(alloc, Slot::new())?;
        let slot = Arc::try_clone(&left)?;
        self.waiting.push(Waiting { asker, until, slot })?;
        Ok(left)
    }

    /// Puts the answers that were left. Who waited for too long waits no more.
    pub fn put_answers(
        &mut self,
        shared: &HostShared<R>,
        place: u8,
        now: u64,
        sent: &mut Vec<Happening>,
    ) -> Result<(), Memory> {
        let waiting = mem::replace(&mut self.waiting, Vec::new(shared.alloc));
        for one in waiting {
            match one.slot.wait(&shared.rt, 0) {
                Some(response) => sent.push(Happening::Answer {
                    asker: one.asker,
                    place,
                    response,
                })?,
                None => {
                    if now < one.until {
                        self.waiting.push(one)?;
                    }
                }
            }
        }
        Ok(())
    }

    /// Puts the letters that it sent.
    pub fn put_letters(
        &mut self,
        shared: &HostShared<R>,
        sent: &mut Vec<Happening>,
    ) -> Result<(), Memory> {
        let founding = shared.founding();
        for _letter in 0..ROOM {
            let Some(parcel) = self.ends.wire.take(&shared.rt) else {
                return Ok(());
            };
            sent.push(Happening::Letter { founding, parcel })?;
        }
        Ok(())
    }
}
