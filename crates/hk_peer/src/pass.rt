//! Passes on the parcels that are there.

ghost use Rattle.std.specs.Prelude.{◌≡◌, true, false, OnOk, OnErr};
ghost use Rattle.hk_link.specs.Ends.{IsPut, IsSameLink};
ghost use Rattle.hk_peer.specs.Parcels.{is_on};
ghost use Rattle.hk_peer.specs.Turns.{IsStop, PassesUnlessEnded};

use crate::course::Course;
use crate::cutter::PeerCutter;
use crate::ends::PeerEnd;
use crate::step::PeerStep;
use crate::taker::Taker;
use hk_link::{Full, Outlet, Parcel};
use std::alloc::Global;
use std::sync::Wait;
use std::thread;
use std::thread::Parker;
use std::time::Duration;

// So often a put that finds the link full is made again at once, when others had their turn. From then on it is made again after each pause.
const TRIES: u32 = 64;

const PAUSE_MILLISECONDS: u64 = 1;

// The link was full, and nobody takes from it any more. The parcel is lost.
#[derive(Drop)]
struct Untaken;

// Waits for room in a link. Whoever takes from it rings for nobody, so a wait ends by time.
#[derive(Drop)]
struct Waiting {
    tries: u32,
    parker: Parker,
}

impl Waiting {
    fn new() -> Waiting {
        Waiting {
            tries: 0,
            parker: Parker::new(),
        }
    }

    fn wait<R: Wait>(&mut self, rt: &R) {
        if self.tries < TRIES {
            self.tries += 1;
            thread::yield_now();
        } else {
            self.parker
                .park_timeout(rt, Duration::from_millis(PAUSE_MILLISECONDS));
        }
    }
}

// Puts the parcel, as often as the link is full, unless nobody takes from it any more. Before it waits it rings for what was put, and has it taken.
fn put<R: Wait, T: Taker>(
    rt: &R,
    outlet: &mut Outlet,
    taker: &mut T,
    parcel: Parcel,
) -> Result<(), Untaken>
    ensures link { IsSameLink outlet.new outlet.old }
    ensures put { OnOk result (IsPut outlet.old.known parcel outlet.new.known) }
    ensures untaken { OnErr result (outlet.new.known ≡ outlet.old.known) }
{
    let mut unput = parcel;
    let mut waiting = Waiting::new();
    for _ in rt.forever() {
        match outlet.put_quietly(rt, unput) {
            Ok(()) => return Ok(()),
            Err(Full(back)) => {
                if outlet.is_closed() {
                    return Err(Untaken);
                }
                unput = back;
                outlet.ring(rt);
                taker.take();
                waiting.wait(rt);
            }
        }
    }
    unreachable!()
}

// Puts a parcel that the connection carries. Any other is lost.
fn pass_on<R: Wait, T: Taker>(
    rt: &R,
    course: Course,
    outlet: &mut Outlet,
    taker: &mut T,
    parcel: Parcel,
) -> Result<(), Untaken>
    ensures link { IsSameLink outlet.new outlet.old }
    ensures put { OnOk result (is_on course parcel ≡ true → IsPut outlet.old.known parcel outlet.new.known) }
    ensures lost { OnOk result (is_on course parcel ≡ false → outlet.new.known ≡ outlet.old.known) }
    ensures untaken { OnErr result (outlet.new.known ≡ outlet.old.known) }
{
    if course.carries(&parcel) {
        return put(rt, outlet, taker, parcel);
    }
    Ok(())
}

// Puts the parcels that the connection carries whose frames are there, in their order. They are rung for later.
fn put_all<R: Wait, T: Taker>(
    rt: &R,
    alloc: Global,
    cutter: &mut PeerCutter,
    course: Course,
    outlet: &mut Outlet,
    taker: &mut T,
) -> Result<(), PeerEnd>
    ensures link { IsSameLink outlet.new outlet.old }
    ensures passed { PassesUnlessEnded result course cutter.old.unread cutter.new.unread outlet.old.known outlet.new.known }
    ensures stop { IsStop result cutter.new.unread }
{
    loop {
        match cutter.next(alloc) {
            Ok(PeerStep::Parcel(parcel)) => match pass_on(rt, course, outlet, taker, parcel) {
                Ok(()) => {}
                Err(Untaken) => return Err(PeerEnd::Memory),
            },
            Ok(PeerStep::Need) => return Ok(()),
            Ok(PeerStep::Bad(fault)) => return Err(PeerEnd::BadFrame(fault)),
            Err(_) => return Err(PeerEnd::Memory),
        }
    }
}

/// Puts the parcels that the connection carries whose frames are there, in their order, rings once for all of them, and has them taken.
pub fn pass<R: Wait, T: Taker>(
    rt: &R,
    alloc: Global,
    cutter: &mut PeerCutter,
    course: Course,
    outlet: &mut Outlet,
    taker: &mut T,
) -> Result<(), PeerEnd>
    ensures link { IsSameLink outlet.new outlet.old }
    ensures passed { PassesUnlessEnded result course cutter.old.unread cutter.new.unread outlet.old.known outlet.new.known }
    ensures stop { IsStop result cutter.new.unread }
{
    let ends = put_all(rt, alloc, cutter, course, outlet, taker);
    outlet.ring(rt);
    taker.take();
    ends
}
