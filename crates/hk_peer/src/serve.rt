//! The connection of a peer.

ghost use Rattle.std.specs.Prelude.{◌≡◌, ◌≤◌, Err, OnErr};
ghost use Rattle.hk_link.specs.Ends.{IsSameLink};
ghost use Rattle.hk_outside.specs.Causes.{Rose};
ghost use Rattle.hk_peer.specs.Serving.{Serves};
ghost use Rattle.hk_peer.specs.Turns.{Pieces};

use crate::course::Course;
use crate::cutter::PeerCutter;
use crate::ends::PeerEnd;
use crate::pass::pass;
use crate::taker::Taker;
use hk_link::Outlet;
use hk_outside::Source;
use std::alloc::Global;
use std::sync::Wait;

// How much room there is at least for what is read.
const PIECE: usize = 16_384;

// Reads some bytes, straight into the cutter. None is the end.
fn read_piece<C: Source>(cutter: &mut PeerCutter, conn: &mut C) -> Result<usize, PeerEnd>
    ensures pieces { Pieces result (C.left conn.old) (C.left conn.new) (C.given conn.old) (C.given conn.new) cutter.old cutter.new }
    ensures later { C.faults conn.old ≤ C.faults conn.new }
    ensures failed { OnErr result (result ≡ Err PeerEnd.ReadFault → Rose (C.faults conn.old) (C.faults conn.new)) }
{
    if cutter.make_room(PIECE).is_err() {
        return Err(PeerEnd::Memory);
    }
    let count = match conn.read(cutter.room()) {
        Ok(count) => count,
        Err(_) => return Err(PeerEnd::ReadFault),
    };
    cutter.filled(count);
    Ok(count)
}

/// Serves the connection of a peer: puts each parcel that it carries into the link, in the order in which they came, and passes over any other. A put
/// waits while the link is full, unless the link's bell is closed: then nobody takes from it any more, and the connection ends. Behind each read, and where the
/// link is full, `taker` takes what was put.
///
/// What was put is all that the bytes hold which were read before the connection ended, but at `Memory`, where it is a beginning of that.
pub fn serve_peer<R: Wait, C: Source, T: Taker>(
    rt: &R,
    alloc: Global,
    conn: &mut C,
    course: Course,
    outlet: &mut Outlet,
    taker: &mut T,
) -> PeerEnd
    ensures link { IsSameLink outlet.new outlet.old }
    // What was put is what the bytes that were read hold for its course, whatever the pieces in which they came.
    ensures served { Serves course result (C.left conn.old) (C.left conn.new) (C.given conn.old) (C.given conn.new) outlet.old.known outlet.new.known }
    ensures read_fault { result ≡ PeerEnd.ReadFault → Rose (C.faults conn.old) (C.faults conn.new) }
{
    let Ok(mut cutter) = PeerCutter::new(alloc) else {
        return PeerEnd::Memory;
    };
    for _read in 0..u32::MAX {
        let count = match read_piece(&mut cutter, conn) {
            Ok(count) => count,
            Err(end) => return end,
        };
        if count == 0 {
            return PeerEnd::End;
        }
        match pass(rt, alloc, &mut cutter, course, outlet, taker) {
            Ok(()) => {}
            Err(end) => return end,
        }
    }
    PeerEnd::Spent {
        reads: u64::from(u32::MAX),
    }
}
