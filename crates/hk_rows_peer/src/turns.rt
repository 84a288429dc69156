//! That what a read brought is put before more is read. No clause says so: this shows it.

ghost use Rattle.std.specs.Prelude.{◌≡◌, Some, None, []};
ghost use Rattle.hk_link.specs.Ends.{IsSameLink};

use crate::serve::ACK;
use hk_base::{Actor, NodeId};
use hk_link::{Inlet, link};
use hk_outside::{Failed, MemorySource, Source};
use hk_peer::{Course, Elsewhere, PeerEnd, serve_peer};
use std::alloc::Global;
use std::process::Abort;
use std::sync::Wait;

// A source in memory, each of whose pieces is a frame. It notes whether a piece was read before the parcel of the piece before it
// was put.
#[derive(Drop)]
struct InTurn<R: Wait + Copy + Drop> {
    rt: R,
    source: MemorySource,
    inlet: Inlet,
    reads: usize,
    is_late: bool,
}

// Whether there was a parcel to take.
fn is_taken<R: Wait>(rt: &R, inlet: &mut Inlet) -> bool
    ensures { IsSameLink inlet.new inlet.old }
{
    match inlet.take(rt) {
        Some(_parcel) => true,
        None => false,
    }
}

impl<R: Wait + Copy + Drop> Source for InTurn<R> {
    ghost left = { λ s. None };

    ghost faults = { λ s. s.source.faults };

    ghost beside = { λ s. (Some [], 0) };

    fn read(&mut self, room: &mut [u8]) -> Result<usize, Failed> {
        let is_first = self.reads == 0;
        self.reads = self.reads.saturating_add(1);
        if !is_first && !is_taken(&self.rt, &mut self.inlet) {
            self.is_late = true;
        }
        let count = room.len().min(ACK.len());
        self.source.read(&mut room[..count])
    }
}

// A source of two frames, and the end of its connection.
fn serve_two<R: Wait + Copy + Drop + Abort>(rt: R, alloc: Global) -> (PeerEnd, InTurn<R>) {
    let mut bytes = ACK.to_vec(alloc).expect(&rt, "memory");
    bytes.extend_from_slice(&ACK).expect(&rt, "memory");
    let (mut outlet, inlet) = link(alloc, 4).expect(&rt, "memory");
    let mut conn = InTurn {
        rt,
        source: MemorySource::new(bytes, Vec::new(alloc)),
        inlet,
        reads: 0,
        is_late: false,
    };
    let end = serve_peer(
        &rt,
        alloc,
        &mut conn,
        Course::to(Actor::Node(NodeId(0))),
        &mut outlet,
        &mut Elsewhere,
    );
    (end, conn)
}

#[test]
fn parcels_are_put_before_more_is_read(rt: HostRuntime) {
    let (end, conn) = serve_two(rt, rt.alloc());
    assert_eq!(rt; end, PeerEnd::End);
    assert_eq!(rt; conn.reads, 3);
    assert!(rt; !conn.is_late);
}
