//! The connection of a peer, read in pieces of 1, 41 and 42 bytes.

ghost use Rattle.std.specs.Prelude.{◌≡◌, Some, None, []};
ghost use Rattle.hk_link.specs.Ends.{IsSameLink};

use hk_base::{Actor, NodeId};
use hk_frame::FrameFault;
use hk_link::{Inlet, Parcel, link};
use hk_outside::{Failed, MemorySource, Source};
use hk_peer::{Course, Elsewhere, PeerEnd, serve_peer};
use std::alloc::Global;
use std::process::Abort;
use std::sync::Wait;

// A source in memory, whose bytes come in pieces of at most so many.
#[derive(Drop)]
struct Pieced {
    source: MemorySource,
    most: usize,
}

impl Source for Pieced {
    ghost left = { λ p. None };

    ghost faults = { λ p. p.source.faults };

    ghost beside = { λ p. (Some [], 0) };

    fn read(&mut self, room: &mut [u8]) -> Result<usize, Failed> {
        let count = room.len().min(self.most);
        self.source.read(&mut room[..count])
    }
}

// The frame by which node 1 acknowledges the update 2.0 of the key `k` to node 0, for shard 3; its own stamp is 2.1.
pub const ACK: [u8; 42] = [
    0, 0, 0, 38, 2, 3, 0, 0, 0, 0, 0, 0, 0, 1, 0, 0, 1, 0, 0, 0, 1, b'k', 0, 0, 0, 0, 0, 0, 0, 2,
    0, 0, 0, 0, 0, 0, 0, 0, 0, 2, 0, 1,
];

// That frame, and behind it the same frame with this kind.
fn two_frames(rt: &impl Abort, alloc: Global, kind: u8) -> Vec<u8> {
    let mut bytes = ACK.to_vec(alloc).expect(rt, "memory");
    let mut second = ACK;
    second[4] = kind;
    bytes.extend_from_slice(&second).expect(rt, "memory");
    bytes
}

// The shard of what is taken next.
fn taken<R: Wait>(rt: &R, inlet: &mut Inlet) -> Option<u8>
    ensures { IsSameLink inlet.new inlet.old }
{
    match inlet.take(rt) {
        Some(parcel) => Some(shard(parcel)),
        None => None,
    }
}

fn shard(parcel: Parcel) -> u8 {
    parcel.shard
}

// How the connection ends that brings these bytes to the node, and the shards of the first three parcels that are put.
fn served<R: Wait + Abort>(
    rt: &R,
    alloc: Global,
    bytes: Vec<u8>,
    most: usize,
    me: u16,
) -> (PeerEnd, [Option<u8>; 3]) {
    let (mut outlet, mut inlet) = link(alloc, 4).expect(rt, "memory");
    let mut conn = Pieced {
        source: MemorySource::new(bytes, Vec::new(alloc)),
        most,
    };
    let end = serve_peer(
        rt,
        alloc,
        &mut conn,
        Course::to(Actor::Node(NodeId(me))),
        &mut outlet,
        &mut Elsewhere,
    );
    let first = taken(rt, &mut inlet);
    let second = taken(rt, &mut inlet);
    let third = taken(rt, &mut inlet);
    (end, [first, second, third])
}

const SIZES: [usize; 3] = [1, 41, 42];

#[test]
fn two_frames_are_put_whatever_the_pieces(rt: HostRuntime) {
    let alloc = rt.alloc();
    for most in SIZES {
        let bytes = two_frames(&rt, alloc, 2);
        let (end, shards) = served(&rt, alloc, bytes, most, 0);
        assert_eq!(rt; end, PeerEnd::End, "{most}");
        assert_eq!(rt; shards, [Some(3), Some(3), None], "{most}");
    }
}

#[test]
fn nothing_is_put_behind_what_is_no_frame(rt: HostRuntime) {
    let alloc = rt.alloc();
    for most in SIZES {
        let bytes = two_frames(&rt, alloc, 14);
        let (end, shards) = served(&rt, alloc, bytes, most, 0);
        assert_eq!(rt;
            end,
            PeerEnd::BadFrame(FrameFault::BadKind { kind: 14 }),
            "{most}"
        );
        assert_eq!(rt; shards, [Some(3), None, None], "{most}");
    }
}

#[test]
fn frames_to_another_node_are_passed_over(rt: HostRuntime) {
    let alloc = rt.alloc();
    for most in SIZES {
        let bytes = two_frames(&rt, alloc, 2);
        let (end, shards) = served(&rt, alloc, bytes, most, 1);
        assert_eq!(rt; end, PeerEnd::End, "{most}");
        assert_eq!(rt; shards, [None, None, None], "{most}");
    }
}
