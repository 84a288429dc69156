//! Passages for letters.

use crate::outside::{
    FakeDialer, Reached, Seen, SetClock, TICKET, dialer, greeting_of, hello, joined, shared,
};
use hk_base::{Actor, Body, Key, Letter, NodeId, Stamp};
use hk_channel::{AimedCarrier, Channel};
use hk_frame::print_letter;
use hk_hello::{Party, Purpose};
use hk_link::Parcel;
use hk_peer::Carrier;
use hk_shared_state::SharedState;
use std::alloc::Global;
use std::collections::VecDeque;
use std::process::Abort;
use std::sync::{Arc, Wait};

const FROM: Actor = Actor::Node(NodeId(0));

const TO: Actor = Actor::Manager(1);

// A letter of the node.
#[tactic(auto, unfolding(hk_base::specs::Lengths::body_length))]
fn letter(rt: &impl Abort, alloc: Global) -> Parcel {
    let key = Key::read(alloc, b"k").expect(rt, "memory");
    let stamp = Stamp {
        version: 2,
        node: 0,
    };
    let letter = Letter {
        epoch: 1,
        from: FROM,
        to: TO,
        body: Body::Ack {
            key,
            stamp,
            top: stamp,
        },
    };
    Parcel { shard: 3, letter }
}

fn frame_of(rt: &impl Abort, alloc: Global, parcel: &Parcel) -> Vec<u8> {
    let mut frame = Vec::new(alloc);
    print_letter(parcel.shard, &parcel.letter, &mut frame).expect(rt, "memory");
    frame
}

// What a channel says first, and what its acceptor says where it takes that.
#[derive(Drop)]
struct Talk {
    hello: Vec<u8>,
    challenge: Vec<u8>,
    accepted: Vec<u8>,
}

fn make_talk(rt: &impl Abort, alloc: Global) -> Talk {
    let hello = hello(
        rt,
        alloc,
        Purpose::Letters,
        Party::Actor(FROM),
        Party::Actor(TO),
        TICKET,
    );
    let parts = greeting_of(rt, alloc, hello);
    let accepted = joined(rt, alloc, &[&parts.challenge, &parts.welcome]);
    Talk {
        hello: parts.dialled,
        challenge: parts.challenge,
        accepted,
    }
}

// A channel over these dials, and what is seen of it.
fn channel<R: Wait + Abort + Copy + Send + Drop + 'static>(
    rt: R,
    alloc: Global,
    shared: &Arc<SharedState<R, SetClock>>,
    seen: &Arc<Seen>,
    reached: VecDeque<Reached>,
) -> Channel<R, SetClock, FakeDialer<R>> {
    let shared = Arc::try_clone(shared).expect(&rt, "memory");
    Channel::new(shared, dialer(rt, alloc, seen, reached), FROM, TO)
}

#[test]
fn who_is_not_reached_is_dialled_again_behind_a_pause(rt: HostRuntime) {
    let alloc = rt.alloc();
    let shared = shared(rt, alloc, None);
    let seen = Arc::new(alloc, Seen::new(alloc)).expect(&rt, "memory");
    let mut channel = channel(rt, alloc, &shared, &seen, VecDeque::new(alloc));
    let batch = [letter(&rt, alloc)];
    for (at, dials) in [(0, 1), (61, 1), (62, 2), (185, 2), (186, 3)] {
        shared.clock.set(at);
        channel.forward(&batch);
        assert_eq!(rt; seen.dials(), dials, "{at}");
        assert!(rt; !channel.is_connected(), "{at}");
    }
    assert!(rt; seen.is(&rt, b""));
}

#[test]
fn a_channel_that_is_aimed_anew_dials_at_once(rt: HostRuntime) {
    let alloc = rt.alloc();
    let shared = shared(rt, alloc, None);
    let seen = Arc::new(alloc, Seen::new(alloc)).expect(&rt, "memory");
    let mut channel = channel(rt, alloc, &shared, &seen, VecDeque::new(alloc));
    let batch = [letter(&rt, alloc)];
    channel.forward(&batch);
    channel.forward(&batch);
    assert_eq!(rt; seen.dials(), 1);
    channel.aim(TO);
    channel.forward(&batch);
    assert_eq!(rt; seen.dials(), 2);
}

#[test]
fn letters_stand_behind_the_welcome(rt: HostRuntime) {
    let alloc = rt.alloc();
    let shared = shared(rt, alloc, None);
    let seen = Arc::new(alloc, Seen::new(alloc)).expect(&rt, "memory");
    let talk = make_talk(&rt, alloc);
    let batch = [letter(&rt, alloc)];
    let frame = frame_of(&rt, alloc, &batch[0]);
    let said = joined(&rt, alloc, &[&talk.hello, &frame, &frame]);
    let mut reached = VecDeque::new(alloc);
    let first = Reached::Somebody {
        bytes: talk.accepted,
        writes: 3,
    };
    reached.push_back(first).expect(&rt, "memory");
    let mut channel = channel(rt, alloc, &shared, &seen, reached);
    channel.forward(&batch);
    channel.forward(&batch);
    assert!(rt; channel.is_connected());
    assert!(rt; seen.is(&rt, &said));
    // A write fails: the connection is dropped, and the next letter dials at once.
    channel.forward(&batch);
    assert!(rt; !channel.is_connected());
    assert_eq!(rt; seen.dials(), 1);
    channel.forward(&batch);
    assert_eq!(rt; seen.dials(), 2);
}

#[test]
fn nothing_but_the_hello_is_written_where_it_is_refused(rt: HostRuntime) {
    let alloc = rt.alloc();
    let shared = shared(rt, alloc, None);
    let seen = Arc::new(alloc, Seen::new(alloc)).expect(&rt, "memory");
    let talk = make_talk(&rt, alloc);
    // no such actor
    let refused = joined(&rt, alloc, &[&talk.challenge, &[6]]);
    let mut reached = VecDeque::new(alloc);
    let first = Reached::Somebody {
        bytes: refused,
        writes: 9,
    };
    reached.push_back(first).expect(&rt, "memory");
    let mut channel = channel(rt, alloc, &shared, &seen, reached);
    let batch = [letter(&rt, alloc)];
    channel.forward(&batch);
    channel.forward(&batch);
    assert!(rt; !channel.is_connected());
    assert!(rt; seen.is(&rt, &talk.hello));
    assert_eq!(rt; seen.dials(), 1);
}
