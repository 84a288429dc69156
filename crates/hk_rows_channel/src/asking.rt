//! Managers that are asked.

use crate::outside::{
    FakeDialer, OTHER, Reached, Seen, SetClock, TICKET, dialer, greeting_of, hello, joined, shared,
};
use hk_base::Actor;
use hk_channel::{AskManager, Asker};
use hk_hello::{Party, Purpose};
use hk_inside::{Inquiry, Response};
use std::alloc::Global;
use std::collections::VecDeque;
use std::process::Abort;
use std::sync::{Arc, Wait};

// The frames of an inquiry for a seat, and of Yes.
const SEAT: [u8; 21] = [
    0, 0, 0, 17, 2, 2, 2, 2, 2, 2, 2, 2, 2, 2, 2, 2, 2, 2, 2, 2, 2,
];

const YES: [u8; 5] = [0, 0, 0, 1, 128];

// What an asker says first, and what its manager says where it takes that.
#[derive(Drop)]
struct Talk {
    hello: Vec<u8>,
    challenge: Vec<u8>,
    accepted: Vec<u8>,
}

fn make_talk(rt: &impl Abort, alloc: Global) -> Talk {
    let own = Party::Actor(Actor::Manager(0));
    let other = Party::Actor(Actor::Manager(1));
    let parts = greeting_of(
        rt,
        alloc,
        hello(rt, alloc, Purpose::Requests, own, other, TICKET),
    );
    let accepted = joined(rt, alloc, &[&parts.challenge, &parts.welcome]);
    Talk {
        hello: parts.dialled,
        challenge: parts.challenge,
        accepted,
    }
}

// An asker whose manager is reached at each dial, and says this.
fn asker<R: Wait + Abort + Copy + Send + Drop + 'static>(
    rt: R,
    alloc: Global,
    seen: &Arc<Seen>,
    says: &[Vec<u8>],
) -> Asker<R, SetClock, FakeDialer<R>> {
    let mut reached = VecDeque::new(alloc);
    for bytes in says {
        let bytes = bytes.as_slice().to_vec(alloc).expect(&rt, "memory");
        let somebody = Reached::Somebody { bytes, writes: 9 };
        reached.push_back(somebody).expect(&rt, "memory");
    }
    Asker::new(shared(rt, alloc, None), dialer(rt, alloc, seen, reached), 1)
}

// Whether it is answered Yes.
fn is_answered(asker: &mut impl AskManager) -> bool {
    match asker.ask(&Inquiry::Seat(OTHER)) {
        Some(Response::Yes) => true,
        Some(_) => false,
        None => false,
    }
}

#[test]
fn a_manager_is_asked_again_on_its_connection(rt: HostRuntime) {
    let alloc = rt.alloc();
    let seen = Arc::new(alloc, Seen::new(alloc)).expect(&rt, "memory");
    let talk = make_talk(&rt, alloc);
    let says = [joined(&rt, alloc, &[&talk.accepted, &YES, &YES])];
    let said = joined(&rt, alloc, &[&talk.hello, &SEAT, &SEAT]);
    let mut asker = asker(rt, alloc, &seen, &says);
    assert!(rt; is_answered(&mut asker));
    assert!(rt; is_answered(&mut asker));
    assert_eq!(rt; seen.dials(), 1);
    assert!(rt; seen.is(&rt, &said));
}

#[test]
fn an_answer_that_is_late_is_not_taken_for_another(rt: HostRuntime) {
    let alloc = rt.alloc();
    let seen = Arc::new(alloc, Seen::new(alloc)).expect(&rt, "memory");
    let talk = make_talk(&rt, alloc);
    let says = [
        joined(&rt, alloc, &[&talk.accepted, &YES, &YES[..4]]),
        joined(&rt, alloc, &[&talk.accepted, &YES]),
    ];
    let mut asker = asker(rt, alloc, &seen, &says);
    assert!(rt; is_answered(&mut asker));
    assert!(rt; !is_answered(&mut asker));
    assert!(rt; is_answered(&mut asker));
    assert_eq!(rt; seen.dials(), 2);
}

#[test]
fn who_refuses_is_not_asked(rt: HostRuntime) {
    let alloc = rt.alloc();
    let seen = Arc::new(alloc, Seen::new(alloc)).expect(&rt, "memory");
    let talk = make_talk(&rt, alloc);
    let says = [joined(&rt, alloc, &[&talk.challenge, &[2], &YES])];
    let mut asker = asker(rt, alloc, &seen, &says);
    assert!(rt; !is_answered(&mut asker));
    assert!(rt; !is_answered(&mut asker));
    assert!(rt; seen.is(&rt, &talk.hello));
    assert_eq!(rt; seen.dials(), 1);
}
