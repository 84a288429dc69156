//! What a process is, and what it says of itself.

use crate::outside::{OWN, bytes_of, second, words};
use hk_base::Actor;
use hk_hello::{Party, Purpose};
use hk_shared_state::{Identity, IdentityFault};
use std::alloc::Global;
use std::process::Abort;

#[test]
fn a_process_says_what_its_words_tell(rt: HostRuntime) {
    let alloc = rt.alloc();
    let identity = second(&rt, alloc, 1_000);
    let from = Party::Actor(Actor::Manager(1));
    let to = Party::Actor(Actor::Manager(0));
    let hello = identity
        .hello(alloc, Purpose::Letters, from, to, 9, OWN)
        .expect(&rt, "memory");
    assert_eq!(rt; identity.inside.as_slice(), b"10.0.0.2:11400".as_slice());
    assert_eq!(rt; identity.clients.as_slice(), b"10.0.0.2:11211".as_slice());
    assert_eq!(rt; hello.group.as_slice(), b"hermes".as_slice());
    assert_eq!(rt;
        hello.hosts.0,
        [0xe0, 0xc9, 0xb2, 0x84, 0xbd, 0x07, 0x0f, 0xd2]
    );
    assert_eq!(rt; hello.from, from);
    assert_eq!(rt; hello.to, to);
    assert_eq!(rt; hello.founding, 9);
    assert_eq!(rt; hello.lease, 1_000);
    assert_eq!(rt; identity.managers(), 3);
}

// Whether words with this name and place are no process.
fn is_unfit(rt: &impl Abort, alloc: Global, name: &[u8], at: Option<u8>) -> bool {
    let words = words(rt, alloc, name, at, 1_000);
    let secret = bytes_of(rt, alloc, b"correct horse battery");
    match Identity::new(alloc, words, secret, OWN) {
        Ok(_) => false,
        Err(fault) => fault == IdentityFault::Unfit,
    }
}

#[test]
fn what_is_out_of_range_is_no_process(rt: HostRuntime) {
    let alloc = rt.alloc();
    assert!(rt; !is_unfit(&rt, alloc, b"hermes", None));
    assert!(rt; !is_unfit(&rt, alloc, b"a-2", Some(2)));
    assert!(rt; is_unfit(&rt, alloc, b"hermes", Some(3)));
    assert!(rt; is_unfit(&rt, alloc, b"", None));
    assert!(rt; is_unfit(&rt, alloc, b"Hermes", None));
    assert!(rt; is_unfit(&rt, alloc, &[b'a'; 33], None));
}

#[test]
fn a_lease_has_sixteen_beats(rt: HostRuntime) {
    let alloc = rt.alloc();
    assert_eq!(rt; second(&rt, alloc, 100).beat(), 10);
    assert_eq!(rt; second(&rt, alloc, 200).beat(), 12);
    assert_eq!(rt; second(&rt, alloc, 1_000).beat(), 62);
    assert_eq!(rt; second(&rt, alloc, 60_000).beat(), 3_750);
}

#[test]
fn nobody_says_hello_to_a_tenth_manager(rt: HostRuntime) {
    let alloc = rt.alloc();
    let identity = second(&rt, alloc, 1_000);
    let to = Party::Actor(Actor::Manager(9));
    let hello = identity.hello(alloc, Purpose::Requests, Party::Neither, to, 0, OWN);
    assert!(rt; hello.is_err());
}
