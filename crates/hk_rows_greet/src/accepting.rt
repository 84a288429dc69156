//! Greetings by who accepts.

use crate::outside::{
    ASKED, CHALLENGE, FOUNDING, HELLO, HOSTS, HastyClock, SECRET, WELCOME, bytes_of, connection,
    failing, plain_hello, sequence_of, written,
};
use hk_base::{Actor, NodeId};
use hk_greet::{AdmitFault, Buffered, HearFault, LookUp, admit, knock};
use hk_hello::{
    Hello, HelloRefusal, HostsDigest, LookedUp, Ours, Party, Purpose, is_in_range, print_hello,
    sign,
};
use hk_outside::{Clock, HandClock, MemoryConnection, Source};
use std::alloc::Global;
use std::process::Abort;

const NOON: HandClock = HandClock { at: 5_000 };

// Tells the same of each hello.
#[derive(Clone, Copy)]
struct Always(LookedUp);

impl LookUp for Always {
    ghost use Rattle.std.specs.Prelude.{◌≡◌};

    ghost finds = { λ always hello looked. looked ≡ always.0 };

    fn look_up(&self, _hello: &Hello) -> LookedUp {
        self.0
    }
}

const ALL_IS_WELL: LookedUp = LookedUp {
    founding: FOUNDING,
    to_is_here: true,
    from_is_bound: true,
    is_taken: false,
};

fn ours(rt: &impl Abort, alloc: Global) -> Ours {
    Ours {
        secret: sequence_of(rt, alloc, SECRET),
        group: sequence_of(rt, alloc, b"hermes"),
        hosts: HOSTS,
        lease: 1000,
        skew: 10,
    }
}

// What becomes of a greeting. Of a hello that is taken it is told whether it is the worked one's actor.
fn greeted<T: Clock>(
    rt: &impl Abort,
    alloc: Global,
    clock: &T,
    conn: &mut Buffered<MemoryConnection>,
    looked: LookedUp,
) -> Result<bool, AdmitFault> {
    let ours = ours(rt, alloc);
    match admit(alloc, clock, conn, ASKED, &ours, &Always(looked)) {
        Ok(hello) => Ok(hello.from == Party::Actor(Actor::Manager(1))),
        Err(fault) => Err(fault),
    }
}

#[test]
fn the_worked_hello_is_taken_and_the_letters_behind_it_stay(rt: HostRuntime) {
    let alloc = rt.alloc();
    let bytes = bytes_of(&rt, alloc, &[HELLO, "0a0b0c0d"]);
    let mut conn = connection(&rt, alloc, &bytes);
    let said = bytes_of(&rt, alloc, &[CHALLENGE, WELCOME]);
    assert_eq!(rt;
        greeted(&rt, alloc, &NOON, &mut conn, ALL_IS_WELL),
        Ok(true)
    );
    assert_eq!(rt; written(&conn), said.as_slice());
    let mut room = [0; 16];
    assert_eq!(rt; conn.read(&mut room), Ok(4));
    assert_eq!(rt; &room[..4], [10, 11, 12, 13].as_slice());
    assert_eq!(rt; conn.read(&mut room), Ok(0));
}

#[test]
fn a_hello_ends_at_each_place(rt: HostRuntime) {
    let alloc = rt.alloc();
    let bytes = bytes_of(&rt, alloc, &[HELLO]);
    let challenge = bytes_of(&rt, alloc, &[CHALLENGE]);
    for len in 0..88 {
        let front = bytes.get(..len).expect(&rt, "a front");
        let mut conn = connection(&rt, alloc, front);
        let found = greeted(&rt, alloc, &NOON, &mut conn, ALL_IS_WELL);
        assert_eq!(rt; found, Err(AdmitFault::NoHello(HearFault::Ended)), "{len}");
        assert_eq!(rt; written(&conn), challenge.as_slice(), "{len}");
        assert_eq!(rt; conn.unread(), front, "{len}");
    }
}

// What makes a hello another one.
#[derive(Clone, Copy, Debug, PartialEq, Eq)]
enum Otherwise {
    Nothing,
    Group,
    Hosts,
    Lease,
    Skew,
    Founding,
    Requests,
}

fn hello_with(rt: &impl Abort, alloc: Global, what: Otherwise) -> Hello {
    let plain = plain_hello(rt, alloc);
    match what {
        Otherwise::Nothing => plain,
        Otherwise::Group => Hello {
            group: sequence_of(rt, alloc, b"hermes-2"),
            ..plain
        },
        Otherwise::Hosts => Hello {
            hosts: HostsDigest([0; 8]),
            ..plain
        },
        Otherwise::Lease => Hello {
            lease: 999,
            ..plain
        },
        Otherwise::Skew => Hello { skew: 11, ..plain },
        Otherwise::Founding => Hello {
            founding: 7,
            ..plain
        },
        Otherwise::Requests => Hello {
            purpose: Purpose::Requests,
            from: Party::Actor(Actor::Node(NodeId(3))),
            ..plain
        },
    }
}

// The bytes of a hello that is signed with this secret.
fn signed(rt: &impl Abort, alloc: Global, secret: &[u8], what: Otherwise) -> Vec<u8> {
    let hello = hello_with(rt, alloc, what);
    let mut out = Vec::new(alloc);
    if is_in_range(&hello) {
        let signed = sign(alloc, secret, ASKED, hello).expect(rt, "memory");
        print_hello(alloc, &mut out, &signed).expect(rt, "memory");
    }
    out
}

// A hello that is refused is told why, and nothing else is said to it.
fn check(
    rt: &impl Abort,
    alloc: Global,
    secret: &[u8],
    what: Otherwise,
    looked: LookedUp,
    refusal: HelloRefusal,
) {
    let bytes = signed(rt, alloc, secret, what);
    let mut conn = connection(rt, alloc, &bytes);
    let mut said = bytes_of(rt, alloc, &[CHALLENGE]);
    said.push(refusal.code()).expect(rt, "memory");
    let found = greeted(rt, alloc, &NOON, &mut conn, looked);
    assert_eq!(rt;
        found,
        Err(AdmitFault::Refused(refusal)),
        "{what:?}, {looked:?}"
    );
    assert_eq!(rt; written(&conn), said.as_slice(), "{what:?}, {looked:?}");
    assert_eq!(rt; conn.unread(), b"".as_slice(), "{what:?}, {looked:?}");
}

#[test]
fn each_refusal_is_told(rt: HostRuntime) {
    let alloc = rt.alloc();
    let away = LookedUp {
        to_is_here: false,
        ..ALL_IS_WELL
    };
    let unbound = LookedUp {
        from_is_bound: false,
        ..ALL_IS_WELL
    };
    let taken = LookedUp {
        is_taken: true,
        ..ALL_IS_WELL
    };
    let rows = [
        (Otherwise::Group, ALL_IS_WELL, HelloRefusal::AnotherGroup),
        (Otherwise::Hosts, taken, HelloRefusal::OtherHosts),
        (Otherwise::Lease, away, HelloRefusal::AnotherLeaseOrSkew),
        (Otherwise::Skew, unbound, HelloRefusal::AnotherLeaseOrSkew),
        (Otherwise::Founding, taken, HelloRefusal::AnotherFounding),
        (Otherwise::Nothing, away, HelloRefusal::NoSuchActor),
        (Otherwise::Nothing, unbound, HelloRefusal::NoSuchActor),
        (Otherwise::Requests, taken, HelloRefusal::NumberTaken),
        (Otherwise::Nothing, taken, HelloRefusal::NumberTaken),
    ];
    for (what, looked, refusal) in rows {
        check(&rt, alloc, SECRET, what, looked, refusal);
        check(
            &rt,
            alloc,
            b"another horse",
            what,
            looked,
            HelloRefusal::AnotherSecret,
        );
    }
}

#[test]
fn a_request_needs_no_binding(rt: HostRuntime) {
    let alloc = rt.alloc();
    let bytes = signed(&rt, alloc, SECRET, Otherwise::Requests);
    let mut conn = connection(&rt, alloc, &bytes);
    let unbound = LookedUp {
        from_is_bound: false,
        ..ALL_IS_WELL
    };
    assert_eq!(rt; greeted(&rt, alloc, &NOON, &mut conn, unbound), Ok(false));
}

#[test]
fn what_is_no_hello_is_malformed(rt: HostRuntime) {
    let alloc = rt.alloc();
    let mut conn = connection(&rt, alloc, b"GET / HTTP/1.1\r\n");
    let found = greeted(&rt, alloc, &NOON, &mut conn, ALL_IS_WELL);
    assert_eq!(rt; found, Err(AdmitFault::NoHello(HearFault::Malformed)));
}

#[test]
fn faults_of_the_connection_are_told(rt: HostRuntime) {
    let alloc = rt.alloc();
    let bytes = bytes_of(&rt, alloc, &[HELLO]);
    let mut conn = failing(&rt, alloc, &bytes, &[0], &[]);
    let found = greeted(&rt, alloc, &NOON, &mut conn, ALL_IS_WELL);
    assert_eq!(rt; found, Err(AdmitFault::NoHello(HearFault::ReadFault)));
    for write in [0, 1] {
        let mut conn = failing(&rt, alloc, &bytes, &[], &[write]);
        let found = greeted(&rt, alloc, &NOON, &mut conn, ALL_IS_WELL);
        assert_eq!(rt; found, Err(AdmitFault::WriteFault), "{write}");
    }
}

#[test]
fn a_hello_has_two_seconds(rt: HostRuntime) {
    let alloc = rt.alloc();
    let bytes = bytes_of(&rt, alloc, &[HELLO]);
    let mut conn = connection(&rt, alloc, &bytes);
    let found = greeted(&rt, alloc, &HastyClock::new(1_999), &mut conn, ALL_IS_WELL);
    assert_eq!(rt; found, Ok(true));
    let front = bytes.get(..87).expect(&rt, "a front");
    let mut conn = connection(&rt, alloc, front);
    let found = greeted(&rt, alloc, &HastyClock::new(1_999), &mut conn, ALL_IS_WELL);
    assert_eq!(rt; found, Err(AdmitFault::NoHello(HearFault::Late)));
}

// What who dials writes is what who accepts takes, and the other way round.
#[test]
fn both_ends_take_each_other(rt: HostRuntime) {
    let alloc = rt.alloc();
    let challenge = bytes_of(&rt, alloc, &[CHALLENGE]);
    let mut dialler = connection(&rt, alloc, &challenge);
    let hello = plain_hello(&rt, alloc);
    assert!(rt; is_in_range(&hello));
    let first = knock(alloc, &NOON, &mut dialler, SECRET, hello);
    assert!(rt; first.is_err());
    let mut acceptor = connection(&rt, alloc, written(&dialler));
    assert_eq!(rt;
        greeted(&rt, alloc, &NOON, &mut acceptor, ALL_IS_WELL),
        Ok(true)
    );
    let mut dialler = connection(&rt, alloc, written(&acceptor));
    let hello = plain_hello(&rt, alloc);
    assert!(rt; is_in_range(&hello));
    let second = knock(alloc, &NOON, &mut dialler, SECRET, hello);
    assert_eq!(rt; second, Ok(()));
}
