//! Greetings by who dials.

use crate::outside::{
    CHALLENGE, HELLO, HastyClock, SECRET, WELCOME, bytes_of, connection, failing, plain_hello,
    written,
};
use hk_greet::{Buffered, HearFault, KnockFault, knock};
use hk_hello::{HelloRefusal, is_in_range};
use hk_outside::{Clock, HandClock, MemoryConnection, Source};
use std::alloc::Global;
use std::process::Abort;

const NOON: HandClock = HandClock { at: 5_000 };

// A greeting by the worked hello.
fn greet<T: Clock>(
    rt: &impl Abort,
    alloc: Global,
    clock: &T,
    conn: &mut Buffered<MemoryConnection>,
    secret: &[u8],
) -> Result<(), KnockFault> {
    let hello = plain_hello(rt, alloc);
    if !is_in_range(&hello) {
        return Err(KnockFault::Memory);
    }
    knock(alloc, clock, conn, secret, hello)
}

#[test]
fn the_worked_hello_is_sent_and_what_follows_stays(rt: HostRuntime) {
    let alloc = rt.alloc();
    let bytes = bytes_of(&rt, alloc, &[CHALLENGE, WELCOME, "01020304"]);
    let mut conn = connection(&rt, alloc, &bytes);
    let hello = bytes_of(&rt, alloc, &[HELLO]);
    assert_eq!(rt; greet(&rt, alloc, &NOON, &mut conn, SECRET), Ok(()));
    assert_eq!(rt; written(&conn), hello.as_slice());
    assert_eq!(rt; conn.unread(), [1, 2, 3, 4].as_slice());
    let mut room = [0; 3];
    assert_eq!(rt; conn.read(&mut room), Ok(3));
    assert_eq!(rt; room, [1, 2, 3]);
    assert_eq!(rt; conn.read(&mut room), Ok(1));
    assert_eq!(rt; room, [4, 2, 3]);
    assert_eq!(rt; conn.read(&mut room), Ok(0));
}

#[test]
fn a_greeting_ends_at_each_place(rt: HostRuntime) {
    let alloc = rt.alloc();
    let bytes = bytes_of(&rt, alloc, &[CHALLENGE, WELCOME]);
    let hello = bytes_of(&rt, alloc, &[HELLO]);
    for len in 0..53 {
        let front = bytes.get(..len).expect(&rt, "a front");
        let mut conn = connection(&rt, alloc, front);
        let found = greet(&rt, alloc, &NOON, &mut conn, SECRET);
        if len < 20 {
            assert_eq!(rt;
                found,
                Err(KnockFault::NoChallenge(HearFault::Ended)),
                "{len}"
            );
            assert_eq!(rt; written(&conn), b"".as_slice(), "{len}");
            assert_eq!(rt; conn.unread(), front, "{len}");
        } else {
            assert_eq!(rt; found, Err(KnockFault::NoAnswer(HearFault::Ended)), "{len}");
            assert_eq!(rt; written(&conn), hello.as_slice(), "{len}");
            assert_eq!(rt; conn.unread().len(), len - 20, "{len}");
        }
    }
}

#[test]
fn each_refusal_is_heard(rt: HostRuntime) {
    let alloc = rt.alloc();
    let rows = [
        (1, HelloRefusal::AnotherSecret),
        (2, HelloRefusal::AnotherGroup),
        (3, HelloRefusal::OtherHosts),
        (4, HelloRefusal::AnotherLeaseOrSkew),
        (5, HelloRefusal::AnotherFounding),
        (6, HelloRefusal::NoSuchActor),
        (7, HelloRefusal::NumberTaken),
    ];
    for (code, refusal) in rows {
        let mut bytes = bytes_of(&rt, alloc, &[CHALLENGE]);
        bytes.push(code).expect(&rt, "memory");
        let mut conn = connection(&rt, alloc, &bytes);
        let found = greet(&rt, alloc, &NOON, &mut conn, SECRET);
        assert_eq!(rt; found, Err(KnockFault::Refused(refusal)));
    }
}

#[test]
fn who_knows_another_secret_is_a_stranger(rt: HostRuntime) {
    let alloc = rt.alloc();
    let bytes = bytes_of(&rt, alloc, &[CHALLENGE, WELCOME]);
    let mut conn = connection(&rt, alloc, &bytes);
    let found = greet(&rt, alloc, &NOON, &mut conn, b"another horse");
    assert_eq!(rt; found, Err(KnockFault::Stranger));
    for at in 21..53 {
        let mut other = bytes_of(&rt, alloc, &[CHALLENGE, WELCOME]);
        *other.get_mut(at).expect(&rt, "a byte") ^= 1;
        let mut conn = connection(&rt, alloc, &other);
        let found = greet(&rt, alloc, &NOON, &mut conn, SECRET);
        assert_eq!(rt; found, Err(KnockFault::Stranger), "{at}");
    }
}

#[test]
fn what_is_no_greeting_is_malformed(rt: HostRuntime) {
    let alloc = rt.alloc();
    let mut conn = connection(&rt, alloc, b"HTTP");
    let found = greet(&rt, alloc, &NOON, &mut conn, SECRET);
    assert_eq!(rt; found, Err(KnockFault::NoChallenge(HearFault::Malformed)));
    let bytes = bytes_of(&rt, alloc, &[CHALLENGE, "08"]);
    let mut conn = connection(&rt, alloc, &bytes);
    let found = greet(&rt, alloc, &NOON, &mut conn, SECRET);
    assert_eq!(rt; found, Err(KnockFault::NoAnswer(HearFault::Malformed)));
}

#[test]
fn faults_of_the_connection_are_told(rt: HostRuntime) {
    let alloc = rt.alloc();
    let bytes = bytes_of(&rt, alloc, &[CHALLENGE]);
    let mut conn = failing(&rt, alloc, &bytes, &[0], &[]);
    let found = greet(&rt, alloc, &NOON, &mut conn, SECRET);
    assert_eq!(rt; found, Err(KnockFault::NoChallenge(HearFault::ReadFault)));
    let mut conn = failing(&rt, alloc, &bytes, &[1], &[]);
    let found = greet(&rt, alloc, &NOON, &mut conn, SECRET);
    assert_eq!(rt; found, Err(KnockFault::NoAnswer(HearFault::ReadFault)));
    let mut conn = failing(&rt, alloc, &bytes, &[], &[0]);
    let found = greet(&rt, alloc, &NOON, &mut conn, SECRET);
    assert_eq!(rt; found, Err(KnockFault::WriteFault));
}

#[test]
fn a_greeting_has_two_seconds(rt: HostRuntime) {
    let alloc = rt.alloc();
    let bytes = bytes_of(&rt, alloc, &[CHALLENGE]);
    let mut conn = connection(&rt, alloc, &bytes);
    let found = greet(&rt, alloc, &HastyClock::new(1_999), &mut conn, SECRET);
    assert_eq!(rt; found, Err(KnockFault::NoAnswer(HearFault::Late)));
    let mut conn = connection(&rt, alloc, &bytes);
    let found = greet(&rt, alloc, &HastyClock::new(2_000), &mut conn, SECRET);
    assert_eq!(rt; found, Err(KnockFault::NoChallenge(HearFault::Late)));
}
