//! Desks whose thread stands still between a step and its answer, until the lease may be over; and nodes whose first lease is over.

ghost use Rattle.std.specs.Prelude.{◌≡◌, ⊤, None};
ghost use Rattle.hk_locked.specs.Places.{node_names};
ghost use Rattle.hk_worker.specs.Founding.{names_of};

use crate::completing::Quiet;
use crate::desks::{finds, is_stored};
use crate::founding::{
    asked, clock_desk, content, desk, found, found_for_a_while, found_without_lease, key,
    long_data, tells,
};
use hk_base::{Answer, Key, Op, Why};
use hk_locked::{Places, ShardReader};
use hk_outside::{Begun, Clock, Desk, DeskReply};
use hk_rows_shared::let_go;
use hk_worker::{ClockDesk, DeskClock, Founded, Shards};
use std::alloc::Global;
use std::marker::Brand;
use std::process::Abort;
use std::sync::{Arc, Wait};

// A clock that reads 5, and 11 behind what was seen.
#[derive(Drop)]
struct JumpingClock {
    at_first: u64,
    behind: u64,
}

impl Clock for JumpingClock {
    ghost reading = { λ clock. None };

    fn now(&self) -> u64 {
        self.at_first
    }
}

impl DeskClock for JumpingClock {
    ghost was_read = { λ clock. λ seen. λ now. now ≡ clock.behind };

    fn read_behind<P: Places>(&self, _seen: &ShardReader<P>) -> u64 {
        self.behind
    }
}

// A desk of node 0 with such a clock.
fn jumping_desk<R: Wait + Abort + Copy + Drop, P: Places>(
    rt: R,
    alloc: Global,
    shards: &Arc<Shards<Quiet, P>>,
    number: u32,
) -> ClockDesk<JumpingClock, R, Quiet, P> {
    let clock = JumpingClock {
        at_first: 5,
        behind: 11,
    };
    let clock = Arc::new(alloc, clock).expect(&rt, "memory");
    ClockDesk::new(desk(rt, alloc, shards, number), clock)
}

// Whether the reply is that the lease, which ends at 10, may be over at 11.
fn is_over(reply: &DeskReply) -> bool {
    matches!(
        reply,
        DeskReply::Told(Answer::Busy(Why::Lease { end: 10, now: 11 }))
    )
}

// Whether what begins is told so at once.
fn begins_over<W>(begun: &Begun<W>) -> bool {
    match begun {
        Begun::Told(reply) => is_over(reply),
        Begun::Waits(_) => false,
    }
}

// Whether an ask, and one that begins, are told so.
fn is_refused<R: Abort, D: Desk>(rt: &R, desk: &mut D, key: &Key, op: Op) -> bool {
    let begun = desk.begin(key, &op).expect(rt, "memory");
    let begins_refused = begins_over(&begun);
    let_go(begun);
    let reply = asked(rt, desk, key, op);
    let is_asked_refused = is_over(&reply);
    let_go(reply);
    begins_refused && is_asked_refused
}

// At a key with no value what is asked is refused.
fn refuses_without_value<R: Abort, D: Desk>(rt: &R, late: &mut D, k: &Key) {
    assert!(rt; is_refused(rt, late, k, Op::Read));
    assert!(rt; is_refused(rt, late, k, Op::Incr(1)));
}

// A write of a short value is told, and what is asked of it is refused.
fn refuses_a_short_value<R: Abort, D: Desk, E: Desk>(
    rt: &R,
    alloc: Global,
    early: &mut D,
    late: &mut E,
    k: &Key,
) {
    assert!(rt; is_stored(rt, late, k, Op::Write(content(rt, alloc, b"x"))));
    assert!(rt; is_refused(rt, late, k, Op::Read));
    assert!(rt; is_refused(rt, late, k, Op::Decr(1)));
    assert!(rt; is_refused(rt, late, k, Op::Add(content(rt, alloc, b"2"))));
    let cas = Op::Cas {
        tag: 1,
        content: content(rt, alloc, b"2"),
    };
    assert!(rt; is_refused(rt, late, k, cas));
    assert!(rt; finds(rt, early, k, b"x", 131_072));
}

// So it is with a long value.
fn refuses_a_long_value<R: Abort, D: Desk, E: Desk>(
    rt: &R,
    alloc: Global,
    early: &mut D,
    late: &mut E,
    k: &Key,
) {
    let data = long_data(rt, alloc);
    let write = Op::Write(content(rt, alloc, data.as_slice()));
    assert!(rt; is_stored(rt, late, k, write));
    assert!(rt; is_refused(rt, late, k, Op::Read));
    assert!(rt; finds(rt, early, k, data.as_slice(), 262_144));
    let_go(data);
}

// What began no update is told behind its lease that this may be over, at a key with a short value, with a long one, and with none; what began one is told all the same, and
// once.
fn late_answers<R: Wait + Abort + Copy + Drop, P: Places>(rt: R, alloc: Global, founded: Founded)
    requires { node_names P.places founded.node ≡ names_of founded }
{
    let shards: Arc<Shards<Quiet, P>> = Arc::new(alloc, founded.named()).expect(&rt, "memory");
    let mut early = clock_desk(rt, alloc, &shards, 1, 5);
    let mut late = jumping_desk(rt, alloc, &shards, 2);
    let k = key(&rt, alloc, b"k");
    refuses_without_value(&rt, &mut late, &k);
    refuses_a_short_value(&rt, alloc, &mut early, &mut late, &k);
    refuses_a_long_value(&rt, alloc, &mut early, &mut late, &k);
    let_go(early);
    let_go(late);
    let_go(k);
    let_go(shards);
}

#[test]
fn what_is_told_behind_its_lease_is_refused(rt: HostRuntime) {
    let alloc = rt.alloc();
    let founded = found_for_a_while(&rt, alloc);
    late_answers::<HostRuntime, Brand>(rt, alloc, founded);
}

// Where no lease ends nothing is refused.
fn unending<R: Wait + Abort + Copy + Drop, P: Places>(rt: R, alloc: Global, founded: Founded)
    requires { node_names P.places founded.node ≡ names_of founded }
{
    let shards: Arc<Shards<Quiet, P>> = Arc::new(alloc, founded.named()).expect(&rt, "memory");
    let mut late = jumping_desk(rt, alloc, &shards, 1);
    let k = key(&rt, alloc, b"k");
    let not_found = DeskReply::Told(Answer::NotFound);
    assert!(rt; tells(&rt, &mut late, &k, Op::Incr(1), not_found));
    assert!(rt; is_stored(&rt, &mut late, &k, Op::Write(content(&rt, alloc, b"1"))));
    assert!(rt; finds(&rt, &mut late, &k, b"1", 131_072));
    let_go(late);
    let_go(k);
    let_go(shards);
}

#[test]
fn a_lease_that_never_ends_is_not_over(rt: HostRuntime) {
    let alloc = rt.alloc();
    let founded = found(&rt, alloc, false);
    unending::<HostRuntime, Brand>(rt, alloc, founded);
}

// A node whose first lease is over from the beginning refuses, and each of its shards is to ask both managers once its clock rises.
fn asks_at_first<R: Wait + Abort + Copy + Drop, P: Places>(rt: R, alloc: Global, founded: Founded)
    requires { node_names P.places founded.node ≡ names_of founded }
{
    let shards: Arc<Shards<Quiet, P>> = Arc::new(alloc, founded.named()).expect(&rt, "memory");
    let mut desk = clock_desk(rt, alloc, &shards, 1, 1);
    let k = key(&rt, alloc, b"k");
    let over = DeskReply::Told(Answer::Busy(Why::Lease { end: 0, now: 1 }));
    assert!(rt; tells(&rt, &mut desk, &k, Op::Read, over));
    assert_eq!(rt; desk.desk.post.requests_due(), 0);
    desk.desk.post.tick(&rt, 1).expect(&rt, "memory");
    assert_eq!(rt; desk.desk.post.requests_due(), 16);
    let_go(desk);
    let_go(k);
    let_go(shards);
}

#[test]
fn a_node_without_a_lease_asks_for_one(rt: HostRuntime) {
    let alloc = rt.alloc();
    let founded = found_without_lease(&rt, alloc);
    asks_at_first::<HostRuntime, Brand>(rt, alloc, founded);
}
