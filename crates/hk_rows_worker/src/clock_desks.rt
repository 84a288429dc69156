//! Desks with a clock, at one node's shards.

ghost use Rattle.std.specs.Prelude.{◌≡◌};
ghost use Rattle.hk_locked.specs.Places.{node_names};
ghost use Rattle.hk_worker.specs.Founding.{names_of};

use crate::completing::Quiet;
use crate::desks::{entries, finds, is_stored};
use crate::founding::{clock_desk, content, found, found_for_a_while, key, long_data, tells};
use hk_base::{Answer, Key, Op, Why};
use hk_locked::Places;
use hk_outside::{Desk, DeskReply};
use hk_rows_shared::let_go;
use hk_worker::{Founded, Shards};
use std::alloc::Global;
use std::marker::Brand;
use std::process::Abort;
use std::sync::atomic::{AtomicBool, Ordering};
use std::sync::{Arc, Wait};
use std::thread;
use std::thread::Threads;

// What the shard's cell shows is told with no entry in its journal, and so is what its row has beside. The shard is ticked once, as the clock stands still.
fn local_reads<R: Wait + Abort + Copy + Drop, P: Places>(rt: R, alloc: Global, founded: Founded)
    requires { node_names P.places founded.node ≡ names_of founded }
{
    let shards: Arc<Shards<Quiet, P>> = Arc::new(alloc, founded.named()).expect(&rt, "memory");
    let mut desk = clock_desk(rt, alloc, &shards, 1, 5);
    let k = key(&rt, alloc, b"k");
    assert!(rt; is_stored(&rt, &mut desk, &k, Op::Write(content(&rt, alloc, b"1"))));
    assert_eq!(rt; entries(&rt, &shards), 2);
    assert!(rt; finds(&rt, &mut desk, &k, b"1", 131_072));
    assert_eq!(rt; entries(&rt, &shards), 2);
    let data = long_data(&rt, alloc);
    let write = Op::Write(content(&rt, alloc, data.as_slice()));
    assert!(rt; is_stored(&rt, &mut desk, &k, write));
    assert!(rt; finds(&rt, &mut desk, &k, data.as_slice(), 262_144));
    assert_eq!(rt; entries(&rt, &shards), 3);
    let_go(data);
    let_go(desk);
    let_go(k);
    let_go(shards);
}

#[test]
fn reads_are_told_from_what_a_shard_shows(rt: HostRuntime) {
    let alloc = rt.alloc();
    let founded = found(&rt, alloc, false);
    local_reads::<HostRuntime, Brand>(rt, alloc, founded);
}

// Whether the desk tells that the lease, which ends at 10, may be over at 11.
fn is_over<R: Abort, D: Desk>(rt: &R, desk: &mut D, key: &Key, op: Op) -> bool {
    let over = DeskReply::Told(Answer::Busy(Why::Lease { end: 10, now: 11 }));
    tells(rt, desk, key, op, over)
}

// Once the lease may be over, reads and updates are told so, with its end and the clock.
fn leases_end<R: Wait + Abort + Copy + Drop, P: Places>(rt: R, alloc: Global, founded: Founded)
    requires { node_names P.places founded.node ≡ names_of founded }
{
    let shards: Arc<Shards<Quiet, P>> = Arc::new(alloc, founded.named()).expect(&rt, "memory");
    let mut early = clock_desk(rt, alloc, &shards, 1, 10);
    let mut late = clock_desk(rt, alloc, &shards, 2, 11);
    let k = key(&rt, alloc, b"k");
    assert!(rt; is_stored(&rt, &mut early, &k, Op::Write(content(&rt, alloc, b"1"))));
    assert!(rt; is_over(&rt, &mut late, &k, Op::Read));
    assert!(rt; is_over(&rt, &mut late, &k, Op::Delete));
    assert!(rt; finds(&rt, &mut early, &k, b"1", 131_072));
    let_go(early);
    let_go(late);
    let_go(k);
    let_go(shards);
}

#[test]
fn a_lease_that_may_be_over_is_told(rt: HostRuntime) {
    let alloc = rt.alloc();
    let founded = found_for_a_while(&rt, alloc);
    leases_end::<HostRuntime, Brand>(rt, alloc, founded);
}

const LOOKS: u32 = 1_000_000;

// Whether the read is told while others look.
fn is_told(told: &AtomicBool) -> bool {
    for _look in 0..LOOKS {
        if told.load(Ordering::SeqCst) {
            return true;
        }
        thread::yield_now();
    }
    false
}

// Reads the key until it finds it, in a thread of its own.
fn read<R: Abort, D: Desk>(rt: &R, desk: &mut D, key: &Key, told: &AtomicBool) {
    let found = finds(rt, desk, key, b"1", 131_072);
    told.store(found, Ordering::SeqCst);
}

// Whether a read in another thread is told while this one holds the lock of the key's shard.
fn passes<R, P>(rt: R, alloc: Global, shards: &Arc<Shards<Quiet, P>>) -> bool
where
    R: Threads + Wait + Abort + Copy + Drop + Send + Sync + 'static,
    P: Places + Send + Sync + 'static,
{
    let mut desk = clock_desk(rt, alloc, shards, 2, 5);
    let k = key(&rt, alloc, b"k");
    let told = Arc::new(alloc, AtomicBool::new(false)).expect(&rt, "memory");
    let tell = Arc::try_clone(&told).expect(&rt, "memory");
    let held = shards.lock_of(3).lock(&rt);
    let reader = thread::spawn(&rt, move || read(&rt, &mut desk, &k, &tell)).expect(
        &rt, "a thread",
    );
    let met = is_told(&told);
    drop(held);
    reader.join(&rt);
    met
}

fn read_passes<R, P>(rt: R, alloc: Global, founded: Founded)
where
    R: Threads + Wait + Abort + Copy + Drop + Send + Sync + 'static,
    P: Places + Send + Sync + 'static,
    requires { node_names P.places founded.node ≡ names_of founded }
{
    let shards: Arc<Shards<Quiet, P>> = Arc::new(alloc, founded.named()).expect(&rt, "memory");
    let mut desk = clock_desk(rt, alloc, &shards, 1, 5);
    let k = key(&rt, alloc, b"k");
    assert!(rt; is_stored(&rt, &mut desk, &k, Op::Write(content(&rt, alloc, b"1"))));
    assert!(rt; passes(rt, alloc, &shards));
    let_go(desk);
    let_go(k);
    let_go(shards);
}

#[test]
fn a_read_passes_the_lock(rt: HostRuntime) {
    let alloc = rt.alloc();
    let founded = found(&rt, alloc, false);
    read_passes::<HostRuntime, Brand>(rt, alloc, founded);
}
