//! What a shard shows while it steps, and what reads are told from that.

ghost use Rattle.std.specs.Prelude.{◌≡◌, [], ◌∷◌, None};
ghost use Rattle.hk_node.specs.Sound.{IsNodeEvent};

use hk_base::{CallNo, Content, Data, Key, Members, NodeId, Op, Stamp, State, View, Why};
use hk_joint_reads::{Joint, read_joint};
use hk_node::{Node, NodeEvent};
use hk_outside::{Clock, HandClock};
use hk_rows_shared::let_go;
use hk_shard::{Shard, shard_of};
use hk_snap::{LeaseCell, LeaseKeeper, Local, Shape, SnapReader, cell_of, lease_cell, read_local};
use std::alloc::Global;
use std::process::Abort;
use std::sync::{Mutex, Wait};

const SKEW: u64 = 10;

fn key(rt: &impl Abort, alloc: Global, bytes: &[u8]) -> Key {
    Key::read(alloc, bytes).expect(rt, "a key")
}

// The first view, with node 0 alone.
fn view(rt: &impl Abort, alloc: Global) -> View
    ensures { result ≡ record { epoch = 1; members = record { 0 = 0 } ∷ []; next = 1 } }
{
    let mut members = Members::new(alloc);
    members.push(NodeId(0)).expect(rt, "memory");
    View {
        epoch: 1,
        members,
        next: 1,
    }
}

// A shard of a founder that is alone, whose lease ends at 1,000.
fn founded<R: Wait + Abort>(rt: &R, alloc: Global) -> Shard {
    let view = view(rt, alloc);
    let node = Node::founder(alloc, NodeId(0), view, 1_000, SKEW, 0).expect(rt, "memory");
    Shard::new(rt, alloc, node).expect(rt, "memory")
}

fn write_of(
    rt: &impl Abort,
    alloc: Global,
    number: u64,
    key: &Key,
    flags: u32,
    data: &[u8],
) -> NodeEvent
    ensures { IsNodeEvent result }
{
    NodeEvent::Call {
        call: CallNo(number),
        key: key.share().expect(rt, "memory"),
        op: Op::Write(Content {
            flags,
            bytes: Data::read(alloc, data).expect(rt, "data"),
        }),
    }
}

fn long_data(rt: &impl Abort, alloc: Global) -> Vec<u8> {
    let mut data = Vec::new(alloc);
    for _byte in 0..1_001 {
        data.push(b'x').expect(rt, "memory");
    }
    data
}

// A shard of a founder that is alone, and what reads of it begin with.
#[derive(Drop)]
struct Opened {
    shard: Shard,
    reader: SnapReader,
    lease: LeaseCell,
}

fn open<R: Wait + Abort>(rt: &R, alloc: Global) -> Opened {
    let mut shard = founded(rt, alloc);
    let (reader, lease) = shard.reader(rt, alloc).expect(rt, "memory");
    Opened {
        shard,
        reader,
        lease,
    }
}

// The call of this number, which writes, under the ticket of the same number.
fn write<R: Wait + Abort>(
    rt: &R,
    alloc: Global,
    shard: &mut Shard,
    number: u64,
    key: &Key,
    flags: u32,
    data: &[u8],
) {
    let event = write_of(rt, alloc, number, key, flags, data);
    if shard.last_ticket() < number {
        let_go(shard.apply(rt, alloc, number, event).expect(rt, "memory"));
    } else {
        let_go(event);
    }
}

fn read<R: Wait + Abort>(rt: &R, alloc: Global, opened: &mut Opened, at: u64, key: &Key) -> Local {
    read_local(
        rt,
        alloc,
        &mut opened.reader,
        &mut opened.lease,
        &HandClock { at },
        SKEW,
        key,
    )
    .expect(rt, "memory")
}

fn is_found(local: &Local, flags: u32, data: &[u8], found_tag: u64, found_ticket: u64) -> bool {
    match local {
        Local::Found {
            content,
            tag,
            ticket,
        } => {
            content.flags == flags
                && content.bytes.bytes() == data
                && *tag == found_tag
                && *ticket == found_ticket
        }
        _ => false,
    }
}

fn is_busy(local: &Local, lease_end: u64, clock: u64) -> bool {
    match local {
        Local::Busy(Why::Lease { end, now }) => *end == lease_end && *now == clock,
        _ => false,
    }
}

fn is_large(local: &Local) -> bool {
    matches!(local, Local::Large)
}

fn is_elsewhere(local: &Local) -> bool {
    matches!(local, Local::Elsewhere)
}

fn shows_nothing<R: Wait + Abort>(rt: &R, alloc: Global, reader: &mut SnapReader) -> bool {
    reader.load(rt, 13);
    reader.shown(alloc).expect(rt, "memory").is_none()
}

// Whether the reader shows the key, Valid, at this stamp and ticket, as too large to be shown.
fn shows_large<R: Wait + Abort>(
    rt: &R,
    alloc: Global,
    reader: &mut SnapReader,
    key: &Key,
    stamp: Stamp,
    ticket: u64,
) -> bool {
    reader.load(rt, 13);
    match reader.shown(alloc).expect(rt, "memory") {
        Some(shown) => {
            shown.key == *key
                && shown.state == State::Valid
                && shown.stamp == stamp
                && shown.ticket == ticket
                && matches!(shown.shape, Shape::Large)
        }
        None => false,
    }
}

#[test]
fn keys_have_a_shard_and_a_cell(rt: HostRuntime) {
    let k = key(&rt, rt.alloc(), b"k");
    let yyy = key(&rt, rt.alloc(), b"yyy");
    assert_eq!(rt; (shard_of(&k), cell_of(&k)), (3, 13));
    assert_eq!(rt; (shard_of(&yyy), cell_of(&yyy)), (3, 13));
}

// What reads of a key are told: after its write, after a write of another key with the same cell, and of that other key.
fn told_in_turn<R: Wait + Abort>(
    rt: &R,
    alloc: Global,
    opened: &mut Opened,
) -> (Local, Local, Local) {
    let k = key(rt, alloc, b"k");
    let yyy = key(rt, alloc, b"yyy");
    write(rt, alloc, &mut opened.shard, 1, &k, 7, b"hello");
    let first = read(rt, alloc, opened, 990, &k);
    write(rt, alloc, &mut opened.shard, 2, &yyy, 0, b"x");
    let second = read(rt, alloc, opened, 990, &k);
    let third = read(rt, alloc, opened, 990, &yyy);
    (first, second, third)
}

#[test]
fn a_cell_shows_what_was_changed_last(rt: HostRuntime) {
    let alloc = rt.alloc();
    let mut opened = open(&rt, alloc);
    assert!(rt; shows_nothing(&rt, alloc, &mut opened.reader));
    let (first, second, third) = told_in_turn(&rt, alloc, &mut opened);
    assert!(rt; is_found(&first, 7, b"hello", 131_072, 1));
    assert!(rt; is_elsewhere(&second));
    assert!(rt; is_found(&third, 0, b"x", 131_072, 2));
    let_go(first);
    let_go(second);
    let_go(third);
    let_go(opened);
}

// Writes data of 1,001 bytes over another value of the key.
fn write_long<R: Wait + Abort>(rt: &R, alloc: Global, shard: &mut Shard, key: &Key) {
    let data = long_data(rt, alloc);
    write(rt, alloc, shard, 1, key, 7, b"hello");
    write(rt, alloc, shard, 3, key, 0, data.as_slice());
}

#[test]
fn large_data_is_seen_and_not_shown(rt: HostRuntime) {
    let alloc = rt.alloc();
    let k = key(&rt, alloc, b"k");
    let mut opened = open(&rt, alloc);
    write_long(&rt, alloc, &mut opened.shard, &k);
    let stamp = Stamp {
        version: 4,
        node: 0,
    };
    assert!(rt; shows_large(&rt, alloc, &mut opened.reader, &k, stamp, 3));
    let told = read(&rt, alloc, &mut opened, 990, &k);
    assert!(rt; is_large(&told));
    let_go(told);
    let told = read(&rt, alloc, &mut opened, 991, &k);
    assert!(rt; is_busy(&told, 1_000, 991));
    let_go(told);
    let_go(opened);
}

// The tickets of the entries that a checkpoint hands out.
fn tickets(rt: &impl Abort, alloc: Global, shard: &mut Shard) -> Vec<u64> {
    let journal = shard.checkpoint(alloc).expect(rt, "memory");
    let mut tickets = Vec::new(alloc);
    for entry in journal.as_slice() {
        tickets.push(entry.ticket).expect(rt, "memory");
    }
    tickets
}

// The three writes of two keys.
fn write_thrice<R: Wait + Abort>(rt: &R, alloc: Global, shard: &mut Shard) {
    let k = key(rt, alloc, b"k");
    let yyy = key(rt, alloc, b"yyy");
    write(rt, alloc, shard, 1, &k, 7, b"hello");
    write(rt, alloc, shard, 2, &yyy, 0, b"x");
    write(rt, alloc, shard, 3, &k, 0, b"y");
}

#[test]
fn a_checkpoint_hands_out_the_journal_once(rt: HostRuntime) {
    let alloc = rt.alloc();
    let mut shard = founded(&rt, alloc);
    write_thrice(&rt, alloc, &mut shard);
    let once = tickets(&rt, alloc, &mut shard);
    let again = tickets(&rt, alloc, &mut shard);
    assert_eq!(rt; once.as_slice(), [1, 2, 3].as_slice());
    assert!(rt; again.is_empty());
}

// The version of the key's row in the shard's base, 0 where it has none.
fn version_in_base(rt: &impl Abort, alloc: Global, shard: &Shard, key: &Key) -> u64 {
    let base = shard.base(alloc).expect(rt, "memory");
    match base.row(key) {
        Some(row) => row.stamp.version,
        None => 0,
    }
}

#[test]
fn the_base_is_the_node_before_the_journal(rt: HostRuntime) {
    let alloc = rt.alloc();
    let k = key(&rt, alloc, b"k");
    let mut shard = founded(&rt, alloc);
    write(&rt, alloc, &mut shard, 1, &k, 7, b"hello");
    write(&rt, alloc, &mut shard, 2, &k, 0, b"x");
    assert_eq!(rt; version_in_base(&rt, alloc, &shard, &k), 0);
    assert_eq!(rt; tickets(&rt, alloc, &mut shard).len(), 2);
    write(&rt, alloc, &mut shard, 3, &k, 0, b"y");
    assert_eq!(rt; version_in_base(&rt, alloc, &shard, &k), 4);
}

// A clock that raises a lease to 1,000 whenever it is read. It reads 200.
#[derive(Drop)]
struct RaisingClock<R: Wait + Copy> {
    rt: R,
    keeper: Mutex<LeaseKeeper>,
}

impl<R: Wait + Copy> Clock for RaisingClock<R> {
    ghost reading = { λ clock. None };

    fn now(&self) -> u64 {
        self.keeper.lock(&self.rt).raise(&self.rt, 1_000, 200);
        200
    }
}

// What is told of the key where the lease ends at 100, and reading the clock raises it: at the first read, and at a second.
fn read_twice<R: Wait + Copy + Abort>(
    rt: R,
    alloc: Global,
    reader: &mut SnapReader,
    key: &Key,
) -> (Local, Local) {
    let (keeper, mut lease) = lease_cell(&rt, alloc, 100, 1).expect(&rt, "memory");
    let clock = RaisingClock {
        rt,
        keeper: Mutex::new(keeper),
    };
    let first = read_local(&rt, alloc, reader, &mut lease, &clock, 0, key).expect(&rt, "memory");
    let second = read_local(&rt, alloc, reader, &mut lease, &clock, 0, key).expect(&rt, "memory");
    (first, second)
}

#[test]
fn the_lease_is_loaded_before_the_clock_is_read(rt: HostRuntime) {
    let alloc = rt.alloc();
    let k = key(&rt, alloc, b"k");
    let mut opened = open(&rt, alloc);
    write(&rt, alloc, &mut opened.shard, 1, &k, 7, b"hello");
    let (first, second) = read_twice(rt, alloc, &mut opened.reader, &k);
    assert!(rt; is_busy(&first, 100, 200));
    assert!(rt; is_found(&second, 7, b"hello", 131_072, 1));
    let_go(first);
    let_go(second);
    let_go(opened);
}

// The keys `k` and `s`, each written once.
fn two_keys<R: Wait + Abort>(rt: &R, alloc: Global, shard: &mut Shard) -> Vec<Key> {
    let mut keys = Vec::new(alloc);
    keys.push(key(rt, alloc, b"k")).expect(rt, "memory");
    keys.push(key(rt, alloc, b"s")).expect(rt, "memory");
    write(rt, alloc, shard, 1, &keys[0], 7, b"hello");
    write(rt, alloc, shard, 2, &keys[1], 0, b"x");
    keys
}

// What is told of the keys together, as `read_twice` has it of one.
fn read_both_twice<R: Wait + Copy + Abort>(
    rt: R,
    alloc: Global,
    reader: &mut SnapReader,
    keys: &[Key],
) -> (Joint, Joint) {
    let (keeper, mut lease) = lease_cell(&rt, alloc, 100, 1).expect(&rt, "memory");
    let clock = RaisingClock {
        rt,
        keeper: Mutex::new(keeper),
    };
    let first = read_joint(&rt, alloc, reader, &mut lease, &clock, 0, keys).expect(&rt, "memory");
    let second = read_joint(&rt, alloc, reader, &mut lease, &clock, 0, keys).expect(&rt, "memory");
    (first, second)
}

// Whether the lease that ended at 100 is over at 200.
fn is_lease_past(joint: &Joint) -> bool {
    matches!(joint, Joint::Busy(Why::Lease { end: 100, now: 200 }))
}

// Whether this many keys are found together.
fn are_found(joint: &Joint, count: usize) -> bool {
    match joint {
        Joint::Found(snapshots) => snapshots.len() == count,
        _ => false,
    }
}

#[test]
fn the_lease_is_loaded_before_the_clock_is_read_for_several_keys(rt: HostRuntime) {
    let alloc = rt.alloc();
    let mut opened = open(&rt, alloc);
    let keys = two_keys(&rt, alloc, &mut opened.shard);
    let (first, second) = read_both_twice(rt, alloc, &mut opened.reader, keys.as_slice());
    assert!(rt; is_lease_past(&first));
    assert!(rt; are_found(&second, 2));
    let_go(first);
    let_go(second);
    let_go(opened);
}
