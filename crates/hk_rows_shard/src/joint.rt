//! Where joint reads of a shard's keys stood together, by its journal.

use hk_base::Key;
use hk_joint_reads::{Joint, Snapshots, read_joint};
use hk_joint_storm::{JointFounds, KeysWriter, conclude_joint, storm_keys};
use hk_outside::{HandClock, MemorySink, Status};
use hk_place::{PlaceFault, place};
use hk_rows_shared::let_go;
use hk_snap::{LeaseCell, SnapReader};
use std::alloc::Global;
use std::process::Abort;
use std::sync::Wait;

// A writer of the keys of a storm, and what reads of them begin with.
#[derive(Drop)]
struct Opened {
    writer: KeysWriter,
    reader: SnapReader,
    lease: LeaseCell,
    keys: Vec<Key>,
}

fn open<R: Wait + Abort>(rt: &R, alloc: Global) -> Opened {
    let keys = storm_keys(alloc).expect(rt, "memory");
    let mut writer = KeysWriter::new(rt, alloc).expect(rt, "memory");
    let (reader, lease) = writer.reader(rt, alloc).expect(rt, "memory");
    Opened {
        writer,
        reader,
        lease,
        keys,
    }
}

// Writes the keys of these places, each by the next ticket.
fn write<R: Wait + Abort>(rt: &R, alloc: Global, opened: &mut Opened, places: &[usize]) {
    for place in places {
        if let Some(key) = opened.keys.get(*place) {
            opened.writer.write(rt, alloc, key).expect(rt, "memory");
        }
    }
}

// Adds what a read of the key of this place finds.
fn find<R: Wait + Abort>(
    rt: &R,
    alloc: Global,
    opened: &mut Opened,
    place: usize,
    found: &mut Snapshots,
) {
    let clock = HandClock { at: 1 };
    let keys = opened.keys.as_slice();
    if let Some(key) = keys.get(place..place.saturating_add(1)) {
        let joint = read_joint(
            rt,
            alloc,
            &mut opened.reader,
            &mut opened.lease,
            &clock,
            0,
            key,
        );
        let joint = joint.expect(rt, "memory");
        keep(rt, joint, found);
    }
}

fn keep(rt: &impl Abort, joint: Joint, found: &mut Snapshots) {
    match joint {
        Joint::Found(snapshots) => {
            for snapshot in snapshots.into_vec() {
                found.push(snapshot).expect(rt, "memory");
            }
        }
        _ => assert!(rt; false, "a key is not found"),
    }
}

// The place of what was found, or the tickets that were shown and kept of the first key that has none.
#[derive(Clone, Copy, Debug, PartialEq, Eq)]
enum Told {
    Place(u64),
    NoPlace { shown: u64, kept: Option<u64> },
    Memory,
}

fn told_of(placed: Result<u64, PlaceFault>) -> Told {
    match placed {
        Ok(moment) => Told::Place(moment),
        Err(PlaceFault::NoPlace { shown, kept, .. }) => Told::NoPlace { shown, kept },
        Err(PlaceFault::Memory) => Told::Memory,
    }
}

fn placed(rt: &impl Abort, alloc: Global, opened: &Opened, found: &Snapshots) -> Told {
    let shard = opened.writer.shard();
    let base = shard.base(alloc).expect(rt, "memory");
    let _part = shard.part();
    told_of(place(alloc, &base, shard.journal(), found))
}

// What a storm of three reads comes to, of which one found this.
fn comes_to(
    rt: &impl Abort,
    alloc: Global,
    opened: &Opened,
    found: Snapshots,
    status: Status,
    text: &[u8],
) {
    let shard = opened.writer.shard();
    let base = shard.base(alloc).expect(rt, "memory");
    let _part = shard.part();
    let mut founds = JointFounds::new(alloc);
    founds.push(found).expect(rt, "memory");
    let mut sink = MemorySink::new(alloc, Vec::new(alloc));
    let told = conclude_joint(alloc, 2, 3, &base, shard.journal(), &founds, &mut sink);
    assert_eq!(rt; told, status);
    assert_eq!(rt; sink.sink.bytes.as_slice(), text);
}

#[test]
fn keys_stand_together_at_the_greatest_of_their_tickets(rt: HostRuntime) {
    let alloc = rt.alloc();
    let mut opened = open(&rt, alloc);
    write(&rt, alloc, &mut opened, [0, 1, 0].as_slice());
    let mut found = Snapshots::new(alloc);
    find(&rt, alloc, &mut opened, 0, &mut found);
    find(&rt, alloc, &mut opened, 1, &mut found);
    assert_eq!(rt; placed(&rt, alloc, &opened, &found), Told::Place(3));
    let text = b"joint-storm 2 3\nfound 1 moved 2 legal\n";
    comes_to(&rt, alloc, &opened, found, Status::Done, text);
    let_go(opened);
}

// The first key is seen as ticket 1 left it, and the second as ticket 3 did; at ticket 2 the first was written again.
#[test]
fn a_key_that_was_written_again_by_then_has_no_place(rt: HostRuntime) {
    let alloc = rt.alloc();
    let mut opened = open(&rt, alloc);
    let mut found = Snapshots::new(alloc);
    write(&rt, alloc, &mut opened, [0].as_slice());
    find(&rt, alloc, &mut opened, 0, &mut found);
    write(&rt, alloc, &mut opened, [0, 1].as_slice());
    find(&rt, alloc, &mut opened, 1, &mut found);
    let displaced = Told::NoPlace {
        shown: 1,
        kept: Some(2),
    };
    assert_eq!(rt; placed(&rt, alloc, &opened, &found), displaced);
    comes_to(&rt, alloc, &opened, found, Status::Gap, b"gap joint 1 2\n");
    let_go(opened);
}

// The snapshot is of one shard, and the journal of another, in which nothing was written.
#[test]
fn a_key_that_no_step_wrote_has_no_place(rt: HostRuntime) {
    let alloc = rt.alloc();
    let mut opened = open(&rt, alloc);
    write(&rt, alloc, &mut opened, [0].as_slice());
    let mut found = Snapshots::new(alloc);
    find(&rt, alloc, &mut opened, 0, &mut found);
    let other = open(&rt, alloc);
    let unknown = Told::NoPlace {
        shown: 1,
        kept: None,
    };
    assert_eq!(rt; placed(&rt, alloc, &other, &found), unknown);
    comes_to(
        &rt,
        alloc,
        &other,
        found,
        Status::Gap,
        b"gap joint 1 none\n",
    );
    let_go(opened);
    let_go(other);
}
