//! Turns of managers that keep a log: what is logged, and what is told when; and managers that are made anew.

ghost use Rattle.std.specs.Prelude.{◌<◌, All};
ghost use Rattle.hk_log.specs.Entries.{IsEntryInRange};

use hk_base::{Actor, Change, NodeId, Sequence, View};
use hk_disk::{AppendFault, FakeFile, Recovered, recover};
use hk_durable::{Batch, DurablePost, Intent, Late, Managers};
use hk_link::link;
use hk_log::Entry;
use hk_manager::ManagerFault;
use hk_outside::HandClock;
use hk_overseer::Outlets;
use std::alloc::Global;
use std::process::Abort;
use std::sync::Wait;

const LEASE: u64 = 1_000;

// The only manager of a group, as it is founded.
fn founders(rt: &impl Abort, alloc: Global) -> Managers {
    let mut members = Vec::new(alloc);
    members.push(NodeId(0)).expect(rt, "memory");
    let view = View {
        epoch: 1,
        members: Sequence::from_vec(members),
        next: 1,
    };
    Managers::founding(alloc, 0, 1, &view, LEASE).expect(rt, "memory")
}

// The only manager of a group, which is led by its outlet to its inlet, and whose file fails at calls of these numbers.
fn post(rt: &impl Abort, alloc: Global, fails: Vec<u64>) -> DurablePost<FakeFile> {
    let file = FakeFile::new(Vec::new(alloc), fails, 0);
    let Recovered { writer, .. } = recover(alloc, file).expect(rt, "a log");
    let (outlet, inlet) = link(alloc, 256).expect(rt, "memory");
    let mut outlets = Outlets::new(alloc);
    outlets
        .push((Actor::Manager(0), outlet))
        .expect(rt, "memory");
    DurablePost::new(alloc, founders(rt, alloc), inlet, outlets, writer)
}

const NOTHING: [Intent; 8] = [
    Intent::Nothing,
    Intent::Nothing,
    Intent::Nothing,
    Intent::Nothing,
    Intent::Nothing,
    Intent::Nothing,
    Intent::Nothing,
    Intent::Nothing,
];

const ADD: Intent = Intent::Propose {
    base: 1,
    change: Change::Add,
};

// Makes a turn with no intent, and gives whether the log took it.
fn turn<R: Wait>(rt: &R, alloc: Global, post: &mut DurablePost<FakeFile>, now: u64) -> bool {
    let clock = Late(HandClock { at: now });
    post.turn(rt, alloc, &clock, &NOTHING).is_ok()
}

#[test]
fn a_view_is_agreed_in_turns(rt: HostRuntime) {
    let alloc = rt.alloc();
    let mut post = post(&rt, alloc, Vec::new(alloc));
    let mut intents = NOTHING;
    intents[3] = ADD;
    let clock = Late(HandClock { at: 5 });
    assert_eq!(rt; post.turn(&rt, alloc, &clock, &intents), Ok(()));
    assert_eq!(rt; post.managers().of(3).held().epoch, 1);
    for now in 6..10 {
        assert!(rt; turn(&rt, alloc, &mut post, now));
    }
    assert_eq!(rt; post.managers().of(3).held().epoch, 2);
    assert_eq!(rt; post.managers().of(2).held().epoch, 1);
    assert_eq!(rt; post.managers().of(2).now(), 9);
}

#[test]
fn nothing_is_told_that_is_not_logged(rt: HostRuntime) {
    let alloc = rt.alloc();
    let mut fails = Vec::new(alloc);
    // read, cut, append and sync of the header are the calls 0 to 3
    fails.push(4).expect(&rt, "memory");
    let mut post = post(&rt, alloc, fails);
    let mut intents = NOTHING;
    intents[0] = ADD;
    let clock = Late(HandClock { at: 5 });
    assert_eq!(rt;
        post.turn(&rt, alloc, &clock, &intents),
        Err(AppendFault::Ended)
    );
    for now in 6..10 {
        assert!(rt; !turn(&rt, alloc, &mut post, now));
    }
    assert_eq!(rt; post.managers().of(0).held().epoch, 1);
    assert_eq!(rt; post.managers().of(0).now(), 5);
}

#[test]
fn a_view_begins_behind_the_wait(rt: HostRuntime) {
    let alloc = rt.alloc();
    let mut intents = NOTHING;
    intents[0] = Intent::Activate;
    for (now, begins) in [(1_000, false), (1_101, false), (1_102, true)] {
        let mut batch = Batch::new(alloc, founders(&rt, alloc));
        batch.tick(alloc, now);
        batch.fulfil_all(alloc, &intents);
        assert_eq!(rt; batch.has_steps(), begins);
    }
}

#[test]
fn notes_are_logged_before_steps(rt: HostRuntime) {
    let alloc = rt.alloc();
    let mut intents = NOTHING;
    intents[0] = ADD;
    let mut batch = Batch::new(alloc, founders(&rt, alloc));
    assert_eq!(rt; batch.note(Entry::Open), Ok(()));
    assert!(rt; !batch.has_steps());
    batch.fulfil_all(alloc, &intents);
    match batch.entries() {
        [Entry::Open, Entry::Propose { .. }] => (),
        _ => panic!(rt; "what is logged is an opening and a proposal"),
    }
}

// The entry of a proposal to add a node, in a shard, to the view of an epoch.
fn proposal(rt: &impl Abort, alloc: Global, shard: u8, base: u64) -> Vec<Entry>
    requires { shard < 8 }
    ensures { All IsEntryInRange result.items }
{
    let mut entries = Vec::new(alloc);
    entries
        .push(Entry::Propose {
            shard,
            base,
            change: Change::Add,
        })
        .expect(rt, "memory");
    entries
}

#[test]
fn managers_are_made_anew(rt: HostRuntime) {
    let alloc = rt.alloc();
    let mut managers = founders(&rt, alloc);
    assert_eq!(rt;
        managers.take_up(alloc, &proposal(&rt, alloc, 3, 1)),
        Ok(())
    );
    assert_eq!(rt; managers.note_untils(alloc), Ok(()));
    assert_eq!(rt; managers.of(3).held().epoch, 1);
    assert_eq!(rt;
        managers.take_up(alloc, &proposal(&rt, alloc, 3, 2)),
        Err(ManagerFault::Behind { held: 1 })
    );
}
