//! Turns of a manager: what is answered waits for the log.

ghost use Rattle.std.specs.Prelude.{◌≡◌, length};

use crate::begin::{DRAWN, TERMS};
use hk_base::{Actor, Sequence, View};
use hk_disk::FakeFile;
use hk_durable::Late;
use hk_fields::FoundingHosts;
use hk_inside::{Inquiry, Response};
use hk_link::link;
use hk_managing::{Begun, Cores, Gathered, ManagerStart, NOTHING, Seen, Unlogged, begin_manager};
use hk_office::{Acting, Office};
use hk_outside::HandClock;
use hk_overseer::Outlets;
use hk_shared_state::Slot;
use std::alloc::Global;
use std::process::Abort;
use std::sync::{Arc, Wait};

// The manager of a group of one host, before that is founded, and its cores.
#[derive(Drop)]
pub struct NewManager {
    pub office: Office,
    pub cores: Cores<FakeFile>,
}

// The calls of its file of these numbers fail: reading the log and writing its header are the calls 0 to 3.
pub fn new_manager(rt: &impl Abort, alloc: Global, fails: Vec<u64>) -> NewManager {
    let file = FakeFile::new(Vec::new(alloc), fails, 0);
    let first = View::first(alloc, 1).expect(rt, "memory");
    let start = begin_manager(alloc, file, TERMS, DRAWN, &first, 7).expect(rt, "a manager");
    let ManagerStart { begun, writer } = start;
    let Begun {
        office,
        managers,
        ..
    } = begun;
    let (outlet, inlet) = link(alloc, 256).expect(rt, "memory");
    let mut outlets = Outlets::new(alloc);
    outlets
        .push((Actor::Manager(0), outlet))
        .expect(rt, "memory");
    let cores = Cores::new(managers, inlet, outlets, writer);
    NewManager { office, cores }
}

fn hosts(rt: &impl Abort, alloc: Global) -> FoundingHosts
    ensures { length result ≡ 1 }
{
    let mut hosts = Vec::new(alloc);
    hosts.push(DRAWN).expect(rt, "memory");
    Sequence::from_vec(hosts)
}

fn slot(rt: &impl Abort, alloc: Global) -> Arc<Slot> {
    Arc::new(alloc, Slot::new()).expect(rt, "memory")
}

// It is reserved for founding 5, and then founded.
fn found<R: Abort>(
    rt: &R,
    alloc: Global,
    office: &mut Office,
    gathered: &mut Gathered,
) -> Arc<Slot> {
    let looks = slot(rt, alloc);
    let founds = slot(rt, alloc);
    let waits = Arc::try_clone(&founds).expect(rt, "memory");
    let seen = Seen {
        now: 10_000,
        name: b"hermes",
        views: &[],
        told: &[],
        acting: Acting {
            since: None,
            until: 0,
        },
    };
    let look = Inquiry::Look { founding: 5 };
    assert_eq!(rt; gathered.ask(alloc, office, &seen, look, looks), Ok(()));
    let found = Inquiry::Found {
        founding: 5,
        hosts: hosts(rt, alloc),
    };
    assert_eq!(rt; gathered.ask(alloc, office, &seen, found, founds), Ok(()));
    waits
}

fn is_yes(response: &Option<Response>) -> bool {
    matches!(response, Some(Response::Yes))
}

fn is_none(response: &Option<Response>) -> bool {
    matches!(response, None)
}

#[test]
fn an_answer_waits_for_the_log(rt: HostRuntime) {
    let alloc = rt.alloc();
    let NewManager {
        mut office,
        mut cores,
    } = new_manager(&rt, alloc, Vec::new(alloc));
    let mut gathered = Gathered::new(alloc);
    let waits = found(&rt, alloc, &mut office, &mut gathered);
    assert!(rt; gathered.has_notes());
    let clock = Late(HandClock { at: 10_000 });
    let replies = gathered
        .sure(&rt, alloc, &clock, &mut cores, &NOTHING)
        .expect(&rt, "it is logged");
    assert!(rt; is_none(&waits.wait(&rt, 0)));
    replies.leave(&rt);
    assert!(rt; is_yes(&waits.wait(&rt, 0)));
}

#[test]
fn nothing_is_answered_that_is_not_logged(rt: HostRuntime) {
    let alloc = rt.alloc();
    let mut fails = Vec::new(alloc);
    fails.push(4).expect(&rt, "memory");
    let NewManager {
        mut office,
        mut cores,
    } = new_manager(&rt, alloc, fails);
    let mut gathered = Gathered::new(alloc);
    let waits = found(&rt, alloc, &mut office, &mut gathered);
    let clock = Late(HandClock { at: 10_000 });
    let sure = gathered.sure(&rt, alloc, &clock, &mut cores, &NOTHING);
    assert!(rt; matches!(sure, Err(Unlogged)));
    assert!(rt; is_none(&waits.wait(&rt, 0)));
    // it is stopped for good
    let later = Gathered::new(alloc).sure(&rt, alloc, &clock, &mut cores, &NOTHING);
    assert!(rt; matches!(later, Err(Unlogged)));
    assert!(rt; !cores.is_shut());
}

#[test]
fn cores_open_with_the_first_view(rt: HostRuntime) {
    let alloc = rt.alloc();
    let NewManager {
        office: _office,
        mut cores,
    } = new_manager(&rt, alloc, Vec::new(alloc));
    assert!(rt; cores.is_shut());
    cores.open(alloc);
    assert!(rt; !cores.is_shut());
    let views = cores.views(alloc).expect(&rt, "memory");
    assert_eq!(rt; views.len(), 8);
    assert_eq!(rt; views[7].epoch, 1);
}
