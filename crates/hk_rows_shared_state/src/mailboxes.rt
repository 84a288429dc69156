//! What waits for a manager's loop, and where answers are left.

use hk_inside::Response;
use hk_shared_state::{Coming, Mailbox, Slot};
use std::sync::Wait;

// The place of the manager that told what comes, if one did.
fn place_of(coming: Option<Coming>) -> Option<u8> {
    match coming {
        Some(Coming::Told { place }) => Some(place),
        Some(Coming::Asked { .. }) => None,
        None => None,
    }
}

// How many are taken until nothing waits, up to 2,000.
fn count<R: Wait>(rt: &R, mailbox: &Mailbox) -> u32 {
    for taken in 0..2_000 {
        if mailbox.take(rt).is_none() {
            return taken;
        }
    }
    2_000
}

#[test]
fn what_waited_longest_is_taken(rt: HostRuntime) {
    let mailbox = Mailbox::new(rt.alloc()).expect(&rt, "memory");
    mailbox.put(&rt, Coming::Told { place: 4 });
    mailbox.put(&rt, Coming::Told { place: 2 });
    assert_eq!(rt; mailbox.bell.rings(), 2);
    assert_eq!(rt; place_of(mailbox.take(&rt)), Some(4));
    assert_eq!(rt; place_of(mailbox.take(&rt)), Some(2));
    assert_eq!(rt; place_of(mailbox.take(&rt)), None);
}

#[test]
fn no_more_wait_than_may(rt: HostRuntime) {
    let mailbox = Mailbox::new(rt.alloc()).expect(&rt, "memory");
    for _turn in 0..1_025 {
        mailbox.put(&rt, Coming::Told { place: 1 });
    }
    assert_eq!(rt; mailbox.bell.rings(), 1_024);
    assert_eq!(rt; count(&rt, &mailbox), 1_024);
}

#[test]
fn an_answer_is_taken_once(rt: HostRuntime) {
    let slot = Slot::new();
    assert!(rt; slot.wait(&rt, 1).is_none());
    slot.leave(&rt, Response::Yes);
    assert!(rt; slot.wait(&rt, 60_000).is_some());
    assert!(rt; slot.wait(&rt, 60_000).is_none());
}
