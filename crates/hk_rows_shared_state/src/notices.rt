//! When a refusal is told, and who is gone or back.

use hk_shared_state::{Presence, Told};

// The length of a lease in milliseconds.
const LEASE: u32 = 1_000;

#[test]
fn a_refusal_of_a_moment_is_not_told(rt: HostRuntime) {
    let mut told = Told::new();
    assert!(rt; !told.refused(LEASE, 5_000));
    assert!(rt; !told.refused(LEASE, 5_999));
    told.taken();
    assert!(rt; !told.refused(LEASE, 6_000));
    assert!(rt; !told.refused(LEASE, 6_999));
}

#[test]
fn a_refusal_that_lasts_is_told_once_a_minute(rt: HostRuntime) {
    let mut told = Told::new();
    assert!(rt; !told.refused(LEASE, 5_000));
    assert!(rt; told.refused(LEASE, 6_000));
    assert!(rt; !told.refused(LEASE, 6_001));
    assert!(rt; !told.refused(LEASE, 65_999));
    assert!(rt; told.refused(LEASE, 66_000));
    // also where somebody was reached between
    told.taken();
    assert!(rt; !told.refused(LEASE, 70_000));
    assert!(rt; !told.refused(LEASE, 125_999));
    assert!(rt; told.refused(LEASE, 126_000));
}

#[test]
fn who_does_not_show_for_long_is_gone_and_then_back(rt: HostRuntime) {
    let mut presence = Presence::Unseen;
    assert!(rt; !presence.misses(1_000, 5_000));
    assert!(rt; !presence.shows(6_000));
    assert!(rt; !presence.misses(1_000, 6_999));
    assert!(rt; presence.misses(1_000, 7_000));
    assert_eq!(rt; presence, Presence::Gone);
    // that is told once
    assert!(rt; !presence.misses(1_000, 9_000));
    assert!(rt; presence.shows(10_000));
    assert_eq!(rt; presence, Presence::There { at: 10_000 });
    assert!(rt; !presence.shows(10_500));
}
