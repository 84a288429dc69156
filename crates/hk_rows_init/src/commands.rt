//! What `init` and `status` say of a group in memory, and what they leave.

use crate::group::FakeGroup;
use hk_base::Memory;
use hk_hosts::{Hosts, read_hosts};
use hk_init::{init, put_fault, status};
use hk_outside::SureSink;
use std::alloc::Global;
use std::process::Abort;

const F: u64 = 0x3f9c_27b1_d04e_8a65;

const G: u64 = 7;

fn hosts(rt: &impl Abort, alloc: Global) -> Hosts {
    read_hosts(alloc, "a,b,c", 11_400).expect(rt, "memory")
}

// What `init` says.
fn said(
    alloc: Global,
    hosts: &Hosts,
    group: &mut FakeGroup,
    founding: u64,
) -> Result<Vec<u8>, Memory> {
    let mut sink = SureSink::new(alloc);
    match init(alloc, group, b"g", 3, founding.max(1), &mut sink) {
        Ok(()) => Ok(sink.bytes),
        Err(fault) => {
            let mut text = Vec::new(alloc);
            put_fault(&mut text, hosts.as_slice(), &fault)?;
            Ok(text)
        }
    }
}

// What `status` says.
fn told(alloc: Global, hosts: &Hosts, group: &mut FakeGroup) -> Result<Vec<u8>, Memory> {
    let mut sink = SureSink::new(alloc);
    match status(group, 3, &mut sink) {
        Ok(()) => Ok(sink.bytes),
        Err(fault) => {
            let mut text = Vec::new(alloc);
            put_fault(&mut text, hosts.as_slice(), &fault)?;
            Ok(text)
        }
    }
}

fn says(
    rt: &impl Abort,
    alloc: Global,
    hosts: &Hosts,
    group: &mut FakeGroup,
    founding: u64,
    wanted: &str,
) -> bool {
    let text = said(alloc, hosts, group, founding).expect(rt, "memory");
    text.as_slice() == wanted.as_bytes()
}

#[test]
fn a_group_is_founded_at_once(rt: HostRuntime) {
    let alloc = rt.alloc();
    let hosts = hosts(&rt, alloc);
    let mut group = FakeGroup::new(alloc);
    assert!(rt;
        says(
            &rt,
            alloc,
            &hosts,
            &mut group,
            F,
            "founded 3f9c27b1d04e8a65\n"
        )
    );
    assert_eq!(rt; group.open_with(F), (3, 0));
    assert!(rt;
        says(
            &rt,
            alloc,
            &hosts,
            &mut group,
            G,
            "the group lives: founding 3f9c27b1d04e8a65"
        )
    );
}

#[test]
fn a_host_that_does_not_answer_is_told(rt: HostRuntime) {
    let alloc = rt.alloc();
    let hosts = hosts(&rt, alloc);
    let mut group = FakeGroup::new(alloc);
    group.managers[1].is_up = false;
    assert!(rt; says(&rt, alloc, &hosts, &mut group, F, "b:11400 does not answer"));
    group.beat(20_000);
    assert_eq!(rt; group.open_with(F), (0, 0));
}

#[test]
fn another_lease_is_told(rt: HostRuntime) {
    let alloc = rt.alloc();
    let hosts = hosts(&rt, alloc);
    let mut group = FakeGroup::new(alloc);
    group.managers[2].lease = 400;
    assert!(rt;
        says(
            &rt,
            alloc,
            &hosts,
            &mut group,
            F,
            "c:11400 has another lease or skew"
        )
    );
    group.managers[0].lease = 400;
    group.beat(20_000);
    assert!(rt;
        says(
            &rt,
            alloc,
            &hosts,
            &mut group,
            F,
            "b:11400 has another lease or skew"
        )
    );
}

#[test]
fn a_node_has_to_wait(rt: HostRuntime) {
    let alloc = rt.alloc();
    let hosts = hosts(&rt, alloc);
    let mut group = FakeGroup::new(alloc);
    group.managers[0].node_waits = false;
    group.managers[1].node_waits = false;
    assert!(rt;
        says(
            &rt,
            alloc,
            &hosts,
            &mut group,
            F,
            "founded 3f9c27b1d04e8a65\n"
        )
    );
    let mut group = FakeGroup::new(alloc);
    group.managers[0].node_waits = false;
    group.managers[1].node_waits = false;
    group.managers[2].node_waits = false;
    assert!(rt; says(&rt, alloc, &hosts, &mut group, F, "wait"));
}

#[test]
fn slow_hosts_are_not_founded(rt: HostRuntime) {
    let alloc = rt.alloc();
    let hosts = hosts(&rt, alloc);
    let mut group = FakeGroup::new(alloc);
    group.pause = 1_666;
    assert!(rt; says(&rt, alloc, &hosts, &mut group, F, "wait"));
    group.beat(20_000);
    group.pause = 1_200;
    assert!(rt; says(&rt, alloc, &hosts, &mut group, F, "wait"));
    group.beat(20_000);
    assert_eq!(rt; group.open_with(F), (0, 0));
}

// Stopped before each question, and typed again with another founding once no manager is reserved any more.
#[test]
fn init_that_was_cut_short_is_typed_again(rt: HostRuntime) {
    let alloc = rt.alloc();
    let hosts = hosts(&rt, alloc);
    for cut in 0..9_usize {
        let mut group = FakeGroup::new(alloc);
        group.cut = cut;
        let _ = said(alloc, &hosts, &mut group, F).expect(&rt, "memory");
        group.cut = usize::MAX;
        group.beat(10_001);
        if cut < 6 {
            assert!(rt;
                says(
                    &rt,
                    alloc,
                    &hosts,
                    &mut group,
                    G,
                    "founded 0000000000000007\n"
                ),
                "cut {cut}"
            );
            assert_eq!(rt; group.open_with(G), (3, 0), "cut {cut}");
        } else {
            assert!(rt;
                says(
                    &rt,
                    alloc,
                    &hosts,
                    &mut group,
                    G,
                    "the group lives: founding 3f9c27b1d04e8a65"
                ),
                "cut {cut}"
            );
            assert_eq!(rt; group.open_with(F), (3, 0), "cut {cut}");
        }
    }
}

#[test]
fn init_that_is_typed_again_at_once_waits(rt: HostRuntime) {
    let alloc = rt.alloc();
    let hosts = hosts(&rt, alloc);
    let mut group = FakeGroup::new(alloc);
    group.cut = 2;
    let _ = said(alloc, &hosts, &mut group, F).expect(&rt, "memory");
    group.cut = usize::MAX;
    assert!(rt; says(&rt, alloc, &hosts, &mut group, G, "another init runs"));
}

// Another one founds before each question.
#[test]
fn two_that_are_typed_at_once_never_open_two(rt: HostRuntime) {
    let alloc = rt.alloc();
    let hosts = hosts(&rt, alloc);
    for number in 0..9_usize {
        let mut group = FakeGroup::new(alloc);
        group.rival = Some((number, G));
        let text = said(alloc, &hosts, &mut group, F).expect(&rt, "memory");
        group.rival = None;
        let is_founded = text.as_slice() == b"founded 3f9c27b1d04e8a65\n".as_slice();
        group.beat(10_001);
        group.beat(10_001);
        let (these, others) = group.open_with(F);
        assert!(rt; these == 0 || others == 0, "rival {number}");
        if is_founded {
            assert_eq!(rt; these, 3, "rival {number}");
        }
        if these == 0 && others == 0 {
            assert!(rt;
                says(
                    &rt,
                    alloc,
                    &hosts,
                    &mut group,
                    9,
                    "founded 0000000000000009\n"
                ),
                "rival {number}"
            );
        }
    }
}

#[test]
fn status_is_that_of_the_first_that_answers(rt: HostRuntime) {
    let alloc = rt.alloc();
    let hosts = hosts(&rt, alloc);
    let mut group = FakeGroup::new(alloc);
    group.managers[0].is_up = false;
    let text = told(alloc, &hosts, &mut group).expect(&rt, "memory");
    let wanted = "group g founding=0000000000000000 stage=empty lease=1000 skew=10\n";
    assert!(rt; text.as_slice() == wanted.as_bytes());
    group.managers[1].is_up = false;
    group.managers[2].is_up = false;
    let text = told(alloc, &hosts, &mut group).expect(&rt, "memory");
    assert!(rt; text.as_slice() == b"a:11400 does not answer".as_slice());
}

// Whether `status` tells that all is lost.
fn is_lost(rt: &impl Abort, alloc: Global, hosts: &Hosts, group: &mut FakeGroup) -> bool {
    let text = told(alloc, hosts, group).expect(rt, "memory");
    let first = "group g founding=0000000000000000 stage=empty lease=1000 skew=10\n";
    let lost = text.as_slice().ends_with(b"\nlost\n");
    let len = first.len();
    assert_eq!(rt; text.len(), if lost { len + 5 } else { len });
    assert!(rt; text.as_slice().starts_with(first.as_bytes()));
    lost
}

#[test]
fn all_is_lost_where_a_majority_tells_it_and_nobody_denies_it(rt: HostRuntime) {
    let alloc = rt.alloc();
    let hosts = hosts(&rt, alloc);
    let mut group = FakeGroup::new(alloc);
    group.managers[0].tells_lost = true;
    assert!(rt; !is_lost(&rt, alloc, &hosts, &mut group));
    group.managers[1].tells_lost = true;
    assert!(rt; !is_lost(&rt, alloc, &hosts, &mut group));
    group.managers[2].tells_lost = true;
    assert!(rt; is_lost(&rt, alloc, &hosts, &mut group));
    group.managers[1].is_up = false;
    assert!(rt; is_lost(&rt, alloc, &hosts, &mut group));
    group.managers[2].is_up = false;
    assert!(rt; !is_lost(&rt, alloc, &hosts, &mut group));
}

#[test]
fn a_host_whose_disk_was_lost_neither_tells_nor_denies_that_all_is(rt: HostRuntime) {
    let alloc = rt.alloc();
    let hosts = hosts(&rt, alloc);
    let mut group = FakeGroup::new(alloc);
    group.managers[2].knows_none = true;
    group.managers[0].tells_lost = true;
    assert!(rt; !is_lost(&rt, alloc, &hosts, &mut group));
    group.managers[1].tells_lost = true;
    assert!(rt; is_lost(&rt, alloc, &hosts, &mut group));
    group.managers[2].tells_lost = true;
    assert!(rt; is_lost(&rt, alloc, &hosts, &mut group));
    group.managers[1].is_up = false;
    assert!(rt; !is_lost(&rt, alloc, &hosts, &mut group));
}
