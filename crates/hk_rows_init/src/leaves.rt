//! What `leave` says of a node that is named, by what managers answer.

use hk_base::{Memory, NodeId, Sequence};
use hk_hosts::read_hosts;
use hk_init::{AskHost, LEAVE_REST, LEAVE_ROUNDS, NoAnswer, leave, put_fault};
use hk_inside::{Inquiry, Leaver, Response};
use hk_outside::SureSink;
use std::alloc::Global;
use std::process::Abort;

// Managers that have a node leave until somebody has rested so often, and then refuse it.
#[derive(Drop)]
struct Leavings {
    alloc: Global,
    // How often somebody rested.
    rests: u32,
    leaving_for: u32,
    code: u8,
    text: &'static str,
    // The manager of this place does not answer.
    silent: usize,
    // All rests were as long as they are to be.
    as_long: bool,
    // Each inquiry was to have node 3 leave.
    by_number: bool,
}

impl Leavings {
    fn new(alloc: Global, leaving_for: u32, code: u8, text: &'static str) -> Leavings {
        Leavings {
            alloc,
            rests: 0,
            leaving_for,
            code,
            text,
            silent: 9,
            as_long: true,
            by_number: true,
        }
    }
}

impl AskHost for Leavings {
    fn ask(&mut self, place: usize, inquiry: &Inquiry) -> Result<Response, NoAnswer> {
        match inquiry {
            Inquiry::Leave(Leaver::Node(NodeId(3))) => {}
            _ => self.by_number = false,
        }
        if place == self.silent {
            return Err(NoAnswer::Silent);
        }
        if self.rests < self.leaving_for {
            return Ok(Response::Yes);
        }
        match self.text.as_bytes().to_vec(self.alloc) {
            Ok(text) => Ok(Response::No {
                code: self.code,
                text: Sequence::from_vec(text),
            }),
            Err(_) => Err(NoAnswer::Memory),
        }
    }

    fn read_clock(&mut self) -> u64 {
        0
    }

    fn rest(&mut self, millis: u64) {
        self.rests = self.rests.saturating_add(1);
        self.as_long = self.as_long && millis == LEAVE_REST;
    }
}

// What `leave` says of node 3.
fn said(alloc: Global, group: &mut Leavings) -> Result<Vec<u8>, Memory> {
    let Ok(hosts) = read_hosts(alloc, "a,b,c", 11_400) else {
        return Err(Memory);
    };
    let mut sink = SureSink::new(alloc);
    match leave(alloc, group, 3, Leaver::Node(NodeId(3)), &mut sink) {
        Ok(()) => Ok(sink.bytes),
        Err(fault) => {
            let mut text = Vec::new(alloc);
            put_fault(&mut text, hosts.as_slice(), &fault)?;
            Ok(text)
        }
    }
}

// Whether it says that, and asked for nothing but that this node leaves.
fn says(rt: &impl Abort, alloc: Global, group: &mut Leavings, wanted: &str) -> bool {
    let text = said(alloc, group).expect(rt, "memory");
    group.by_number && text.as_slice() == wanted.as_bytes()
}

#[test]
fn a_node_has_left_once_no_manager_knows_it(rt: HostRuntime) {
    let alloc = rt.alloc();
    let mut group = Leavings::new(alloc, 7, 5, "no such member");
    group.silent = 1;
    assert!(rt; says(&rt, alloc, &mut group, "left 3\n"));
    assert_eq!(rt; group.rests, 7);
    assert!(rt; group.as_long);
}

#[test]
fn who_is_no_member_has_not_left(rt: HostRuntime) {
    let alloc = rt.alloc();
    let mut group = Leavings::new(alloc, 0, 5, "no such member");
    assert!(rt; says(&rt, alloc, &mut group, "no such member"));
    assert_eq!(rt; group.rests, 0);
}

#[test]
fn what_stands_against_it_is_told_later_too(rt: HostRuntime) {
    let alloc = rt.alloc();
    let mut group = Leavings::new(alloc, 2, 6, "no other member is ready");
    assert!(rt; says(&rt, alloc, &mut group, "no other member is ready"));
    assert_eq!(rt; group.rests, 2);
}

#[test]
fn who_does_not_leave_is_a_member_still(rt: HostRuntime) {
    let alloc = rt.alloc();
    let mut group = Leavings::new(alloc, u32::MAX, 5, "no such member");
    assert!(rt; says(&rt, alloc, &mut group, "still a member"));
    assert_eq!(rt; group.rests, LEAVE_ROUNDS);
}
