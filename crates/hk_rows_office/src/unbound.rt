//! What a manager tells a process of a number that it never bound to it.

ghost use Rattle.std.specs.Prelude.{◌<◌};

use crate::lost::{office, view};
use crate::reports::{READY, Told, report};
use hk_base::NodeId;
use hk_inside::{Board, Inquiry, Mark, Party};
use hk_office::{Office, OfficeAnswer};
use std::alloc::Global;
use std::process::Abort;

// The view of a shard begins whose only member is node 0.
fn begin(rt: &impl Abort, alloc: Global, office: &mut Office, shard: u8, next: u32)
    requires { shard < 8 }
{
    let mut view = view(rt, alloc);
    view.next = next;
    office.note_begun(alloc, shard, &view).expect(rt, "memory");
}

fn begin_all(rt: &impl Abort, alloc: Global, office: &mut Office, next: u32) {
    for shard in 0..8 {
        begin(rt, alloc, office, shard, next);
    }
}

// The mark in the line without a number.
fn mark_in(board: &Board) -> Option<Mark> {
    match board
        .lines
        .as_slice()
        .iter()
        .find(|line| line.party == Party::Neither)
    {
        Some(line) => Some(line.mark),
        None => None,
    }
}

// How a process stands that tells this number, of which the manager bound 0 alone, and that to another process.
fn mark(rt: &impl Abort, alloc: Global, office: &mut Office, node: Option<u16>) -> Option<Mark> {
    let told = Told {
        ticket: 9,
        node,
        ..READY
    };
    let inquiry = Inquiry::Report(report(rt, alloc, told));
    let views = [view(rt, alloc)];
    let step = office
        .answer(alloc, 500, &views, &[], inquiry)
        .expect(rt, "memory");
    match &step.answer {
        OfficeAnswer::Board(board) => mark_in(board),
        _ => None,
    }
}

#[test]
fn a_number_is_out_that_every_view_left_out(rt: HostRuntime) {
    let alloc = rt.alloc();
    let mut office = office(&rt, alloc).expect(&rt, "memory");
    assert_eq!(rt; mark(&rt, alloc, &mut office, Some(3)), Some(Mark::Bound));
    begin_all(&rt, alloc, &mut office, 4);
    assert_eq!(rt; mark(&rt, alloc, &mut office, Some(3)), Some(Mark::Out));
    // no view gave it yet
    assert_eq!(rt; mark(&rt, alloc, &mut office, Some(4)), Some(Mark::Bound));
    // it is a member
    assert_eq!(rt; mark(&rt, alloc, &mut office, Some(0)), Some(Mark::Bound));
    // it tells no number
    assert_eq!(rt; mark(&rt, alloc, &mut office, None), Some(Mark::Bound));
}

#[test]
fn one_view_that_did_not_leave_it_out_is_enough(rt: HostRuntime) {
    let alloc = rt.alloc();
    let mut office = office(&rt, alloc).expect(&rt, "memory");
    begin_all(&rt, alloc, &mut office, 4);
    begin(&rt, alloc, &mut office, 5, 3);
    assert_eq!(rt; mark(&rt, alloc, &mut office, Some(3)), Some(Mark::Bound));
    begin(&rt, alloc, &mut office, 5, 4);
    assert_eq!(rt; mark(&rt, alloc, &mut office, Some(3)), Some(Mark::Out));
}
