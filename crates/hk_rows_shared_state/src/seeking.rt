//! What a process asks of managers until it has a number, and when it is to end.

use crate::outside::{OWN, bytes_of, second};
use hk_base::NodeId;
use hk_boards::HeardBoard;
use hk_fields::Ticket;
use hk_inside::{Board, BoardLine, BoardLines, Inquiry, Mark, NodeState, Party, Stage};
use hk_shared_state::Standing;
use std::alloc::Global;
use std::process::Abort;

const FOUNDING: u64 = 9;

const OTHER: Ticket = Ticket([3; 16]);

const MANAGER: Ticket = Ticket([4; 16]);

const NEW: NodeId = NodeId(3);

const NEXT: NodeId = NodeId(4);

// A board of an open manager that came at this reading. It tells the manager of place 2, and number 3 with this ticket and mark, if that is given.
fn board(rt: &impl Abort, alloc: Global, came: u64, bound: Option<(Ticket, Mark)>) -> HeardBoard {
    let mut lines = BoardLines::new(alloc);
    let manager = BoardLine {
        party: Party::Manager(2),
        ticket: MANAGER,
        mark: Mark::Bound,
        ready: false,
        inside: bytes_of(rt, alloc, b""),
    };
    lines.push(manager).expect(rt, "memory");
    if let Some((ticket, mark)) = bound {
        let line = BoardLine {
            party: Party::Node(NEW),
            ticket,
            mark,
            ready: false,
            inside: bytes_of(rt, alloc, b"10.0.0.4:11400"),
        };
        lines.push(line).expect(rt, "memory");
    }
    HeardBoard {
        asked: came,
        came,
        board: Board {
            founding: FOUNDING,
            stage: Stage::Open,
            records: 0,
            managers_up: 7,
            lines,
        },
    }
}

// A process without an open manager, which was told these of number 3 by the three managers at reading 100.
fn told(rt: &impl Abort, alloc: Global, bound: [Option<(Ticket, Mark)>; 3]) -> Standing {
    let mut standing = Standing::new(alloc, 3).expect(rt, "memory");
    standing.boards.hear(0, board(rt, alloc, 100, bound[0]));
    standing.boards.hear(1, board(rt, alloc, 100, bound[1]));
    standing.boards.hear(2, board(rt, alloc, 100, bound[2]));
    standing.note_boards();
    standing
}

const NOBODY: [Option<(Ticket, Mark)>; 3] = [None; 3];

const MINE: Option<(Ticket, Mark)> = Some((OWN, Mark::Bound));

const ANOTHERS: Option<(Ticket, Mark)> = Some((OTHER, Mark::Bound));

fn is_seat(inquiry: &Option<Inquiry>) -> bool {
    matches!(inquiry, Some(Inquiry::Seat(_)))
}

fn is_claim(inquiry: &Option<Inquiry>) -> bool {
    matches!(
        inquiry,
        Some(Inquiry::Claim {
            node: NodeId(3),
            ..
        })
    )
}

#[test]
fn boards_tell_the_founding_and_the_managers(rt: HostRuntime) {
    let standing = told(&rt, rt.alloc(), NOBODY);
    assert_eq!(rt; standing.founding, FOUNDING);
    assert_eq!(rt; standing.managers[2], Some(MANAGER));
    assert_eq!(rt; standing.managers[1], None);
}

#[test]
fn the_first_manager_that_answers_is_asked_for_a_number(rt: HostRuntime) {
    let alloc = rt.alloc();
    let mut identity = second(&rt, alloc, 1_000);
    identity.place = None;
    let mut standing = told(&rt, alloc, NOBODY);
    assert!(rt; standing.is_newcomer(&identity));
    assert!(rt; is_seat(&standing.asks_of(&identity, 0, 1_100)));
    assert!(rt; standing.asks_of(&identity, 1, 1_100).is_none());
    // the board of place 0 is too old
    standing.boards.hear(1, board(&rt, alloc, 1_000, None));
    assert!(rt; standing.asks_of(&identity, 0, 1_101).is_none());
    assert!(rt; is_seat(&standing.asks_of(&identity, 1, 1_101)));
}

#[test]
fn a_number_is_claimed_where_it_is_not_bound(rt: HostRuntime) {
    let alloc = rt.alloc();
    let mut identity = second(&rt, alloc, 1_000);
    identity.place = None;
    let mut standing = told(&rt, alloc, [MINE, None, ANOTHERS]);
    standing.take_given(NEW);
    assert!(rt; standing.asks_of(&identity, 0, 100).is_none());
    assert!(rt; is_claim(&standing.asks_of(&identity, 1, 100)));
    assert!(rt; is_claim(&standing.asks_of(&identity, 2, 100)));
    assert_eq!(rt; standing.held(&identity), None);
    standing.boards.hear(1, board(&rt, alloc, 101, MINE));
    assert_eq!(rt; standing.held(&identity), Some(NEW));
}

#[test]
fn a_number_that_a_majority_refuses_is_let_go_of(rt: HostRuntime) {
    let mut standing = told(&rt, rt.alloc(), NOBODY);
    standing.take_given(NEW);
    standing.note_refusal(1, NEW);
    standing.note_refusal(1, NEW);
    assert_eq!(rt; standing.given, Some(NEW));
    standing.note_refusal(2, NEW);
    assert_eq!(rt; standing.given, None);
    // a refusal that comes late, of a number that it had claimed before
    standing.take_given(NEXT);
    standing.note_refusal(0, NEW);
    standing.note_refusal(1, NEXT);
    assert_eq!(rt; standing.given, Some(NEXT));
}

#[test]
fn a_node_that_is_ready_leaves_where_a_majority_tells_it(rt: HostRuntime) {
    let alloc = rt.alloc();
    let identity = second(&rt, alloc, 1_000);
    let to_leave = Some((OWN, Mark::ToLeave));
    let mut standing = told(&rt, alloc, [to_leave, None, MINE]);
    standing.node = Some(NEW);
    standing.state = NodeState::Ready;
    standing.note_leaving(&identity, 100);
    assert_eq!(rt; standing.leaving, None);
    standing.boards.hear(1, board(&rt, alloc, 101, to_leave));
    standing.state = NodeState::Copying;
    standing.note_leaving(&identity, 100);
    assert_eq!(rt; standing.leaving, None);
    standing.state = NodeState::Ready;
    standing.note_leaving(&identity, 100);
    standing.note_leaving(&identity, 2_099);
    assert_eq!(rt; standing.leaving, Some(100));
    assert_eq!(rt; standing.state, NodeState::Ready);
    standing.note_leaving(&identity, 2_100);
    assert_eq!(rt; standing.state, NodeState::Leaving);
    // it is wanted to leave still, and then no more
    standing.note_leaving(&identity, 4_100);
    assert_eq!(rt; standing.leaving, Some(100));
    standing.boards.hear(1, board(&rt, alloc, 102, MINE));
    standing.note_leaving(&identity, 4_099);
    assert_eq!(rt; standing.leaving, Some(100));
    standing.note_leaving(&identity, 4_100);
    assert_eq!(rt; standing.leaving, None);
    assert_eq!(rt; standing.state, NodeState::Ready);
}

#[test]
fn a_process_that_is_left_out_is_to_end(rt: HostRuntime) {
    let alloc = rt.alloc();
    let identity = second(&rt, alloc, 1_000);
    let out = Some((OWN, Mark::Out));
    let mut standing = told(&rt, alloc, [out, None, MINE]);
    standing.node = Some(NEW);
    assert!(rt; !standing.is_left_out(&identity));
    standing.boards.hear(1, board(&rt, alloc, 101, out));
    assert!(rt; standing.is_left_out(&identity));
}
