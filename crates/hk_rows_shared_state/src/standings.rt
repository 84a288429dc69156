//! Whom a process knows, by cases.

use crate::outside::{OWN, bytes_of, second};
use hk_base::{Actor, NodeId};
use hk_boards::HeardBoard;
use hk_fields::Ticket;
use hk_hello::{Hello, Party, Purpose};
use hk_inside::{Board, BoardLine, BoardLines, Mark, Stage};
use hk_shared_state::{Identity, Standing};
use std::alloc::Global;
use std::process::Abort;

const FOUNDING: u64 = 9;

// The ticket of the manager of the second host, and those of the first host.
pub(crate) const OWN_MANAGER: Ticket = Ticket([8; 16]);

const FIRST: Ticket = Ticket([1; 16]);

const FIRST_MANAGER: Ticket = Ticket([2; 16]);

const MANAGER_0: Party = Party::Actor(Actor::Manager(0));

const MANAGER_1: Party = Party::Actor(Actor::Manager(1));

const MANAGER_2: Party = Party::Actor(Actor::Manager(2));

const NODE_0: Party = Party::Actor(Actor::Node(NodeId(0)));

const NODE_1: Party = Party::Actor(Actor::Node(NodeId(1)));

const NODE_2: Party = Party::Actor(Actor::Node(NodeId(2)));

const LETTERS: Purpose = Purpose::Letters;

const REQUESTS: Purpose = Purpose::Requests;

// The first node, bound to its process.
fn board(rt: &impl Abort, alloc: Global) -> HeardBoard {
    let mut lines = BoardLines::new(alloc);
    lines
        .push(BoardLine {
            party: hk_inside::Party::Node(NodeId(0)),
            ticket: FIRST,
            mark: Mark::Member,
            ready: true,
            inside: bytes_of(rt, alloc, b"10.0.0.1:11400"),
        })
        .expect(rt, "memory");
    HeardBoard {
        asked: 5,
        came: 6,
        board: Board {
            founding: FOUNDING,
            stage: Stage::Open,
            records: 0,
            managers_up: 3,
            lines,
        },
    }
}

// The second host's process once its manager is open and its node has a number: two of three managers bind node 0.
pub(crate) fn open(rt: &impl Abort, alloc: Global) -> Standing {
    let mut standing = Standing::new(alloc, 3).expect(rt, "memory");
    standing.founding = FOUNDING;
    standing.manager = Some(OWN_MANAGER);
    standing.managers[0] = Some(FIRST_MANAGER);
    standing.managers[1] = Some(OWN_MANAGER);
    standing.node = Some(NodeId(1));
    standing.boards.hear(0, board(rt, alloc));
    standing.boards.hear(2, board(rt, alloc));
    standing
}

fn hello(
    rt: &impl Abort,
    alloc: Global,
    identity: &Identity,
    purpose: Purpose,
    ends: (Party, Party),
    ticket: Ticket,
) -> Hello {
    let (from, to) = ends;
    identity
        .hello(alloc, purpose, from, to, FOUNDING, ticket)
        .expect(rt, "memory")
}

// A hello's purpose, who dials whom, and its ticket. Then what is known: whether who is dialled is here, whether who dials
// is bound, and whether it is bound to another process.
type Case = (Purpose, Party, Party, Ticket, [bool; 3]);

const CLOSED: &[Case] = &[
    (
        REQUESTS,
        Party::Neither,
        MANAGER_1,
        FIRST,
        [true, false, false],
    ),
    (
        REQUESTS,
        MANAGER_0,
        MANAGER_1,
        FIRST_MANAGER,
        [true, false, false],
    ),
    (
        REQUESTS,
        Party::Neither,
        MANAGER_0,
        FIRST,
        [false, false, false],
    ),
    (
        LETTERS,
        MANAGER_0,
        MANAGER_1,
        FIRST_MANAGER,
        [false, false, false],
    ),
    (LETTERS, NODE_0, NODE_1, FIRST, [false, false, false]),
];

const OPEN: &[Case] = &[
    (
        REQUESTS,
        Party::Neither,
        MANAGER_1,
        FIRST,
        [true, false, false],
    ),
    (
        REQUESTS,
        MANAGER_0,
        MANAGER_1,
        FIRST_MANAGER,
        [true, true, false],
    ),
    (REQUESTS, MANAGER_0, MANAGER_1, FIRST, [true, true, true]),
    (
        REQUESTS,
        MANAGER_0,
        MANAGER_2,
        FIRST_MANAGER,
        [false, true, false],
    ),
    (
        REQUESTS,
        MANAGER_0,
        NODE_1,
        FIRST_MANAGER,
        [false, true, false],
    ),
    (
        REQUESTS,
        MANAGER_0,
        Party::Neither,
        FIRST_MANAGER,
        [false, true, false],
    ),
    (
        LETTERS,
        MANAGER_0,
        MANAGER_1,
        FIRST_MANAGER,
        [true, true, false],
    ),
    (LETTERS, MANAGER_2, MANAGER_1, FIRST, [true, false, false]),
    (LETTERS, NODE_0, MANAGER_1, FIRST, [true, true, false]),
    (LETTERS, NODE_0, NODE_1, FIRST, [true, true, false]),
    (LETTERS, NODE_0, NODE_1, OWN, [true, true, true]),
    (LETTERS, NODE_2, NODE_1, FIRST, [true, false, false]),
    (LETTERS, NODE_0, NODE_2, FIRST, [false, true, false]),
    (LETTERS, NODE_0, MANAGER_0, FIRST, [false, true, false]),
];

fn check(rt: &impl Abort, alloc: Global, standing: &Standing, cases: &[Case]) {
    let identity = second(rt, alloc, 1_000);
    for (purpose, from, to, ticket, known) in cases {
        let hello = hello(rt, alloc, &identity, *purpose, (*from, *to), *ticket);
        let looked = standing.look_up(&identity, &hello);
        assert_eq!(rt; looked.founding, standing.founding);
        assert_eq!(rt;
            [looked.to_is_here, looked.from_is_bound, looked.is_taken],
            *known
        );
    }
}

#[test]
fn hellos_are_looked_up_by_cases(rt: HostRuntime) {
    let alloc = rt.alloc();
    let closed = Standing::new(alloc, 3).expect(&rt, "memory");
    check(&rt, alloc, &closed, CLOSED);
    check(&rt, alloc, &open(&rt, alloc), OPEN);
}
