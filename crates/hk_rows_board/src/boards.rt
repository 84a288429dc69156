//! What three managers' boards tell of numbers, and of the managers.

use hk_base::NodeId;
use hk_boards::{Boards, HeardBoard};
use hk_fields::Ticket;
use hk_inside::{Board, BoardLine, BoardLines, Mark, Party, Stage, Text};
use std::alloc::Global;
use std::process::Abort;

const FOUNDING: u64 = 7;

const A: Ticket = Ticket([10; 16]);

const B: Ticket = Ticket([11; 16]);

/// A line of a board.
#[derive(Clone, Copy)]
struct Line {
    party: Party,
    ticket: Ticket,
    mark: Mark,
    ready: bool,
    inside: &'static [u8],
}

/// A board, of which manager it is, and when it came.
#[derive(Clone, Copy)]
struct Came {
    place: u8,
    came: u64,
    founding: u64,
    stage: Stage,
    records: u64,
    lines: &'static [Line],
}

const MANAGER: Line = Line {
    party: Party::Manager(3),
    ticket: B,
    mark: Mark::Bound,
    ready: false,
    inside: b"m",
};

const NEWCOMER: Line = Line {
    party: Party::Neither,
    ticket: B,
    mark: Mark::Bound,
    ready: false,
    inside: b"n",
};

const TELLS_A: &[Line] = &[
    MANAGER,
    Line {
        party: Party::Node(NodeId(9)),
        ticket: A,
        mark: Mark::ToLeave,
        ready: false,
        inside: b"nine",
    },
    Line {
        party: Party::Node(NodeId(3)),
        ticket: A,
        mark: Mark::Bound,
        ready: false,
        inside: b"three",
    },
    NEWCOMER,
];

const MOVED: &[Line] = &[
    Line {
        party: Party::Node(NodeId(3)),
        ticket: A,
        mark: Mark::Member,
        ready: false,
        inside: b"moved",
    },
    Line {
        party: Party::Node(NodeId(9)),
        ticket: A,
        mark: Mark::Out,
        ready: false,
        inside: b"nine",
    },
];

// Of a manager that began only now: it binds what its log tells, and was told no address yet.
const BEGAN: &[Line] = &[Line {
    party: Party::Node(NodeId(3)),
    ticket: A,
    mark: Mark::Member,
    ready: false,
    inside: b"",
}];

const TELLS_B: &[Line] = &[Line {
    party: Party::Node(NodeId(3)),
    ticket: B,
    mark: Mark::Member,
    ready: false,
    inside: b"other",
}];

const LEFT_OUT: &[Line] = &[Line {
    party: Party::Node(NodeId(9)),
    ticket: A,
    mark: Mark::Out,
    ready: false,
    inside: b"nine",
}];

// To who asks by a number that is not bound to it there.
const ASKER_OUT: &[Line] = &[Line {
    party: Party::Neither,
    ticket: A,
    mark: Mark::Out,
    ready: false,
    inside: b"nine",
}];

const ASKER_NOT_OUT: &[Line] = &[Line {
    party: Party::Neither,
    ticket: A,
    mark: Mark::Bound,
    ready: false,
    inside: b"nine",
}];

const OTHER_OUT: &[Line] = &[Line {
    party: Party::Neither,
    ticket: B,
    mark: Mark::Out,
    ready: false,
    inside: b"nine",
}];

fn board_at(place: u8, came: u64, lines: &'static [Line]) -> Came {
    Came {
        place,
        came,
        founding: FOUNDING,
        stage: Stage::Open,
        records: 40,
        lines,
    }
}

fn text_of(rt: &impl Abort, alloc: Global, bytes: &[u8]) -> Text {
    Text::from_vec(bytes.to_vec(alloc).expect(rt, "memory"))
}

fn line_of(rt: &impl Abort, alloc: Global, line: Line) -> BoardLine {
    BoardLine {
        party: line.party,
        ticket: line.ticket,
        mark: line.mark,
        ready: line.ready,
        inside: text_of(rt, alloc, line.inside),
    }
}

fn heard_of(rt: &impl Abort, alloc: Global, came: &Came) -> HeardBoard {
    let mut lines = BoardLines::new(alloc);
    for line in came.lines {
        lines.push(line_of(rt, alloc, *line)).expect(rt, "memory");
    }
    HeardBoard {
        asked: came.came,
        came: came.came,
        board: Board {
            founding: came.founding,
            stage: came.stage,
            records: came.records,
            managers_up: 7,
            lines,
        },
    }
}

fn boards_of(rt: &impl Abort, alloc: Global, all: &[Came]) -> Boards {
    let mut boards = Boards::new(alloc, 3).expect(rt, "memory");
    for came in all {
        boards.hear(came.place, heard_of(rt, alloc, came));
    }
    boards
}

fn numbers_of(rt: &impl Abort, alloc: Global, boards: &Boards) -> Vec<u16> {
    let nodes = boards.nodes(alloc, FOUNDING).expect(rt, "memory");
    let mut numbers = Vec::new(alloc);
    for node in &nodes {
        numbers.push(node.0).expect(rt, "memory");
    }
    numbers
}

#[test]
fn a_majority_tells_the_holder(rt: HostRuntime) {
    let alloc = rt.alloc();
    let boards = boards_of(
        &rt,
        alloc,
        &[board_at(0, 10, TELLS_A), board_at(2, 11, MOVED)],
    );
    assert_eq!(rt; boards.holder(FOUNDING, NodeId(3)), Some(A));
    assert_eq!(rt;
        boards.told_of(FOUNDING, NodeId(3)).as_slice(),
        [Some(A), None, Some(A)].as_slice()
    );
    assert_eq!(rt;
        boards.address_of(FOUNDING, NodeId(3)),
        Some(b"moved".as_slice())
    );
    assert_eq!(rt; boards.holder(FOUNDING, NodeId(9)), None);
    assert_eq!(rt; boards.address_of(FOUNDING, NodeId(9)), None);
    assert_eq!(rt; boards.holder(8, NodeId(3)), None);
    assert_eq!(rt; numbers_of(&rt, alloc, &boards).as_slice(), [3].as_slice());
}

#[test]
fn who_tells_no_address_is_passed_over(rt: HostRuntime) {
    let alloc = rt.alloc();
    let newest = board_at(1, 12, BEGAN);
    let boards = boards_of(
        &rt,
        alloc,
        &[board_at(0, 10, TELLS_A), newest, board_at(2, 11, MOVED)],
    );
    assert_eq!(rt;
        boards.address_of(FOUNDING, NodeId(3)),
        Some(b"moved".as_slice())
    );
    let untold = boards_of(&rt, alloc, &[newest, board_at(2, 11, BEGAN)]);
    assert_eq!(rt; untold.holder(FOUNDING, NodeId(3)), Some(A));
    assert_eq!(rt; untold.address_of(FOUNDING, NodeId(3)), None);
}

#[test]
fn one_manager_is_no_majority(rt: HostRuntime) {
    let alloc = rt.alloc();
    let boards = boards_of(
        &rt,
        alloc,
        &[board_at(0, 10, TELLS_A), board_at(1, 11, TELLS_B)],
    );
    assert_eq!(rt; boards.holder(FOUNDING, NodeId(3)), None);
    assert_eq!(rt; numbers_of(&rt, alloc, &boards).len(), 0);
}

#[test]
fn the_last_board_counts(rt: HostRuntime) {
    let alloc = rt.alloc();
    let told = [
        board_at(0, 10, TELLS_A),
        board_at(1, 11, TELLS_B),
        board_at(2, 12, TELLS_A),
        board_at(1, 13, TELLS_A),
        board_at(3, 14, TELLS_B),
    ];
    let boards = boards_of(&rt, alloc, &told);
    assert_eq!(rt; boards.holder(FOUNDING, NodeId(3)), Some(A));
    assert_eq!(rt;
        numbers_of(&rt, alloc, &boards).as_slice(),
        [3, 9].as_slice()
    );
    assert_eq!(rt; boards.of(1).map(|heard| heard.came), Some(13));
    assert!(rt; boards.of(3).is_none());
}

#[test]
fn boards_of_managers_that_are_not_open_tell_nothing(rt: HostRuntime) {
    let alloc = rt.alloc();
    let founded = Came {
        stage: Stage::Founded,
        ..board_at(2, 11, TELLS_A)
    };
    let boards = boards_of(&rt, alloc, &[board_at(0, 10, TELLS_A), founded]);
    assert_eq!(rt; boards.holder(FOUNDING, NodeId(3)), None);
}

#[test]
fn a_majority_tells_who_is_to_leave(rt: HostRuntime) {
    let alloc = rt.alloc();
    let mut boards = boards_of(&rt, alloc, &[board_at(0, 10, TELLS_A)]);
    assert!(rt; !boards.is_to_leave(FOUNDING, NodeId(9), A));
    boards.hear(2, heard_of(&rt, alloc, &board_at(2, 11, TELLS_A)));
    assert!(rt; boards.is_to_leave(FOUNDING, NodeId(9), A));
    assert!(rt; !boards.is_to_leave(FOUNDING, NodeId(9), B));
    assert!(rt; !boards.is_to_leave(FOUNDING, NodeId(3), A));
    assert!(rt; !boards.is_to_leave(8, NodeId(9), A));
}

#[test]
fn a_majority_tells_who_is_out(rt: HostRuntime) {
    let alloc = rt.alloc();
    let boards = boards_of(
        &rt,
        alloc,
        &[board_at(1, 10, LEFT_OUT), board_at(2, 11, MOVED)],
    );
    assert!(rt; boards.is_out(FOUNDING, NodeId(9), A));
    assert!(rt; !boards.is_out(FOUNDING, NodeId(9), B));
    assert!(rt; !boards.is_out(FOUNDING, NodeId(3), A));
    assert!(rt; !boards.is_out(8, NodeId(9), A));
    let boards = boards_of(
        &rt,
        alloc,
        &[board_at(1, 10, LEFT_OUT), board_at(2, 11, TELLS_A)],
    );
    assert!(rt; !boards.is_out(FOUNDING, NodeId(9), A));
}

// Whether node 9 is out, where one manager tells it by the number, and another one tells this.
fn is_out_with(rt: &impl Abort, alloc: Global, lines: &'static [Line]) -> bool {
    let boards = boards_of(
        rt,
        alloc,
        &[board_at(0, 10, LEFT_OUT), board_at(2, 11, lines)],
    );
    boards.is_out(FOUNDING, NodeId(9), A)
}

#[test]
fn managers_count_that_never_bound_the_number_of_who_is_out(rt: HostRuntime) {
    let alloc = rt.alloc();
    assert!(rt; is_out_with(&rt, alloc, ASKER_OUT));
    assert!(rt; !is_out_with(&rt, alloc, ASKER_NOT_OUT));
    assert!(rt; !is_out_with(&rt, alloc, OTHER_OUT));
    assert!(rt; !is_out_with(&rt, alloc, &[]));
}

#[test]
fn another_founding_is_told_by_a_majority(rt: HostRuntime) {
    let alloc = rt.alloc();
    let other = Came {
        founding: 8,
        ..board_at(1, 10, TELLS_A)
    };
    let also = Came { place: 2, ..other };
    let boards = boards_of(&rt, alloc, &[board_at(0, 9, TELLS_A), other, also]);
    assert!(rt; boards.has_another_founding(FOUNDING));
    assert!(rt; !boards.has_another_founding(8));
    let not_open = Came {
        stage: Stage::Founded,
        ..also
    };
    let boards = boards_of(&rt, alloc, &[other, not_open]);
    assert!(rt; !boards.has_another_founding(FOUNDING));
}

#[test]
fn the_founding_is_that_with_which_a_majority_is_open(rt: HostRuntime) {
    let alloc = rt.alloc();
    let mut other = board_at(1, 10, &[]);
    other.founding = 8;
    let mut boards = boards_of(&rt, alloc, &[board_at(0, 10, &[]), other]);
    assert_eq!(rt; boards.open_founding(), None);
    boards.hear(2, heard_of(&rt, alloc, &board_at(2, 11, &[])));
    assert_eq!(rt; boards.open_founding(), Some(FOUNDING));
    let mut founded = board_at(2, 12, &[]);
    founded.stage = Stage::Founded;
    boards.hear(2, heard_of(&rt, alloc, &founded));
    assert_eq!(rt; boards.open_founding(), None);
}

#[test]
fn a_majority_tells_the_ticket_of_a_manager(rt: HostRuntime) {
    let alloc = rt.alloc();
    let mut boards = boards_of(&rt, alloc, &[board_at(0, 10, TELLS_A)]);
    assert_eq!(rt; boards.manager(FOUNDING, 3), None);
    boards.hear(2, heard_of(&rt, alloc, &board_at(2, 11, TELLS_A)));
    assert_eq!(rt; boards.manager(FOUNDING, 3), Some(B));
    assert_eq!(rt; boards.manager(FOUNDING, 2), None);
    assert_eq!(rt; boards.manager(8, 3), None);
}

// The first one alone is a member that has a holder.
const READY: &[Line] = &[
    Line {
        party: Party::Node(NodeId(3)),
        ticket: A,
        mark: Mark::ToLeave,
        ready: true,
        inside: b"ready",
    },
    Line {
        party: Party::Node(NodeId(9)),
        ticket: A,
        mark: Mark::Bound,
        ready: true,
        inside: b"ready",
    },
    Line {
        party: Party::Node(NodeId(12)),
        ticket: B,
        mark: Mark::Member,
        ready: true,
        inside: b"ready",
    },
];

#[test]
fn one_manager_tells_who_of_the_holders_is_ready(rt: HostRuntime) {
    let alloc = rt.alloc();
    let boards = boards_of(
        &rt,
        alloc,
        &[board_at(0, 10, READY), board_at(1, 10, TELLS_A)],
    );
    let nodes = boards.ready_nodes(alloc, FOUNDING).expect(&rt, "memory");
    assert_eq!(rt; nodes.as_slice(), [NodeId(3)].as_slice());
}

#[test]
fn the_least_open_manager_is_asked_that_answered(rt: HostRuntime) {
    let alloc = rt.alloc();
    let emptied = Came {
        stage: Stage::Empty,
        ..board_at(0, 100, &[])
    };
    let boards = boards_of(
        &rt,
        alloc,
        &[emptied, board_at(1, 40, &[]), board_at(2, 90, &[])],
    );
    assert_eq!(rt; boards.least_heard(140, 100), Some(1));
    assert_eq!(rt; boards.least_heard(141, 100), Some(2));
    assert_eq!(rt; boards.least_heard(191, 100), None);
    assert_eq!(rt; boards.least_heard(10, 0), Some(1));
}

#[test]
fn a_manager_counts_itself_among_those_that_answered(rt: HostRuntime) {
    let alloc = rt.alloc();
    let boards = boards_of(&rt, alloc, &[board_at(1, 10, &[])]);
    assert!(rt; boards.majority_answered(0, 0));
    assert!(rt; !boards.majority_answered(1, 0));
    let boards = boards_of(&rt, alloc, &[]);
    assert!(rt; !boards.majority_answered(0, 0));
}

#[test]
fn boards_count_that_were_asked_for_behind_a_reading(rt: HostRuntime) {
    let alloc = rt.alloc();
    let boards = boards_of(&rt, alloc, &[board_at(1, 10, &[])]);
    assert_eq!(rt; boards.of(1).map(|heard| heard.asked), Some(10));
    assert!(rt; boards.majority_answered(0, 9));
    assert!(rt; !boards.majority_answered(0, 10));
    assert!(rt; !boards.majority_answered(2, 10));
}

#[test]
fn the_most_records_are_told_by_the_least_place(rt: HostRuntime) {
    let alloc = rt.alloc();
    let fewer = Came {
        records: 39,
        ..board_at(0, 10, &[])
    };
    let boards = boards_of(
        &rt,
        alloc,
        &[fewer, board_at(1, 11, &[]), board_at(2, 12, &[])],
    );
    assert_eq!(rt; boards.most_records(), Some((1, 40)));
    let boards = boards_of(&rt, alloc, &[]);
    assert_eq!(rt; boards.most_records(), None);
}
