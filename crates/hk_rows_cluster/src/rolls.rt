//! What three managers answer newcomers, which number each binds, and what they have when they begin again.

use hk_base::{Actor, Members, NodeId, View};
use hk_fields::Ticket;
use hk_roll::{Binding, Founder, Roll, RollAnswer, RollRefusal, RollStep, Seating, named};
use std::alloc::Global;
use std::process::Abort;

// Two newcomers.
const A: Ticket = Ticket([10; 16]);

const B: Ticket = Ticket([11; 16]);

const HOSTS: [Founder; 3] = [
    Founder {
        manager: Ticket([100; 16]),
        node: Some(Ticket([200; 16])),
    },
    Founder {
        manager: Ticket([101; 16]),
        node: None,
    },
    Founder {
        manager: Ticket([102; 16]),
        node: Some(Ticket([202; 16])),
    },
];

const FREE: Seating = Seating {
    majority_up: true,
    member_ready: true,
    lately_in_vain: false,
};

const NOTHING: [Option<Ticket>; 3] = [None; 3];

const TAKEN: RollAnswer = RollAnswer::No(RollRefusal::Taken(3));

const WAIT: RollAnswer = RollAnswer::No(RollRefusal::Wait);

/// What a manager is asked.
#[derive(Clone, Copy)]
enum Ask {
    Seat(Seating),
    /// With what the three managers' boards told.
    Claim(Option<Ticket>, Option<Ticket>, Option<Ticket>),
}

/// A question to a manager about number 3, and what it answers.
#[derive(Clone, Copy)]
struct Row {
    name: &'static str,
    manager: usize,
    ticket: Ticket,
    ask: Ask,
    wanted: RollAnswer,
}

/// A row that was answered otherwise.
#[derive(Clone, Copy, Debug, PartialEq, Eq)]
struct Other {
    name: &'static str,
    answer: RollAnswer,
    wanted: RollAnswer,
}

fn seat(name: &'static str, manager: usize, ticket: Ticket, wanted: RollAnswer) -> Row {
    Row {
        name,
        manager,
        ticket,
        ask: Ask::Seat(FREE),
        wanted,
    }
}

fn claim(
    name: &'static str,
    manager: usize,
    ticket: Ticket,
    told: [Option<Ticket>; 3],
    wanted: RollAnswer,
) -> Row {
    let [first, second, third] = told;
    Row {
        name,
        manager,
        ticket,
        ask: Ask::Claim(first, second, third),
        wanted,
    }
}

// Views with members from 0 on, and the number that is next, in so many shards.
fn views_of(rt: &impl Abort, alloc: Global, shards: usize, count: u16, next: u32) -> Vec<View> {
    let mut views = Vec::new(alloc);
    for _ in 0..shards {
        let mut members = Members::new(alloc);
        for number in 0..count {
            members.push(NodeId(number)).expect(rt, "memory");
        }
        let view = View {
            epoch: 1,
            members,
            next,
        };
        views.push(view).expect(rt, "memory");
    }
    views
}

fn step_of(roll: &Roll, views: &[View], row: &Row) -> RollStep {
    match row.ask {
        Ask::Seat(seating) => roll.seat(views, seating, row.ticket),
        Ask::Claim(first, second, third) => {
            roll.claim(views, &[first, second, third], NodeId(3), row.ticket)
        }
    }
}

fn founded(rt: &impl Abort, alloc: Global) -> Roll {
    Roll::found(alloc, &HOSTS).expect(rt, "memory")
}

// The first row that is answered otherwise, and what each of three managers has logged then.
fn first_other(
    rt: &impl Abort,
    alloc: Global,
    views: &[View],
    rows: &[Row],
    logged: &mut Vec<(usize, Binding)>,
) -> Option<Other> {
    let mut rolls = [founded(rt, alloc), founded(rt, alloc), founded(rt, alloc)];
    for row in rows {
        let step = match rolls.get(row.manager) {
            Some(roll) => step_of(roll, views, row),
            None => continue,
        };
        if step.answer != row.wanted {
            return Some(Other {
                name: row.name,
                answer: step.answer,
                wanted: row.wanted,
            });
        }
        if let Some(binding) = step.logged {
            logged.push((row.manager, binding)).expect(rt, "memory");
            if let Some(roll) = rolls.get_mut(row.manager) {
                roll.bind(binding).expect(rt, "memory");
            }
        }
    }
    None
}

#[test]
fn numbers_are_given_and_claimed(rt: HostRuntime) {
    let alloc = rt.alloc();
    let views = views_of(&rt, alloc, 8, 3, 3);
    let seated = RollAnswer::Seated(NodeId(3));
    let rows = [
        seat("A at 0", 0, A, seated),
        seat("A at 0 again", 0, A, seated),
        seat("B at 0", 0, B, WAIT),
        claim("A at 1", 1, A, NOTHING, RollAnswer::Yes),
        claim("A at 1 again", 1, A, NOTHING, RollAnswer::Yes),
        claim("B at 1", 1, B, NOTHING, TAKEN),
        claim("B at 2, boards came", 2, B, [Some(A), Some(A), None], TAKEN),
        seat("B at 2", 2, B, seated),
        claim(
            "B at 1, one board more",
            1,
            B,
            [Some(A), None, Some(B)],
            TAKEN,
        ),
        claim("A at 2", 2, A, NOTHING, TAKEN),
        claim(
            "A at 2, boards came",
            2,
            A,
            [Some(A), Some(A), Some(B)],
            RollAnswer::Yes,
        ),
        claim("B at 2", 2, B, NOTHING, TAKEN),
    ];
    let mut logged = Vec::new(alloc);
    let other = first_other(&rt, alloc, views.as_slice(), &rows, &mut logged);
    assert_eq!(rt; other, None);
    let bound = |ticket| Binding {
        actor: Actor::Node(NodeId(3)),
        ticket,
    };
    assert_eq!(rt;
        logged.as_slice(),
        [(0, bound(A)), (1, bound(A)), (2, bound(B)), (2, bound(A))].as_slice()
    );
}

#[test]
fn a_newcomer_waits(rt: HostRuntime) {
    let alloc = rt.alloc();
    let roll = founded(&rt, alloc);
    let seats = |views: &[View], seating| roll.seat(views, seating, A).answer;
    let three = views_of(&rt, alloc, 8, 3, 3);
    let in_vain = Seating {
        lately_in_vain: true,
        ..FREE
    };
    let few_up = Seating {
        majority_up: false,
        ..FREE
    };
    let none_ready = Seating {
        member_ready: false,
        ..FREE
    };
    for seating in [in_vain, few_up, none_ready] {
        assert_eq!(rt; seats(three.as_slice(), seating), WAIT);
    }
    let full = views_of(&rt, alloc, 8, 16, 20);
    assert_eq!(rt; seats(full.as_slice(), FREE), WAIT);
    let last = views_of(&rt, alloc, 8, 3, 65_535);
    assert_eq!(rt;
        seats(last.as_slice(), FREE),
        RollAnswer::Seated(NodeId(65_535))
    );
    let spent = views_of(&rt, alloc, 8, 3, 65_536);
    assert_eq!(rt; seats(spent.as_slice(), FREE), WAIT);
    let mut midway = views_of(&rt, alloc, 7, 3, 3);
    let added = views_of(&rt, alloc, 1, 4, 4);
    for view in added {
        midway.push(view).expect(&rt, "memory");
    }
    assert_eq!(rt; seats(midway.as_slice(), FREE), WAIT);
    let claims = |views: &[View]| roll.claim(views, &NOTHING, NodeId(3), A).answer;
    assert_eq!(rt; claims(midway.as_slice()), WAIT);
    let member = views_of(&rt, alloc, 8, 4, 4);
    assert_eq!(rt; claims(member.as_slice()), RollAnswer::Yes);
    let past = views_of(&rt, alloc, 8, 3, 4);
    assert_eq!(rt; claims(past.as_slice()), TAKEN);
}

#[test]
fn a_manager_begins_again(rt: HostRuntime) {
    let alloc = rt.alloc();
    let three = |ticket| Binding {
        actor: Actor::Node(NodeId(3)),
        ticket,
    };
    let roll = Roll::replay(alloc, &HOSTS, &[three(B), three(A)]).expect(&rt, "memory");
    let bound = |actor| roll.bound(actor);
    assert_eq!(rt; bound(Actor::Manager(1)), Some(Ticket([101; 16])));
    assert_eq!(rt; bound(Actor::Manager(3)), None);
    assert_eq!(rt; bound(Actor::Node(NodeId(0))), Some(Ticket([200; 16])));
    assert_eq!(rt; bound(Actor::Node(NodeId(1))), None);
    assert_eq!(rt; bound(Actor::Node(NodeId(3))), Some(A));
}

#[test]
fn boards_name_a_holder(rt: HostRuntime) {
    assert_eq!(rt; named(&[Some(A), None, Some(A)]), Some(A));
    assert_eq!(rt; named(&[Some(A), None, Some(B)]), None);
    assert_eq!(rt; named(&[Some(A), Some(A), Some(B), None]), None);
    assert_eq!(rt; named(&[None, None, None]), None);
    assert_eq!(rt; named(&[Some(B)]), Some(B));
}

#[test]
fn refusals_of_numbers_have_codes_and_texts(rt: HostRuntime) {
    let alloc = rt.alloc();
    let taken = RollRefusal::Taken(3);
    let text = format!(in alloc; "{}", taken).expect(&rt, "memory");
    assert_eq!(rt; (taken.code(), text.as_str()), (7, "number 3 is taken"));
    let text = format!(in alloc; "{}", RollRefusal::Wait).expect(&rt, "memory");
    assert_eq!(rt; (RollRefusal::Wait.code(), text.as_str()), (8, "wait"));
}
