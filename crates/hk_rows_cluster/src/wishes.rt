//! What a manager wishes, case by case. Leases last 1,000 ms; the manager is 0 of 3, and nodes 0 and 1 are ready where nothing else is said.

use hk_base::{Change, Members, NodeId, Sequence, View};
use hk_inside::NodeState;
use hk_keeper::{
    AgeTold, Ask, Heard, ManagerHeard, NodeHeard, Proposal, ShardHeard, StateTold, Wish,
};
use std::alloc::Global;
use std::process::Abort;

// The members of a view, its epoch, and the next number.
#[derive(Clone, Copy)]
struct Held {
    epoch: u64,
    members: &'static [u16],
    next: u32,
}

const FOUNDERS: Held = Held {
    epoch: 3,
    members: &[0, 1, 2],
    next: 3,
};

const TWO: Held = Held {
    epoch: 4,
    members: &[0, 1],
    next: 3,
};

const THREE: Held = Held {
    epoch: 5,
    members: &[0, 1, 3],
    next: 4,
};

/// What is heard, and what is wished.
#[derive(Clone, Copy)]
struct Row {
    name: &'static str,
    clock: u64,
    // In all shards but number 6, and there.
    held: Held,
    sixth: Held,
    nodes: [NodeHeard; 3],
    // How long ago managers 1 and 2 reported, and which age each told of node 2.
    told: [(u64, u64); 2],
    wanted: [Wish; 8],
}

/// A row in which something else is wished.
#[derive(Clone, Copy, Debug, PartialEq, Eq)]
struct Other {
    name: &'static str,
    wished: [Wish; 8],
    wanted: [Wish; 8],
}

// A bound node that is ready, and asked so long ago in all shards.
fn ready(number: u16, age: u64, epoch: u64) -> NodeHeard {
    NodeHeard {
        node: NodeId(number),
        bound: true,
        told: Some(StateTold {
            state: NodeState::Ready,
            age: 30,
        }),
        asks: [Ask {
            age,
            epoch: Some(epoch),
        }; 8],
    }
}

fn does(state: NodeState, node: NodeHeard) -> NodeHeard {
    NodeHeard {
        told: Some(StateTold { state, age: 30 }),
        ..node
    }
}

// It asked in this shard of another epoch.
fn asks_in(place: usize, epoch: u64, node: NodeHeard) -> NodeHeard {
    let mut asks = node.asks;
    if place < 8 {
        asks[place] = Ask {
            age: 40,
            epoch: Some(epoch),
        };
    }
    NodeHeard { asks, ..node }
}

fn propose(change: Change) -> Wish {
    Wish::Propose(Proposal {
        change,
        patience: 0,
    })
}

fn in_shard(place: usize, wish: Wish) -> [Wish; 8] {
    let mut wishes = [Wish::Nothing; 8];
    if place < 8 {
        wishes[place] = wish;
    }
    wishes
}

fn shard_of(rt: &impl Abort, alloc: Global, held: Held) -> ShardHeard {
    let mut members = Members::new(alloc);
    for member in held.members {
        members.push(NodeId(*member)).expect(rt, "memory");
    }
    ShardHeard {
        held: View {
            epoch: held.epoch,
            members,
            next: held.next,
        },
        proposals: 0,
        proposed: 0,
    }
}

fn manager_of(rt: &impl Abort, alloc: Global, place: u8, told: (u64, u64)) -> ManagerHeard {
    let mut ages = Sequence::new(alloc);
    let age = AgeTold {
        node: NodeId(2),
        age: told.1,
    };
    ages.push(age).expect(rt, "memory");
    ManagerHeard {
        place,
        report: Some(told.0),
        ages,
    }
}

fn managers_of(rt: &impl Abort, alloc: Global, told: [(u64, u64); 2]) -> Sequence<ManagerHeard> {
    let mut managers = Sequence::new(alloc);
    managers
        .push(manager_of(rt, alloc, 0, (0, 0)))
        .expect(rt, "memory");
    managers
        .push(manager_of(rt, alloc, 1, told[0]))
        .expect(rt, "memory");
    managers
        .push(manager_of(rt, alloc, 2, told[1]))
        .expect(rt, "memory");
    managers
}

fn heard_of(rt: &impl Abort, alloc: Global, row: &Row) -> Heard {
    let mut nodes = Sequence::new(alloc);
    for node in &row.nodes {
        nodes.push(*node).expect(rt, "memory");
    }
    let mut shards = Sequence::new(alloc);
    for place in 0..8 {
        let held = if place == 6 { row.sixth } else { row.held };
        shards.push(shard_of(rt, alloc, held)).expect(rt, "memory");
    }
    Heard {
        clock: row.clock,
        place: 0,
        lease: 1000,
        managers: managers_of(rt, alloc, row.told),
        nodes,
        newcomer: false,
        shards,
    }
}

fn first_other(rt: &impl Abort, alloc: Global, rows: &[Row]) -> Option<Other> {
    for row in rows {
        let heard = heard_of(rt, alloc, row);
        if heard.managers.len() > 9 {
            return None;
        }
        let wished = heard.decide();
        if wished != row.wanted {
            return Some(Other {
                name: row.name,
                wished,
                wanted: row.wanted,
            });
        }
    }
    None
}

// All managers are up and hear all nodes, and nothing is to be done.
fn quiet(name: &'static str, held: Held, third: NodeHeard) -> Row {
    Row {
        name,
        clock: 50_000,
        held,
        sixth: held,
        nodes: [ready(0, 40, held.epoch), ready(1, 40, held.epoch), third],
        told: [(30, 40), (30, 40)],
        wanted: [Wish::Nothing; 8],
    }
}

#[test]
fn a_silent_member_is_dropped(rt: HostRuntime) {
    let drop_2 = [propose(Change::Drop(NodeId(2))); 8];
    let silent = ready(2, 1000, 3);
    let rows = [
        quiet("all is well", FOUNDERS, ready(2, 40, 3)),
        Row {
            told: [(30, 940), (501, 40)],
            wanted: drop_2,
            ..quiet(
                "silent, as manager 1 says too, and 2 is not up",
                FOUNDERS,
                silent,
            )
        },
        Row {
            told: [(30, 310), (30, 310)],
            ..quiet("heard by managers 1 and 2", FOUNDERS, silent)
        },
        Row {
            told: [(501, 940), (501, 940)],
            ..quiet("no majority is up", FOUNDERS, silent)
        },
        Row {
            told: [(30, 940), (501, 40)],
            nodes: [
                does(NodeState::Copying, ready(0, 40, 3)),
                does(NodeState::Copying, ready(1, 40, 3)),
                silent,
            ],
            ..quiet("no other one is ready", FOUNDERS, silent)
        },
        Row {
            wanted: drop_2,
            ..quiet(
                "leaving",
                FOUNDERS,
                does(NodeState::Leaving, ready(2, 40, 3)),
            )
        },
    ];
    assert_eq!(rt; first_other(&rt, rt.alloc(), &rows), None);
}

#[test]
fn a_node_is_added(rt: HostRuntime) {
    let newcomer = does(NodeState::Seated, ready(3, 40, 0));
    let add = propose(Change::Add);
    let rows = [
        Row {
            wanted: [add; 8],
            ..quiet("asks everywhere", TWO, newcomer)
        },
        quiet(
            "asked long ago",
            TWO,
            does(NodeState::Seated, ready(3, 251, 0)),
        ),
        Row {
            sixth: TWO,
            nodes: [
                asks_in(6, 4, ready(0, 40, 5)),
                asks_in(6, 4, ready(1, 40, 5)),
                asks_in(6, 0, does(NodeState::Copying, ready(3, 40, 5))),
            ],
            wanted: in_shard(6, add),
            ..quiet("shard 6 is behind", THREE, newcomer)
        },
        Row {
            sixth: TWO,
            nodes: [
                ready(0, 40, 5),
                ready(1, 40, 5),
                does(NodeState::Copying, ready(3, 40, 5)),
            ],
            wanted: in_shard(
                6,
                Wish::Propose(Proposal {
                    change: Change::Drop(NodeId(1)),
                    patience: 0,
                }),
            ),
            ..quiet("shard 6 was overtaken", THREE, newcomer)
        },
    ];
    assert_eq!(rt; first_other(&rt, rt.alloc(), &rows), None);
}

#[test]
fn a_view_begins(rt: HostRuntime) {
    let behind = asks_in(5, 3, ready(1, 40, 4));
    let third = does(NodeState::Seated, ready(9, 40, 0));
    let nodes = [ready(0, 40, 4), behind, third];
    let rows = [
        Row {
            nodes,
            wanted: in_shard(5, Wish::Activate),
            ..quiet("a member asks of the view before", TWO, third)
        },
        Row {
            nodes,
            clock: 1101,
            ..quiet("the wait is not past", TWO, third)
        },
        Row {
            nodes,
            clock: 1102,
            wanted: in_shard(5, Wish::Activate),
            ..quiet("the wait is past", TWO, third)
        },
    ];
    assert_eq!(rt; first_other(&rt, rt.alloc(), &rows), None);
}
