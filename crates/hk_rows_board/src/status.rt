//! The lines of a status, byte for byte.

use hk_base::{Members, NodeId, Sequence, View};
use hk_inside::{Counts, ShardsTold, Stage, Text};
use hk_status::{GroupStatus, ManagerLine, NodeLine, NodeShown, NodeTold, WaitLine, print_status};
use std::alloc::Global;
use std::process::Abort;

const COUNTS: Counts = Counts {
    keys: 41_200,
    bytes: 4_532_000,
    gets: 0,
    sets: 0,
    busy: 0,
    aborted: 0,
    unknown: 0,
};

const SHARDS: ShardsTold = ShardsTold {
    ready: 3,
    least_epoch: 4,
    least_lease_left: 871,
};

const WHOLE: &[u8] = b"group hermes founding=3f9c27b1d04e8a65 stage=open lease=1000 skew=10
manager 2 10.0.0.3:11400 up=31 records=40
manager 0 - down=- records=-
view shards=0-7 epoch=4 members=0,1,3 next=4
node 3 10.0.0.3:11400 copying manager=2 clients=10.0.0.3:11211 shards=3 epoch=4 lease=871 keys=41200 bytes=4532000 gets=0 sets=0 busy=0 aborted=0 unknown=0
node 1 10.0.0.2:11400 gone manager=- clients=- shards=- epoch=- lease=- keys=- bytes=- gets=- sets=- busy=- aborted=- unknown=-
waits 3 for=1 ms=1200
waiting 10.0.0.4:11400
lost
";

const EMPTY: &[u8] = b"group hermes founding=- stage=empty lease=1000 skew=10\n";

fn text_of(rt: &impl Abort, alloc: Global, bytes: &[u8]) -> Text {
    Text::from_vec(bytes.to_vec(alloc).expect(rt, "memory"))
}

// What a manager that was founded with nothing tells.
fn nothing(rt: &impl Abort, alloc: Global) -> GroupStatus {
    GroupStatus {
        group: text_of(rt, alloc, b"hermes"),
        founding: None,
        stage: Stage::Empty,
        lease: 1000,
        skew: 10,
        managers: Sequence::new(alloc),
        views: Sequence::new(alloc),
        nodes: Sequence::new(alloc),
        waits: Sequence::new(alloc),
        waiting: Sequence::new(alloc),
        is_lost: false,
    }
}

fn put_managers(rt: &impl Abort, alloc: Global, managers: &mut Sequence<ManagerLine>) {
    let up = ManagerLine {
        place: 2,
        inside: text_of(rt, alloc, b"10.0.0.3:11400"),
        is_up: true,
        age: Some(31),
        records: Some(40),
    };
    managers.push(up).expect(rt, "memory");
    let down = ManagerLine {
        place: 0,
        inside: Text::new(alloc),
        is_up: false,
        age: None,
        records: None,
    };
    managers.push(down).expect(rt, "memory");
}

fn put_nodes(rt: &impl Abort, alloc: Global, nodes: &mut Sequence<NodeLine>) {
    let copying = NodeLine {
        node: NodeId(3),
        inside: text_of(rt, alloc, b"10.0.0.3:11400"),
        state: NodeShown::Copying,
        told: Some(NodeTold {
            manager: Some(2),
            clients: text_of(rt, alloc, b"10.0.0.3:11211"),
            shards: SHARDS,
            counts: COUNTS,
        }),
    };
    nodes.push(copying).expect(rt, "memory");
    let gone = NodeLine {
        node: NodeId(1),
        inside: text_of(rt, alloc, b"10.0.0.2:11400"),
        state: NodeShown::Gone,
        told: None,
    };
    nodes.push(gone).expect(rt, "memory");
}

// The epochs by shards; the members and the next number are the same in all.
fn put_views(rt: &impl Abort, alloc: Global, epochs: [u64; 8], views: &mut Sequence<View>) {
    for epoch in epochs {
        let mut members = Members::new(alloc);
        for number in [0, 1, 3] {
            members.push(NodeId(number)).expect(rt, "memory");
        }
        let view = View {
            epoch,
            members,
            next: 4,
        };
        views.push(view).expect(rt, "memory");
    }
}

fn whole(rt: &impl Abort, alloc: Global) -> GroupStatus {
    let mut status = nothing(rt, alloc);
    status.founding = Some(0x3f9c_27b1_d04e_8a65);
    status.stage = Stage::Open;
    put_managers(rt, alloc, &mut status.managers);
    put_views(rt, alloc, [4; 8], &mut status.views);
    put_nodes(rt, alloc, &mut status.nodes);
    let wait = WaitLine {
        node: NodeId(3),
        other: NodeId(1),
        time: 1200,
    };
    status.waits.push(wait).expect(rt, "memory");
    let newcomer = text_of(rt, alloc, b"10.0.0.4:11400");
    status.waiting.push(newcomer).expect(rt, "memory");
    status.is_lost = true;
    status
}

fn printed(rt: &impl Abort, alloc: Global, status: &GroupStatus) -> Vec<u8> {
    print_status(alloc, status).expect(rt, "memory")
}

#[test]
fn each_line_stands_byte_for_byte(rt: HostRuntime) {
    let alloc = rt.alloc();
    let status = whole(&rt, alloc);
    assert_eq!(rt; printed(&rt, alloc, &status).as_slice(), WHOLE);
}

#[test]
fn of_a_group_that_is_not_founded_one_line_is_told(rt: HostRuntime) {
    let alloc = rt.alloc();
    let status = nothing(&rt, alloc);
    assert_eq!(rt; printed(&rt, alloc, &status).as_slice(), EMPTY);
}

/// Epochs of the shards, and which shards each line names.
#[derive(Clone, Copy)]
struct Row {
    epochs: [u64; 8],
    wanted: &'static [u8],
}

const ROWS: [Row; 4] = [
    Row {
        epochs: [4, 4, 4, 5, 5, 4, 5, 5],
        wanted: b"view shards=0-2,5 epoch=4 members=0,1,3 next=4
view shards=3-4,6-7 epoch=5 members=0,1,3 next=4
",
    },
    Row {
        epochs: [4, 4, 4, 4, 4, 4, 5, 4],
        wanted: b"view shards=0-5,7 epoch=4 members=0,1,3 next=4
view shards=6 epoch=5 members=0,1,3 next=4
",
    },
    Row {
        epochs: [5, 4, 4, 4, 4, 4, 4, 4],
        wanted: b"view shards=0 epoch=5 members=0,1,3 next=4
view shards=1-7 epoch=4 members=0,1,3 next=4
",
    },
    Row {
        epochs: [4, 5, 4, 5, 4, 5, 4, 5],
        wanted: b"view shards=0,2,4,6 epoch=4 members=0,1,3 next=4
view shards=1,3,5,7 epoch=5 members=0,1,3 next=4
",
    },
];

#[test]
fn shards_with_equal_views_share_a_line(rt: HostRuntime) {
    let alloc = rt.alloc();
    for row in ROWS {
        let mut status = nothing(&rt, alloc);
        put_views(&rt, alloc, row.epochs, &mut status.views);
        let text = printed(&rt, alloc, &status);
        assert_eq!(rt; text.as_slice().strip_prefix(EMPTY), Some(row.wanted));
    }
}
