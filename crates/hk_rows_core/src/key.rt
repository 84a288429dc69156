//! Rows of one key, event by event.

ghost use Rattle.std.specs.Prelude.{◌<◌};
ghost use Rattle.hk_base.specs.Range.{IsWithin};
ghost use Rattle.hk_base.specs.Stamp.{tag_of};
ghost use Rattle.hk_key.specs.Sound.{IsSound};

use crate::values::content;
use hk_base::{Answer, CallNo, Content, Data, Kind, Members, NodeId, Reply, Stamp, State, View};
use hk_key::{Aim, Row, Sending, What};
use hk_rows_shared::let_go;
use std::alloc::Global;
use std::process::Abort;

// The last stamp of a plain write, and that of the read-modify-write after it.
const LAST_WRITE: Stamp = Stamp {
    version: 281_474_976_710_654,
    node: 1,
};

const LAST: Stamp = Stamp {
    version: 281_474_976_710_655,
    node: 0,
};

// A view of nodes 0 and 1.
fn pair(rt: &impl Abort, alloc: Global) -> View {
    let mut members = Members::new(alloc);
    members.push(NodeId(0)).expect(rt, "memory");
    members.push(NodeId(1)).expect(rt, "memory");
    View {
        epoch: 1,
        members,
        next: 2,
    }
}

#[test]
fn ends_at_the_version_limit(rt: HostRuntime) {
    let alloc = rt.alloc();
    let mut row = Row::first();
    let five = content(&rt, alloc, b"5");
    let out = row.on_inv(NodeId(1), LAST_WRITE, Kind::Write, Some(five));
    let ack = What::Ack {
        stamp: LAST_WRITE,
        top: LAST_WRITE,
    };
    let aim = Aim::One(NodeId(1));
    assert_eq!(rt; out.send, Some(Sending { aim, what: ack }));
    let_go(out);
    assert_eq!(rt; row.state, State::Invalid);
    row.on_val(LAST_WRITE);
    assert_eq!(rt; row.state, State::Valid);
    assert_eq!(rt; row.stamp.after_write(NodeId(0)), None);
    assert_eq!(rt; row.stamp.after_rmw(NodeId(0)), Some(LAST));
    let reply = Reply {
        call: CallNo(2),
        answer: Answer::Number(6),
    };
    let view = pair(&rt, alloc);
    let six = Some(content(&rt, alloc, b"6"));
    let out = row
        .begin(alloc, NodeId(0), &view, reply, LAST, Kind::Rmw, six)
        .expect(&rt, "memory");
    let inv = Sending {
        aim: Aim::Others,
        what: What::InvPending,
    };
    assert_eq!(rt; out.send, Some(inv));
    let_go(out);
    assert_eq!(rt; (row.state, row.stamp), (State::Write, LAST));
}

#[test]
fn replays_an_invalid_row(rt: HostRuntime) {
    let alloc = rt.alloc();
    let mut members = Members::new(alloc);
    members.push(NodeId(2)).expect(&rt, "memory");
    let view = View {
        epoch: 3,
        members,
        next: 3,
    };
    let stamp = Stamp {
        version: 3,
        node: 0,
    };
    let mut row = Row::first();
    row.on_inv(NodeId(0), stamp, Kind::Rmw, None);
    let out = row.replay(alloc, NodeId(2), &view).expect(&rt, "memory");
    let val = Sending {
        aim: Aim::Others,
        what: What::Val { stamp },
    };
    assert_eq!(rt; out.send, Some(val));
    let_go(out);
    assert_eq!(rt; row.state, State::Valid);
}

// A first row at which a write began.
#[tactic(auto, using(hk_key::proofs::Steps::begin_is_sound))]
fn begun(rt: &impl Abort, alloc: Global, view: &View, stamp: Stamp) -> Row
    requires within { IsWithin stamp }
    requires above { 0 < tag_of stamp }
    ensures { IsSound (record { 0 = 0 }) view.now.members result }
{
    let reply = Reply {
        call: CallNo(1),
        answer: Answer::Stored,
    };
    let content = Content {
        flags: 7,
        bytes: Data::read(alloc, b"5").expect(rt, "memory"),
    };
    let mut row = Row::first();
    row.begin(
        alloc,
        NodeId(0),
        view,
        reply,
        stamp,
        Kind::Write,
        Some(content),
    )
    .expect(rt, "memory");
    row
}

#[test]
fn a_noted_row_is_not_its_copy(rt: HostRuntime) {
    let alloc = rt.alloc();
    let mut members = Members::new(alloc);
    members.push(NodeId(0)).expect(&rt, "memory");
    members.push(NodeId(1)).expect(&rt, "memory");
    members.push(NodeId(2)).expect(&rt, "memory");
    let view = View {
        epoch: 1,
        members,
        next: 3,
    };
    let stamp = Stamp {
        version: 2,
        node: 0,
    };
    let mut row = begun(&rt, alloc, &view, stamp);
    let before = row.copy(alloc).expect(&rt, "memory");
    assert!(rt; before.is_same(&row) && before.content == row.content);
    row.on_ack(NodeId(0), &view, NodeId(1), stamp, stamp);
    assert_eq!(rt; (row.state, before.is_same(&row)), (State::Write, false));
}
