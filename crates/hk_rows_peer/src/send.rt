//! Parcels that are sent, on a connection that is dialled first.

ghost use Rattle.std.specs.Prelude.{◌<◌};

use hk_base::{Actor, Body, Key, Letter, NodeId, Stamp};
use hk_link::Parcel;
use hk_outside::{MemoryConnection, MemoryDialer};
use hk_peer::{ForwardFault, forward};
use std::alloc::Global;
use std::collections::VecDeque;
use std::process::Abort;

// The parcel by which node 1 acknowledges the update 2.0 of the key `k` to node 0, for shard 3; its own stamp is 2.1.
#[tactic(auto, unfolding(hk_base::specs::Lengths::body_length))]
fn ack(rt: &impl Abort, alloc: Global) -> Parcel {
    let key = Key::read(alloc, b"k").expect(rt, "memory");
    let letter = Letter {
        epoch: 1,
        from: Actor::Node(NodeId(1)),
        to: Actor::Node(NodeId(0)),
        body: Body::Ack {
            key,
            stamp: Stamp {
                version: 2,
                node: 0,
            },
            top: Stamp {
                version: 2,
                node: 1,
            },
        },
    };
    Parcel { shard: 3, letter }
}

// A dialer that has this many connections, of which the last fails at its first write.
fn dialer(rt: &impl Abort, alloc: Global, conns: u64) -> MemoryDialer {
    let mut fails = VecDeque::new(alloc);
    for number in 0..conns {
        let mut writes = Vec::new(alloc);
        if number + 1 == conns {
            writes.push(0).expect(rt, "memory");
        }
        fails.push_back(writes).expect(rt, "memory");
    }
    MemoryDialer::new(alloc, fails)
}

// What was written on the connection, where there is one.
fn written(conn: &Option<MemoryConnection>) -> Option<&[u8]> {
    match conn {
        Some(conn) => Some(conn.sink.sink.bytes.as_slice()),
        None => None,
    }
}

#[test]
fn a_parcel_is_written_on_a_connection_that_is_dialled_once(rt: HostRuntime) {
    let alloc = rt.alloc();
    let parcel = ack(&rt, alloc);
    let mut dialer = dialer(&rt, alloc, 2);
    let mut conn = None;
    assert_eq!(rt; forward(alloc, &mut dialer, 1, &mut conn, &parcel), Ok(()));
    assert_eq!(rt; written(&conn), Some(crate::serve::ACK.as_slice()));
    assert_eq!(rt; forward(alloc, &mut dialer, 1, &mut conn, &parcel), Ok(()));
    assert_eq!(rt; written(&conn).map(|bytes| bytes.len()), Some(84));
    assert_eq!(rt; dialer.conns.len(), 1);
}

#[test]
fn faults_are_told_apart(rt: HostRuntime) {
    let alloc = rt.alloc();
    let parcel = ack(&rt, alloc);
    let mut dialer = dialer(&rt, alloc, 1);
    let mut conn = None;
    assert_eq!(rt;
        forward(alloc, &mut dialer, 1, &mut conn, &parcel),
        Err(ForwardFault::WriteFault)
    );
    assert_eq!(rt; written(&conn), Some(b"".as_slice()));
    let mut other = None;
    assert_eq!(rt;
        forward(alloc, &mut dialer, 1, &mut other, &parcel),
        Err(ForwardFault::DialFault)
    );
    assert!(rt; other.is_none());
    assert_eq!(rt; dialer.faults, 1);
}
