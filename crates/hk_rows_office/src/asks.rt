//! What a manager tells of nodes that asked it for leases.

ghost use Rattle.std.specs.Prelude.{◌<◌};

use crate::lost::{office, view};
use hk_base::NodeId;
use hk_office::Office;
use std::alloc::Global;
use std::process::Abort;

const NODE: NodeId = NodeId(0);

// Node 0 asks in this shard at this reading.
fn ask(rt: &impl Abort, office: &mut Office, now: u64, shard: u8)
    requires { shard < 8 }
{
    office.note_ask(now, shard, NODE, 1).expect(rt, "memory");
}

// The age that is told of the only member.
fn age(rt: &impl Abort, alloc: Global, office: &Office, now: u64) -> Option<u32> {
    let views = [view(rt, alloc)];
    let seen = office.asks_seen(alloc, now, &views).expect(rt, "memory");
    match seen.as_slice().first() {
        Some(seen) => seen.age_of_ask,
        None => None,
    }
}

#[test]
fn the_oldest_ask_is_told_once_a_node_asked_in_all_shards(rt: HostRuntime) {
    let alloc = rt.alloc();
    let mut office = office(&rt, alloc).expect(&rt, "memory");
    for shard in 0..7 {
        ask(&rt, &mut office, 1_000, shard);
    }
    assert_eq!(rt; age(&rt, alloc, &office, 1_500), None);
    ask(&rt, &mut office, 1_200, 7);
    assert_eq!(rt; age(&rt, alloc, &office, 1_500), Some(500));
    assert_eq!(rt;
        age(&rt, alloc, &office, 5_000_000_000),
        Some(4_294_967_294)
    );
}
