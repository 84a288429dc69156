//! The only node of a group.

ghost use Rattle.std.specs.Prelude.{◌≡◌, ◌≤◌, IfOk};
ghost use Rattle.hk_base.specs.declared.time.TheConstants.{MAX_TIME};
ghost use Rattle.hk_shard.specs.Shard.{IsNew};
ghost use Rattle.hk_lone.specs.Lone.{lone_view, lone_node};

use hk_base::{Members, Memory, NodeId, View};
use hk_node::Node;
use hk_shard::Shard;
use std::alloc::Global;
use std::sync::Wait;

// The view that has one member, node 0.
fn lone_view(alloc: Global) -> Result<View, Memory>
    ensures { IfOk result (λ view. view ≡ lone_view) }
{
    let mut members = Members::new(alloc);
    members.push(NodeId(0))?;
    Ok(View {
        epoch: 1,
        members,
        next: 1,
    })
}

/// A shard of a new node, the only one of its group, with a lease that ends at `lease_end`. Clocks differ by `skew` at most.
pub fn lone_shard<R: Wait>(
    rt: &R,
    alloc: Global,
    lease_end: u64,
    skew: u64,
) -> Result<Shard, Memory>
    requires lease_end { lease_end ≤ MAX_TIME }
    requires skew { skew ≤ MAX_TIME }
    ensures { IfOk result (λ shard. IsNew (lone_node lease_end skew) shard) }
{
    let view = lone_view(alloc)?;
    let node = Node::founder(alloc, NodeId(0), view, lease_end, skew, 0)?;
    Shard::new(rt, alloc, node)
}
