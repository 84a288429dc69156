//! The shard, and what reads it.

ghost use Rattle.std.specs.Prelude.{◌≡◌, ◌∷◌, [], IfOk};

use hk_base::{Members, Memory, NodeId, View};
use hk_node::Node;
use hk_shard::Shard;
use hk_snap::{LeaseCell, SnapReader};
use std::alloc::Global;
use std::sync::Wait;

pub const SKEW: u64 = 10;

/// A shard of a founder that is alone, and what reads of it begin with.
#[derive(Drop)]
pub struct Opened {
    pub shard: Shard,
    pub reader: SnapReader,
    pub lease: LeaseCell,
}

impl Opened {
    /// The ticket of the last event, and how many entries the journal has.
    pub fn made(&self) -> (u64, usize) {
        (self.shard.last_ticket(), self.shard.journal().len())
    }
}

// The first view, with node 0 alone.
fn view(alloc: Global) -> Result<View, Memory>
    ensures { IfOk result (λ view. view ≡ record { epoch = 1; members = record { 0 = 0 } ∷ []; next = 1 }) }
{
    let mut members = Members::new(alloc);
    members.push(NodeId(0))?;
    Ok(View {
        epoch: 1,
        members,
        next: 1,
    })
}

// A shard whose lease ends at 1,000.
fn founded<R: Wait>(rt: &R, alloc: Global) -> Result<Shard, Memory> {
    let view = view(alloc)?;
    let node = Node::founder(alloc, NodeId(0), view, 1_000, SKEW, 0)?;
    Shard::new(rt, alloc, node)
}

/// Founds the shard.
pub fn open<R: Wait>(rt: &R, alloc: Global) -> Result<Opened, Memory> {
    let mut shard = founded(rt, alloc)?;
    match shard.reader(rt, alloc) {
        Ok((reader, lease)) => Ok(Opened {
            shard,
            reader,
            lease,
        }),
        Err(_) => Err(Memory),
    }
}
