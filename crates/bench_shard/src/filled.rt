//! A shard with rows.

ghost use Rattle.std.specs.Prelude.{◌≡◌, ◌∷◌, [], IfOk};

use hk_base::{CallNo, Content, Data, Key, Members, Memory, NodeId, Op, View};
use hk_node::{Node, NodeEvent};
use hk_shard::Shard;
use std::alloc::Global;
use std::sync::{Mutex, Wait};

/// A shard under its lock, and its keys.
#[derive(Drop)]
pub struct Filled {
    pub shard: Mutex<Shard>,
    pub keys: Vec<Key>,
}

/// A content of 100 bytes.
pub fn content(alloc: Global) -> Result<Content, Memory> {
    match Data::read(alloc, &[b'd'; 100]) {
        Ok(bytes) => Ok(Content { flags: 0, bytes }),
        Err(_) => Err(Memory),
    }
}

/// The call of the operation, under the next ticket.
pub fn call<R: Wait>(
    rt: &R,
    alloc: Global,
    shard: &mut Shard,
    key: &Key,
    op: &Op,
) -> Result<bool, Memory> {
    let event = NodeEvent::Call {
        call: CallNo(1),
        key: key.share()?,
        op: op.share()?,
    };
    let last = shard.last_ticket();
    if last == u64::MAX {
        return Ok(false);
    }
    let out = shard.apply(rt, alloc, last + 1, event)?;
    Ok(!out.replies.is_empty())
}

fn key(alloc: Global, number: u64) -> Result<Key, Memory> {
    let text = format!(in alloc; "key:{number}")?;
    match Key::read(alloc, text.as_bytes()) {
        Ok(key) => Ok(key),
        Err(_) => Err(Memory),
    }
}

// The first view, with node 0 alone.
fn view(alloc: Global) -> Result<View, Memory>
    ensures { IfOk result (λ view. view ≡ record { epoch = 1; members = record { 0 = 0 } ∷ []; next = 1 }) }
{
    let mut members = Members::new(alloc);
    members.push(NodeId(0))?;
    Ok(View {
        epoch: 1,
        members,
        next: 1,
    })
}

// A shard of a founder that is alone, without rows.
fn founded<R: Wait>(rt: &R, alloc: Global) -> Result<Shard, Memory> {
    let view = view(alloc)?;
    let node = Node::founder(alloc, NodeId(0), view, 1_000_000, 0, 0)?;
    Shard::new(rt, alloc, node)
}

// Writes a content of 100 bytes to the key.
fn write<R: Wait>(rt: &R, alloc: Global, shard: &mut Shard, key: &Key) -> Result<bool, Memory> {
    let op = Op::Write(content(alloc)?);
    call(rt, alloc, shard, key, &op)
}

// Writes the key of this number, and gives it.
fn written<R: Wait>(rt: &R, alloc: Global, shard: &mut Shard, number: u64) -> Result<Key, Memory> {
    let key = key(alloc, number)?;
    write(rt, alloc, shard, &key)?;
    Ok(key)
}

// Writes so many keys.
fn write_all<R: Wait>(
    rt: &R,
    alloc: Global,
    shard: &mut Shard,
    count: u64,
) -> Result<Vec<Key>, Memory> {
    let mut keys = Vec::new(alloc);
    for number in 0..count {
        keys.push(written(rt, alloc, shard, number)?)?;
    }
    Ok(keys)
}

/// A shard in which so many keys were written, its journal handed out.
pub fn fill<R: Wait>(rt: &R, alloc: Global, count: u64) -> Result<Filled, Memory> {
    let mut shard = founded(rt, alloc)?;
    let keys = write_all(rt, alloc, &mut shard, count)?;
    let Ok(_) = shard.checkpoint(alloc) else {
        return Err(Memory);
    };
    Ok(Filled {
        shard: Mutex::new(shard),
        keys,
    })
}
