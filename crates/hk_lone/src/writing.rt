//! Writes to a shard's keys.

ghost use Rattle.std.specs.Prelude.{◌≡◌, IfOk, OnOk, OnErr};
ghost use Rattle.hk_lone.specs.Lone.{IsWritten};

use hk_base::{CallNo, Content, Data, Key, Memory, Op};
use hk_node::NodeEvent;
use hk_shard::Shard;
use std::alloc::Global;
use std::sync::Wait;

/// The key of these bytes. Memory is answered too where they are no key.
pub fn key_of(alloc: Global, bytes: &[u8]) -> Result<Key, Memory>
    ensures { IfOk result (λ key. key ≡ bytes.now) }
{
    match Key::read(alloc, bytes) {
        Ok(key) => Ok(key),
        Err(_) => Err(Memory),
    }
}

/// A content of these bytes, with no flags. Memory is answered too where they are too many.
pub fn content_of(alloc: Global, bytes: &[u8]) -> Result<Content, Memory>
    ensures { IfOk result (λ content. content ≡ record { flags = 0; bytes = bytes.now }) }
{
    match Data::read(alloc, bytes) {
        Ok(bytes) => Ok(Content { flags: 0, bytes }),
        Err(_) => Err(Memory),
    }
}

/// Writes the content to the key: one step of the shard, by the next ticket. Where memory is wanting, the shard is as it was.
pub fn write<R: Wait>(
    rt: &R,
    alloc: Global,
    shard: &mut Shard,
    key: &Key,
    content: &Content,
) -> Result<(), Memory>
    ensures written { OnOk result (IsWritten shard.old key.now content.now shard.new) }
    ensures err { OnErr result (shard.new ≡ shard.old) }
{
    let Some(ticket) = shard.last_ticket().checked_add(1) else {
        return Err(Memory);
    };
    let event = NodeEvent::Call {
        call: CallNo(ticket),
        key: key.share()?,
        op: Op::Write(content.share()?),
    };
    let _out = shard.apply(rt, alloc, ticket, event)?;
    Ok(())
}
