//! What writes one key.

ghost use Rattle.std.specs.Prelude.{◌≡◌, OnOk, OnErr};
ghost use Rattle.hk_lone.specs.Lone.{IsWritten};

use crate::follower::Follower;
use hk_base::{Content, Key, MAX_TIME, Memory};
use hk_lone::{content_of, key_of, lone_shard, write};
use hk_shard::Shard;
use hk_snap::SnapReader;
use std::alloc::Global;
use std::sync::Wait;

/// Writes one key, always the same content, in a shard of the only node of a group.
#[derive(Drop)]
pub struct KeyWriter {
    pub shard: Shard,
    pub key: Key,
    pub content: Content,
}

impl KeyWriter {
    /// A writer of the key `k`, to which nothing was written yet.
    pub fn new<R: Wait>(rt: &R, alloc: Global) -> Result<KeyWriter, Memory> {
        let shard = lone_shard(rt, alloc, MAX_TIME, 0)?;
        let key = key_of(alloc, b"k")?;
        let content = content_of(alloc, b"a")?;
        Ok(KeyWriter {
            shard,
            key,
            content,
        })
    }

    /// A reader of what the shard shows, which has seen nothing yet.
    pub fn reader<R: Wait>(&mut self, rt: &R, alloc: Global) -> Result<SnapReader, Memory>
        ensures { self.new ≡ self.old }
    {
        let (reader, _lease) = self.shard.reader(rt, alloc)?;
        Ok(reader)
    }

    /// A follower of the key, which was told nothing yet.
    pub(crate) fn follower<R: Wait>(&mut self, rt: &R, alloc: Global) -> Result<Follower, Memory> {
        let reader = self.reader(rt, alloc)?;
        Follower::of(alloc, reader, &self.key)
    }

    /// Writes the key once more: one step of the shard, by the next ticket. Where memory is wanting, the shard is as it was.
    pub fn write<R: Wait>(&mut self, rt: &R, alloc: Global) -> Result<(), Memory>
        ensures written { OnOk result (IsWritten self.old.shard self.old.key self.old.content self.new.shard) }
        ensures same { (self.new.key ≡ self.old.key) × (self.new.content ≡ self.old.content) }
        ensures err { OnErr result (self.new ≡ self.old) }
    {
        write(rt, alloc, &mut self.shard, &self.key, &self.content)
    }
}
