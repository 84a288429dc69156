//! What writes the keys.

ghost use Rattle.std.specs.Prelude.{◌≡◌, IfOk, OnOk, OnErr};
ghost use Rattle.hk_base.specs.declared.time.TheConstants.{MAX_TIME};
ghost use Rattle.hk_lone.specs.Lone.{IsWritten, lone_node};
ghost use Rattle.hk_joint_storm.specs.Keys.{storm_keys};

use hk_base::{Content, Key, MAX_TIME, Memory};
use hk_lone::{content_of, key_of, lone_shard, write};
use hk_shard::Shard;
use hk_snap::{LeaseCell, SnapReader};
use std::alloc::Global;
use std::marker::Model;
use std::sync::Wait;

/// How many keys are written and read.
pub(crate) const KEYS: usize = 4;

/// The keys that are written and read: `c`, `k`, `s` and `{`. All are of shard 3, and each is shown in a cell of its own.
pub fn storm_keys(alloc: Global) -> Result<Vec<Key>, Memory>
    ensures { IfOk result (λ keys. keys.items ≡ storm_keys) }
{
    let mut keys = Vec::new(alloc);
    keys.push(key_of(alloc, b"c")?)?;
    keys.push(key_of(alloc, b"k")?)?;
    keys.push(key_of(alloc, b"s")?)?;
    keys.push(key_of(alloc, b"{")?)?;
    Ok(keys)
}

/// Writes keys of a shard of the only node of a group, always the same content.
#[derive(Drop)]
pub struct KeysWriter {
    content: Content,
    shard: Shard,
}

impl Model for KeysWriter {
    ghost use Rattle.std.specs.Prelude.{◌≡◌};
    ghost use Rattle.hk_base.specs.declared.time.TheConstants.{MAX_TIME};
    ghost use Rattle.hk_lone.specs.Lone.{lone_node};
    ghost use Rattle.hk_joint_storm.specs.Keys.{KeysWriting};

    ghost Value = { KeysWriting };

    ghost view = { λ w. record { content = w.content; shard = w.shard } };

    ghost invariant = { λ w. w.shard.base ≡ lone_node MAX_TIME 0 };
}

impl KeysWriter {
    /// One that wrote nothing yet.
    pub fn new<R: Wait>(rt: &R, alloc: Global) -> Result<KeysWriter, Memory> {
        let content = content_of(alloc, b"a")?;
        let shard = lone_shard(rt, alloc, MAX_TIME, 0)?;
        Ok(KeysWriter { content, shard })
    }

    /// The shard, whose journal has all that was written.
    pub fn shard(&self) -> &Shard
        ensures shard { result.now ≡ self.now.shard }
        ensures lone { self.now.shard.base ≡ lone_node MAX_TIME 0 }
    {
        &self.shard
    }

    /// A reader of what the shard shows, and of its lease cell.
    pub fn reader<R: Wait>(
        &mut self,
        rt: &R,
        alloc: Global,
    ) -> Result<(SnapReader, LeaseCell), Memory>
        ensures { self.new ≡ self.old }
    {
        self.shard.reader(rt, alloc)
    }

    /// Writes the key once more: one step of the shard, by the next ticket. Where memory is wanting, the shard is as it was.
    pub fn write<R: Wait>(&mut self, rt: &R, alloc: Global, key: &Key) -> Result<(), Memory>
        ensures written { OnOk result (IsWritten self.old.shard key.now self.old.content self.new.shard) }
        ensures same { self.new.content ≡ self.old.content }
        ensures err { OnErr result (self.new ≡ self.old) }
    {
        write(rt, alloc, &mut self.shard, key, &self.content)
    }
}
