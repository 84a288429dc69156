//! How a node stands, over its eight shards.

ghost use Rattle.std.specs.Prelude.{◌≤◌};

use crate::completion::Unheard;
use hk_base::{Memory, SHARDS};
use hk_locked::Places;
use hk_shard::Held;
use hk_worker::{Shards, Silent};
use std::alloc::Global;
use std::sync::{Arc, Wait};

/// Looks how a node stands.
#[derive(Drop)]
pub struct NodeWatch<P: Places> {
    pub(crate) shards: Arc<Shards<Unheard, P>>,
}

impl<P: Places> NodeWatch<P> {
    /// How many of its shards are whole: they are a founder's, or have copied all rows.
    pub fn count_whole<R: Wait>(&self, rt: &R) -> u8
        ensures { result ≤ 8 }
    {
        let mut count = 0;
        for shard in 0..SHARDS {
            if self.shards.is_whole_at(rt, shard) {
                count += 1;
            }
        }
        count
    }

    /// The least epoch of its shards, 0 where one of them has no view.
    pub fn least_epoch<R: Wait>(&self, rt: &R) -> u64 {
        let mut least = u64::MAX;
        for shard in 0..SHARDS {
            least = least.min(self.shards.epoch_at(rt, shard));
        }
        least
    }

    /// The nodes that have left an update of this one unacknowledged since a look before the last one.
    pub fn silent<R: Wait>(&self, rt: &R, alloc: Global) -> Result<Vec<Silent>, Memory> {
        self.shards.silent(rt, alloc)
    }

    /// How much its shards hold together, each at some moment of the call.
    pub fn held<R: Wait>(&self, rt: &R) -> Held {
        let mut all = Held::nothing();
        for shard in 0..SHARDS {
            all = all.with(self.shards.held_at(rt, shard));
        }
        all
    }
}
