//! Journals: how much those of all nodes hold, as far as it is counted, and when they begin anew.

ghost use Rattle.std.specs.Prelude.{◌≡◌};

use crate::completion::Unheard;
use hk_locked::Places;
use hk_worker::Post;
use std::sync::Wait;
use std::sync::atomic::{AtomicU64, Ordering};

/// A journal is begun anew at so many entries. That is done under the lock of its shard, for which all who ask there wait.
pub(crate) const MAX_ENTRIES: u32 = 64;

// Or where calls and letters brought so many bytes since, to all nodes.
pub(crate) const MAX_DATA: u64 = 16 * 1_048_576;

/// How many bytes the data of calls and the letters between nodes brought to all nodes.
#[derive(Drop)]
pub(crate) struct Load {
    brought: AtomicU64,
}

impl Load {
    pub(crate) fn new() -> Load {
        Load {
            brought: AtomicU64::new(0),
        }
    }

    /// So many bytes more were brought.
    pub(crate) fn add(&self, bytes: u64) {
        self.brought.fetch_add(bytes, Ordering::SeqCst);
    }

    fn brought(&self) -> u64 {
        self.brought.load(Ordering::SeqCst)
    }
}

/// When a worker has journals of its node begun anew.
#[derive(Drop)]
pub(crate) struct Trimming {
    seen: u64,
    turns: u64,
}

impl Trimming {
    pub(crate) fn new() -> Trimming {
        Trimming { seen: 0, turns: 0 }
    }

    /// The worker made so many turns more, each of which fills a journal by one entry at most.
    pub(crate) fn count(&mut self, turns: u64) {
        self.turns = self.turns.saturating_add(turns);
    }

    // Whether much was brought since this was told last.
    fn is_much(&mut self, load: &Load) -> bool {
        let brought = load.brought();
        if brought.wrapping_sub(self.seen) < MAX_DATA {
            return false;
        }
        self.seen = brought;
        true
    }

    // Whether a journal may be full since this was told last.
    fn is_full(&mut self) -> bool {
        if self.turns < u64::from(MAX_ENTRIES) {
            return false;
        }
        self.turns = 0;
        true
    }

    /// Has the journals of the node begun anew: all, where much was brought, else those that are full. Where memory is wanting, they do later.
    pub(crate) fn trim<R: Wait, P: Places>(
        &mut self,
        rt: &R,
        post: &mut Post<Unheard, P>,
        load: &Load,
    ) {
        if self.is_much(load) {
            empty_journals(rt, post);
        } else if self.is_full() {
            let _ = post.trim(rt, MAX_ENTRIES);
        }
    }
}

/// Has all journals of the node begun anew, and twice, since a shard keeps for a while what its journal let go.
pub(crate) fn empty_journals<R: Wait, P: Places>(rt: &R, post: &mut Post<Unheard, P>)
    ensures { post.new ≡ post.old }
{
    let _ = post.trim(rt, 0);
    let _ = post.trim(rt, 0);
}
