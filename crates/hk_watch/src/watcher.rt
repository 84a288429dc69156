//! What is told of a key.

ghost use Rattle.std.specs.Prelude.{◌≡◌, ⊤, ℕ, IfOk};

use hk_base::{Content, Key, Memory, Stamp};

/// A Valid row, as a look saw it.
#[derive(Drop)]
pub struct Seen {
    pub key: Key,
    pub stamp: Stamp,
    /// Nothing where the key is missing.
    pub content: Option<Content>,
}

/// That the watch of this number was told this stamp of its key.
#[derive(Clone, Copy, Debug, PartialEq, Eq)]
pub struct Notice {
    pub watch: u64,
    pub stamp: Stamp,
}

/// What is told by a watch. It may be told anything that was seen, and gives notice of just the watch and the stamp.
pub trait Watcher {
    ghost use Rattle.hk_watch.specs.declared.watcher.Seen.{Seen};
    ghost use Rattle.hk_watch.specs.declared.watcher.Notice.{Notice};

    /// What a notice that it gives says: that the watch of this number told it this. Only it can say so, so a look that says so has told
    /// it.
    ghost told: { Self → ℕ → Seen → Notice → Type 0 } = { λ watcher watch seen notice. ⊤ };

    /// Takes what the watch of this number saw.
    fn tell(&self, watch: u64, seen: &Seen) -> Result<Notice, Memory>
        ensures notice { IfOk result (λ notice. notice ≡ record { watch = watch; stamp = seen.now.stamp }) }
        ensures told { IfOk result (λ notice. told self.now watch seen.now notice) };
}
