//! Where a worker's steps are made.

ghost use Rattle.std.specs.Prelude.{◌≡◌, ◌<◌, ⊤, ℕ, List, Option, IfOk, OnErr};
ghost use Rattle.std.specs.Option.{option_copied, IfSome};
ghost use Rattle.std.specs.List.{AllByRecursion};
ghost use Rattle.hk_base.specs.declared.letter.Letter.{Letter};
ghost use Rattle.hk_base.specs.Range.{IsLetter};
ghost use Rattle.hk_node.specs.declared.event.NodeEvent.{NodeEvent as Event};
ghost use Rattle.hk_node.specs.Sound.{IsNodeEvent};
ghost use Rattle.hk_node.specs.Laws.{IsNoCall};
ghost use Rattle.hk_due.specs.declared.due.Due.{Due as IsDue};

use hk_base::{Key, Letters, Memory};
use hk_due::Due;
use hk_node::NodeEvent;
use std::alloc::Global;
use std::sync::Wait;

/// Why the step of an event was not made.
#[derive(Clone, Copy, Debug, PartialEq, Eq)]
pub enum Unmade {
    /// An allocation was refused.
    Memory,
    /// The event is a letter that is not taken.
    Refused,
}

impl From<Memory> for Unmade {
    fn from(_refused: Memory) -> Unmade {
        Unmade::Memory
    }
}

/// The eight shards of a node, each under its lock.
pub trait Workplace {
    /// The step of an event was made at a shard, at some moment, and gave these letters.
    ghost applies: { Self → ℕ → Event → List Letter → Type 0 };

    /// At some moment this was to be sent again at a shard: of the least key behind one, or of all, that was open since a step of a ticket up to one.
    ghost finds: { Self → ℕ → Option (List ℕ) → ℕ → Option IsDue → Type 0 };

    /// At some moment a row was open at a shard, and this was to be sent again of its key.
    ghost owes: { Self → ℕ → IsDue → Type 0 };

    /// Memory was wanting at a shard, at some moment, or a letter was refused there. Only the calls here tell it, so a loop that says so has made one.
    ghost lacks: { Self → ℕ → Type 0 } = { λ place shard. ⊤ };

    /// A number above the tickets of all steps that were made.
    fn ticket<R: Wait>(&self, rt: &R) -> u64;

    /// Makes the step of an event at a shard, under its lock and with a ticket drawn there, and gives the letters to send. Where none is made nothing has changed.
    fn apply<R: Wait>(
        &self,
        rt: &R,
        alloc: Global,
        shard: u8,
        event: NodeEvent,
    ) -> Result<Letters, Unmade>
        requires shard { shard < 8 }
        requires event { IsNodeEvent event }
        requires no_call { IsNoCall event }
        ensures applied { IfOk result (λ letters. applies self.now shard event letters) }
        ensures in_range { IfOk result (λ letters. AllByRecursion IsLetter letters) }
        ensures err { OnErr result (lacks self.now shard) };

    /// Of the least key of a shard behind this one, or of all, that is open since a step of a ticket up to `before`, what is to be sent again.
    fn due<R: Wait>(
        &self,
        rt: &R,
        shard: u8,
        after: Option<&Key>,
        before: u64,
    ) -> Result<Option<Due>, Memory>
        requires { shard < 8 }
        ensures due { IfOk result (λ due. finds self.now shard (option_copied after.entry) before due) }
        ensures err { OnErr result (lacks self.now shard) };

    /// Takes a key for whose row someone waits, if there is one, and tells what is to be sent again of it and at which shard. None also where its row is open no
    /// longer, or memory is wanting.
    fn take_wanted<R: Wait>(&self, rt: &R) -> Option<(u8, Due)>
        ensures owed { IfSome result (λ due. owes self.now due.0 due.1) }
        ensures below { IfSome result (λ due. due.0 < 8) };

    /// Wakes who waits for what steps made since the last call.
    fn wake<R: Wait>(&self, rt: &R);
}
