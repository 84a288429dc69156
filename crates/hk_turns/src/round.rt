//! The walk over the open keys of all shards.

ghost use Rattle.std.specs.Prelude.{◌≡◌, ◌⊎◌, ◌<◌, ◌-◌, Some, None, IfSome};
ghost use Rattle.std.specs.Option.{option_copied};
ghost use Rattle.hk_turns.specs.Rounds.{resting, begun, behind_key, next_shard};
ghost use Rattle.hk_turns.specs.Workers.{Walks};

use crate::workplace::Workplace;
use hk_base::{Key, Memory, SHARDS};
use hk_due::Due;
use std::marker::Model;
use std::sync::Wait;

/// Where a worker is in its walk over the open keys of all shards. Contracts see the present shard, 8 where the walk is over, the last key of it, up to which
/// ticket a key must have been open to be due, and the ticket at the present call of `work`.
#[derive(Drop)]
pub struct Round {
    shard: u8,
    after: Option<Key>,
    before: u64,
    latest: u64,
}

impl Model for Round {
    ghost use Rattle.hk_turns.specs.Rounds.{RoundState};

    ghost Value = { RoundState };

    ghost view = { λ r. record { shard = r.shard; last = r.after; before = r.before; latest = r.latest } };
}

impl Round {
    /// No walk yet.
    pub fn new() -> Round
        ensures { result ≡ resting }
    {
        Round {
            shard: SHARDS,
            after: None,
            before: 0,
            latest: 0,
        }
    }

    /// A call of `work` begins, at this ticket. Where the walk is over the next one begins, in which those keys are due that were open at the call before.
    pub fn begin(&mut self, ticket: u64)
        ensures { self.new ≡ begun self.old ticket }
    {
        if self.shard >= SHARDS {
            self.shard = 0;
            self.after = None;
            self.before = self.latest;
        }
        self.latest = ticket;
    }

    /// The walk goes on behind a key of the shard, or, where memory is wanting for that, at the next shard.
    pub fn pass(&mut self, shard: u8, key: &Key)
        requires { shard < 8 }
        ensures { (self.new ≡ behind_key self.old shard key.now) ⊎ (self.new ≡ next_shard self.old shard) }
    {
        match key.share() {
            Ok(key) => {
                self.shard = shard;
                self.after = Some(key);
            }
            Err(Memory) => self.leave(shard),
        }
    }

    /// The walk is through with the shard.
    pub fn leave(&mut self, shard: u8)
        requires { shard < 8 }
        ensures { self.new ≡ next_shard self.old shard }
    {
        self.shard = shard + 1;
        self.after = None;
    }

    // The present shard, 8 where the walk is over.
    fn shard(&self) -> u8
        ensures { result ≡ self.now.shard }
    {
        self.shard
    }

    // The last key of it.
    fn after(&self) -> Option<&Key>
        ensures { option_copied result ≡ self.now.last }
    {
        self.after.as_ref()
    }

    // Up to which ticket a key must have been open to be due.
    fn before(&self) -> u64
        ensures { result ≡ self.now.before }
    {
        self.before
    }
}

// What is due of the next key of a shard. None also where memory is wanting.
fn found_at<W: Workplace, R: Wait>(rt: &R, place: &W, round: &Round, shard: u8) -> Option<Due>
    requires { shard < 8 }
    ensures found { IfSome result (λ due. W.finds place.now shard round.now.last round.now.before (Some due)) }
    ensures none { result ≡ None → W.finds place.now shard round.now.last round.now.before None ⊎ W.lacks place.now shard }
{
    match place.due(rt, shard, round.after(), round.before()) {
        Ok(found) => found,
        Err(Memory) => None,
    }
}

/// What is due at the next open key of the walk, and its shard. The walk goes on behind it.
pub fn next_due<W: Workplace, R: Wait>(rt: &R, place: &W, round: &mut Round) -> Option<(u8, Due)>
    ensures walks { Walks (W.finds place.now) (W.lacks place.now) (8 - round.old.shard) round.old result round.new }
    ensures below { IfSome result (λ due. due.0 < 8) }
{
    for shard in round.shard()..SHARDS {
        if let Some(due) = found_at(rt, place, round, shard) {
            round.pass(shard, due.key());
            return Some((shard, due));
        }
        round.leave(shard);
    }
    None
}
