//! What the cores are to do at a beat.

ghost use Rattle.std.specs.Prelude.{◌≡◌, ◌<◌, IfOk, OnErr};
ghost use Rattle.hk_office.specs.Wishing.{same_change, since_of, kept_of, due_change, due_of, epoch_in, kept_in, kept_in_all, due_in_all, due_noted, all_due_noted, intended_open, intended};
ghost use Rattle.hk_keeper.specs.Table.{wishes};
ghost use Rattle.hk_office.specs.Seating.{heard_of};

use crate::office::Office;
use hk_base::{Change, Memory, View};
use hk_keeper::{Proposal, Wish};
use std::alloc::Global;

/// A change that is wished in a shard.
#[derive(Clone, Copy, Debug, PartialEq, Eq)]
pub struct Wished {
    /// The epoch of the view that it changes.
    pub base: u64,
    pub change: Change,
    /// The reading since which it was wished at each beat.
    pub since: u64,
}

fn same_change(one: Change, other: Change) -> bool
    ensures { result ≡ same_change one other }
{
    match (one, other) {
        (Change::Drop(one), Change::Drop(other)) => one.0 == other.0,
        (Change::Add, Change::Add) => true,
        _ => false,
    }
}

// Since when the change of the view of this epoch is wished.
fn since_of(wished: Option<Wished>, base: u64, change: Change, now: u64) -> u64
    ensures { result ≡ since_of wished base change now }
{
    match wished {
        Some(wished) => {
            if wished.base == base && same_change(wished.change, change) {
                wished.since
            } else {
                now
            }
        }
        None => now,
    }
}

// The change that is wished on, where this is the wish now.
fn kept_of(wished: Option<Wished>, base: Option<u64>, wish: Wish, now: u64) -> Option<Wished>
    ensures { result ≡ kept_of wished base wish now }
{
    let Wish::Propose(proposal) = wish else {
        return None;
    };
    match base {
        Some(base) => Some(Wished {
            base,
            change: proposal.change,
            since: since_of(wished, base, proposal.change, now),
        }),
        None => None,
    }
}

// What is to be done now, where a change is wished on.
fn due_change(kept: Option<Wished>, proposal: Proposal, now: u64) -> Wish
    ensures { result ≡ due_change kept proposal now }
{
    match kept {
        Some(kept) => {
            if proposal.patience <= now.saturating_sub(kept.since) {
                Wish::Propose(proposal)
            } else {
                Wish::Nothing
            }
        }
        None => Wish::Nothing,
    }
}

// What of a wish is to be done now.
fn due_of(kept: Option<Wished>, wish: Wish, now: u64) -> Wish
    ensures { result ≡ due_of kept wish now }
{
    match wish {
        Wish::Propose(proposal) => due_change(kept, proposal, now),
        Wish::Activate => Wish::Activate,
        Wish::Nothing => Wish::Nothing,
    }
}

// The epoch of the view of a shard.
fn epoch_in(views: &[View], shard: usize) -> Option<u64>
    ensures { result ≡ epoch_in views.now shard }
{
    match views.get(shard) {
        Some(view) => Some(view.epoch),
        None => None,
    }
}

impl Office {
    fn kept_in(&self, now: u64, views: &[View], shard: usize, wish: Wish) -> Option<Wished>
        requires { shard < 8 }
        ensures { result ≡ kept_in self.now now views.now shard wish }
    {
        kept_of(self.wished[shard], epoch_in(views, shard), wish, now)
    }

    // The changes that are wished on.
    #[tactic(auto, unfolding(crate::specs::Wishing::kept_in_all))]
    fn kept_in_all(&self, now: u64, views: &[View], wishes: [Wish; 8]) -> [Option<Wished>; 8]
        ensures { result ≡ kept_in_all self.now now views.now wishes }
    {
        [
            self.kept_in(now, views, 0, wishes[0]),
            self.kept_in(now, views, 1, wishes[1]),
            self.kept_in(now, views, 2, wishes[2]),
            self.kept_in(now, views, 3, wishes[3]),
            self.kept_in(now, views, 4, wishes[4]),
            self.kept_in(now, views, 5, wishes[5]),
            self.kept_in(now, views, 6, wishes[6]),
            self.kept_in(now, views, 7, wishes[7]),
        ]
    }

    // Notes that the change of a shard's view is proposed, if that is to be done.
    #[tactic(auto, unfolding(crate::specs::Wishing::due_noted))]
    fn note_due(&mut self, now: u64, views: &[View], shard: u8, wish: Wish)
        requires { shard < 8 }
        ensures { self.new ≡ due_noted self.old now views.now shard wish }
    {
        let Wish::Propose(_) = wish else {
            return;
        };
        if let Some(epoch) = epoch_in(views, usize::from(shard)) {
            self.reports.note_proposal(now, shard, epoch);
        }
    }

    #[tactic(auto, unfolding(crate::specs::Wishing::all_due_noted))]
    fn note_all_due(&mut self, now: u64, views: &[View], due: [Wish; 8])
        ensures { self.new ≡ all_due_noted self.old now views.now due }
    {
        self.note_due(now, views, 0, due[0]);
        self.note_due(now, views, 1, due[1]);
        self.note_due(now, views, 2, due[2]);
        self.note_due(now, views, 3, due[3]);
        self.note_due(now, views, 4, due[4]);
        self.note_due(now, views, 5, due[5]);
        self.note_due(now, views, 6, due[6]);
        self.note_due(now, views, 7, due[7]);
    }

    // What of these wishes is to be done now, and how they are wished on.
    #[tactic(auto, unfolding(crate::specs::Wishing::intended_open))]
    fn take_wishes(&mut self, now: u64, views: &[View], wishes: [Wish; 8]) -> [Wish; 8]
        ensures { (result, self.new) ≡ intended_open self.old now views.now wishes }
    {
        let kept = self.kept_in_all(now, views, wishes);
        let due = due_in_all(kept, wishes, now);
        self.wished = kept;
        self.note_all_due(now, views, due);
        due
    }

    fn open_intents(&mut self, alloc: Global, now: u64, views: &[View]) -> Result<[Wish; 8], Memory>
        ensures ok { IfOk result (λ due. (due, self.new) ≡ intended_open self.old now views.now (wishes (heard_of self.old now views.now))) }
        ensures err { OnErr result (self.new ≡ self.old) }
    {
        let heard = self.heard(alloc, now, views)?;
        Ok(self.take_wishes(now, views, heard.decide()))
    }

    /// What the cores of the eight shards are to do now, by shards: to propose a change of the view that they hold,
    /// which is noted as proposed, or to let it begin. It is to be asked at each beat. A change is to be proposed
    /// once it was wished for its patience, without a beat between at which it was not. Before the group is open
    /// there is nothing to do.
    pub fn intents(&mut self, alloc: Global, now: u64, views: &[View]) -> Result<[Wish; 8], Memory>
        ensures ok { IfOk result (λ due. (due, self.new) ≡ intended self.old now views.now) }
        ensures err { OnErr result (self.new ≡ self.old) }
    {
        if !self.opening.takes_letters() {
            return Ok([Wish::Nothing; 8]);
        }
        self.open_intents(alloc, now, views)
    }
}

// What of these wishes is to be done now.
#[tactic(auto, unfolding(crate::specs::Wishing::due_in_all))]
fn due_in_all(kept: [Option<Wished>; 8], wishes: [Wish; 8], now: u64) -> [Wish; 8]
    ensures { result ≡ due_in_all kept wishes now }
{
    [
        due_of(kept[0], wishes[0], now),
        due_of(kept[1], wishes[1], now),
        due_of(kept[2], wishes[2], now),
        due_of(kept[3], wishes[3], now),
        due_of(kept[4], wishes[4], now),
        due_of(kept[5], wishes[5], now),
        due_of(kept[6], wishes[6], now),
        due_of(kept[7], wishes[7], now),
    ]
}
