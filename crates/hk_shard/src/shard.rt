//! One shard, and the step of an event there.

ghost use Rattle.std.specs.Prelude.{◌≡◌, ℕ, ◌<◌, ◌≤◌, ◌*◌, ◌∷◌, ◌++◌, [], length, sum, map, true, None, vec_len, vec_capacity, IfOk, OnOk, OnErr};
ghost use Rattle.hk_node.specs.Outs.{IsOutOf};
ghost use Rattle.hk_node.specs.Steps.{node_step};
ghost use Rattle.hk_node.specs.Stepped.{replies_of};
ghost use Rattle.hk_node.specs.Sound.{IsNode, IsNodeEvent};
ghost use Rattle.hk_node.specs.declared.report.Undo.TheVariants.{Nothing};
ghost use Rattle.hk_due.specs.Keys.{Follows};
ghost use Rattle.hk_journal.specs.Journal.{entry_of};
ghost use Rattle.hk_shard.specs.Shard.{shard_of, step_entry};
ghost use Rattle.hk_shard.specs.Replaced.{AreKept};

mod rare;

use crate::held::Held;
use crate::replaced::{Replaced, let_go};
use crate::show::{call_of, show_rows};
use hk_base::{Key, Letters, Memory, SHARDS};
use hk_due::OpenKeys;
use hk_journal::{Journal, entry};
use hk_node::{Node, NodeEvent, NodeOut, StepReplies, Undo};
use hk_snap::{LeaseCell, LeaseKeeper, SnapReader, SnapWriter};
use std::alloc::Global;
use std::marker::Model;
use std::sync::Wait;

/// The shard of a key, 0 to 7: the sum of its bytes modulo 8.
pub fn shard_of(key: &Key) -> u8
    ensures shard { result ≡ shard_of key.now }
    ensures below { result < 8 }
{
    let shard = key.byte_sum() % u64::from(SHARDS);
    shard as u8
}

/// What a step gave to whoever asked for it. What it replaced stays with the shard.
#[derive(Drop)]
pub struct ShardOut {
    /// The letters to send, in the order of their keys, and for one key in rising order of the addressees.
    pub letters: Letters,
    /// The calls that are answered, in key order.
    pub replies: StepReplies,
}

/// A shard of a node. Contracts see its base, its journal and its part, the ticket of the last event, and what its cells and its
/// lease cell have shown.
#[derive(Drop)]
pub struct Shard {
    part: Node,
    journal: Journal,
    /// What each step that is in the journal and changed something replaced. The base is the part with all of them undone.
    replaced: Vec<Replaced>,
    /// What steps before that replaced. It is dropped little by little, since a lock is held.
    spent: Vec<Replaced>,
    last: u64,
    /// How much the part holds.
    held: Held,
    writer: SnapWriter,
    /// A reader of the cells that has loaded nothing, from which others are split.
    reader: SnapReader,
    keeper: LeaseKeeper,
    /// One that looks at the lease cell, from which others are split.
    lease: LeaseCell,
}

impl Model for Shard {
    ghost use Rattle.std.specs.Prelude.{◌≡◌, None};
    ghost use Rattle.hk_shard.specs.Shard.{ShardState, IsShard, unseen};
    ghost use Rattle.hk_shard.specs.Replaced.{before_all, AreReplaced};

    ghost Value = { ShardState };

    ghost view = { λ s. record { base = before_all s.replaced.items s.part; journal = s.journal; part = s.part; last = s.last; ends = s.writer; lease = s.keeper } };

    ghost invariant = { λ s.
        IsShard (record { base = before_all s.replaced.items s.part; journal = s.journal; part = s.part; last = s.last; ends = s.writer; lease = s.keeper })
        × AreReplaced (before_all s.replaced.items s.part) s.replaced.items s.part
        × (s.reader ≡ record { ends = unseen s.writer; shown = None })
        × (s.lease.name ≡ s.keeper.name) };
}

// Whether the step left its node as it was.
fn changed_nothing(out: &NodeOut) -> bool
    ensures { result ≡ true → (out.now.report.rows ≡ []) × (out.now.undo ≡ Nothing) }
{
    match out.undo {
        Undo::Nothing => out.report.rows.is_empty(),
        _ => false,
    }
}

// Adds the entry of a step to the journal.
fn note(
    alloc: Global,
    journal: &mut Journal,
    ticket: u64,
    event: NodeEvent,
    out: &NodeOut,
) -> Result<(), Memory>
    ensures noted { OnOk result (journal.new ≡ journal.old ++ entry_of ticket event out.now ∷ []) }
    ensures err { OnErr result (journal.new ≡ journal.old) }
{
    let entry = entry(alloc, ticket, event, out)?;
    journal.push(entry)?;
    Ok(())
}

// Makes the step of an event, and adds its entry to the journal. Where memory is wanting, both are as they were.
fn make_noted(
    alloc: Global,
    part: &mut Node,
    journal: &mut Journal,
    ticket: u64,
    event: NodeEvent,
) -> Result<NodeOut, Memory>
    requires event { IsNodeEvent event }
    requires node { IsNode part.old }
    ensures out { IfOk result (λ out. IsOutOf out part.old (node_step part.old event)) }
    ensures part { OnOk result (part.new ≡ (node_step part.old event).node) }
    ensures journal { OnOk result (journal.new ≡ journal.old ++ step_entry ticket part.old event ∷ []) }
    ensures part_stays { OnErr result (part.new ≡ part.old) }
    ensures journal_stays { OnErr result (journal.new ≡ journal.old) }
{
    let out = part.step(alloc, &event)?;
    if let Err(fault) = note(alloc, journal, ticket, event, &out) {
        part.undo(out.report, out.undo);
        return Err(fault);
    }
    Ok(out)
}

// Keeps what a step replaced, if it replaced anything, and gives the rest of what the step gave. There is room for it.
fn move_in(replaced: &mut Vec<Replaced>, out: NodeOut) -> ShardOut
    requires room { vec_len replaced.old < vec_capacity replaced.old }
    ensures kept { AreKept out replaced.old.items replaced.new.items }
    ensures letters { result.letters ≡ out.letters }
    ensures replies { result.replies ≡ out.replies }
{
    let is_nothing = changed_nothing(&out);
    let NodeOut {
        letters,
        replies,
        report,
        undo,
        ..
    } = out;
    if !is_nothing {
        replaced.push_reserved(Replaced { report, undo });
    }
    ShardOut { letters, replies }
}

impl Shard {
    ghost use Rattle.hk_shard.specs.Shard.{ShardState, IsShard, IsApplied};

    /// Makes the step of an event, and adds its entry to the journal with this ticket, which is above the last one. Each row that the
    /// step changed is published before this returns, the lease cell shows the end of the lease and the clock, and the keys of the open
    /// rows follow it. It costs what the step costs, and a store for each row that changed. What the step did to its node is given to
    /// nobody. Where memory is wanting, the shard and the keys are as they were.
    pub fn step<R: Wait>(
        &mut self,
        rt: &R,
        alloc: Global,
        keys: &mut OpenKeys,
        ticket: u64,
        event: NodeEvent,
    ) -> Result<ShardOut, Memory>
        requires ticket { self.old.last < ticket }
        requires event { IsNodeEvent event }
        ensures letters { IfOk result (λ out. out.letters ≡ (node_step self.old.part event).letters) }
        ensures replies { IfOk result (λ out. out.replies ≡ replies_of (node_step self.old.part event)) }
        ensures applied { OnOk result (IsApplied self.old ticket event self.new) }
        ensures followed { OnOk result (Follows ticket self.old.part.rows self.new.part.rows keys.old keys.new) }
        ensures err { OnErr result (self.new ≡ self.old) }
        ensures unfollowed { OnErr result (keys.new ≡ keys.old) }
    {
        let call = call_of(&event);
        self.replaced.reserve(1)?;
        let out = make_noted(alloc, &mut self.part, &mut self.journal, ticket, event)?;
        let rows = out.report.rows.as_slice();
        show_rows(
            rt,
            &mut self.writer,
            &mut self.held,
            keys,
            &self.part,
            ticket,
            call,
            rows,
        );
        self.keeper
            .raise(rt, self.part.lease_end(), self.part.now());
        let_go(&mut self.spent);
        self.last = ticket;
        Ok(move_in(&mut self.replaced, out))
    }

    /// The node as it is.
    pub fn part(&self) -> &Node
        ensures part { result.now ≡ self.now.part }
        ensures kept { IsShard self.now }
    {
        &self.part
    }

    /// The ticket of the last event, 0 before there was one. It stays over a checkpoint.
    pub fn last_ticket(&self) -> u64
        ensures { result ≡ self.now.last }
    {
        self.last
    }
}
