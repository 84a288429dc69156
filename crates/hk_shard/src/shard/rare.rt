//! What a shard does seldom, beside the steps of calls and letters: it is made, hands its journal out, brings readers up to what it has shown, and gives its base.

ghost use Rattle.std.specs.Prelude.{◌≡◌, ◌<◌, ◌∷◌, ◌++◌, [], None, IfOk, OnOk, OnErr};
ghost use mathlib.Core.List.{IsPrefix};
ghost use Rattle.hk_node.specs.Calls.{lease_end};
ghost use Rattle.hk_node.specs.Node.{NodeState};
ghost use Rattle.hk_node.specs.Outs.{IsOutOf};
ghost use Rattle.hk_node.specs.Steps.{node_step};
ghost use Rattle.hk_node.specs.Sound.{IsNode, IsNodeEvent};
ghost use Rattle.hk_journal.specs.Journal.{entry_of};
ghost use Rattle.hk_snap.specs.Ends.{names, noted, seen_at, looked, Loads};
ghost use Rattle.hk_snap.specs.Leases.{Looks};
ghost use Rattle.hk_shard.specs.Shard.{step_entry};
ghost use Rattle.hk_shard.specs.Replaced.{replaced_of, before_all, AreKept, AreReplaced};

use super::{Shard, changed_nothing, note};
use crate::cells::ShardCells;
use crate::held::Held;
use crate::replaced::{Replaced, let_go, replaced_of, share_all};
use crate::show::{call_of, publish_rows};
use hk_base::Memory;
use hk_journal::Journal;
use hk_node::{Node, NodeEvent, NodeOut};
use hk_snap::{LeaseCell, SnapReader};
use std::alloc::Global;
use std::mem;
use std::sync::Wait;

// No entries, with room for so many. Where there is no memory for that, the journal takes its room as it grows.
fn empty_journal(alloc: Global, entries: usize) -> Journal
    ensures { result ≡ [] }
{
    match Vec::with_capacity(alloc, entries) {
        Ok(room) => Journal::from_vec(room),
        Err(_) => Journal::new(alloc),
    }
}

// Keeps what a step replaced.
fn add(alloc: Global, replaced: &mut Vec<Replaced>, out: &NodeOut) -> Result<(), Memory>
    ensures kept { OnOk result (replaced.new.items ≡ replaced.old.items ++ replaced_of out.now ∷ []) }
    ensures err { OnErr result (replaced.new.items ≡ replaced.old.items) }
{
    replaced.reserve(1)?;
    let last = replaced_of(alloc, out)?;
    replaced.push_reserved(last);
    Ok(())
}

// Keeps what a step replaced, if it replaced anything.
fn keep(alloc: Global, replaced: &mut Vec<Replaced>, out: &NodeOut) -> Result<(), Memory>
    ensures kept { OnOk result (AreKept out.now replaced.old.items replaced.new.items) }
    ensures err { OnErr result (replaced.new.items ≡ replaced.old.items) }
{
    if changed_nothing(out) {
        return Ok(());
    }
    add(alloc, replaced, out)
}

// Keeps what a step replaced, and adds its entry to the journal. Where memory is wanting, both are as they were.
fn record(
    alloc: Global,
    journal: &mut Journal,
    replaced: &mut Vec<Replaced>,
    ticket: u64,
    event: NodeEvent,
    out: &NodeOut,
) -> Result<(), Memory>
    ensures noted { OnOk result (journal.new ≡ journal.old ++ entry_of ticket event out.now ∷ []) }
    ensures kept { OnOk result (AreKept out.now replaced.old.items replaced.new.items) }
    ensures journal_stays { OnErr result (journal.new ≡ journal.old) }
    ensures replaced_stays { OnErr result (replaced.new.items ≡ replaced.old.items) }
{
    let before = replaced.len();
    keep(alloc, replaced, out)?;
    if let Err(fault) = note(alloc, journal, ticket, event, out) {
        replaced.truncate(before);
        return Err(fault);
    }
    Ok(())
}

// Makes the step of an event, adds its entry to the journal, and keeps what it replaced. Where memory is wanting, all is as it was.
fn make(
    alloc: Global,
    part: &mut Node,
    journal: &mut Journal,
    replaced: &mut Vec<Replaced>,
    ticket: u64,
    event: NodeEvent,
) -> Result<NodeOut, Memory>
    requires event { IsNodeEvent event }
    requires node { IsNode part.old }
    ensures out { IfOk result (λ out. IsOutOf out part.old (node_step part.old event)) }
    ensures part { OnOk result (part.new ≡ (node_step part.old event).node) }
    ensures journal { OnOk result (journal.new ≡ journal.old ++ step_entry ticket part.old event ∷ []) }
    ensures replaced { OnOk result ((first : NodeState) → AreReplaced first replaced.old.items part.old → AreReplaced first replaced.new.items part.new) }
    ensures part_stays { OnErr result (part.new ≡ part.old) }
    ensures journal_stays { OnErr result (journal.new ≡ journal.old) }
    ensures replaced_stays { OnErr result (replaced.new.items ≡ replaced.old.items) }
{
    let out = part.step(alloc, &event)?;
    if let Err(fault) = record(alloc, journal, replaced, ticket, event, &out) {
        part.undo(out.report, out.undo);
        return Err(fault);
    }
    Ok(out)
}

// Undoes steps, the last one first.
fn take_back(node: &mut Node, replaced: Vec<Replaced>)
    requires { (first : NodeState) × AreReplaced first replaced.items node.old }
    ensures { (first : NodeState) → AreReplaced first replaced.items node.old → node.new ≡ first }
{
    let mut replaced = replaced;
    while let Some(last) = replaced.pop() {
        let Replaced { report, undo } = last;
        node.undo(report, undo);
    }
}

// The node as it was before the steps that replaced these. It shares keys and contents with the node as it is.
fn before_all(alloc: Global, part: &Node, replaced: &[Replaced]) -> Result<Node, Memory>
    requires { AreReplaced (before_all replaced.now part.now) replaced.now part.now }
    ensures { IfOk result (λ node. node ≡ before_all replaced.now part.now) }
{
    let all = share_all(alloc, replaced)?;
    let mut node = part.copy(alloc)?;
    take_back(&mut node, all);
    Ok(node)
}

impl Shard {
    ghost use Rattle.hk_shard.specs.Shard.{ShardState, IsNew, IsApplied, checkpointed, unseen};

    /// A shard that begins with this node, which has no rows yet, as a founder and a joiner have none: so its cells show all that
    /// the node will have.
    pub fn new<R: Wait>(rt: &R, alloc: Global, base: Node) -> Result<Shard, Memory>
        requires { base.rows ≡ [] }
        ensures new { IfOk result (λ shard. IsNew base shard) }
    {
        let cells = ShardCells::new(rt, alloc)?;
        Shard::over(rt, alloc, cells, base)
    }

    /// The same, over these cells.
    pub fn over<R: Wait>(
        rt: &R,
        alloc: Global,
        cells: ShardCells,
        base: Node,
    ) -> Result<Shard, Memory>
        requires { base.rows ≡ [] }
        ensures new { IfOk result (λ shard. IsNew base shard) }
        ensures ends { IfOk result (λ shard. shard.ends ≡ cells.ends) }
        ensures lease { IfOk result (λ shard. shard.lease.name ≡ cells.lease.name) }
    {
        // the first step needs no room more
        let replaced = Vec::with_capacity(alloc, 1)?;
        let ShardCells {
            writer,
            reader,
            mut keeper,
            lease,
        } = cells;
        let end = base.lease_end();
        let now = base.now();
        keeper.raise(rt, end, now);
        Ok(Shard {
            part: base,
            journal: Journal::new(alloc),
            replaced,
            spent: Vec::new(alloc),
            last: 0,
            held: Held::nothing(),
            writer,
            reader,
            keeper,
            lease,
        })
    }

    /// Makes the step of an event as [`Shard::step`] does, and gives all that the step gave; no keys of open rows follow it. Where memory is
    /// wanting, the shard is as it was.
    pub fn apply<R: Wait>(
        &mut self,
        rt: &R,
        alloc: Global,
        ticket: u64,
        event: NodeEvent,
    ) -> Result<NodeOut, Memory>
        requires ticket { self.old.last < ticket }
        requires event { IsNodeEvent event }
        ensures out { IfOk result (λ out. IsOutOf out self.old.part (node_step self.old.part event)) }
        ensures applied { OnOk result (IsApplied self.old ticket event self.new) }
        ensures err { OnErr result (self.new ≡ self.old) }
    {
        let call = call_of(&event);
        let out = make(
            alloc,
            &mut self.part,
            &mut self.journal,
            &mut self.replaced,
            ticket,
            event,
        )?;
        let rows = out.report.rows.as_slice();
        publish_rows(
            rt,
            &mut self.writer,
            &mut self.held,
            &self.part,
            ticket,
            call,
            rows,
        );
        self.keeper
            .raise(rt, self.part.lease_end(), self.part.now());
        let_go(&mut self.spent);
        self.last = ticket;
        Ok(out)
    }

    /// Hands out the journal, and begins a new one with room for as many entries: the base becomes the part. It looks at no row and at no entry.
    pub fn checkpoint(&mut self, alloc: Global) -> Result<Journal, Memory>
        ensures journal { IfOk result (λ journal. journal ≡ self.old.journal) }
        ensures anew { OnOk result (self.new ≡ checkpointed self.old) }
        ensures err { OnErr result (self.new ≡ self.old) }
    {
        mem::swap(&mut self.replaced, &mut self.spent);
        self.replaced.clear();
        let next = empty_journal(alloc, self.journal.len());
        Ok(mem::replace(&mut self.journal, next))
    }

    /// By one load the reader has seen all that was published in a cell, with the calls and the contents that the cell doesn't
    /// show. The reader is of this shard's cells.
    pub fn meet<R: Wait>(&mut self, rt: &R, cell: u8, reader: &mut SnapReader) -> Result<(), Memory>
        requires cell { cell < 32 }
        requires same { names reader.old.ends ≡ names self.old.ends }
        ensures same { self.new ≡ self.old }
        ensures met { IfOk result (λ _. reader.new ≡ looked reader.old cell (seen_at self.old.ends cell)) }
        ensures grown { IfOk result (λ _. Loads reader.old cell reader.new) }
        ensures err { OnErr result (reader.new ≡ reader.old) }
    {
        self.writer.meet(rt, cell, reader)
    }

    /// The same, but the reader shows what it showed before. It takes no memory.
    pub fn see(&mut self, cell: u8, reader: &mut SnapReader)
        requires cell { cell < 32 }
        requires same { names reader.old.ends ≡ names self.old.ends }
        ensures same { self.new ≡ self.old }
        ensures seen { reader.new ≡ noted reader.old cell (seen_at self.old.ends cell) }
        ensures grown { IsPrefix (seen_at reader.old.ends cell) (seen_at self.old.ends cell) }
    {
        self.writer.see(cell, reader);
    }

    /// By one load the other has seen the end of the part's lease and its clock. It is of this shard's lease cell.
    pub fn meet_lease<R: Wait>(&mut self, rt: &R, lease: &mut LeaseCell) -> Result<(), Memory>
        requires { lease.old.name ≡ self.old.lease.name }
        ensures same { self.new ≡ self.old }
        ensures end { IfOk result (λ _. lease.new.end ≡ lease_end self.old.part) }
        ensures clock { IfOk result (λ _. lease.new.now ≡ self.old.part.clock) }
        ensures looked { IfOk result (λ _. Looks lease.old lease.new) }
        ensures err { OnErr result (lease.new ≡ lease.old) }
    {
        self.keeper.meet(rt, lease)
    }

    /// A reader of the cells that has seen nothing yet, and one that looks at the lease cell and has loaded nothing.
    pub fn reader<R: Wait>(
        &mut self,
        rt: &R,
        alloc: Global,
    ) -> Result<(SnapReader, LeaseCell), Memory>
        ensures same { self.new ≡ self.old }
        ensures reader { IfOk result (λ made. made.0 ≡ record { ends = unseen self.old.ends; shown = None }) }
        ensures names { IfOk result (λ made. names made.0.ends ≡ names self.old.ends) }
        ensures lease { IfOk result (λ made. (made.1.name ≡ self.old.lease.name) × (made.1.loads ≡ 0)) }
    {
        let reader = self.reader.split(rt, alloc)?;
        let lease = self.lease.split(rt)?;
        Ok((reader, lease))
    }

    /// The node as it was when the journal began. It is made anew, of a copy of the part, and shares keys and contents with it.
    pub fn base(&self, alloc: Global) -> Result<Node, Memory>
        ensures { IfOk result (λ base. base ≡ self.now.base) }
    {
        before_all(alloc, &self.part, self.replaced.as_slice())
    }

    /// What happened since.
    pub fn journal(&self) -> &Journal
        ensures { result.now ≡ self.now.journal }
    {
        &self.journal
    }

    /// How much its part holds.
    pub fn held(&self) -> Held {
        self.held
    }
}
