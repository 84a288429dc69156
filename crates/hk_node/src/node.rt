//! A node and its steps.

ghost use Rattle.std.specs.Prelude.{◌≡◌, ◌≤◌, IfOk, OnOk, OnErr, Some, IsSome, map, true};
ghost use Rattle.std.specs.List.{AllByRecursion};
ghost use Rattle.std.specs.List.Sorted.{IsStrictlySortedBy};
ghost use Rattle.hk_copy.specs.Batches.{key_cmp};
ghost use Rattle.std.specs.Option.{option_copied};
ghost use Rattle.hk_base.specs.declared.time.TheConstants.{MAX_TIME};
ghost use Rattle.hk_node.specs.Node.{epoch_in};

mod copy;
mod copying;
mod finish;
mod install;
mod letter;
mod managers;
mod merging;
mod receive;
mod rows;
mod step;

use crate::event::NodeEvent;
use crate::heard::of_each;
use crate::out::NodeOut;
use crate::put::give_rows_back;
use crate::report::{Report, Undo};
use hk_base::{CallNo, Key, Letter, Memory, NodeId, Op, Sequence, View};
use hk_key::{BoxedRow, Row};
use std::alloc::Global;
use std::collections::{BTreeMap, BTreeSet};
use std::marker::Model;

/// A node of a group.
#[derive(Drop)]
pub struct Node {
    id: NodeId,
    view: Option<View>,
    ready: bool,
    cursor: Option<Key>,
    granted: u64,
    clock: u64,
    skew: u64,
    managers: u8,
    /// Of each manager, the greatest end of a lease that it granted.
    ends: Sequence<u64>,
    /// Of each manager, the greatest epoch of which it sent ACTIVATE.
    activated: Sequence<u64>,
    rows: BTreeMap<Key, BoxedRow>,
    /// The keys of the rows that are not Valid, and maybe of some that became Valid since.
    index: BTreeSet<Key>,
    /// Whether each row that is not Valid is in `index`: in a node that was copied, or whose step was undone, it may not be.
    whole: bool,
}

impl Model for Node {
    ghost use Rattle.hk_node.specs.Node.{NodeState};
    ghost use Rattle.hk_node.specs.Index.{IsIndexed};

    ghost Value = { NodeState };

    ghost view = { λ n. record { id = n.id; view = n.view; ready = n.ready; cursor = n.cursor; granted = n.granted; clock = n.clock; skew = n.skew; managers = n.managers; ends = n.ends; activated = n.activated; rows = n.rows.entries } };

    ghost invariant = { λ n. IsIndexed (record { id = n.id; view = n.view; ready = n.ready; cursor = n.cursor; granted = n.granted; clock = n.clock; skew = n.skew; managers = n.managers; ends = n.ends; activated = n.activated; rows = n.rows.entries }) n.index.keys n.whole };
}

// The epoch of a view, 0 where there is none.
fn epoch_in(view: &Option<View>) -> u64
    ensures { result ≡ epoch_in view.now }
{
    match view {
        Some(view) => view.epoch,
        None => 0,
    }
}

impl Node {
    ghost use Rattle.hk_base.specs.View.{IsView, is_member};
    ghost use Rattle.hk_base.specs.Range.{IsLetter, IsRoom};
    ghost use Rattle.hk_node.specs.Node.{NodeState, epoch_of};
    ghost use Rattle.hk_node.specs.Rows.{find_row};
    ghost use Rattle.hk_node.specs.Made.{founder, joiner};
    ghost use Rattle.hk_node.specs.Calls.{called};
    ghost use Rattle.hk_node.specs.Copies.{asks_copy};
    ghost use Rattle.hk_node.specs.Steps.{node_step, receives, resent, replayed, installs, ticks, grants, asks_lease};
    ghost use Rattle.hk_node.specs.Sound.{IsNode, IsNodeEvent};
    ghost use Rattle.hk_node.specs.Report.{rolled_back};
    ghost use Rattle.hk_node.specs.Outs.{IsOutOf};

    /// A founder of the group: it is a member of the first view, is ready, and has a lease that ends at `lease_end`, from each
    /// of the group's managers, 0 to 9. Clocks begin at 1, and differ by `skew` at most.
    pub fn founder(
        alloc: Global,
        id: NodeId,
        view: View,
        lease_end: u64,
        skew: u64,
        managers: u8,
    ) -> Result<Node, Memory>
        requires view { IsView view }
        requires member { is_member id view.members ≡ true }
        requires lease_end { lease_end ≤ MAX_TIME }
        requires skew { skew ≤ MAX_TIME }
        requires managers { managers ≤ 9 }
        ensures { IfOk result (λ node. node ≡ founder id view lease_end skew managers) }
    {
        let ends = of_each(alloc, managers, lease_end)?;
        let activated = of_each(alloc, managers, 0)?;
        Ok(Node {
            id,
            view: Some(view),
            ready: true,
            cursor: None,
            granted: lease_end,
            clock: 1,
            skew,
            managers,
            ends,
            activated,
            rows: BTreeMap::new(alloc),
            index: BTreeSet::new(alloc),
            whole: true,
        })
    }

    /// A node that is to join a group of so many managers, 0 to 9: it has no view, no rows and no lease, and is not ready.
    pub fn joiner(alloc: Global, id: NodeId, skew: u64, managers: u8) -> Result<Node, Memory>
        requires skew { skew ≤ MAX_TIME }
        requires managers { managers ≤ 9 }
        ensures { IfOk result (λ node. node ≡ joiner id skew managers) }
    {
        let ends = of_each(alloc, managers, 0)?;
        let activated = of_each(alloc, managers, 0)?;
        Ok(Node {
            id,
            view: None,
            ready: false,
            cursor: None,
            granted: 0,
            clock: 1,
            skew,
            managers,
            ends,
            activated,
            rows: BTreeMap::new(alloc),
            index: BTreeSet::new(alloc),
            whole: true,
        })
    }

    /// Undoes a step, by what it reported and what it replaced beside rows: behind that step this makes the node as it was
    /// before. It takes no memory.
    pub fn undo(&mut self, report: Report, undo: Undo)
        requires rising { IsStrictlySortedBy key_cmp (map (λ f. f.key) report.rows) }
        requires there { AllByRecursion (λ f. IsSome (find_row f.key self.old.rows)) report.rows }
        requires node { IsNode (rolled_back report.rows undo self.old) }
        ensures { self.new ≡ rolled_back report.rows undo self.old }
    {
        self.whole = false;
        give_rows_back(&mut self.rows, report.rows.into_vec());
        match undo {
            Undo::Nothing => {}
            Undo::Clock(now) => self.clock = now,
            Undo::Lease(end) => self.granted = end,
            Undo::Granted { granted, ends } => {
                self.granted = granted;
                self.ends = ends;
            }
            Undo::Activated(activated) => self.activated = activated,
            Undo::View { view, activated } => {
                self.view = view;
                self.activated = activated;
            }
            Undo::Cursor(cursor) => {
                self.ready = false;
                self.cursor = cursor;
            }
        }
    }

    /// The row of the key. None where nothing has touched it.
    pub fn row(&self, key: &Key) -> Option<&Row>
        ensures { option_copied result ≡ find_row key.now self.now.rows }
    {
        match self.rows.get(key) {
            Some(row) => Some(row.get()),
            None => None,
        }
    }

    /// The epoch of the view that is installed, 0 where there is none.
    pub fn epoch(&self) -> u64
        ensures { result ≡ epoch_of self.now }
    {
        epoch_in(&self.view)
    }

    /// The view that is installed, if any.
    pub fn view(&self) -> Option<&View>
        ensures { option_copied result ≡ self.now.view }
    {
        self.view.as_ref()
    }

    /// Whether the node has all rows: it is a founder, or has copied them.
    pub fn ready(&self) -> bool
        ensures { result ≡ self.now.ready }
    {
        self.ready
    }

    /// The greatest end of a lease that was granted.
    pub fn granted(&self) -> u64
        ensures { result ≡ self.now.granted }
    {
        self.granted
    }

    /// The clock.
    pub fn now(&self) -> u64
        ensures { result ≡ self.now.clock }
    {
        self.clock
    }
}
