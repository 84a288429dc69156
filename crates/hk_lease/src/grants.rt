//! What one manager granted.

ghost use Rattle.std.specs.Prelude.{◌≡◌, ◌≢◌, [], max, IsSome, OnOk, OnErr};
ghost use Rattle.hk_base.specs.declared.stamp.NodeId.{NodeId};
ghost use Rattle.hk_lease.specs.Grants.{noted_for, until_of, with_grant, until_rolled_back};
ghost use Rattle.hk_lease.specs.Past.{may_run, past_answer, IsAllPast};

use hk_base::{Memory, NodeId, View};
use std::alloc::Global;
use std::collections::BTreeMap;
use std::marker::Model;
use thiserror::Error;

/// A lease of a node outside a view that may still run.
#[derive(Clone, Copy, Debug, PartialEq, Eq, Error)]
#[error("a lease of node {} may run to {end}", .node.0)]
pub struct NotPast {
    pub node: NodeId,
    /// The greatest until that was noted for it, in milliseconds on the manager's clock.
    pub end: u64,
}

/// The greatest until that a manager noted for each node. Contracts see the nodes with their untils, in rising order of the
/// nodes.
#[derive(Drop)]
pub struct Grants {
    untils: BTreeMap<NodeId, u64>,
}

impl Model for Grants {
    ghost use Rattle.std.specs.Prelude.{List, ℕ};
    ghost use Rattle.hk_base.specs.declared.stamp.NodeId.{NodeId};

    ghost Value = { List (NodeId × ℕ) };

    ghost view = { λ g. g.untils.entries };
}

// Whether the until is not below now, and its node is outside the view.
fn may_run(view: &View, now: u64, node: NodeId, until: u64) -> bool
    ensures { result ≡ may_run view.now now (node, until) }
{
    now <= until && !view.members.as_slice().contains(&node)
}

impl Grants {
    /// Nothing was granted. It takes no memory.
    pub fn new(alloc: Global) -> Grants
        ensures { result ≡ [] }
    {
        Grants {
            untils: BTreeMap::new(alloc),
        }
    }

    /// Notes an until, in milliseconds on the manager's clock, for a lease that the node was granted. The greatest until per
    /// node is kept. After `Memory` nothing has changed.
    #[tactic(auto, using(crate::proofs::Noted::granted_same))]
    pub fn grant(&mut self, node: NodeId, until: u64) -> Result<(), Memory>
        ensures ok { OnOk result (self.new ≡ with_grant self.old node until) }
        ensures greatest { OnOk result (until_of self.new node ≡ max (until_of self.old node) until) }
        ensures others { OnOk result ((other : NodeId) → other.0 ≢ node.0 → until_of self.new other ≡ until_of self.old other) }
        ensures there { OnOk result (IsSome (noted_for self.new node)) }
        ensures undone { OnOk result (until_rolled_back self.new node (noted_for self.old node) ≡ self.old) }
        ensures err { OnErr result (self.new ≡ self.old) }
    {
        let noted = self.untils.get(&node).copied().unwrap_or(0);
        self.untils.insert(node, noted.max(until))?;
        Ok(())
    }

    /// The until that was noted for the node, if one was.
    pub fn noted(&self, node: NodeId) -> Option<u64>
        ensures { result ≡ noted_for self.now node }
    {
        self.untils.get(&node).copied()
    }

    /// Gives back what was noted for the node before, of which something is noted now: behind a `grant` for that node this
    /// makes all as it was before it. It takes no memory.
    pub fn roll_back(&mut self, node: NodeId, until: Option<u64>)
        requires { IsSome (noted_for self.old node) }
        ensures { self.new ≡ until_rolled_back self.old node until }
    {
        match until {
            Some(until) => match self.untils.get_mut(&node) {
                Some(noted) => *noted = until,
                None => unreachable!(),
            },
            None => {
                self.untils.remove(&node);
            }
        }
    }

    /// Whether each until that was noted for a node outside the view is below now. Else the least such node whose until is
    /// not, and that until. It takes no memory.
    pub fn all_past(&self, view: &View, now: u64) -> Result<(), NotPast>
        ensures exact { result ≡ past_answer self.now view.now now }
        ensures least { IsAllPast result self.now view.now now }
    {
        for (node, until) in self.untils.iter() {
            if may_run(view, now, *node, *until) {
                return Err(NotPast {
                    node: *node,
                    end: *until,
                });
            }
        }
        Ok(())
    }
}
