//! Whether an update is complete, as far as its covers show.

ghost use Rattle.std.specs.Prelude.{◌≡◌, [], OnOk};
ghost use Rattle.std.specs.List.{list_all};
ghost use Rattle.hk_safety.specs.Kept.{is_among, no_group, nobody};
ghost use Rattle.hk_safety.specs.Grown.{IsNodeAdded, is_whole, IsGroupPut, completes, IsShown};

use hk_base::{Memory, NodeId, Sequence, View};
use std::alloc::Global;
use std::collections::BTreeMap;
use std::marker::Model;

/// A node as it covers: now, in the epoch of its view.
#[derive(Clone, Copy, Debug, PartialEq, Eq)]
pub struct Cover {
    pub node: NodeId,
    pub ready: bool,
    /// The number of the event at which it does.
    pub event: u64,
}

/// Who covered a stamp in one epoch.
#[derive(Drop)]
pub struct Group {
    pub nodes: Sequence<NodeId>,
    /// Whether one of them was ready when it did.
    pub ready: bool,
}

/// Who covered a stamp, by epoch.
#[derive(Drop)]
pub struct Groups {
    by_epoch: BTreeMap<u64, Group>,
}

impl Model for Groups {
    ghost use Rattle.std.specs.Prelude.{List, ℕ};
    ghost use Rattle.hk_safety.specs.declared.evidence.Group.{Group};

    ghost Value = { List (ℕ × Group) };

    ghost view = { λ g. g.by_epoch.entries };
}

/// What is known of an update: that it is complete since the event of this number, or who covered its stamp so far.
#[derive(Drop)]
pub enum Evidence {
    Complete { event: u64 },
    Covers(Groups),
}

fn is_among(nodes: &[NodeId], node: NodeId) -> bool
    ensures { result ≡ is_among node.0 nodes.now }
{
    nodes.iter().any(|other| node.0 == other.0)
}

fn are_among(nodes: &[NodeId], members: &[NodeId]) -> bool
    ensures { result ≡ list_all (λ m. is_among m.0 nodes.now) members.now }
{
    members.iter().all(|member| is_among(nodes, *member))
}

impl Group {
    fn new(alloc: Global) -> Group
        ensures { result ≡ no_group }
    {
        Group {
            nodes: Sequence::new(alloc),
            ready: false,
        }
    }

    // The node covered the stamp in this epoch too.
    fn add(&mut self, cover: Cover) -> Result<(), Memory>
        ensures { OnOk result (IsNodeAdded self.old self.new cover) }
    {
        self.ready = self.ready || cover.ready;
        if is_among(self.nodes.as_slice(), cover.node) {
            return Ok(());
        }
        self.nodes.push(cover.node)
    }

    // Whether each of these covered the stamp, and one node was ready.
    fn is_whole(&self, members: &[NodeId]) -> bool
        ensures { result ≡ is_whole self.now members.now }
    {
        self.ready && are_among(self.nodes.as_slice(), members)
    }
}

// A cover in an epoch, whose group is kept from then on.
fn put_cover(
    groups: &mut BTreeMap<u64, Group>,
    alloc: Global,
    epoch: u64,
    cover: Cover,
) -> Result<(), Memory>
    ensures { OnOk result (IsGroupPut groups.old.entries groups.new.entries epoch cover) }
{
    if let Some(group) = groups.get_mut(&epoch) {
        return group.add(cover);
    }
    let mut group = Group::new(alloc);
    group.add(cover)?;
    groups.insert(epoch, group)?;
    Ok(())
}

impl Groups {
    fn new(alloc: Global) -> Groups
        ensures { result ≡ [] }
    {
        Groups {
            by_epoch: BTreeMap::new(alloc),
        }
    }

    fn put(&mut self, alloc: Global, epoch: u64, cover: Cover) -> Result<(), Memory>
        ensures { OnOk result (IsGroupPut self.old self.new epoch cover) }
    {
        put_cover(&mut self.by_epoch, alloc, epoch, cover)
    }

    // Whether all members of the view covered the stamp in its epoch, one of them when it was ready.
    fn complete(&self, view: &View) -> bool
        ensures { result ≡ completes self.now view.now }
    {
        match self.by_epoch.get(&view.epoch) {
            Some(group) => group.is_whole(view.members.as_slice()),
            None => false,
        }
    }
}

impl Evidence {
    /// That nobody covered the stamp.
    pub(crate) fn new(alloc: Global) -> Evidence
        ensures { result ≡ nobody }
    {
        Evidence::Covers(Groups::new(alloc))
    }

    /// A member of this view covers the stamp, in the view's epoch. What is complete stays so.
    pub(crate) fn add(&mut self, alloc: Global, view: &View, cover: Cover) -> Result<(), Memory>
        ensures { OnOk result (IsShown self.old self.new view.now cover) }
    {
        let Evidence::Covers(groups) = self else {
            return Ok(());
        };
        groups.put(alloc, view.epoch, cover)?;
        if groups.complete(view) {
            *self = Evidence::Complete { event: cover.event };
        }
        Ok(())
    }
}
