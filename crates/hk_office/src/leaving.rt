//! Who leaves.

ghost use Rattle.std.specs.Prelude.{◌≡◌, ◌<◌, ◌≤◌, Some, IfOk, OnOk, OnErr, slice_set};
ghost use Rattle.std.specs.List.{filter};
ghost use Rattle.hk_base.specs.declared.time.TheConstants.{MAX_TIME};
ghost use Rattle.hk_office.specs.Leaving.{leaver_of, is_to_stay, without_leavers, stays_to_leave, others_to_leave, with_leave, without_leave, against_leave, left_by, left};
ghost use Rattle.hk_office.specs.Seating.{heard_of};

use crate::answer::{OfficeAnswer, OfficeStep, answered, refused};
use crate::marks::is_in_view;
use crate::office::{Leave, Office};
use crate::refusal::OfficeRefusal;
use hk_base::{Memory, NodeId, Sequence, View};
use hk_inside::Leaver;
use hk_keeper::{Heard, NodeHeard};
use std::alloc::Global;

// Whether it still is to leave, and is another node.
fn stays_to_leave(leave: &Leave, now: u64, node: NodeId) -> bool
    ensures { result ≡ stays_to_leave now node leave.now }
{
    now < leave.end && leave.node.0 != node.0
}

fn keep_leaves(leaves: &mut Vec<Leave>, now: u64, node: NodeId)
    ensures { leaves.new.items ≡ filter (stays_to_leave now node) leaves.old.items }
{
    leaves.retain(|leave| stays_to_leave(leave, now, node));
}

impl Office {
    // The number of the node that is to leave, if it is known: that of a host's node is the one that the process of
    // its manager told.
    fn leaver_of(&self, leaver: Leaver) -> Option<NodeId>
        ensures { result ≡ leaver_of self.now leaver }
    {
        match leaver {
            Leaver::Node(node) => Some(node),
            Leaver::Host(place) => match self.of_manager(place) {
                Some(came) => came.report.node,
                None => None,
            },
        }
    }

    fn is_to_stay(&self, now: u64, heard: &NodeHeard) -> bool
        ensures { result ≡ is_to_stay self.now now heard.now }
    {
        !self.is_to_leave(now, heard.node)
    }

    fn keep_stayers(&self, now: u64, nodes: &mut Vec<NodeHeard>)
        ensures { nodes.new.items ≡ filter (is_to_stay self.now now) nodes.old.items }
    {
        nodes.retain(|node| self.is_to_stay(now, node));
    }

    // What is heard without those that are to leave.
    fn heard_of_stayers(&self, alloc: Global, now: u64, views: &[View]) -> Result<Heard, Memory>
        ensures { IfOk result (λ heard. heard ≡ without_leavers self.now now (heard_of self.now now views.now)) }
    {
        let mut heard = self.heard(alloc, now, views)?;
        let mut nodes = heard.nodes.as_slice().to_vec(alloc)?;
        self.keep_stayers(now, &mut nodes);
        heard.nodes = Sequence::from_vec(nodes);
        Ok(heard)
    }

    // What stands against it that a member leaves.
    fn against_leave(
        &self,
        alloc: Global,
        now: u64,
        views: &[View],
        node: NodeId,
    ) -> Result<Option<OfficeRefusal>, Memory>
        ensures { IfOk result (λ refusal. refusal ≡ against_leave self.now now views.now node) }
    {
        let heard = self.heard_of_stayers(alloc, now, views)?;
        if !heard.majority_up() {
            return Ok(Some(OfficeRefusal::NoMajority));
        }
        if !heard.each_has_another(node) {
            return Ok(Some(OfficeRefusal::NoOtherIsReady));
        }
        Ok(None)
    }

    // Who else is to leave.
    fn others_to_leave(&self, alloc: Global, now: u64, node: NodeId) -> Result<Vec<Leave>, Memory>
        ensures { IfOk result (λ leaves. leaves.items ≡ others_to_leave self.now now node) }
    {
        let mut leaves = self.leaves.as_slice().to_vec(alloc)?;
        keep_leaves(&mut leaves, now, node);
        Ok(leaves)
    }

    // The node is to leave, for the length of a lease.
    fn mark_to_leave(&mut self, alloc: Global, now: u64, node: NodeId) -> Result<(), Memory>
        requires { now ≤ MAX_TIME }
        ensures ok { OnOk result (self.new ≡ with_leave self.old now node) }
        ensures err { OnErr result (self.new ≡ self.old) }
    {
        let end = now + u64::from(self.terms.lease);
        let mut leaves = self.others_to_leave(alloc, now, node)?;
        leaves.push(Leave { node, end })?;
        self.leaves = Sequence::from_vec(leaves);
        Ok(())
    }

    // The node is not to leave, also where it was.
    fn mark_to_stay(&mut self, alloc: Global, now: u64, node: NodeId) -> Result<(), Memory>
        ensures ok { OnOk result (self.new ≡ without_leave self.old now node) }
        ensures err { OnErr result (self.new ≡ self.old) }
    {
        let leaves = self.others_to_leave(alloc, now, node)?;
        self.leaves = Sequence::from_vec(leaves);
        Ok(())
    }

    fn leave_member(
        &mut self,
        alloc: Global,
        now: u64,
        views: &[View],
        node: NodeId,
    ) -> Result<OfficeStep, Memory>
        requires { now ≤ MAX_TIME }
        ensures ok { IfOk result (λ made. (made, self.new) ≡ left_by (against_leave self.old now views.now node) self.old now node) }
        ensures err { OnErr result (self.new ≡ self.old) }
    {
        match self.against_leave(alloc, now, views, node)? {
            Some(refusal) => {
                self.mark_to_stay(alloc, now, node)?;
                Ok(refused(alloc, refusal))
            }
            None => {
                self.mark_to_leave(alloc, now, node)?;
                Ok(answered(alloc, OfficeAnswer::Yes))
            }
        }
    }

    // LEAVE.
    pub(crate) fn leave(
        &mut self,
        alloc: Global,
        now: u64,
        views: &[View],
        leaver: Leaver,
    ) -> Result<OfficeStep, Memory>
        requires { now ≤ MAX_TIME }
        ensures ok { IfOk result (λ made. (made, self.new) ≡ left self.old now views.now leaver) }
        ensures err { OnErr result (self.new ≡ self.old) }
    {
        match self.leaver_of(leaver) {
            Some(node) => {
                if is_in_view(views, node) {
                    self.leave_member(alloc, now, views, node)
                } else {
                    Ok(refused(alloc, OfficeRefusal::NoSuchMember))
                }
            }
            None => Ok(refused(alloc, OfficeRefusal::NoSuchMember)),
        }
    }

    /// A core of this manager let the view of a shard begin. A node that is left out by such views in all shards is
    /// out from then on.
    pub fn note_begun(&mut self, alloc: Global, shard: u8, view: &View) -> Result<(), Memory>
        requires { shard < 8 }
        ensures ok { OnOk result (self.new ≡ record self.old { begun = slice_set self.old.begun shard (Some view.now) }) }
        ensures err { OnErr result (self.new ≡ self.old) }
    {
        let view = view.copy(alloc)?;
        self.begun[usize::from(shard)] = Some(view);
        Ok(())
    }
}
