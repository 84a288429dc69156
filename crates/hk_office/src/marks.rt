//! How nodes stand with the manager.

ghost use Rattle.std.specs.Prelude.{◌≡◌};
ghost use Rattle.hk_office.specs.Marks.{leaves_out, is_out, is_to_leave, is_in_view, mark_of, mark_unbound};

use crate::office::Office;
use hk_base::{NodeId, View};
use hk_inside::Mark;

// Whether the view gave the number, and its node is no member.
fn leaves_out(node: NodeId, view: &Option<View>) -> bool
    ensures { result ≡ leaves_out node view.now }
{
    match view {
        Some(view) => u32::from(node.0) < view.next && !view.has_member(node),
        None => false,
    }
}

pub fn is_in_view(views: &[View], node: NodeId) -> bool
    ensures { result ≡ is_in_view views.now node }
{
    views.iter().any(|view| view.has_member(node))
}

impl Office {
    fn is_out(&self, node: NodeId) -> bool
        ensures { result ≡ is_out self.now node }
    {
        self.begun.iter().all(|view| leaves_out(node, view))
    }

    pub(crate) fn is_to_leave(&self, now: u64, node: NodeId) -> bool
        ensures { result ≡ is_to_leave self.now now node }
    {
        self.leaves
            .as_slice()
            .iter()
            .any(|leave| leave.node.0 == node.0 && now < leave.end)
    }

    // How a process stands that tells this number, which is not bound to it.
    pub(crate) fn mark_unbound(&self, node: Option<NodeId>) -> Mark
        ensures { result ≡ mark_unbound self.now node }
    {
        match node {
            Some(node) => {
                if self.is_out(node) {
                    Mark::Out
                } else {
                    Mark::Bound
                }
            }
            None => Mark::Bound,
        }
    }

    pub(crate) fn mark_of(&self, now: u64, views: &[View], node: NodeId) -> Mark
        ensures { result ≡ mark_of self.now now views.now node }
    {
        if self.is_out(node) {
            Mark::Out
        } else if self.is_to_leave(now, node) {
            Mark::ToLeave
        } else if is_in_view(views, node) {
            Mark::Member
        } else {
            Mark::Bound
        }
    }
}
