//! Which numbers the views of the shards leave to be bound.

ghost use Rattle.std.specs.Prelude.{◌≡◌};
ghost use Rattle.hk_roll.specs.Numbers.{is_new, are_new, have_member, may_bind, is_past, is_over, have_room, are_level, next_number};

use hk_base::{NodeId, View};

fn is_new(view: &View, node: NodeId) -> bool
    ensures { result ≡ is_new node view.now }
{
    view.next <= u32::from(node.0)
}

fn are_new(views: &[View], node: NodeId) -> bool
    ensures { result ≡ are_new views.now node }
{
    views.iter().all(|view| is_new(view, node))
}

fn have_member(views: &[View], node: NodeId) -> bool
    ensures { result ≡ have_member views.now node }
{
    views.iter().all(|view| view.has_member(node))
}

// Whether a number may be bound.
pub(crate) fn may_bind(views: &[View], node: NodeId) -> bool
    ensures { result ≡ may_bind views.now node }
{
    are_new(views, node) || have_member(views, node)
}

// Whether a number was given and its node is out.
pub(crate) fn is_past(views: &[View], node: NodeId) -> bool
    ensures { result ≡ is_past views.now node }
{
    views
        .iter()
        .any(|view| !is_new(view, node) && !view.has_member(node))
}

// Whether no shard has the number, and none will.
pub(crate) fn is_over(views: &[View], node: NodeId) -> bool
    ensures { result ≡ is_over views.now node }
{
    views
        .iter()
        .all(|view| !is_new(view, node) && !view.has_member(node))
}

// Whether one more member is allowed.
pub(crate) fn have_room(views: &[View]) -> bool
    ensures { result ≡ have_room views.now }
{
    views.iter().all(|view| view.members.len() < 16)
}

fn are_level(views: &[View], next: u32) -> bool
    ensures { result ≡ are_level views.now next }
{
    views.iter().all(|view| view.next == next)
}

// The next number, where all shards have the same one.
pub(crate) fn next_number(views: &[View]) -> Option<NodeId>
    ensures { result ≡ next_number views.now }
{
    match views.first() {
        Some(first) => {
            if first.next < 65_536 && are_level(views, first.next) {
                Some(NodeId(first.next as u16))
            } else {
                None
            }
        }
        None => None,
    }
}
