//! Letters that no node would send in a group whose nodes all run as they began.

ghost use Rattle.std.specs.Prelude.{◌≡◌, ◌≤◌, ℕ, List};
ghost use Rattle.hk_base.specs.Range.{IsWithin, IsBody, IsLetter};
ghost use Rattle.hk_base.specs.View.{is_member};
ghost use Rattle.hk_node.specs.Node.{members_of};
ghost use Rattle.hk_base.specs.declared.stamp.TheConstants.{MAX_VERSION};
ghost use Rattle.hk_node.specs.Rows.{row_at};
ghost use Rattle.hk_locked.specs.Doubts.{next_version, forgot_by, is_same_kind, is_same_content, by_update, by_version, at_row, in_body, by_sender, doubt_in};

use hk_base::{Actor, Body, Content, Key, Kind, Letter, NodeId, Stamp, State};
use hk_key::Row;
use hk_node::Node;

// The epoch of the view in which a group is founded.
const FIRST_EPOCH: u64 = 1;

/// What a letter shows that no letter would show in a group whose nodes all run as they began. A node forgets when its process is started again.
#[derive(Clone, Copy, Debug, PartialEq, Eq)]
pub enum Doubt {
    /// This node began an update at a row that is older than one that it acknowledged, or another one under the same stamp.
    Forgot(NodeId),
    /// The node that takes the letter has forgotten a row that it acknowledged.
    ForgotHere,
    /// The sender is no member of the view: it belongs to a group of more nodes.
    Stranger(NodeId),
}

// The version of the next update of the kind.
fn next_version(kind: Kind, version: u64) -> u64
    requires { version ≤ MAX_VERSION }
    ensures { result ≡ next_version kind version }
{
    match kind {
        Kind::Write => version + 2,
        Kind::Rmw => version + 1,
    }
}

// The node at which an update of this stamp began has forgotten.
fn forgot_by(me: NodeId, stamp: Stamp) -> Doubt
    ensures { result ≡ forgot_by me stamp }
{
    if stamp.node == me.0 {
        return Doubt::ForgotHere;
    }
    Doubt::Forgot(NodeId(stamp.node))
}

fn is_same_kind(a: Kind, b: Kind) -> bool
    ensures { result ≡ is_same_kind a b }
{
    a == b
}

fn is_same_content(a: &Option<Content>, b: &Option<Content>) -> bool
    ensures { result ≡ is_same_content a.now b.now }
{
    match (a, b) {
        (Some(a), Some(b)) => a.flags == b.flags && a.bytes == b.bytes,
        (None, None) => true,
        (Some(_), None) | (None, Some(_)) => false,
    }
}

// What an INV under the row's own stamp shows.
fn by_update(
    me: NodeId,
    row: &Row,
    stamp: Stamp,
    kind: Kind,
    content: &Option<Content>,
) -> Option<Doubt>
    ensures { result ≡ by_update me row.now stamp kind content.now }
{
    if is_same_kind(row.kind, kind) && is_same_content(&row.content, content) {
        return None;
    }
    Some(forgot_by(me, stamp))
}

// What an update of this stamp shows, where its version should be `next`.
fn by_version(me: NodeId, next: u64, stamp: Stamp) -> Option<Doubt>
    ensures { result ≡ by_version me next stamp }
{
    if stamp.version < next {
        return Some(forgot_by(me, stamp));
    }
    if next < stamp.version {
        return Some(Doubt::ForgotHere);
    }
    None
}

// What an INV shows at a row.
fn at_row(
    me: NodeId,
    row: &Row,
    stamp: Stamp,
    kind: Kind,
    content: &Option<Content>,
) -> Option<Doubt>
    requires row { IsWithin row.now.stamp }
    requires stamp { IsWithin stamp }
    ensures { result ≡ at_row me row.now stamp kind content.now }
{
    if stamp.tag() == row.stamp.tag() {
        return by_update(me, row, stamp, kind, content);
    }
    if row.state == State::Valid && row.stamp.tag() < stamp.tag() {
        return by_version(me, next_version(kind, row.stamp.version), stamp);
    }
    None
}

// What an INV of a key shows at a node.
fn by_inv(
    me: NodeId,
    node: &Node,
    key: &Key,
    stamp: Stamp,
    kind: Kind,
    content: &Option<Content>,
) -> Option<Doubt>
    requires row { IsWithin (row_at key.now node.now.rows).stamp }
    requires stamp { IsWithin stamp }
    ensures { result ≡ at_row me (row_at key.now node.now.rows) stamp kind content.now }
{
    match node.row(key) {
        Some(row) => at_row(me, row, stamp, kind, content),
        None => at_row(me, &Row::first(), stamp, kind, content),
    }
}

// What is shown by what a letter holds.
fn in_body(me: NodeId, node: &Node, body: &Body) -> Option<Doubt>
    requires rows { (key : List ℕ) → IsWithin (row_at key node.now.rows).stamp }
    requires body { IsBody body.now }
    ensures { result ≡ in_body me body.now node.now }
{
    match body {
        Body::Inv {
            key,
            stamp,
            kind,
            content,
        } => by_inv(me, node, key, *stamp, *kind, content),
        _ => None,
    }
}

// Whether a node is a member of the node's view.
fn is_member(node: &Node, from: NodeId) -> bool
    ensures { result ≡ is_member from (members_of node.now) }
{
    match node.view() {
        Some(view) => view.has_member(from),
        None => false,
    }
}

/// What a letter shows where it comes to the node of this number in the view of the founding.
pub(crate) fn doubt_in(me: NodeId, node: &Node, letter: &Letter) -> Option<Doubt>
    requires rows { (key : List ℕ) → IsWithin (row_at key node.now.rows).stamp }
    requires letter { IsLetter letter.now }
    ensures { result ≡ doubt_in me node.now letter.now }
{
    if letter.epoch != FIRST_EPOCH || node.epoch() != FIRST_EPOCH {
        return None;
    }
    match letter.from {
        Actor::Node(from) => {
            if is_member(node, from) {
                in_body(me, node, &letter.body)
            } else {
                Some(Doubt::Stranger(from))
            }
        }
        Actor::Manager(_) => None,
    }
}
