//! What is to be sent again of an open key.

ghost use Rattle.std.specs.Prelude.{◌≡◌, IfOk};
ghost use Rattle.hk_node.specs.Sound.{IsNodeEvent};
ghost use Rattle.hk_node.specs.Laws.{IsNoCall};
ghost use Rattle.hk_node.specs.Index.{is_open_at};
ghost use Rattle.hk_due.specs.Due.{key_of, event_of, has_pending, due_at, due_of_key};

use hk_base::{Key, Memory, State};
use hk_node::{Node, NodeEvent};

/// What is to be sent again of an open key.
#[derive(Drop)]
pub enum Due {
    /// The update that is pending at the node.
    Resend(Key),
    /// The update of another node, of which the row is Invalid.
    Replay(Key),
}

impl Due {
    /// The key.
    pub fn key(&self) -> &Key
        ensures { result.now ≡ key_of self.now }
    {
        match self {
            Due::Resend(key) => key,
            Due::Replay(key) => key,
        }
    }

    /// The event that sends it.
    pub fn event(self) -> NodeEvent
        ensures same { result ≡ event_of self }
        ensures event { IsNodeEvent result }
        ensures no_call { IsNoCall result }
    {
        match self {
            Due::Resend(key) => NodeEvent::Resend(key),
            Due::Replay(key) => NodeEvent::Replay(key),
        }
    }
}

fn has_pending(part: &Node, key: &Key) -> bool
    ensures { result ≡ has_pending part.now.rows key.now }
{
    match part.row(key) {
        Some(row) => row.pending.is_some(),
        None => false,
    }
}

/// What is to be sent again of the key, which is open at the node.
pub(crate) fn due_at(part: &Node, key: &Key) -> Result<Due, Memory>
    ensures { IfOk result (λ due. due ≡ due_at part.now.rows key.now) }
{
    let key = key.share()?;
    if has_pending(part, &key) {
        Ok(Due::Resend(key))
    } else {
        Ok(Due::Replay(key))
    }
}

/// Whether the key's row is open at the node, one that is not Valid.
pub(crate) fn is_open(part: &Node, key: &Key) -> bool
    ensures { result ≡ is_open_at part.now.rows key.now }
{
    match part.row(key) {
        Some(row) => row.state != State::Valid,
        None => false,
    }
}

/// What is to be sent again of the key, if its row is open at the node.
pub fn due_of_key(part: &Node, key: &Key) -> Result<Option<Due>, Memory>
    ensures { IfOk result (λ due. due ≡ due_of_key part.now.rows key.now) }
{
    if !is_open(part, key) {
        return Ok(None);
    }
    let due = due_at(part, key)?;
    Ok(Some(due))
}
