//! The key that an event of a node names.

ghost use Rattle.std.specs.Prelude.{◌≡◌};
ghost use Rattle.std.specs.Option.{option_copied};
ghost use Rattle.hk_node.specs.Laws.{key_of, key_in};

use hk_base::{Body, Key};
use hk_node::NodeEvent;

fn key_in(body: &Body) -> Option<&Key>
    ensures { option_copied result ≡ key_in body.now }
{
    match body {
        Body::Inv { key, .. } => Some(key),
        Body::Ack { key, .. } => Some(key),
        Body::Val { key, .. } => Some(key),
        _ => None,
    }
}

/// The key that the event names, if it names one.
pub fn key_of(event: &NodeEvent) -> Option<&Key>
    ensures { option_copied result ≡ key_of event.now }
{
    match event {
        NodeEvent::Call { key, .. } => Some(key),
        NodeEvent::Receive(letter) => key_in(&letter.body),
        NodeEvent::Resend(key) => Some(key),
        NodeEvent::Replay(key) => Some(key),
        _ => None,
    }
}
