//! What tells most letters apart.

ghost use Rattle.std.specs.Prelude.{◌≡◌};
ghost use Rattle.hk_assemble.specs.Marks.{actor_number, key_number, mark_of};

use hk_base::{Actor, Body, Key, Letter};

/// Six numbers of a letter: its kind, its stamp, whom it is from and to, and one of its key. Few letters have the same, and most of those are equal.
pub type Mark = [u64; 6];

fn actor_number(actor: Actor) -> u64
    ensures { result ≡ actor_number actor }
{
    match actor {
        Actor::Node(node) => u64::from(node.0),
        Actor::Manager(manager) => u64::from(manager),
    }
}

// A number of the key: its bytes as digits, modulo 2^64.
fn key_number(key: &Key) -> u64
    ensures { result ≡ key_number 0 key.now }
{
    let mut number = 0u64;
    for byte in key.bytes() {
        number = number.wrapping_mul(257).wrapping_add(u64::from(*byte));
    }
    number
}

/// The mark of a letter.
pub fn mark_of(letter: &Letter) -> Mark
    ensures { result ≡ mark_of letter.now }
{
    let from = actor_number(letter.from);
    let to = actor_number(letter.to);
    match &letter.body {
        Body::Inv { key, stamp, .. } => [
            1,
            stamp.version,
            u64::from(stamp.node),
            from,
            to,
            key_number(key),
        ],
        Body::Ack { key, stamp, .. } => [
            2,
            stamp.version,
            u64::from(stamp.node),
            from,
            to,
            key_number(key),
        ],
        Body::Val { key, stamp } => [
            3,
            stamp.version,
            u64::from(stamp.node),
            from,
            to,
            key_number(key),
        ],
        _ => [0, 0, 0, from, to, 0],
    }
}
