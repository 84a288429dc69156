//! Which hellos there are.

ghost use Rattle.std.specs.Prelude.{◌≡◌, ◌↔◌, IsTrue};
ghost use Rattle.std.specs.List.{list_all};
ghost use Rattle.hk_hello.specs.Hellos.{is_name_byte, IsGroupName, IsActorInRange, IsPartyInRange, IsHelloInRange};

use crate::hello::{Hello, Party};
use hk_base::Actor;

fn is_name_byte(byte: u8) -> bool
    ensures { result ≡ is_name_byte byte }
{
    byte.is_ascii_lowercase() || byte.is_ascii_digit() || byte == b'-'
}

// Whether each byte may stand in a name.
pub fn is_name(bytes: &[u8]) -> bool
    ensures { result ≡ list_all is_name_byte bytes.now }
{
    bytes.iter().all(|byte| is_name_byte(*byte))
}

/// Whether a group may have this name: 1 to 32 of `a` to `z`, digits and hyphens.
pub fn is_group_name(name: &[u8]) -> bool
    ensures { IsTrue result ↔ IsGroupName name.now }
{
    !name.is_empty() && name.len() <= 32 && is_name(name)
}

fn is_actor_in_range(actor: Actor) -> bool
    ensures { IsTrue result ↔ IsActorInRange actor }
{
    match actor {
        Actor::Node(_) => true,
        Actor::Manager(manager) => manager < 9,
    }
}

fn is_party_in_range(party: Party) -> bool
    ensures { IsTrue result ↔ IsPartyInRange party }
{
    match party {
        Party::Actor(actor) => is_actor_in_range(actor),
        Party::Neither => true,
    }
}

/// Whether a hello may be signed and printed: managers are 0 to 8, and the group's name may be one.
pub fn is_in_range(hello: &Hello) -> bool
    ensures { IsTrue result ↔ IsHelloInRange hello.now }
{
    is_party_in_range(hello.from)
        && is_party_in_range(hello.to)
        && is_group_name(hello.group.as_slice())
}
