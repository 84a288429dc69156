//! What a manager logs beside the steps of its cores.

ghost use Rattle.std.specs.Prelude.{◌≡◌, ◌<◌, ◌≤◌, true, length, All};
ghost use Rattle.hk_log.specs.Entries.{IsEntryInRange, IsFounding, IsActorInRange};
ghost use Rattle.hk_durable.specs.Batches.{IsNote};

use hk_base::Actor;
use hk_log::{Entry, Founding};

// Whether a log may have it.
fn is_founding(founding: &Founding) -> bool
    ensures { result ≡ true → IsFounding founding.now }
{
    let hosts = founding.hosts.as_slice().len();
    0 < founding.number && usize::from(founding.place) < hosts && hosts <= 9
}

fn is_actor(actor: Actor) -> bool
    ensures { result ≡ true → IsActorInRange actor }
{
    match actor {
        Actor::Node(_) => true,
        Actor::Manager(place) => place < 9,
    }
}

/// Whether it is a founding, an opening or a binding, and a log may have it. What an office logs is such.
pub fn is_note(entry: &Entry) -> bool
    ensures note { result ≡ true → IsNote entry.now }
    ensures range { result ≡ true → IsEntryInRange entry.now }
{
    match entry {
        Entry::Founded(founding) => is_founding(founding),
        Entry::Open => true,
        Entry::Propose { .. } => false,
        Entry::Receive { .. } => false,
        Entry::Bound { actor, .. } => is_actor(*actor),
    }
}

/// Whether all are such.
pub fn are_notes(entries: &[Entry]) -> bool
    ensures { result ≡ true → All IsEntryInRange entries.now }
{
    for entry in entries {
        if !is_note(entry) {
            return false;
        }
    }
    true
}
