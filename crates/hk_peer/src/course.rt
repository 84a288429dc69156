//! Which letters a connection carries.

ghost use Rattle.std.specs.Prelude.{◌≡◌, None};
ghost use Rattle.hk_peer.specs.Parcels.{is_same, is_from, is_on};

use hk_base::Actor;
use hk_link::Parcel;

/// Which letters a connection carries: those to one actor, and from one actor where a greeting told who sends.
#[derive(Clone, Copy, Debug, PartialEq, Eq)]
pub struct Course {
    /// None where nobody told who sends: any sender's are carried then.
    pub from: Option<Actor>,
    pub to: Actor,
}

// Whether two actors are one.
fn is_same(a: Actor, b: Actor) -> bool
    ensures { result ≡ is_same a b }
{
    match (a, b) {
        (Actor::Node(a), Actor::Node(b)) => a.0 == b.0,
        (Actor::Manager(a), Actor::Manager(b)) => a == b,
        _ => false,
    }
}

// Whether a letter of this actor may come where that one greeted, or nobody did.
fn is_from(from: Option<Actor>, actor: Actor) -> bool
    ensures { result ≡ is_from from actor }
{
    match from {
        Some(from) => is_same(from, actor),
        None => true,
    }
}

impl Course {
    /// Letters to this actor, whoever sends them.
    pub fn to(to: Actor) -> Course
        ensures { result ≡ record { from = None; to = to } }
    {
        Course { from: None, to }
    }

    /// Whether the connection carries this letter.
    pub(crate) fn carries(self, parcel: &Parcel) -> bool
        ensures { result ≡ is_on self parcel.now }
    {
        is_same(self.to, parcel.letter.to) && is_from(self.from, parcel.letter.from)
    }
}
