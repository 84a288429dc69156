//! The events of a run, which clauses alone can read.

ghost use Rattle.std.specs.Prelude.{◌≡◌, List, [], ◌∷◌, ◌++◌};
ghost use Rattle.std.specs.Borrow.{ftrue};
ghost use Rattle.hk_event.specs.declared.event.Event.{Event};

use std::marker::{Model, PhantomData};

/// The events that a run made so far, the first one first. It takes no memory, and its calls do nothing at run time.
#[derive(Drop)]
pub struct Past {
    marker: PhantomData<u8>,
    pub ghost events: { List Event },
}

impl Model for Past {
    ghost also_owns = { λ _. ftrue };
}

impl Past {
    /// No event.
    pub(crate) fn new() -> Past
        ensures { result.events ≡ [] }
    {
        Past {
            marker: PhantomData,
        }
    }

    /// Notes the event behind all others.
    pub(crate) fn note(&mut self, _event: &hk_event::Event)
        ensures { self.new.events ≡ self.old.events ++ _event.now ∷ [] }
    {}
}
