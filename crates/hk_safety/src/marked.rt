//! A history of which the numbers alone are kept.

ghost use Rattle.std.specs.Prelude.{◌≡◌, List, [], ◌∷◌, ◌++◌, map, OnOk};
ghost use Rattle.std.specs.Borrow.{ftrue};
ghost use Rattle.hk_history.specs.declared.event.Event.{Event};
ghost use Rattle.hk_safety.specs.Marks.{mark_of};

use hk_base::{CallNo, Memory};
use std::alloc::Global;
use std::marker::{Model, PhantomData};

/// A call that began, or one that was answered.
#[derive(Clone, Copy, Debug, PartialEq, Eq)]
pub enum Mark {
    Call(CallNo),
    Reply(CallNo),
}

/// The events of a history, which clauses alone can read. It takes no memory, and its calls do nothing at run time.
#[derive(Drop)]
pub struct Told {
    marker: PhantomData<u8>,
    pub ghost events: { List Event },
}

impl Model for Told {
    ghost also_owns = { λ _. ftrue };
}

impl Told {
    /// No event.
    pub(crate) fn new() -> Told
        ensures { result.events ≡ [] }
    {
        Told {
            marker: PhantomData,
        }
    }

    /// Notes the event behind all others.
    pub(crate) fn note(&mut self, _event: &hk_history::Event)
        ensures { self.new.events ≡ self.old.events ++ _event.now ∷ [] }
    {}
}

/// A history: a mark of each event is kept, and the event is told to clauses alone.
#[derive(Drop)]
pub struct Marked {
    told: Told,
    marks: Vec<Mark>,
}

impl Model for Marked {
    ghost use Rattle.std.specs.Prelude.{◌≡◌, List, map};
    ghost use Rattle.hk_history.specs.declared.event.Event.{Event};
    ghost use Rattle.hk_safety.specs.Marks.{mark_of};

    ghost Value = { List Event };

    ghost view = { λ m. m.told.events };

    ghost invariant = { λ m. m.marks.items ≡ map mark_of m.told.events };
}

// The mark of an event.
fn mark_of(event: &hk_history::Event) -> Mark
    ensures { result ≡ mark_of event.now }
{
    match event {
        hk_history::Event::Call { no, .. } => Mark::Call(*no),
        hk_history::Event::Reply { no, .. } => Mark::Reply(*no),
    }
}

impl Marked {
    /// No event.
    pub(crate) fn new(alloc: Global) -> Marked
        ensures { result ≡ [] }
    {
        Marked {
            told: Told::new(),
            marks: Vec::new(alloc),
        }
    }

    /// Puts an event behind all others.
    pub(crate) fn push(&mut self, event: hk_history::Event) -> Result<(), Memory>
        ensures { OnOk result (self.new ≡ self.old ++ event ∷ []) }
    {
        self.marks.push(mark_of(&event))?;
        self.told.note(&event);
        Ok(())
    }

    /// The marks of the events, the first one first.
    pub(crate) fn marks(&self) -> &[Mark]
        ensures { result.now ≡ map mark_of self.now }
    {
        self.marks.as_slice()
    }
}
