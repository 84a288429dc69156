//! By how much one clock is ahead of others.

ghost use Rattle.std.specs.Prelude.{◌≡◌, ◌==◌, length, [], nat_lt, OnOk, if◌then◌else◌};
ghost use Rattle.std.specs.BTreeMap.{insert_entry, is_at};
ghost use Rattle.std.specs.Map.{remove_entry};
ghost use Rattle.hk_clocks.specs.Clocks.{by_actor, lead_over};
ghost use Rattle.hk_clocks.specs.InPlace.{fallen};

use crate::values::write;
use hk_base::{Actor, Memory};
use std::alloc::Global;
use std::collections::BTreeMap;
use std::marker::Model;

/// The leads of one clock over others, those above 0, in thousandths of a millisecond. Contracts see the others with the leads,
/// in rising order: nodes before managers.
#[derive(Drop)]
pub struct Leads {
    above: BTreeMap<Actor, u64>,
}

impl Model for Leads {
    ghost use Rattle.std.specs.Prelude.{List, ℕ};
    ghost use Rattle.hk_base.specs.declared.letter.Actor.{Actor};

    ghost Value = { List (Actor × ℕ) };

    ghost view = { λ l. l.above.entries };
}

impl Leads {
    /// It is ahead of none. It takes no memory.
    pub(crate) fn new(alloc: Global) -> Leads
        ensures { result ≡ [] }
    {
        Leads {
            above: BTreeMap::new(alloc),
        }
    }

    /// The lead over an actor.
    pub fn over(&self, other: Actor) -> u64
        ensures { result ≡ lead_over self.now other }
    {
        self.above.get(&other).copied().unwrap_or(0)
    }

    /// Whether it is ahead of none.
    pub(crate) fn is_empty(&self) -> bool
        ensures { result ≡ (length self.now == 0) }
    {
        self.above.is_empty()
    }

    /// Keeps a lead, if it is above 0.
    pub(crate) fn put(&mut self, other: Actor, lead: u64) -> Result<(), Memory>
        ensures { OnOk result (self.new ≡ (if nat_lt 0 lead then insert_entry by_actor self.old other lead else self.old)) }
    {
        if lead > 0 {
            self.above.insert(other, lead)?;
        }
        Ok(())
    }

    /// Forgets the lead over an actor.
    pub(crate) fn forget(&mut self, other: Actor)
        ensures { self.new ≡ remove_entry (is_at (by_actor other)) self.old }
    {
        self.above.remove(&other);
    }

    /// The lead over an actor becomes less, but not below 0. It takes no memory.
    pub(crate) fn fall(&mut self, other: Actor, by: u64)
        ensures { self.new ≡ fallen other by self.old }
    {
        let lead = self.over(other);
        if lead > by {
            write(&mut self.above, other, lead - by);
        } else {
            self.forget(other);
        }
    }
}
