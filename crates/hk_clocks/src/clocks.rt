//! The clocks of all live actors.

ghost use Rattle.std.specs.Prelude.{◌≡◌, ◌≤◌, [], OnOk, OnErr};
ghost use Rattle.std.specs.BTreeMap.{insert_entry};
ghost use Rattle.hk_base.specs.declared.time.TheConstants.{MAX_TIME};
ghost use Rattle.std.specs.Option.{option_copied};
ghost use Rattle.hk_clocks.specs.Clocks.{by_actor, pace_of, clock_of};

mod leaving;
mod refused;
mod rising;

use crate::fault::ClockFault;
use crate::leads::Leads;
use crate::pace::Pace;
use crate::rise::Rise;
use hk_base::{Actor, Memory};
use leaving::{forget, take_out};
use refused::{first_behind, first_left, greatest_clock};
use rising::{leads_after, paces_at, put_pace, rise_one};
use std::alloc::Global;
use std::collections::BTreeMap;
use std::marker::Model;

/// The clocks of all live actors, and by how much each has run ahead of each other one.
#[derive(Drop)]
pub struct Clocks {
    skew: u64,
    paces: BTreeMap<Actor, Pace>,
}

impl Model for Clocks {
    ghost use Rattle.hk_clocks.specs.Clocks.{ClockState};
    ghost use Rattle.hk_clocks.specs.Sound.{AreClocks};

    ghost Value = { ClockState };

    ghost view = { λ c. record { skew = c.skew; paces = c.paces.entries } };

    ghost invariant = { λ c. AreClocks (record { skew = c.skew; paces = c.paces.entries }) };
}

// What is kept of a live actor.
fn pace_of(paces: &BTreeMap<Actor, Pace>, actor: Actor) -> Option<&Pace>
    ensures { option_copied result ≡ pace_of paces.now.entries actor }
{
    paces.get(&actor)
}

impl Clocks {
    ghost use Rattle.hk_clocks.specs.Steps.{greatest_clock};
    ghost use Rattle.hk_clocks.specs.Steps.ClockEvent.{Start, Stop, Tick, TickAll};
    ghost use Rattle.hk_clocks.specs.Outs.{IsStepOf};

    /// No actor is live. One clock may run ahead of another by `skew` milliseconds, beside the rate. It takes no memory.
    pub fn new(alloc: Global, skew: u64) -> Clocks
        requires { skew ≤ MAX_TIME }
        ensures { result ≡ record { skew = skew; paces = [] } }
    {
        Clocks {
            skew,
            paces: BTreeMap::new(alloc),
        }
    }

    /// The clock of a live actor. None exactly where the actor is not live.
    pub fn clock_of(&self, actor: Actor) -> Option<u64>
        ensures { result ≡ clock_of self.now.paces actor }
    {
        match pace_of(&self.paces, actor) {
            Some(pace) => Some(pace.clock),
            None => None,
        }
    }

    /// The greatest clock of a live actor, but at least `low`.
    pub fn greatest(&self, low: u64) -> u64
        ensures { result ≡ greatest_clock low self.now.paces }
    {
        greatest_clock(low, &self.paces)
    }

    /// An actor begins with this clock, in milliseconds, and runs ahead of none. `Live` comes exactly where it is live already.
    /// After each error nothing has changed.
    pub fn start(&mut self, alloc: Global, actor: Actor, clock: u64) -> Result<(), ClockFault>
        requires { clock ≤ MAX_TIME }
        ensures { IsStepOf result self.old self.new (Start actor clock) }
    {
        if let Some(_pace) = pace_of(&self.paces, actor) {
            return Err(ClockFault::Live);
        }
        let leads = Leads::new(alloc);
        put_pace(&mut self.paces, actor, Pace { clock, leads })?;
        Ok(())
    }

    /// An actor stops, and its clock is forgotten. `NotLive` comes exactly where it is not live. It takes no memory.
    pub fn stop(&mut self, actor: Actor) -> Result<(), ClockFault>
        ensures { IsStepOf result self.old self.new (Stop actor) }
    {
        if !take_out(&mut self.paces, actor) {
            return Err(ClockFault::NotLive);
        }
        forget(&mut self.paces, actor);
        Ok(())
    }

    /// The clock of one actor becomes `to`, in milliseconds. The causes are looked at in this order: `NotLive` where the actor is
    /// not live; `ClockFalls` where its clock is above `to`; `Skew` where it would run too far ahead of another one, with the clock
    /// of the first such, nodes before managers, in rising order. After each error nothing has changed.
    pub fn tick(&mut self, alloc: Global, actor: Actor, to: u64) -> Result<(), ClockFault>
        requires { to ≤ MAX_TIME }
        ensures { IsStepOf result self.old self.new (Tick actor to) }
    {
        let Some(pace) = pace_of(&self.paces, actor) else {
            return Err(ClockFault::NotLive);
        };
        let clock = pace.clock;
        if to < clock {
            return Err(ClockFault::ClockFalls { clock });
        }
        let rise = Rise::One { actor, to };
        if let Some(other) = first_behind(self.skew, rise, &self.paces, actor, pace) {
            return Err(ClockFault::Skew { to, other });
        }
        let leads = leads_after(alloc, rise, &self.paces, actor, pace)?;
        rise_one(
            &mut self.paces,
            actor,
            to - clock,
            Pace { clock: to, leads },
        );
        Ok(())
    }

    /// The clocks of all live actors become `to`, in milliseconds. The causes are looked at in this order: `ClockFalls` where the
    /// greatest of them is above `to`; `Skew` where some live actor would run too far ahead of another one, with the clock that the
    /// first such other one has now, nodes before managers, in rising order. After each error nothing has changed.
    pub fn tick_all(&mut self, alloc: Global, to: u64) -> Result<(), ClockFault>
        requires { to ≤ MAX_TIME }
        ensures { IsStepOf result self.old self.new (TickAll to) }
    {
        let clock = greatest_clock(0, &self.paces);
        if to < clock {
            return Err(ClockFault::ClockFalls { clock });
        }
        let slowest = to - clock;
        if let Some(other) = first_left(self.skew, to, slowest, &self.paces) {
            return Err(ClockFault::Skew { to, other });
        }
        self.paces = paces_at(alloc, to, slowest, &self.paces)?;
        Ok(())
    }
}
