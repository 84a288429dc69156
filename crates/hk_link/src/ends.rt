//! The ends of a link.

ghost use Rattle.std.specs.Prelude.{◌≡◌, ◌<◌, MatchResult, MatchOption, IfOk, OnOk, OnErr};
ghost use mathlib.Core.List.{IsPrefix};
ghost use Rattle.hk_link.specs.Share.{IsWhole};
ghost use Rattle.hk_link.specs.Ends.{IsPut, IsTaken, Moment, WasFull, WasEmpty, IsSameLink, knowing, seen_of, with_known, new_outlet, new_inlet, left_half, right_half, joined};

use crate::bell::Bell;
use crate::parcel::{Full, Parcel};
use crate::rule::{Known, Line};
use crate::steps;
use crossbeam_queue::Pass;
use hk_base::Memory;
use std::alloc::Global;
use std::marker::Model;
use std::sync::atomic::{AtomicU64, Ordering};
use std::sync::{Arc, Wait};

/// An end of a link that puts. Contracts see which link it is, its room, and what the end knows of what was put and taken.
#[derive(Drop)]
pub struct Outlet {
    line: Arc<Line>,
    pass: Pass<Parcel, Known>,
    bell: Option<Arc<Bell>>,
    // So many parcels were put for which the bell was not rung yet.
    unrung: AtomicU64,
}

impl Model for Outlet {
    ghost use Rattle.std.specs.Arc.{arc_value};
    ghost use Rattle.std.specs.Coded.{codes};
    ghost use Rattle.crossbeam_queue.specs.Passes.{IsPassOf, ruled_capacity};
    ghost use Rattle.hk_link.specs.contracts.rule.Known as known;
    ghost use Rattle.hk_link.specs.Ends.{End, IsPutter};
    ghost use Rattle.hk_link.specs.Passes.{known_of};

    ghost Value = { End };

    ghost coded = { Prim.hlevel (codes, known.the_row.coded) };

    ghost view = { λ o. record { link = (arc_value o.line).table.shared.table_id; room = ruled_capacity (arc_value o.line); known = known_of o.pass } };

    ghost invariant = { λ o. IsPassOf (arc_value o.line) o.pass × IsPutter (known_of o.pass) };
}

/// An end of a link that takes. Contracts see the same of it.
#[derive(Drop)]
pub struct Inlet {
    line: Arc<Line>,
    pass: Pass<Parcel, Known>,
}

impl Model for Inlet {
    ghost use Rattle.std.specs.Arc.{arc_value};
    ghost use Rattle.std.specs.Coded.{codes};
    ghost use Rattle.crossbeam_queue.specs.Passes.{IsPassOf, ruled_capacity};
    ghost use Rattle.hk_link.specs.contracts.rule.Known as known;
    ghost use Rattle.hk_link.specs.Ends.{End, IsTaker};
    ghost use Rattle.hk_link.specs.Passes.{known_of};

    ghost Value = { End };

    ghost coded = { Prim.hlevel (codes, known.the_row.coded) };

    ghost view = { λ i. record { link = (arc_value i.line).table.shared.table_id; room = ruled_capacity (arc_value i.line); known = known_of i.pass } };

    ghost invariant = { λ i. IsPassOf (arc_value i.line) i.pass × IsTaker (known_of i.pass) };
}

/// A new link with room for so many parcels, at least 1: its outlet and its inlet. All memory of the link is taken here.
pub fn link(alloc: Global, room: usize) -> Result<(Outlet, Inlet), Memory>
    requires { 0 < room }
    ensures { IfOk result (λ ends. (ends.0 ≡ new_outlet ends.0.link room) × (ends.1 ≡ new_inlet ends.0.link room)) }
{
    let (queue, mut pass) = steps::queue(alloc, room)?;
    let inlet_pass = steps::part(&queue, &mut pass);
    let line = Arc::new(alloc, queue)?;
    let inlet = Inlet {
        line: Arc::try_clone(&line)?,
        pass: inlet_pass,
    };
    let outlet = Outlet {
        line,
        pass,
        bell: None,
        unrung: AtomicU64::new(0),
    };
    Ok((outlet, inlet))
}

impl Outlet {
    /// The same outlet, which rings the bell once for each parcel. Its splits ring it too. It takes no memory.
    pub fn with_bell(self, bell: Arc<Bell>) -> Outlet
        ensures { result ≡ self }
    {
        let Outlet {
            line,
            pass,
            unrung,
            ..
        } = self;
        Outlet {
            line,
            pass,
            bell: Some(bell),
            unrung,
        }
    }

    /// Puts a parcel behind the others. [`Full`] comes only where the link was full at a moment of this call, and gives the parcel back. It takes no memory.
    pub fn put<R: Wait>(&mut self, rt: &R, parcel: Parcel) -> Result<(), Full>
        ensures link { IsSameLink self.new self.old }
        ensures put { MatchResult result (λ _. IsPut self.old.known parcel self.new.known) (λ full. (full.0 ≡ parcel) × (self.new ≡ self.old) × WasFull self.old) }
    {
        match self.put_quietly(rt, parcel) {
            Ok(()) => {
                self.ring(rt);
                Ok(())
            }
            Err(full) => Err(full),
        }
    }

    /// The same, but the bell is not rung. Whoever puts so calls `ring` behind the last of several puts, before it waits for anything and before it lets the outlet go:
    /// who takes may sleep until then.
    pub fn put_quietly<R: Wait>(&mut self, rt: &R, parcel: Parcel) -> Result<(), Full>
        ensures link { IsSameLink self.new self.old }
        ensures put { MatchResult result (λ _. IsPut self.old.known parcel self.new.known) (λ full. (full.0 ≡ parcel) × (self.new ≡ self.old) × WasFull self.old) }
    {
        match steps::put(rt, &self.line, &mut self.pass, parcel) {
            Ok(()) => {
                self.unrung.fetch_add(1, Ordering::SeqCst);
                Ok(())
            }
            Err(parcel) => Err(Full(parcel)),
        }
    }

    /// Rings the bell once for each parcel that was put quietly since the last call. Where there is none, or no bell, it does nothing.
    pub fn ring<R: Wait>(&self, rt: &R) {
        if self.unrung.load(Ordering::SeqCst) == 0 {
            return;
        }
        let parcels = self.unrung.swap(0, Ordering::SeqCst);
        if let Some(bell) = &self.bell {
            bell.ring(rt, parcels);
        }
    }

    /// For what was put quietly nobody has to be rung any more: whoever calls has it taken.
    pub fn hush(&self) {
        self.unrung.store(0, Ordering::SeqCst);
    }

    /// The bell that its puts ring, if there is one.
    pub fn bell(&self) -> Option<&Arc<Bell>> {
        self.bell.as_ref()
    }

    /// Whether nobody takes from the link any more, which its bell tells. What is put then stays there.
    pub fn is_closed(&self) -> bool {
        match &self.bell {
            Some(bell) => bell.is_closed(),
            None => false,
        }
    }

    /// Another outlet of the same link, with half of this one's share. After `Memory` nothing has changed.
    pub fn split(&mut self) -> Result<Outlet, Memory>
        ensures old { OnOk result (self.new ≡ with_known self.old (left_half self.old.known)) }
        ensures new { IfOk result (λ other. other ≡ with_known self.old (right_half self.old.known)) }
        ensures err { OnErr result (self.new ≡ self.old) }
    {
        let line = Arc::try_clone(&self.line)?;
        let bell = match &self.bell {
            Some(bell) => Some(Arc::try_clone(bell)?),
            None => None,
        };
        let pass = steps::halve(&line, &mut self.pass);
        Ok(Outlet {
            line,
            pass,
            bell,
            unrung: AtomicU64::new(0),
        })
    }

    /// Takes in another outlet of the same link, and rings later for what that put quietly. It takes no memory.
    pub fn join(&mut self, other: Outlet)
        requires { IsSameLink other self.old }
        ensures { self.new ≡ with_known self.old (joined self.old.known other.known) }
    {
        let Outlet { pass, unrung, .. } = other;
        self.unrung
            .fetch_add(unrung.load(Ordering::SeqCst), Ordering::SeqCst);
        steps::join(&self.line, &mut self.pass, pass);
    }
}

impl Inlet {
    /// Takes the oldest parcel. `None` comes only where the link was empty at a moment of this call. It takes no memory.
    pub fn take<R: Wait>(&mut self, rt: &R) -> Option<Parcel>
        ensures link { IsSameLink self.new self.old }
        ensures taken { MatchOption result ((self.new ≡ self.old) × WasEmpty self.old) (λ parcel. IsTaken self.old.known parcel self.new.known) }
    {
        steps::take(rt, &self.line, &mut self.pass)
    }

    /// Another inlet of the same link, with half of this one's share. After `Memory` nothing has changed.
    pub fn split(&mut self) -> Result<Inlet, Memory>
        ensures old { OnOk result (self.new ≡ with_known self.old (left_half self.old.known)) }
        ensures new { IfOk result (λ other. other ≡ with_known self.old (right_half self.old.known)) }
        ensures err { OnErr result (self.new ≡ self.old) }
    {
        let line = Arc::try_clone(&self.line)?;
        let pass = steps::halve(&line, &mut self.pass);
        Ok(Inlet { line, pass })
    }

    /// Takes in another inlet of the same link. It takes no memory.
    pub fn join(&mut self, other: Inlet)
        requires { IsSameLink other self.old }
        ensures { self.new ≡ with_known self.old (joined self.old.known other.known) }
    {
        let Inlet { pass, .. } = other;
        steps::join(&self.line, &mut self.pass, pass);
    }

    /// Tells the inlet what an outlet of the same link knows of what was put. It takes no memory, and moves no parcel.
    pub fn learn(&mut self, outlet: &mut Outlet)
        requires { IsSameLink outlet.old self.old }
        ensures learned { self.new ≡ with_known self.old (knowing (seen_of outlet.old.known.put) self.old.known.taken) }
        ensures same { outlet.new ≡ outlet.old }
    {
        let mut told = steps::tell(&self.line, &mut outlet.pass);
        steps::unite(&self.line, &mut told, &mut self.pass);
        self.pass = told;
    }
}

/// Ends a link with its last two ends: what was put, as far as the outlet has seen it, and what was taken, as far as the inlet has, are of one moment. Where the
/// outlet has the whole right to put, what was taken is a prefix of what was put, in order. It takes no memory.
pub fn close_link(outlet: Outlet, inlet: Inlet)
    requires { IsSameLink inlet outlet }
    ensures moment { (held : _) × Moment (knowing outlet.known.put inlet.known.taken) held }
    ensures prefix { IsWhole outlet.known.put.share → IsPrefix inlet.known.taken.seen outlet.known.put.seen }
{
    let Outlet { line, mut pass, .. } = outlet;
    let Inlet {
        pass: mut other,
        ..
    } = inlet;
    steps::unite(&line, &mut pass, &mut other);
    steps::look(&line, &mut pass);
}
