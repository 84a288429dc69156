//! Letters on their way to the cores of a manager.

ghost use Rattle.std.specs.Prelude.{◌≡◌, false, OnOk, OnErr, IfOk};
ghost use Rattle.std.specs.Bool.{MatchBool};
ghost use Rattle.hk_link.specs.Ends.{IsPut, IsSameLink, WasFull, WasEmpty, new_outlet, new_inlet};
ghost use Rattle.hk_durable.specs.declared.post.TheConstants.{MOST_PARCELS};
ghost use Rattle.hk_managing.specs.Relaying.{node_of, asker, noted, NotesAll, NotesFront};

use hk_base::{Actor, Body, Letter, Memory, NodeId};
use hk_durable::MOST_PARCELS;
use hk_link::{Full, Inlet, Outlet, Parcel, link};
use hk_office::Office;
use std::alloc::Global;
use std::sync::Wait;

/// Passes letters on to the cores. A node's ask for a lease is noted as it passes: who asks, and of which view, is what the office makes its wishes of.
#[derive(Drop)]
pub struct Relay {
    inlet: Inlet,
    outlet: Outlet,
}

fn node_of(actor: Actor) -> Option<NodeId>
    ensures { result ≡ node_of actor }
{
    match actor {
        Actor::Node(node) => Some(node),
        Actor::Manager(_) => None,
    }
}

// The node that asks for a lease, if the letter does.
fn asker(letter: &Letter) -> Option<NodeId>
    ensures { result ≡ asker letter.now }
{
    match &letter.body {
        Body::LeaseAsk { .. } => node_of(letter.from),
        _ => None,
    }
}

// Notes what a parcel asks for, if it does.
fn note(office: &mut Office, now: u64, parcel: &Parcel) -> Result<(), Memory>
    ensures ok { OnOk result (office.new ≡ noted now parcel.now office.old) }
    ensures err { OnErr result (office.new ≡ office.old) }
{
    match asker(&parcel.letter) {
        Some(node) => office.note_ask(now, parcel.shard, node, parcel.letter.epoch),
        None => Ok(()),
    }
}

// Puts a parcel, and tells whether there was room for it. It is lost where there was none.
fn hand_on<R: Wait>(rt: &R, outlet: &mut Outlet, parcel: Parcel) -> bool
    ensures link { IsSameLink outlet.new outlet.old }
    ensures put { MatchBool result (IsPut outlet.old.known parcel outlet.new.known) ((outlet.new ≡ outlet.old) × WasFull outlet.old) }
{
    match outlet.put_quietly(rt, parcel) {
        Ok(()) => true,
        Err(Full(_lost)) => false,
    }
}

impl Relay {
    /// What comes by this inlet is passed on to the other one that is given.
    pub fn new(alloc: Global, inlet: Inlet) -> Result<(Relay, Inlet), Memory>
        ensures inlet { IfOk result (λ made. made.0.inlet ≡ inlet) }
        ensures outlet { IfOk result (λ made. made.0.outlet ≡ new_outlet made.0.outlet.link MOST_PARCELS) }
        ensures passed { IfOk result (λ made. made.1 ≡ new_inlet made.0.outlet.link MOST_PARCELS) }
    {
        let (outlet, passed) = link(alloc, MOST_PARCELS)?;
        Ok((Relay { inlet, outlet }, passed))
    }

    /// Passes on what came, as much as the cores take in one turn, and gives whether more may wait. A parcel for which there is no room, since the cores did not take
    /// those before it, is lost. After `Memory` the last parcel's ask was not noted; whoever asked asks again.
    pub fn pass<R: Wait>(&mut self, rt: &R, office: &mut Office, now: u64) -> Result<bool, Memory>
        ensures ok { OnOk result (NotesAll now office.old office.new self.old.inlet self.new.inlet self.old.outlet self.new.outlet) }
        ensures err { OnErr result (NotesFront now office.old office.new self.old.inlet self.new.inlet self.old.outlet self.new.outlet) }
        ensures drained { IfOk result (λ more. more ≡ false → WasEmpty self.new.inlet) }
    {
        for _taken in 0..MOST_PARCELS {
            let Some(parcel) = self.inlet.take(rt) else {
                return Ok(false);
            };
            let noted = note(office, now, &parcel);
            let has_room = hand_on(rt, &mut self.outlet, parcel);
            noted?;
            if !has_room {
                return Ok(true);
            }
        }
        Ok(true)
    }
}
