//! The letters that leave, each by the outlet to its addressee.

ghost use Rattle.std.specs.Prelude.{◌≡◌, ◌<◌};
ghost use Rattle.std.specs.List.{position, AllByRecursion};
ghost use Rattle.hk_base.specs.Range.{IsLetter};
ghost use Rattle.hk_base.specs.Lengths.{FitsFrame};
ghost use Rattle.hk_overseer.specs.Sends.{is_same, place_of, IsOffered, IsSent, AreSent};

use hk_base::{Actor, Letter, Letters, MAX_FRAME_LEN, Sequence, frame_length};
use hk_link::{Full, Outlet, Parcel};
use std::sync::Wait;

/// The outlets of a post, each with the actor to whom it leads.
pub type Outlets = Sequence<(Actor, Outlet)>;

fn is_same(a: Actor, b: Actor) -> bool
    ensures { result ≡ is_same a b }
{
    match (a, b) {
        (Actor::Node(a), Actor::Node(b)) => a.0 == b.0,
        (Actor::Manager(a), Actor::Manager(b)) => a == b,
        _ => false,
    }
}

fn place_of(to: Actor, outlets: &[(Actor, Outlet)]) -> Option<usize>
    ensures { result ≡ place_of to outlets.now }
{
    outlets.iter().position(|outlet| is_same(to, outlet.0))
}

// Puts the letter, unless the link is full. Who takes it is not rung for yet.
fn offer<R: Wait>(rt: &R, outlet: &mut Outlet, shard: u8, letter: Letter)
    requires shard { shard < 8 }
    requires letter { IsLetter letter }
    requires fits { FitsFrame letter }
    ensures { IsOffered shard letter outlet.old outlet.new }
{
    let parcel = Parcel { shard, letter };
    match outlet.put_quietly(rt, parcel) {
        Ok(()) => {}
        Err(Full(_lost)) => {}
    }
}

/// Sends a letter to a shard of its addressee, by the first outlet to that actor. It is lost where there is none, where the link is full, or where it fits no
/// frame. It takes no memory. Whoever sends calls [`ring_all`] behind the last of several letters, before it waits for anything.
pub fn send<R: Wait>(rt: &R, outlets: &mut Vec<(Actor, Outlet)>, shard: u8, letter: Letter)
    requires shard { shard < 8 }
    requires letter { IsLetter letter }
    ensures { IsSent shard letter outlets.old.items outlets.new.items }
{
    let Some(place) = place_of(letter.to, outlets.as_slice()) else {
        return;
    };
    if frame_length(&letter) > MAX_FRAME_LEN {
        return;
    }
    offer(rt, &mut outlets[place].1, shard, letter);
}

/// Sends these letters, one after the other, as [`send`] does.
pub fn send_all<R: Wait>(rt: &R, outlets: &mut Vec<(Actor, Outlet)>, shard: u8, letters: Letters)
    requires shard { shard < 8 }
    requires letters { AllByRecursion IsLetter letters }
    ensures { AreSent shard letters outlets.old.items outlets.new.items }
{
    for letter in letters.into_vec() {
        send(rt, outlets, shard, letter);
    }
}

/// Rings for all that was sent by these outlets. Where nothing was sent since the last call it does nothing.
pub fn ring_all<R: Wait>(rt: &R, outlets: &[(Actor, Outlet)]) {
    for (_actor, outlet) in outlets {
        outlet.ring(rt);
    }
}
