//! Outlets that are split, put and taken away.

ghost use Rattle.std.specs.Prelude.{◌≡◌, ◌++◌, ◌∷◌, [], map, IfOk, OnOk, OnErr};
ghost use Rattle.hk_overseer.specs.Sends.{is_same};
ghost use Rattle.hk_routes.specs.Outlets.{old_half, new_half, way_of, others};

use hk_base::{Actor, Memory, Sequence};
use hk_link::Outlet;
use hk_overseer::Outlets;
use std::alloc::Global;

fn is_same(one: Actor, other: Actor) -> bool
    ensures { result ≡ is_same one other }
{
    match (one, other) {
        (Actor::Node(one), Actor::Node(other)) => one.0 == other.0,
        (Actor::Manager(one), Actor::Manager(other)) => one == other,
        _ => false,
    }
}

// An outlet more, to the same actor.
fn split_one(outlet: &mut (Actor, Outlet)) -> Result<(Actor, Outlet), Memory>
    ensures old { OnOk result (outlet.new ≡ old_half outlet.old) }
    ensures new { IfOk result (λ more. more ≡ new_half outlet.old) }
    ensures err { OnErr result (outlet.new ≡ outlet.old) }
{
    let more = outlet.1.split()?;
    Ok((outlet.0, more))
}

/// One outlet more to each of them. After `Memory` some have been split, but each leads where it led.
pub(crate) fn split_each(
    alloc: Global,
    outlets: &mut Vec<(Actor, Outlet)>,
) -> Result<Outlets, Memory>
    ensures old { OnOk result (outlets.new.items ≡ map old_half outlets.old.items) }
    ensures new { IfOk result (λ more. more ≡ map new_half outlets.old.items) }
    ensures err { OnErr result (map way_of outlets.new.items ≡ map way_of outlets.old.items) }
{
    let mut more = Sequence::new(alloc);
    for place in 0..outlets.len() {
        let one = split_one(&mut outlets[place])?;
        more.push(one)?;
    }
    Ok(more)
}

/// One more, behind the others. After `Memory` nothing has changed.
pub(crate) fn put(
    outlets: &mut Vec<(Actor, Outlet)>,
    to: Actor,
    outlet: Outlet,
) -> Result<(), Memory>
    ensures ok { OnOk result (outlets.new.items ≡ outlets.old.items ++ (to, outlet) ∷ []) }
    ensures err { OnErr result (outlets.new.items ≡ outlets.old.items) }
{
    outlets.push((to, outlet))?;
    Ok(())
}

/// None leads to this actor any more.
pub(crate) fn keep_others(outlets: &mut Vec<(Actor, Outlet)>, to: Actor)
    ensures { outlets.new.items ≡ others to outlets.old.items }
{
    outlets.retain(|outlet| !is_same(outlet.0, to));
}
