//! What becomes of clocks that rise.

ghost use Rattle.std.specs.Prelude.{◌≡◌, ◌+◌, ◌-◌, ◌*◌, ◌≤◌, map, IfOk, OnOk, OnErr};
ghost use Rattle.std.specs.List.{AllByRecursion};
ghost use Rattle.std.specs.List.Sorted.{IsStrictlySortedBy};
ghost use Rattle.std.specs.BTreeMap.{insert_entry};
ghost use Rattle.std.specs.Map.{keys_of};
ghost use Rattle.hk_base.specs.declared.time.TheConstants.{MAX_TIME};
ghost use Rattle.hk_clocks.specs.declared.rise.Rise.TheVariants.{All};
ghost use Rattle.hk_clocks.specs.Clocks.{by_actor};
ghost use Rattle.hk_clocks.specs.Steps.{lead_by, lead_after, leads_after, paces_after};
ghost use Rattle.hk_clocks.specs.InPlace.{falls, written};
ghost use Rattle.hk_clocks.specs.Sound.{AreBounded, IsRise};

use crate::leads::Leads;
use crate::pace::Pace;
use crate::rise::Rise;
use crate::values::write;
use hk_base::{Actor, Memory};
use std::alloc::Global;
use std::collections::BTreeMap;

// What becomes of a lead where the clocks of the pair rise by `ahead` and `behind`.
fn lead_by(lead: u64, ahead: u64, behind: u64) -> u64
    requires lead { lead ≤ 1000 * MAX_TIME }
    requires ahead { ahead ≤ MAX_TIME }
    requires behind { behind ≤ MAX_TIME }
    ensures { result ≡ lead_by lead ahead behind }
{
    (lead + 1000 * ahead).saturating_sub(1100 * behind)
}

// The lead of an actor over another one after the rise.
fn lead_after(rise: Rise, actor: Actor, pace: &Pace, other: Actor, theirs: &Pace) -> u64
    requires rise { IsRise rise }
    requires bounded { AreBounded (actor, pace.now) }
    ensures { result ≡ lead_after rise (actor, pace.now) (other, theirs.now) }
{
    let ahead = rise.elapsed(actor, pace.clock);
    let behind = rise.elapsed(other, theirs.clock);
    lead_by(pace.leads.over(other), ahead, behind)
}

/// The leads of an actor over all live ones after the rise.
pub(super) fn leads_after(
    alloc: Global,
    rise: Rise,
    paces: &BTreeMap<Actor, Pace>,
    actor: Actor,
    pace: &Pace,
) -> Result<Leads, Memory>
    requires rise { IsRise rise }
    requires ordered { IsStrictlySortedBy by_actor (keys_of paces.now.entries) }
    requires bounded { AreBounded (actor, pace.now) }
    ensures { IfOk result (λ leads. leads ≡ leads_after rise paces.now.entries (actor, pace.now)) }
{
    let mut leads = Leads::new(alloc);
    for (other, theirs) in paces.iter() {
        leads.put(*other, lead_after(rise, actor, pace, *other, theirs))?;
    }
    Ok(leads)
}

/// Puts a live actor under its name.
pub(super) fn put_pace(
    paces: &mut BTreeMap<Actor, Pace>,
    actor: Actor,
    pace: Pace,
) -> Result<(), Memory>
    ensures ok { OnOk result (paces.new.entries ≡ insert_entry by_actor paces.old.entries actor pace) }
    ensures err { OnErr result (paces.new.entries ≡ paces.old.entries) }
{
    paces.insert(actor, pace)?;
    Ok(())
}

// The leads of an actor over all live ones after all clocks came to `to`. Where it has none, and no clock rises by less than ten
// elevenths of what its own does, it has none then, and no other clock is looked at.
fn leads_at(
    alloc: Global,
    to: u64,
    least: u64,
    paces: &BTreeMap<Actor, Pace>,
    actor: Actor,
    pace: &Pace,
) -> Result<Leads, Memory>
    requires to { to ≤ MAX_TIME }
    requires least { least ≤ MAX_TIME }
    requires ordered { IsStrictlySortedBy by_actor (keys_of paces.now.entries) }
    requires bounded { AreBounded (actor, pace.now) }
    requires rising { AllByRecursion (λ q. least ≤ to - q.1.clock) paces.now.entries }
    ensures { IfOk result (λ leads. leads ≡ leads_after (All to) paces.now.entries (actor, pace.now)) }
{
    let risen = to.saturating_sub(pace.clock);
    if pace.leads.is_empty() && 1000 * risen <= 1100 * least {
        return Ok(Leads::new(alloc));
    }
    leads_after(alloc, Rise::All { to }, paces, actor, pace)
}

/// All clocks with their leads after they came to `to`. No clock rises by less than `least`.
pub(super) fn paces_at(
    alloc: Global,
    to: u64,
    least: u64,
    paces: &BTreeMap<Actor, Pace>,
) -> Result<BTreeMap<Actor, Pace>, Memory>
    requires to { to ≤ MAX_TIME }
    requires least { least ≤ MAX_TIME }
    requires ordered { IsStrictlySortedBy by_actor (keys_of paces.now.entries) }
    requires bounded { AllByRecursion AreBounded paces.now.entries }
    requires rising { AllByRecursion (λ q. least ≤ to - q.1.clock) paces.now.entries }
    ensures { IfOk result (λ after. after.entries ≡ paces_after (All to) paces.now.entries) }
{
    let mut after = BTreeMap::new(alloc);
    for (actor, pace) in paces.iter() {
        let leads = leads_at(alloc, to, least, paces, *actor, pace)?;
        put_pace(&mut after, *actor, Pace { clock: to, leads })?;
    }
    Ok(after)
}

// The leads of all over an actor fall by what its clock rises.
fn fall_over(paces: &mut BTreeMap<Actor, Pace>, actor: Actor, risen: u64)
    requires { risen ≤ MAX_TIME }
    ensures { paces.new.entries ≡ map (λ p. (p.0, falls actor risen p.1)) paces.old.entries }
{
    paces.retain(|_other, pace| {
        pace.fall(actor, risen);
        true
    });
}

/// The clock of one actor rises by `risen`: its own clock and leads are written, and the leads of all others over it fall. It takes
/// no memory.
pub(super) fn rise_one(paces: &mut BTreeMap<Actor, Pace>, actor: Actor, risen: u64, pace: Pace)
    requires { risen ≤ MAX_TIME }
    ensures { paces.new.entries ≡ written actor risen pace paces.old.entries }
{
    fall_over(paces, actor, risen);
    write(paces, actor, pace);
}
