//! Where the calls of a history stand, in it and in an order.

ghost use Rattle.std.specs.Prelude.{◌≡◌, ◌==◌, ℕ, Some, if◌then◌else◌, OnOk, IfOk, IsOk};
ghost use Rattle.std.specs.Option.{option_or};
ghost use Rattle.std.specs.Ordering.{nat_cmp};
ghost use Rattle.std.specs.BTreeMap.{get};
ghost use Rattle.hk_history.specs.History.{is_call, is_reply};
ghost use Rattle.hk_history.specs.Legal.{is_entry};
ghost use Rattle.hk_history.specs.Index.{PlacesCalls, PlacesReplies, PlacesEntries, CountsEntries};

use crate::event::{Entry, Event};
use hk_base::Memory;
use std::alloc::Global;
use std::collections::BTreeMap;

// Keeps the place of the number, unless it has an earlier one.
fn note(places: &mut BTreeMap<u64, usize>, number: u64, place: usize) -> Result<(), Memory>
    ensures { OnOk result ((n : ℕ) → get nat_cmp places.new n
        ≡ (if number == n then option_or (get nat_cmp places.old n) (Some place) else get nat_cmp places.old n)) }
{
    if places.contains_key(&number) {
        return Ok(());
    }
    places.insert(number, place)?;
    Ok(())
}

fn note_call(places: &mut BTreeMap<u64, usize>, event: &Event, place: usize) -> Result<(), Memory>
    ensures { OnOk result ((n : ℕ) → get nat_cmp places.new n
        ≡ (if is_call n event.now then option_or (get nat_cmp places.old n) (Some place) else get nat_cmp places.old n)) }
{
    match event {
        Event::Call { no, .. } => note(places, no.0, place),
        Event::Reply { .. } => Ok(()),
    }
}

fn note_reply(places: &mut BTreeMap<u64, usize>, event: &Event, place: usize) -> Result<(), Memory>
    ensures { OnOk result ((n : ℕ) → get nat_cmp places.new n
        ≡ (if is_reply n event.now then option_or (get nat_cmp places.old n) (Some place) else get nat_cmp places.old n)) }
{
    match event {
        Event::Call { .. } => Ok(()),
        Event::Reply { no, .. } => note(places, no.0, place),
    }
}

/// The place of each call in the history, by its number.
pub fn call_places(alloc: Global, items: &[Event]) -> Result<BTreeMap<u64, usize>, Memory>
    ensures { IfOk result (λ places. PlacesCalls places items.now) }
{
    let mut places = BTreeMap::new(alloc);
    for (place, event) in items.iter().enumerate() {
        note_call(&mut places, event, place)?;
    }
    Ok(places)
}

/// The place of each reply in the history, by its call's number.
pub fn reply_places(alloc: Global, items: &[Event]) -> Result<BTreeMap<u64, usize>, Memory>
    ensures { IfOk result (λ places. PlacesReplies places items.now) }
{
    let mut places = BTreeMap::new(alloc);
    for (place, event) in items.iter().enumerate() {
        note_reply(&mut places, event, place)?;
    }
    Ok(places)
}

/// The first place of each call in the order.
pub fn entry_places(alloc: Global, order: &[Entry]) -> Result<BTreeMap<u64, usize>, Memory>
    ensures { IfOk result (λ places. PlacesEntries places order.now) }
{
    let mut places = BTreeMap::new(alloc);
    for (place, entry) in order.iter().enumerate() {
        note(&mut places, entry.call.0, place)?;
    }
    Ok(places)
}

/// How often each call stands in the order.
pub fn entry_counts(alloc: Global, order: &[Entry]) -> Result<BTreeMap<u64, usize>, Memory>
    ensures { IfOk result (λ counts. CountsEntries counts order.now) }
{
    let mut counts = BTreeMap::new(alloc);
    for entry in order {
        let count = counts.get(&entry.call.0).copied().unwrap_or(0);
        counts.insert(entry.call.0, count + 1)?;
    }
    Ok(counts)
}
