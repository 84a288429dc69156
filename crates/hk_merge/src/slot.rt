//! Entries and notes in their places.

ghost use Rattle.std.specs.Prelude.{◌≡◌, ◌≤◌, length, OnOk, IfOk, map};
ghost use Rattle.std.specs.BTreeMap.{insert_entry};
ghost use Rattle.std.specs.Map.{values_of};
ghost use Rattle.hk_merge.specs.Merged.{note_place, place_cmp};
ghost use Rattle.hk_merge.specs.Placed.{item_of, placed, put_entries, put_journals, put_notes, with_note, merged, items_in};
ghost use Rattle.hk_merge.specs.Indexed.{place_by};

use crate::index::Index;
use crate::note::Note;
use hk_base::{Memory, NodeId};
use hk_journal::{Journal, JournalEntry};
use std::alloc::Global;
use std::collections::BTreeMap;

/// Where an item stands among the others: six numbers, which are compared from the front. A ticket; 0, or 1 behind all entries of that ticket; the node; 0 for a note before
/// an entry of the node, 1 for the entry; of a note its call, and its number in the list.
pub type Place = [u64; 6];

/// An entry of a node, or a note with its number in the list of notes, from 0.
#[derive(Clone, Copy)]
pub enum Slot<'a> {
    Step {
        node: NodeId,
        entry: &'a JournalEntry,
    },
    LocalRead {
        listed: u64,
        note: &'a Note,
    },
}

/// Entries and notes, by their places.
pub type Slots<'a> = BTreeMap<Place, Slot<'a>>;

// Where a note stands, by the ticket of the next entry of its key.
fn place_by(next: Option<u64>, listed: u64, note: &Note) -> Place
    ensures { result ≡ place_by next listed note.now }
{
    let late = note.own.max(note.ticket);
    let node = u64::from(note.node.0);
    match next {
        Some(next) => {
            if next <= late {
                [next, 0, node, 0, note.call.0, listed]
            } else {
                [late, 1, node, 0, note.call.0, listed]
            }
        }
        None => [late, 1, node, 0, note.call.0, listed],
    }
}

fn note_place(journal: &Index<'_>, listed: u64, note: &Note) -> Place
    ensures { result ≡ note_place journal.now listed note.now }
{
    let next = journal.next_ticket(&note.key, note.ticket);
    place_by(next, listed, note)
}

fn put<'a>(slots: &mut Slots<'a>, place: Place, slot: Slot<'a>) -> Result<(), Memory>
    ensures { OnOk result (placed slots.new.entries ≡ insert_entry place_cmp (placed slots.old.entries) place (item_of slot.entry)) }
{
    slots.insert(place, slot)?;
    Ok(())
}

fn put_entries<'a>(
    slots: &mut Slots<'a>,
    node: NodeId,
    entries: &'a [JournalEntry],
) -> Result<(), Memory>
    ensures { OnOk result (placed slots.new.entries ≡ put_entries node (placed slots.old.entries) entries.now) }
{
    for entry in entries {
        let place = [entry.ticket, 0, u64::from(node.0), 1, 0, 0];
        put(slots, place, Slot::Step { node, entry })?;
    }
    Ok(())
}

fn put_journals<'a>(slots: &mut Slots<'a>, journals: &'a [Journal]) -> Result<(), Memory>
    requires { length journals.now ≤ 65536 }
    ensures { OnOk result (placed slots.new.entries ≡ put_journals 0 (placed slots.old.entries) journals.now) }
{
    for (number, journal) in journals.iter().enumerate() {
        put_entries(slots, NodeId(number as u16), journal.as_slice())?;
    }
    Ok(())
}

fn put_note<'a>(
    slots: &mut Slots<'a>,
    journals: &[Index<'_>],
    listed: u64,
    note: &'a Note,
) -> Result<(), Memory>
    ensures { OnOk result (placed slots.new.entries ≡ with_note journals.now listed note.now (placed slots.old.entries)) }
{
    let Some(journal) = journals.get(usize::from(note.node.0)) else {
        return Ok(());
    };
    if journal.is_founded(note.ticket) {
        let place = note_place(journal, listed, note);
        return put(slots, place, Slot::LocalRead { listed, note });
    }
    Ok(())
}

fn put_notes<'a>(
    slots: &mut Slots<'a>,
    journals: &[Index<'_>],
    notes: &'a [Note],
) -> Result<(), Memory>
    ensures { OnOk result (placed slots.new.entries ≡ put_notes journals.now 0 (placed slots.old.entries) notes.now) }
{
    for (listed, note) in notes.iter().enumerate() {
        put_note(slots, journals, listed as u64, note)?;
    }
    Ok(())
}

fn index_all<'a>(alloc: Global, journals: &'a [Journal]) -> Result<Vec<Index<'a>>, Memory>
    ensures { IfOk result (λ all. all.items ≡ journals.now) }
{
    let mut all = Vec::new(alloc);
    for journal in journals {
        let index = Index::new(alloc, journal.as_slice())?;
        all.push(index)?;
    }
    Ok(all)
}

fn place<'a>(alloc: Global, journals: &'a [Journal], notes: &'a [Note]) -> Result<Slots<'a>, Memory>
    requires { length journals.now ≤ 65536 }
    ensures { IfOk result (λ slots. items_in slots.entries ≡ merged journals.now notes.now) }
{
    let indexes = index_all(alloc, journals)?;
    let mut slots = BTreeMap::new(alloc);
    put_journals(&mut slots, journals)?;
    put_notes(&mut slots, indexes.as_slice(), notes)?;
    Ok(slots)
}

fn in_order<'a>(alloc: Global, slots: &Slots<'a>) -> Result<Vec<Slot<'a>>, Memory>
    ensures { IfOk result (λ all. all.items ≡ values_of slots.now.entries) }
{
    let mut all = Vec::new(alloc);
    for (place, slot) in slots.iter() {
        let _place = place;
        all.push(*slot)?;
    }
    Ok(all)
}

/// The entries of all journals and the notes that are founded, in the order of their places.
pub fn merge<'a>(
    alloc: Global,
    journals: &'a [Journal],
    notes: &'a [Note],
) -> Result<Vec<Slot<'a>>, Memory>
    requires { length journals.now ≤ 65536 }
    ensures { IfOk result (λ slots. map item_of slots.items ≡ merged journals.now notes.now) }
{
    let slots = place(alloc, journals, notes)?;
    in_order(alloc, &slots)
}
