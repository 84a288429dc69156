//! A journal, with what finds the entries of it that notes ask for.

ghost use Rattle.std.specs.Prelude.{◌≡◌, ◌∷◌, ◌++◌, [], List, nat_lt, nat_le, OnOk, IfOk};
ghost use Rattle.std.specs.List.{find};
ghost use Rattle.hk_journal.specs.declared.step_entry.JournalEntry.{JournalEntry};
ghost use Rattle.hk_node.specs.Laws.{key_of};
ghost use Rattle.hk_merge.specs.Merged.{is_named};
ghost use Rattle.hk_merge.specs.Placed.{is_founded};
ghost use Rattle.hk_merge.specs.Indexed.{with_ticket, put_at, tickets_at, with_named, next_ticket, IsIndexed};

use crate::named::key_of;
use hk_base::{Key, Memory};
use hk_journal::JournalEntry;
use std::alloc::Global;
use std::collections::{BTreeMap, BTreeSet};
use std::marker::Model;
use std::ops::Bound;

/// Tickets, of which each was above all before it when it was put.
#[derive(Drop)]
pub struct Rising {
    tickets: BTreeSet<u64>,
}

impl Model for Rising {
    ghost use Rattle.std.specs.Prelude.{List, ℕ};

    ghost Value = { List ℕ };

    ghost view = { λ r. r.tickets.keys };
}

impl Rising {
    fn new(alloc: Global) -> Rising
        ensures { result ≡ [] }
    {
        Rising {
            tickets: BTreeSet::new(alloc),
        }
    }

    // The least one that is not below the ticket.
    fn first_from(&self, ticket: u64) -> Option<u64>
        ensures { result ≡ find (nat_le ticket) self.now }
    {
        match self
            .tickets
            .range((Bound::Included(ticket), Bound::Unbounded))
            .next()
        {
            Some(found) => Some(*found),
            None => None,
        }
    }

    // The least one above the ticket.
    fn first_above(&self, ticket: u64) -> Option<u64>
        ensures { result ≡ find (nat_lt ticket) self.now }
    {
        match self
            .tickets
            .range((Bound::Excluded(ticket), Bound::Unbounded))
            .next()
        {
            Some(found) => Some(*found),
            None => None,
        }
    }

    // Puts the ticket, unless one is not below it.
    fn put(&mut self, ticket: u64) -> Result<(), Memory>
        ensures { OnOk result (self.new ≡ with_ticket self.old ticket) }
    {
        if self.first_from(ticket).is_some() {
            return Ok(());
        }
        self.tickets.insert(ticket)?;
        Ok(())
    }
}

type KeyTickets = BTreeMap<Key, Rising>;

fn first(alloc: Global, ticket: u64) -> Result<Rising, Memory>
    ensures { IfOk result (λ tickets. tickets ≡ ticket ∷ []) }
{
    let mut tickets = Rising::new(alloc);
    tickets.put(ticket)?;
    Ok(tickets)
}

// Puts the ticket of an entry of the key.
fn put(kept: &mut KeyTickets, alloc: Global, key: &Key, ticket: u64) -> Result<(), Memory>
    ensures { OnOk result (kept.new.entries ≡ put_at (tickets_at key.now kept.old.entries) kept.old.entries key.now ticket) }
{
    if let Some(tickets) = kept.get_mut(key) {
        return tickets.put(ticket);
    }
    let key = key.share()?;
    let tickets = first(alloc, ticket)?;
    kept.insert(key, tickets)?;
    Ok(())
}

fn put_named(kept: &mut KeyTickets, alloc: Global, entry: &JournalEntry) -> Result<(), Memory>
    ensures { OnOk result (kept.new.entries ≡ with_named (key_of entry.now.event) kept.old.entries entry.now.ticket) }
{
    match key_of(&entry.event) {
        Some(key) => put(kept, alloc, key, entry.ticket),
        None => Ok(()),
    }
}

// Adds the entry that stands behind those so far.
fn add(
    tickets: &mut BTreeSet<u64>,
    kept: &mut KeyTickets,
    alloc: Global,
    entry: &JournalEntry,
) -> Result<(), Memory>
    ensures { (journal : List JournalEntry) → IsIndexed tickets.old.keys kept.old.entries journal → OnOk result (IsIndexed tickets.new.keys kept.new.entries (journal ++ entry.now ∷ [])) }
{
    tickets.insert(entry.ticket)?;
    put_named(kept, alloc, entry)
}

/// A journal, with what finds its entries by their tickets, and the next one of a key.
#[derive(Drop)]
pub struct Index<'a> {
    journal: &'a [JournalEntry],
    tickets: BTreeSet<u64>,
    kept: KeyTickets,
}

impl<'a> Model for Index<'a> {
    ghost use Rattle.std.specs.Prelude.{List};
    ghost use Rattle.hk_journal.specs.declared.step_entry.JournalEntry.{JournalEntry};
    ghost use Rattle.hk_merge.specs.Indexed.{IsIndexed};

    ghost Value = { List JournalEntry };

    ghost view = { λ i. i.journal.now };

    ghost invariant = { λ i. IsIndexed i.tickets.keys i.kept.entries i.journal.now };
}

impl<'a> Index<'a> {
    pub fn new(alloc: Global, journal: &'a [JournalEntry]) -> Result<Index<'a>, Memory>
        ensures { IfOk result (λ index. index ≡ journal.now) }
    {
        let mut tickets = BTreeSet::new(alloc);
        let mut kept = BTreeMap::new(alloc);
        for entry in journal {
            add(&mut tickets, &mut kept, alloc, entry)?;
        }
        Ok(Index {
            journal,
            tickets,
            kept,
        })
    }

    /// Whether an entry has the ticket.
    pub fn is_founded(&self, ticket: u64) -> bool
        ensures { result ≡ is_founded self.now ticket }
    {
        self.tickets.contains(&ticket)
    }

    /// The ticket of the next entry of the key behind the ticket.
    pub fn next_ticket(&self, key: &Key, ticket: u64) -> Option<u64>
        ensures { result ≡ next_ticket key.now ticket self.now }
    {
        match self.kept.get(key) {
            Some(tickets) => tickets.first_above(ticket),
            None => None,
        }
    }
}
