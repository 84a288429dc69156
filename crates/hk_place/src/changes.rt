//! Which steps of a journal changed which rows.

ghost use Rattle.std.specs.Prelude.{◌≡◌, ◌++◌, ◌∷◌, [], List, ℕ, map, IfOk, OnOk};
ghost use Rattle.std.specs.List.{AllByRecursion, filter};
ghost use Rattle.std.specs.Ordering.{is_eq};
ghost use Rattle.std.specs.List.Sorted.{IsNonDecreasingBy};
ghost use Rattle.hk_copy.specs.Batches.{key_cmp};
ghost use Rattle.hk_node.specs.Sound.{IsNodeEvent};
ghost use Rattle.hk_journal.specs.Journal.{IsReplay, after, shown_by};
ghost use Rattle.hk_place.specs.Past.{tickets_of, tickets_in, last_upto};
ghost use Rattle.hk_place.specs.Noted.{told_to, told_by};

use hk_base::{Key, Memory, Sequence};
use hk_journal::{Journal, JournalEntry};
use hk_node::{Node, PriorRow};
use std::alloc::Global;
use std::collections::BTreeMap;
use std::marker::Model;

/// The tickets of steps, in their order.
type Tickets = Sequence<u64>;

type KeyTickets = BTreeMap<Key, Tickets>;

fn lone(alloc: Global, ticket: u64) -> Result<Tickets, Memory>
    ensures { IfOk result (λ tickets. tickets ≡ ticket ∷ []) }
{
    let mut tickets = Tickets::new(alloc);
    tickets.push(ticket)?;
    Ok(tickets)
}

// The step of this ticket changed the row of the key.
fn note(kept: &mut KeyTickets, alloc: Global, key: &Key, ticket: u64) -> Result<(), Memory>
    ensures { OnOk result ((k : List ℕ) → tickets_in kept.new.entries k ≡ tickets_in kept.old.entries k ++ told_to k key.now ticket) }
{
    if let Some(tickets) = kept.get_mut(key) {
        return tickets.push(ticket);
    }
    let key = key.share()?;
    let tickets = lone(alloc, ticket)?;
    kept.insert(key, tickets)?;
    Ok(())
}

// The step of this ticket changed these rows.
fn note_all(
    kept: &mut KeyTickets,
    alloc: Global,
    rows: &[PriorRow],
    ticket: u64,
) -> Result<(), Memory>
    ensures { OnOk result ((k : List ℕ) → tickets_in kept.new.entries k ≡ tickets_in kept.old.entries k ++ told_by k rows.now ticket) }
{
    for prior in rows {
        note(kept, alloc, &prior.key, ticket)?;
    }
    Ok(())
}

// Makes the step of an entry again, and notes which rows it changed.
fn repeat(
    node: &mut Node,
    kept: &mut KeyTickets,
    alloc: Global,
    entry: &JournalEntry,
) -> Result<(), Memory>
    requires { IsNodeEvent entry.now.event }
    ensures node { OnOk result (node.new ≡ after node.old entry.now) }
    ensures noted { OnOk result ((k : List ℕ) → tickets_in kept.new.entries k
        ≡ tickets_in kept.old.entries k ++ map (λ s. s.ticket) (filter (λ s. is_eq (key_cmp s.key k)) (shown_by node.old entry.now))) }
{
    let out = node.step(alloc, &entry.event)?;
    note_all(kept, alloc, out.report.rows.as_slice(), entry.ticket)
}

// The tickets by their keys.
fn index(alloc: Global, base: &Node, journal: &[JournalEntry]) -> Result<KeyTickets, Memory>
    requires { AllByRecursion (λ e. IsNodeEvent e.event) journal.now }
    ensures { IfOk result (λ kept. (k : List ℕ) → tickets_in kept.entries k ≡ tickets_of base.now journal.now k) }
{
    let mut node = base.copy(alloc)?;
    let mut kept = KeyTickets::new(alloc);
    for entry in journal {
        repeat(&mut node, &mut kept, alloc, entry)?;
    }
    Ok(kept)
}

// The last of rising tickets that is not above the moment.
fn last_upto(tickets: &[u64], moment: u64) -> Option<u64>
    requires { IsNonDecreasingBy (λ (t : ℕ). t) tickets.now }
    ensures { result ≡ last_upto moment tickets.now }
{
    let count = tickets.partition_point(|ticket| *ticket <= moment);
    if count == 0 {
        return None;
    }
    Some(tickets[count - 1])
}

/// A node as it was and its journal since, with what finds the steps that changed a key's row.
#[derive(Drop)]
pub struct Changes<'a> {
    base: &'a Node,
    journal: &'a Journal,
    kept: KeyTickets,
}

impl<'a> Model for Changes<'a> {
    ghost use Rattle.hk_place.specs.Past.{Past, IsIndex};

    ghost Value = { Past };

    ghost view = { λ c. record { base = c.base.now; journal = c.journal.now } };

    ghost invariant = { λ c. IsIndex c.kept.entries (record { base = c.base.now; journal = c.journal.now }) };
}

impl<'a> Changes<'a> {
    ghost use Rattle.hk_place.specs.Past.{Past, last_change};

    /// Makes all steps of the journal again, on a copy of the base.
    pub fn of(alloc: Global, base: &'a Node, journal: &'a Journal) -> Result<Changes<'a>, Memory>
        requires replay { IsReplay base.now journal.now }
        requires events { AllByRecursion (λ e. IsNodeEvent e.event) journal.now }
        ensures { IfOk result (λ changes. changes ≡ record { base = base.now; journal = journal.now }) }
    {
        let kept = index(alloc, base, journal.as_slice())?;
        Ok(Changes {
            base,
            journal,
            kept,
        })
    }

    /// The ticket of the last step up to this one that changed the row of the key, if one did. It takes no memory.
    pub fn last_change(&self, key: &Key, moment: u64) -> Option<u64>
        ensures { result ≡ last_change self.now moment key.now }
    {
        match self.kept.get(key) {
            Some(tickets) => last_upto(tickets.as_slice(), moment),
            None => None,
        }
    }
}
