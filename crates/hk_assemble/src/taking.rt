//! The event of the run that an entry is.

ghost use Rattle.std.specs.Prelude.{◌≡◌, ◌↔◌, List, None, map, IfOk, IsTrue};
ghost use Rattle.std.specs.List.{list_any};
ghost use Rattle.hk_base.specs.declared.letter.Actor.TheVariants.{Node};
ghost use Rattle.hk_node.specs.declared.event.NodeEvent.TheVariants.{Receive};
ghost use Rattle.hk_event.specs.declared.event.Event.TheVariants.{Call};
ghost use Rattle.hk_world.specs.Sound.{IsEvent};
ghost use Rattle.hk_merge.specs.Reads.{IsMerged};
ghost use Rattle.hk_merge.specs.Merged.{Item};
ghost use Rattle.hk_merge.specs.Placed.{item_of};
ghost use Rattle.hk_assemble.specs.Assembled.{IsLeastSent};
ghost use Rattle.hk_assemble.specs.Taking.{is_copy, ticket_of, lower_of, least_from, is_below, IsMarred, IsEventFound};

use crate::gap::Gap;
use crate::sent::{SentLetters, find};
use hk_base::{Actor, Key, Letter, Memory, NodeId, Op};
use hk_event::Event;
use hk_journal::JournalEntry;
use hk_merge::{Slot, same_letter, sameness_is_equality};
use hk_node::NodeEvent;

fn sends(letters: &[Letter], letter: &Letter) -> bool
    ensures { result ≡ list_any (is_copy letter.now) letters.now }
{
    letters.iter().any(|copy| same_letter(copy, letter))
}

// The ticket of the slot, if it is an entry that sent the letter.
fn ticket_of(slot: &Slot<'_>, letter: &Letter) -> Option<u64>
    ensures { result ≡ ticket_of letter.now (item_of slot.now) }
{
    match slot {
        Slot::Step { entry, .. } => {
            if sends(entry.letters.as_slice(), letter) {
                Some(entry.ticket)
            } else {
                None
            }
        }
        Slot::LocalRead { .. } => None,
    }
}

fn lower_of(a: Option<u64>, b: Option<u64>) -> Option<u64>
    ensures { result ≡ lower_of a b }
{
    match (a, b) {
        (Some(a), Some(b)) => Some(a.min(b)),
        (Some(a), None) => Some(a),
        (None, b) => b,
    }
}

fn least_in(slots: &[Slot<'_>], letter: &Letter) -> Option<u64>
    ensures { result ≡ least_from letter.now None (map item_of slots.now) }
{
    let mut least = None;
    for slot in slots {
        least = lower_of(least, ticket_of(slot, letter));
    }
    least
}

// The least ticket at which the letter was sent.
fn least_sent(slots: &[Slot<'_>], letter: &Letter) -> Option<u64>
    ensures { IsLeastSent (map item_of slots.now) letter.now result }
{
    sameness_is_equality();
    least_in(slots, letter)
}

fn is_below(sent: Option<u64>, ticket: u64) -> bool
    ensures { result ≡ is_below sent ticket }
{
    match sent {
        Some(sent) => sent < ticket,
        None => false,
    }
}

fn is_to(letter: &Letter, node: NodeId) -> bool
    ensures { IsTrue result ↔ (letter.now.to ≡ Node node) }
{
    letter.to == Actor::Node(node)
}

// Why the entry can't take the letter.
fn not_taken(slots: &[Slot<'_>], node: NodeId, entry: &JournalEntry, letter: &Letter) -> Gap
    requires { entry.now.event ≡ Receive letter.now }
    ensures { IsMarred result (map item_of slots.now) node entry.now }
{
    let sent = least_sent(slots, letter);
    if !is_below(sent, entry.ticket) {
        return Gap::Letter {
            taken: entry.ticket,
            sent,
        };
    }
    if is_to(letter, node) {
        // It never comes to this: the first copy is kept.
        return Gap::Memory;
    }
    Gap::Entry {
        node,
        ticket: entry.ticket,
        given: None,
    }
}

// The taking of the first copy of the letter.
fn taking(
    slots: &[Slot<'_>],
    sent: &SentLetters,
    node: NodeId,
    entry: &JournalEntry,
    letter: &Letter,
) -> Result<Event, Gap>
    requires { entry.now.event ≡ Receive letter.now }
    ensures found { IsEventFound result (map item_of slots.now) sent.now.entries node entry.now }
    ensures event { IfOk result IsEvent }
{
    if let Some(first) = find(sent, letter) {
        if first.ticket < entry.ticket && is_to(letter, node) {
            return Ok(Event::Take {
                letter: first.number,
            });
        }
    }
    Err(not_taken(slots, node, entry, letter))
}

// The entry is none of such a run.
fn no_event(node: NodeId, entry: &JournalEntry) -> Gap
    requires { IsMerged entry.now.event → ⊥ }
    ensures { (items : List Item) → IsMarred result items node entry.now }
{
    Gap::Entry {
        node,
        ticket: entry.ticket,
        given: None,
    }
}

fn call_of(node: NodeId, key: &Key, op: &Op) -> Result<Event, Memory>
    ensures { IfOk result (λ event. event ≡ Call node key.now op.now) }
{
    let key = key.share()?;
    let op = op.share()?;
    Ok(Event::Call { node, key, op })
}

/// The event of the run that the entry is.
pub fn event_of(
    slots: &[Slot<'_>],
    sent: &SentLetters,
    node: NodeId,
    entry: &JournalEntry,
) -> Result<Event, Gap>
    ensures found { IsEventFound result (map item_of slots.now) sent.now.entries node entry.now }
    ensures event { IfOk result IsEvent }
{
    match &entry.event {
        NodeEvent::Call { key, op, .. } => {
            let event = call_of(node, key, op)?;
            Ok(event)
        }
        NodeEvent::Receive(letter) => taking(slots, sent, node, entry, letter),
        NodeEvent::Resend(key) => {
            let key = key.share()?;
            Ok(Event::Resend { node, key })
        }
        NodeEvent::Replay(key) => {
            let key = key.share()?;
            Ok(Event::Replay { node, key })
        }
        _ => Err(no_event(node, entry)),
    }
}
