//! What the types of an entry's parts keep, which the laws of logs have as a premise. These functions do nothing.

ghost use Rattle.hk_log.specs.Entries.{IsFoundingValue, IsChangeValue, IsActorValue, IsEntryValue};

use crate::entry::{Entry, Founding};
use hk_base::{Actor, Change};
use hk_fields::{hosts_are_values, ticket_is_value};
use hk_frame::letter_is_value;

fn founding_is_value(founding: &Founding)
    ensures { IsFoundingValue founding.now }
{
    let _number = founding.number;
    let _place = founding.place;
    let _lease = founding.lease;
    let _skew = founding.skew;
    hosts_are_values(founding.hosts.as_slice());
}

fn change_is_value(change: Change)
    ensures { IsChangeValue change }
{
    match change {
        Change::Drop(node) => {
            let _number = node.0;
        }
        Change::Add => (),
    }
}

fn actor_is_value(actor: Actor)
    ensures { IsActorValue actor }
{
    match actor {
        Actor::Node(node) => {
            let _number = node.0;
        }
        Actor::Manager(manager) => {
            let _number = manager;
        }
    }
}

// What the type of an entry keeps.
pub fn entry_is_value(entry: &Entry)
    ensures { IsEntryValue entry.now }
{
    match entry {
        Entry::Founded(founding) => founding_is_value(founding),
        Entry::Open => (),
        Entry::Propose { base, change, .. } => {
            let _base = *base;
            change_is_value(*change);
        }
        Entry::Receive { letter, .. } => letter_is_value(letter),
        Entry::Bound { actor, ticket } => {
            actor_is_value(*actor);
            ticket_is_value(*ticket);
        }
    }
}
