//! What a shard shows of its part.

ghost use Rattle.std.specs.Prelude.{◌≡◌, true, not, map, IsTrue, Option};
ghost use Rattle.std.specs.Option.{IsSome};
ghost use Rattle.std.specs.List.{AllByRecursion};
ghost use Rattle.hk_node.specs.Rows.{find_row};
ghost use Rattle.hk_node.specs.Copies.{is_valid};
ghost use Rattle.hk_due.specs.Keys.{AreNoted};
ghost use Rattle.hk_journal.specs.Journal.{call_of};
ghost use Rattle.hk_shard.specs.Publishing.{publications, with_all, MayBePublished};

use crate::held::Held;
use hk_base::{CallNo, State};
use hk_due::OpenKeys;
use hk_key::Row;
use hk_node::{Node, NodeEvent, PriorRow};
use hk_snap::SnapWriter;
use std::sync::Wait;

// The call that the event is.
pub(crate) fn call_of(event: &NodeEvent) -> Option<CallNo>
    ensures { result ≡ call_of event.now }
{
    match event {
        NodeEvent::Call { call, .. } => Some(*call),
        _ => None,
    }
}

// Publishes the present rows of these keys, by one store for each, and counts what they hold.
pub(crate) fn publish_rows<R: Wait>(
    rt: &R,
    writer: &mut SnapWriter,
    held: &mut Held,
    part: &Node,
    ticket: u64,
    call: Option<CallNo>,
    prior: &[PriorRow],
)
    requires there { AllByRecursion (λ f. IsSome (find_row f.key part.now.rows)) prior.now }
    requires next { MayBePublished writer.old (publications part.now.rows ticket call prior.now) }
    ensures { writer.new ≡ with_all writer.old (publications part.now.rows ticket call prior.now) }
{
    for changed in prior {
        if let Some(row) = part.row(&changed.key) {
            writer.publish(rt, &changed.key, row, ticket, call);
            held.note(changed, row);
        }
    }
}

fn is_open(row: &Row) -> bool
    ensures { result ≡ not (is_valid row.now.state) }
{
    row.state != State::Valid
}

// The same, and each of these keys is noted with what is found of its row, by one search for each.
pub(crate) fn show_rows<R: Wait>(
    rt: &R,
    writer: &mut SnapWriter,
    held: &mut Held,
    keys: &mut OpenKeys,
    part: &Node,
    ticket: u64,
    call: Option<CallNo>,
    changed: &[PriorRow],
)
    requires there { AllByRecursion (λ f. IsSome (find_row f.key part.now.rows)) changed.now }
    requires next { MayBePublished writer.old (publications part.now.rows ticket call changed.now) }
    ensures shown { writer.new ≡ with_all writer.old (publications part.now.rows ticket call changed.now) }
    ensures noted { AreNoted part.now.rows ticket (map (λ f. f.key) changed.now) keys.old keys.new }
{
    for prior in changed {
        if let Some(row) = part.row(&prior.key) {
            writer.publish(rt, &prior.key, row, ticket, call);
            held.note(prior, row);
            keys.note(&prior.key, is_open(row), ticket);
        }
    }
}
