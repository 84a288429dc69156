//! The printer.

ghost use Rattle.std.specs.Prelude.{◌≡◌, ◌++◌, OnOk, codes, decimal};
ghost use Rattle.hk_base.specs.declared.letter.Actor.TheVariants.{Manager};
ghost use Rattle.hk_event.specs.declared.event.Event.TheVariants.{Call, Tick, Copy, Agree, AskLease, Propose};
ghost use Rattle.hk_script.specs.Words.{word_of, actor_word};
ghost use Rattle.hk_script.specs.Grammar.{IsHeaderWritten, event_line, header_line};

use crate::put::{put, put_actor, put_change, put_node, put_number, put_op, put_word};
use hk_base::{Actor, Change, Key, Memory, NodeId, Op};
use hk_event::{Event, Header};

fn put_named(out: &mut Vec<u8>, name: &[u8], number: u64) -> Result<(), Memory>
    ensures { OnOk result (out.new.items ≡ out.old.items ++ (name.now ++ codes " " ++ decimal number)) }
{
    put(out, name)?;
    put(out, b" ")?;
    put_number(out, number)
}

fn put_by(out: &mut Vec<u8>, name: &[u8], actor: Actor) -> Result<(), Memory>
    ensures { OnOk result (out.new.items ≡ out.old.items ++ (name.now ++ codes " " ++ actor_word actor)) }
{
    put(out, name)?;
    put(out, b" ")?;
    put_actor(out, actor)
}

fn put_of(out: &mut Vec<u8>, name: &[u8], node: NodeId) -> Result<(), Memory>
    ensures { OnOk result (out.new.items ≡ out.old.items ++ (name.now ++ codes " " ++ decimal node.0)) }
{
    put(out, name)?;
    put(out, b" ")?;
    put_node(out, node)
}

fn put_then(out: &mut Vec<u8>, number: u64) -> Result<(), Memory>
    ensures { OnOk result (out.new.items ≡ out.old.items ++ (codes " " ++ decimal number)) }
{
    put(out, b" ")?;
    put_number(out, number)
}

fn put_numbered(out: &mut Vec<u8>, name: &[u8], node: NodeId, number: u64) -> Result<(), Memory>
    ensures { OnOk result (out.new.items ≡ out.old.items ++ (name.now ++ codes " " ++ decimal node.0 ++ codes " " ++ decimal number)) }
{
    put_of(out, name, node)?;
    put_then(out, number)
}

fn put_keyed(out: &mut Vec<u8>, name: &[u8], node: NodeId, key: &[u8]) -> Result<(), Memory>
    ensures { OnOk result (out.new.items ≡ out.old.items ++ (name.now ++ codes " " ++ decimal node.0 ++ codes " " ++ word_of key.now)) }
{
    put_of(out, name, node)?;
    put(out, b" ")?;
    put_word(out, key)
}

fn put_call(out: &mut Vec<u8>, node: NodeId, key: &Key, op: &Op) -> Result<(), Memory>
    ensures { OnOk result (out.new.items ≡ out.old.items ++ event_line (Call node key.now op.now)) }
{
    put_of(out, b"call", node)?;
    put(out, b" ")?;
    put_op(out, key.bytes(), op)
}

fn put_tick(out: &mut Vec<u8>, actor: Actor, to: u64) -> Result<(), Memory>
    ensures { OnOk result (out.new.items ≡ out.old.items ++ event_line (Tick actor to)) }
{
    put_by(out, b"tick", actor)?;
    put_then(out, to)
}

fn put_copy(out: &mut Vec<u8>, node: NodeId, from: NodeId, room: u8) -> Result<(), Memory>
    ensures { OnOk result (out.new.items ≡ out.old.items ++ event_line (Copy node from room)) }
{
    put_of(out, b"copy", node)?;
    put_then(out, u64::from(from.0))?;
    put_then(out, u64::from(room))
}

fn put_agree(out: &mut Vec<u8>, change: Change) -> Result<(), Memory>
    ensures { OnOk result (out.new.items ≡ out.old.items ++ event_line (Agree change)) }
{
    put(out, b"agree ")?;
    put_change(out, change)
}

fn put_ask(out: &mut Vec<u8>, node: NodeId, manager: u8) -> Result<(), Memory>
    ensures { OnOk result (out.new.items ≡ out.old.items ++ event_line (AskLease node manager)) }
{
    put_of(out, b"asklease", node)?;
    put(out, b" ")?;
    put_actor(out, Actor::Manager(manager))
}

fn put_propose(out: &mut Vec<u8>, manager: u8, base: u64, change: Change) -> Result<(), Memory>
    ensures { OnOk result (out.new.items ≡ out.old.items ++ event_line (Propose manager base change)) }
{
    put_by(out, b"propose", Actor::Manager(manager))?;
    put_then(out, base)?;
    put(out, b" ")?;
    put_change(out, change)
}

fn put_limits(out: &mut Vec<u8>, lease: u64, skew: u64) -> Result<(), Memory>
    ensures { OnOk result (out.new.items ≡ out.old.items ++ (codes " lease " ++ (decimal lease ++ (codes " skew " ++ decimal skew)))) }
{
    put_named(out, b" lease", lease)?;
    put_named(out, b" skew", skew)
}

fn put_managers(out: &mut Vec<u8>, managers: u8, lease: u64, skew: u64) -> Result<(), Memory>
    ensures { OnOk result (out.new.items ≡ out.old.items ++ (codes " managers " ++ (decimal managers ++ (codes " lease " ++ (decimal lease ++ (codes " skew " ++ decimal skew)))))) }
{
    put_named(out, b" managers", u64::from(managers))?;
    put_limits(out, lease, skew)
}

/// Puts the line of a header behind what is there, without a line feed. After `Memory` a front of it may stand there.
pub fn print_header(header: &Header, out: &mut Vec<u8>) -> Result<(), Memory>
    requires { IsHeaderWritten header.now }
    ensures { OnOk result (out.new.items ≡ out.old.items ++ header_line header.now) }
{
    put_named(out, b"group", u64::from(header.nodes))?;
    put_managers(out, header.managers, header.lease, header.skew)
}

/// Puts the line of an event behind what is there, without a line feed. After `Memory` a front of it may stand there.
pub fn print_event(event: &Event, out: &mut Vec<u8>) -> Result<(), Memory>
    ensures { OnOk result (out.new.items ≡ out.old.items ++ event_line event.now) }
{
    match event {
        Event::Call { node, key, op } => put_call(out, *node, key, op),
        Event::Take { letter } => put_named(out, b"take", *letter),
        Event::Tick { actor, to } => put_tick(out, *actor, *to),
        Event::TickAll { to } => put_named(out, b"tick all", *to),
        Event::Crash { actor } => put_by(out, b"crash", *actor),
        Event::Resend { node, key } => put_keyed(out, b"resend", *node, key.bytes()),
        Event::Replay { node, key } => put_keyed(out, b"replay", *node, key.bytes()),
        Event::Copy { node, from, room } => put_copy(out, *node, *from, *room),
        Event::Start { node } => put_of(out, b"start", *node),
        Event::Agree { change } => put_agree(out, *change),
        Event::Install { node, epoch } => put_numbered(out, b"install", *node, *epoch),
        Event::Lease { node, end } => put_numbered(out, b"lease", *node, *end),
        Event::AskLease { node, manager } => put_ask(out, *node, *manager),
        Event::Propose {
            manager,
            base,
            change,
        } => put_propose(out, *manager, *base, *change),
        Event::Activate { manager } => put_by(out, b"activate", Actor::Manager(*manager)),
    }
}
