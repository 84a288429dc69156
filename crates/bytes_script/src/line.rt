//! What the lines of a script are.

use bytes_told::{put, put_bytes, put_number, put_op};
use hk_base::{Actor, Change, Key, Memory, NodeId};
use hk_event::Event;
use hk_script::{LineFault, read_event, read_header};
use std::alloc::Global;

fn put_counted(out: &mut Vec<u8>, name: &[u8], number: u64) -> Result<(), Memory> {
    put(out, name)?;
    put_number(out, number)
}

fn put_node(out: &mut Vec<u8>, name: &[u8], node: NodeId) -> Result<(), Memory> {
    put_counted(out, name, u64::from(node.0))
}

fn put_actor(out: &mut Vec<u8>, name: &[u8], actor: Actor) -> Result<(), Memory> {
    put(out, name)?;
    match actor {
        Actor::Node(node) => put_node(out, b"n", node),
        Actor::Manager(manager) => put_counted(out, b"m", u64::from(manager)),
    }
}

fn put_keyed(out: &mut Vec<u8>, name: &[u8], node: NodeId, key: &Key) -> Result<(), Memory> {
    put_node(out, name, node)?;
    put_bytes(out, key.bytes())
}

fn put_change(out: &mut Vec<u8>, change: Change) -> Result<(), Memory> {
    match change {
        Change::Drop(node) => put_node(out, b" drop ", node),
        Change::Add => put(out, b" add"),
    }
}

// What happens to rows, clocks and actors.
fn put_event(out: &mut Vec<u8>, event: &Event) -> Result<(), Memory> {
    match event {
        Event::Call { node, key, op } => {
            put_keyed(out, b"call ", *node, key)?;
            put_op(out, op)
        }
        Event::Take { letter } => put_counted(out, b"take ", *letter),
        Event::Tick { actor, to } => {
            put_actor(out, b"tick ", *actor)?;
            put_counted(out, b" ", *to)
        }
        Event::TickAll { to } => put_counted(out, b"tick all ", *to),
        Event::Crash { actor } => put_actor(out, b"crash ", *actor),
        Event::Resend { node, key } => put_keyed(out, b"resend ", *node, key),
        Event::Replay { node, key } => put_keyed(out, b"replay ", *node, key),
        Event::Copy { node, from, room } => {
            put_node(out, b"copy ", *node)?;
            put_node(out, b" ", *from)?;
            put_counted(out, b" ", u64::from(*room))
        }
        Event::Start { node } => put_node(out, b"start ", *node),
        _ => put_group_event(out, event),
    }
}

// What happens to views and leases.
fn put_group_event(out: &mut Vec<u8>, event: &Event) -> Result<(), Memory> {
    match event {
        Event::Agree { change } => {
            put(out, b"agree")?;
            put_change(out, *change)
        }
        Event::Install { node, epoch } => {
            put_node(out, b"install ", *node)?;
            put_counted(out, b" ", *epoch)
        }
        Event::Lease { node, end } => {
            put_node(out, b"lease ", *node)?;
            put_counted(out, b" ", *end)
        }
        Event::AskLease { node, manager } => {
            put_node(out, b"asklease ", *node)?;
            put_counted(out, b" ", u64::from(*manager))
        }
        Event::Propose {
            manager,
            base,
            change,
        } => {
            put_counted(out, b"propose ", u64::from(*manager))?;
            put_counted(out, b" ", *base)?;
            put_change(out, *change)
        }
        Event::Activate { manager } => put_counted(out, b"activate ", u64::from(*manager)),
        _ => put(out, b"an event of a row"),
    }
}

fn put_fault(out: &mut Vec<u8>, fault: LineFault) -> Result<(), Memory> {
    match fault {
        LineFault::Memory => Err(Memory),
        LineFault::Bad => put(out, b"bad"),
    }
}

/// Tells which header a line is.
pub fn tell_header(line: &[u8], out: &mut Vec<u8>) -> Result<(), Memory> {
    match read_header(line) {
        Ok(header) => {
            put_counted(out, b"group ", u64::from(header.nodes))?;
            put_counted(out, b" ", u64::from(header.managers))?;
            put_counted(out, b" ", header.lease)?;
            put_counted(out, b" ", header.skew)
        }
        Err(fault) => put_fault(out, fault),
    }
}

/// Tells which event a line is.
pub fn tell_event(alloc: Global, line: &[u8], out: &mut Vec<u8>) -> Result<(), Memory> {
    match read_event(alloc, line) {
        Ok(event) => put_event(out, &event),
        Err(fault) => put_fault(out, fault),
    }
}
