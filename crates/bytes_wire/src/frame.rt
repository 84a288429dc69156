//! What a frame is.

use bytes_told::{put, put_bytes, put_flag, put_number, put_stamp};
use hk_base::{Actor, Ballot, Body, Content, CopyItem, Kind, Letter, Memory, Stamp, View, Voted};
use hk_frame::{FrameFault, read_letter};
use std::alloc::Global;

fn put_counted(out: &mut Vec<u8>, name: &[u8], number: u64) -> Result<(), Memory> {
    put(out, name)?;
    put_number(out, number)
}

fn put_actor(out: &mut Vec<u8>, actor: Actor) -> Result<(), Memory> {
    match actor {
        Actor::Node(node) => put_counted(out, b" n", u64::from(node.0)),
        Actor::Manager(manager) => put_counted(out, b" m", u64::from(manager)),
    }
}

fn put_ballot(out: &mut Vec<u8>, ballot: Ballot) -> Result<(), Memory> {
    put_counted(out, b" ", u64::from(ballot.round))?;
    put_counted(out, b".", u64::from(ballot.manager))
}

fn put_view(out: &mut Vec<u8>, view: &View) -> Result<(), Memory> {
    put_counted(out, b" ", view.epoch)?;
    put_counted(out, b":", u64::from(view.next))?;
    for member in view.members.as_slice() {
        put_counted(out, b":", u64::from(member.0))?;
    }
    Ok(())
}

fn put_vote(out: &mut Vec<u8>, vote: &Option<Voted>) -> Result<(), Memory> {
    match vote {
        Some(vote) => {
            put_ballot(out, vote.ballot)?;
            put_view(out, &vote.view)
        }
        None => put(out, b" none"),
    }
}

fn put_update(
    out: &mut Vec<u8>,
    stamp: Stamp,
    kind: Kind,
    content: &Option<Content>,
) -> Result<(), Memory> {
    put_stamp(out, stamp)?;
    put(
        out,
        match kind {
            Kind::Write => b" write",
            Kind::Rmw => b" rmw",
        },
    )?;
    match content {
        Some(content) => {
            put_counted(out, b" ", u64::from(content.flags))?;
            put_bytes(out, content.bytes.bytes())
        }
        None => put(out, b" gone"),
    }
}

fn put_item(out: &mut Vec<u8>, item: &CopyItem) -> Result<(), Memory> {
    put_bytes(out, item.key.bytes())?;
    put_flag(out, item.valid)?;
    put_update(out, item.stamp, item.kind, &item.content)
}

// What a letter of a node says, and one that grants a lease.
fn put_row_body(out: &mut Vec<u8>, body: &Body) -> Result<(), Memory> {
    match body {
        Body::Inv {
            key,
            stamp,
            kind,
            content,
        } => {
            put(out, b" inv")?;
            put_bytes(out, key.bytes())?;
            put_update(out, *stamp, *kind, content)
        }
        Body::Ack { key, stamp, top } => {
            put(out, b" ack")?;
            put_bytes(out, key.bytes())?;
            put_stamp(out, *stamp)?;
            put_stamp(out, *top)
        }
        Body::Val { key, stamp } => {
            put(out, b" val")?;
            put_bytes(out, key.bytes())?;
            put_stamp(out, *stamp)
        }
        Body::CopyAsk { after, room } => {
            put(out, b" copy-ask")?;
            put_bytes(out, after.as_ref().map_or(b"", |key| key.bytes()))?;
            put_counted(out, b" ", u64::from(*room))
        }
        Body::CopyGive { after, done, items } => {
            put(out, b" copy-give")?;
            put_bytes(out, after.as_ref().map_or(b"", |key| key.bytes()))?;
            put_flag(out, *done)?;
            for item in items.as_slice() {
                put_item(out, item)?;
            }
            Ok(())
        }
        Body::LeaseAsk { asked } => put_counted(out, b" lease-ask ", *asked),
        Body::LeaseGive { end } => put_counted(out, b" lease-give ", *end),
        _ => put_view_body(out, body),
    }
}

// What a letter of managers about views says.
fn put_view_body(out: &mut Vec<u8>, body: &Body) -> Result<(), Memory> {
    match body {
        Body::Prepare(ballot) => {
            put(out, b" prepare")?;
            put_ballot(out, *ballot)
        }
        Body::Promise { ballot, accepted } => {
            put(out, b" promise")?;
            put_ballot(out, *ballot)?;
            put_vote(out, accepted)
        }
        Body::Accept { ballot, view } => {
            put(out, b" accept")?;
            put_ballot(out, *ballot)?;
            put_view(out, view)
        }
        Body::Accepted(ballot) => {
            put(out, b" accepted")?;
            put_ballot(out, *ballot)
        }
        Body::Chosen(view) => {
            put(out, b" chosen")?;
            put_view(out, view)
        }
        Body::Activate(view) => {
            put(out, b" activate")?;
            put_view(out, view)
        }
        _ => put(out, b" a letter of a node"),
    }
}

/// Puts the shard and the letter.
pub fn put_letter(out: &mut Vec<u8>, shard: u8, letter: &Letter) -> Result<(), Memory> {
    put_counted(out, b" ", u64::from(shard))?;
    put_counted(out, b" ", letter.epoch)?;
    put_actor(out, letter.from)?;
    put_actor(out, letter.to)?;
    put_row_body(out, &letter.body)
}

/// Puts a fault.
pub fn put_fault(out: &mut Vec<u8>, fault: FrameFault) -> Result<(), Memory> {
    match fault {
        FrameFault::Memory => Err(Memory),
        FrameFault::Short { wanted } => put_counted(out, b"short ", wanted as u64),
        FrameFault::BadKind { kind } => put_counted(out, b"bad-kind ", u64::from(kind)),
        FrameFault::BadLength { length } => put_counted(out, b"bad-length ", u64::from(length)),
        FrameFault::BadField { at } => put_counted(out, b"bad-field ", at as u64),
    }
}

/// Tells which letter's frame begins the bytes and how long it is, or the first fault.
pub fn tell(alloc: Global, bytes: &[u8], out: &mut Vec<u8>) -> Result<(), Memory> {
    match read_letter(alloc, bytes) {
        Ok((shard, letter, len)) => {
            put_number(out, len as u64)?;
            put_letter(out, shard, &letter)
        }
        Err(fault) => put_fault(out, fault),
    }
}
