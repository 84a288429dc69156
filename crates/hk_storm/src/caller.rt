//! A caller of a storm.

use crate::calls::StormCall;
use crate::quiet::Quiet;
use hk_base::{Answer, CallNo, Key, Memory, NodeId, Op};
use hk_locked::Places;
use hk_merge::Note;
use hk_outside::{Clock, Desk};
use hk_shard::shard_of;
use hk_snap::{LeaseCell, Local, SnapReader, read_local};
use hk_worker::{NodeDesk, Tickets};
use std::alloc::Global;
use std::sync::Wait;

/// A drawn call and its number, counted from 1.
#[derive(Drop)]
pub(crate) struct NumberedCall {
    pub(crate) number: u64,
    pub(crate) call: StormCall,
}

/// What a read without a lock found: the answer, and the ticket of the step that left it.
#[derive(Drop)]
struct Glance {
    answer: Answer,
    ticket: u64,
}

/// A reader of a shard's cells, and one that looks at its lease.
#[derive(Drop)]
pub(crate) struct Sight {
    pub(crate) reader: SnapReader,
    pub(crate) lease: LeaseCell,
}

/// A caller at a node: its desk, what it sees of the node's shards by their numbers, its calls, and the notes that it made of reads without a lock.
#[derive(Drop)]
pub(crate) struct Caller<R: Wait + Drop, P: Places> {
    pub(crate) node: NodeId,
    pub(crate) desk: NodeDesk<R, Quiet, P>,
    pub(crate) sights: Vec<Sight>,
    pub(crate) calls: Vec<NumberedCall>,
    pub(crate) notes: Vec<Note>,
}

impl Sight {
    // What the key's cell shows.
    fn read<C: Clock, R: Wait>(
        &mut self,
        rt: &R,
        alloc: Global,
        clock: &C,
        key: &Key,
    ) -> Result<Local, Memory> {
        read_local(rt, alloc, &mut self.reader, &mut self.lease, clock, 0, key)
    }
}

// What is found there, where that answers a read.
fn glance_of(local: Local) -> Option<Glance> {
    match local {
        Local::Found {
            content,
            tag,
            ticket,
        } => Some(Glance {
            answer: Answer::Found { content, tag },
            ticket,
        }),
        Local::Missing { ticket } => Some(Glance {
            answer: Answer::Missing,
            ticket,
        }),
        _ => None,
    }
}

// What the key's cell shows, where that answers a read.
fn read_freely<C: Clock, R: Wait>(
    rt: &R,
    alloc: Global,
    sights: &mut Vec<Sight>,
    clock: &C,
    key: &Key,
) -> Result<Option<Glance>, Memory> {
    match sights.get_mut(usize::from(shard_of(key))) {
        Some(sight) => {
            let local = sight.read(rt, alloc, clock, key)?;
            Ok(glance_of(local))
        }
        None => Err(Memory),
    }
}

impl<R: Wait + Drop, P: Places> Caller<R, P> {
    // Notes what a read without a lock was answered. Its own ticket is drawn behind its load.
    fn note<W: Wait>(
        &mut self,
        rt: &W,
        tickets: &Tickets,
        number: u64,
        key: &Key,
        glance: Glance,
    ) -> Result<(), Memory> {
        let own = tickets.draw(rt);
        let key = key.share()?;
        let Glance { answer, ticket } = glance;
        self.notes.push(Note {
            call: CallNo(number),
            node: self.node,
            key,
            own,
            answer,
            ticket,
        })?;
        Ok(())
    }

    // Asks at the desk, whatever it tells.
    fn ask(&mut self, call: &StormCall) -> Result<(), Memory> {
        let _told = self.desk.ask(&call.key, &call.op)?;
        Ok(())
    }

    // Makes a call. A read is tried without the lock first.
    fn make<C: Clock, W: Wait>(
        &mut self,
        rt: &W,
        alloc: Global,
        clock: &C,
        tickets: &Tickets,
        numbered: &NumberedCall,
    ) -> Result<(), Memory> {
        let call = &numbered.call;
        if let Op::Read = call.op {
            if let Some(found) = read_freely(rt, alloc, &mut self.sights, clock, &call.key)? {
                return self.note(rt, tickets, numbered.number, &call.key, found);
            }
        }
        self.ask(call)
    }

    // Makes these calls, in their order.
    fn make_each<C: Clock, W: Wait>(
        &mut self,
        rt: &W,
        alloc: Global,
        clock: &C,
        tickets: &Tickets,
        calls: &[NumberedCall],
    ) -> Result<(), Memory> {
        for numbered in calls {
            self.make(rt, alloc, clock, tickets, numbered)?;
        }
        Ok(())
    }

    /// Makes all its calls, in their order, and gives its notes.
    pub(crate) fn make_all<C: Clock, W: Wait>(
        &mut self,
        rt: &W,
        alloc: Global,
        clock: &C,
        tickets: &Tickets,
    ) -> Result<Vec<Note>, Memory> {
        let calls = std::mem::replace(&mut self.calls, Vec::new(alloc));
        self.make_each(rt, alloc, clock, tickets, calls.as_slice())?;
        Ok(std::mem::replace(&mut self.notes, Vec::new(alloc)))
    }
}
