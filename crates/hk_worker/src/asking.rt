//! How an operation is asked at the shards of a node: the number of its step, the step under the shard's lock, and what comes of that.

ghost use Rattle.std.specs.Prelude.{◌≡◌, ◌<◌, IfOk, OnErr};
ghost use Rattle.std.specs.List.{AllByRecursion};
ghost use Rattle.hk_base.specs.Range.{IsLetter};
ghost use Rattle.hk_outside.specs.Desk.{Suits};
ghost use Rattle.hk_locked.specs.Locked.{ReaderState};
ghost use Rattle.hk_locked.specs.Makes.{CallsAt};
ghost use Rattle.hk_locked.specs.Steps.{IsGrown, IsLeft, StartsAt};
ghost use Rattle.hk_worker.specs.Moments.{WasCalled};
ghost use Rattle.hk_worker.specs.Asking.{Tells};
ghost use Rattle.hk_worker.specs.Opening.{IsOpen, OpensAt, OpenedSuits};
ghost use Rattle.hk_worker.specs.Sending.{SendsOrFails};

use crate::shards::Shards;
use crate::waiting::{TURNS, give_up, wait, wait_for};
use hk_base::{Actor, Answer, CallNo, Key, Memory, Op};
use hk_callback::Completion;
use hk_link::Outlet;
use hk_locked::{LockedShard, Places, ShardReader, Started};
use hk_outside::{Begun, DeskReply};
use hk_overseer::{ring_all, send_all};
use std::alloc::Global;
use std::sync::atomic::{AtomicU64, Ordering};
use std::sync::{MutexGuard, Wait};

/// Gives the numbers of steps, which rise. All nodes of one program share one.
#[derive(Drop)]
pub struct Tickets {
    next: AtomicU64,
}

impl Tickets {
    /// The first number is 1. It takes no memory.
    pub fn new() -> Tickets {
        Tickets {
            next: AtomicU64::new(1),
        }
    }

    // Raises the next number by one, if it is still this one, which is below 2^64 - 1.
    fn raise(&self, number: u64) -> bool {
        self.next
            .compare_exchange(
                number,
                number.saturating_add(1),
                Ordering::SeqCst,
                Ordering::SeqCst,
            )
            .is_ok()
    }

    /// The next number. 2^64 - 1 is given again and again. It takes no memory.
    pub fn draw<R: Wait>(&self, rt: &R) -> u64 {
        let number = self.next.load(Ordering::SeqCst);
        if number == u64::MAX || self.raise(number) {
            return number;
        }
        self.draw_late(rt)
    }

    // The same where another thread drew meanwhile.
    fn draw_late<R: Wait>(&self, rt: &R) -> u64 {
        for _ in rt.forever() {
            let number = self.next.load(Ordering::SeqCst);
            if number == u64::MAX || self.raise(number) {
                return number;
            }
        }
        unreachable!()
    }

    /// The next number above this one. It takes no memory, and waits for ever where there is none.
    pub fn draw_above<R: Wait>(&self, rt: &R, past: u64) -> u64
        ensures { past < result }
    {
        let number = self.draw(rt);
        if past < number {
            return number;
        }
        self.draw_above_late(rt, past)
    }

    // The same where the number that was drawn was not above it.
    fn draw_above_late<R: Wait>(&self, rt: &R, past: u64) -> u64
        ensures { past < result }
    {
        for _ in rt.forever() {
            let number = self.draw(rt);
            if past < number {
                return number;
            }
        }
        unreachable!()
    }
}

/// An operation that is asked of a key, and the number of its call.
#[derive(Clone, Copy)]
pub(crate) struct KeyCall<'a> {
    pub(crate) call: CallNo,
    pub(crate) key: &'a Key,
    pub(crate) op: &'a Op,
}

/// An update that waits at a post: its key and operation, the number of its call, the ticket of the call's step, and since when it waits, in milliseconds that asks of
/// the post have waited.
#[derive(Drop)]
pub struct OpenAsk {
    pub(crate) key: Key,
    pub(crate) op: Op,
    pub(crate) call: CallNo,
    pub(crate) ticket: u64,
    pub(crate) since: u64,
}

impl OpenAsk {
    // One whose step has this ticket.
    fn new(asked: KeyCall, ticket: u64, since: u64) -> Result<OpenAsk, Memory>
        ensures open { IfOk result (λ waits. IsOpen asked.entry.call asked.entry.key.now asked.entry.op.now waits) }
        ensures ticket { IfOk result (λ waits. waits.ticket ≡ ticket) }
    {
        let key = asked.key.share()?;
        let op = asked.op.share()?;
        Ok(OpenAsk {
            key,
            op,
            call: asked.call,
            ticket,
            since,
        })
    }
}

// The shard's lock, as soon as the key's row is Valid or there is none, and else once the patience for that is over.
fn lock_settled<'a, F: Completion + Copy + Drop, P: Places, R: Wait>(
    rt: &R,
    shards: &'a Shards<F, P>,
    outlets: &[(Actor, Outlet)],
    shard: u8,
    key: &Key,
) -> MutexGuard<'a, LockedShard<F, P>> {
    let held = shards.lock_of(shard).lock(rt);
    if held.is_settled(key) {
        return held;
    }
    drop(held);
    lock_open(rt, shards, outlets, shard, key)
}

// The same where the row was open. It is waited for a while, since each time that it comes to be Valid, another call may be first.
#[inline(never)]
fn lock_open<'a, F: Completion + Copy + Drop, P: Places, R: Wait>(
    rt: &R,
    shards: &'a Shards<F, P>,
    outlets: &[(Actor, Outlet)],
    shard: u8,
    key: &Key,
) -> MutexGuard<'a, LockedShard<F, P>> {
    let steps = shards.steps_at(shard);
    let mut patience = shards.waits().for_row();
    for _ in rt.forever() {
        let seen = steps.seen();
        let held = shards.lock_of(shard).lock(rt);
        if held.is_settled(key) || patience.is_over() {
            return held;
        }
        drop(held);
        wait_for(rt, shards, outlets, key, steps, seen, &mut patience);
    }
    unreachable!()
}

// Makes the call at the shard. Where no memory was found its update may have begun, and nobody waits for what it is told.
fn start<F: Completion + Copy + Drop, P: Places, R: Wait>(
    rt: &R,
    alloc: Global,
    held: &mut LockedShard<F, P>,
    reader: &mut ShardReader<P>,
    ticket: u64,
    asked: KeyCall,
    tell: F,
) -> Result<Started, Memory>
    requires { held.old.shard.last < ticket }
    ensures starts { IfOk result (λ started. StartsAt reader.old reader.new asked.entry.call asked.entry.key.now started.ticket asked.entry.op.now started.answer) }
    ensures made { IfOk result (λ started. CallsAt P.places held.old held.new reader.old reader.new started.ticket asked.entry.call asked.entry.key.now asked.entry.op.now started.letters started.answer) }
    ensures letters { IfOk result (λ started. AllByRecursion IsLetter started.letters) }
    ensures grown { IsGrown asked.entry.key.now reader.old reader.new }
    ensures left { OnErr result (IsLeft asked.entry.call held.new) }
{
    let Ok(started) = held.start(
        rt, alloc, reader, ticket, asked.call, asked.key, asked.op, tell,
    ) else {
        held.give_up(asked.call);
        return Err(Memory);
    };
    Ok(started)
}

/// Waits a while until the key is Valid, and makes the call, under the shard's lock.
pub(crate) fn begin<F: Completion + Copy + Drop, P: Places, R: Wait>(
    rt: &R,
    alloc: Global,
    shards: &Shards<F, P>,
    reader: &mut ShardReader<P>,
    outlets: &[(Actor, Outlet)],
    asked: KeyCall,
    tell: F,
) -> Result<Started, Memory>
    ensures starts { IfOk result (λ started. StartsAt reader.old reader.new asked.entry.call asked.entry.key.now started.ticket asked.entry.op.now started.answer) }
    ensures called { IfOk result (λ started. WasCalled P.places reader.old.node reader.old.number asked.entry.call asked.entry.key.now asked.entry.op.now started.letters reader.old reader.new) }
    ensures letters { IfOk result (λ started. AllByRecursion IsLetter started.letters) }
    ensures grown { IsGrown asked.entry.key.now reader.old reader.new }
{
    let mut held = lock_settled(rt, shards, outlets, reader.number(), asked.key);
    let ticket = shards.tickets().draw_above(rt, held.last_ticket());
    start(rt, alloc, &mut *held, reader, ticket, asked, tell)
}

/// Asks an operation: waits a while until the key is Valid, makes the call, sends its letters, and where its update waits looks until it was told.
pub(crate) fn ask<F: Completion + Copy + Drop, P: Places, R: Wait>(
    rt: &R,
    alloc: Global,
    shards: &Shards<F, P>,
    reader: &mut ShardReader<P>,
    outlets: &mut Vec<(Actor, Outlet)>,
    asked: KeyCall,
    tell: F,
) -> Result<DeskReply, Memory>
    requires { reader.old.number < 8 }
    ensures tells { IfOk result (λ reply. Tells asked.entry.call asked.entry.key.now asked.entry.op.now reader.old reader.new reply) }
    ensures suits { Suits asked.entry.op.now result }
    ensures sent { SendsOrFails P.places reader.old.node reader.old.number asked.entry.call asked.entry.key.now asked.entry.op.now reader.old reader.new outlets.old.items outlets.new.items result }
    ensures grown { IsGrown asked.entry.key.now reader.old reader.new }
{
    let shard = reader.number();
    let started = begin(rt, alloc, shards, reader, outlets.as_slice(), asked, tell)?;
    let Started {
        ticket,
        answer,
        letters,
    } = started;
    send_all(rt, outlets, shard, letters);
    ring_all(rt, outlets.as_slice());
    if let Some(answer) = answer {
        return Ok(DeskReply::Told(answer));
    }
    let mut patience = shards.waits().for_answer();
    if let Some(answer) = wait(
        rt,
        shards,
        reader,
        outlets.as_slice(),
        asked.key,
        asked.call,
        ticket,
        &mut patience,
    )? {
        return Ok(DeskReply::Told(answer));
    }
    give_up(rt, shards, shard, asked.call);
    Ok(DeskReply::Unknown { turns: TURNS })
}

/// What the step of a call came to: it was answered at once, or its update waits, and its letters are not rung for yet. Where no memory was found to keep what waits,
/// the update has begun all the same, and nobody waits for what it is told.
pub(crate) fn tell_or_wait<F: Completion + Copy + Drop, P: Places, R: Wait>(
    rt: &R,
    shards: &Shards<F, P>,
    outlets: &[(Actor, Outlet)],
    shard: u8,
    asked: KeyCall,
    ticket: u64,
    answer: Option<Answer>,
    since: u64,
) -> Result<Begun<OpenAsk>, Memory>
    ensures opens { (old new : ReaderState) → StartsAt old new asked.entry.call asked.entry.key.now ticket asked.entry.op.now answer → IfOk result (λ opened. OpensAt asked.entry.call asked.entry.key.now asked.entry.op.now old new opened) }
    ensures suits { (old new : ReaderState) → StartsAt old new asked.entry.call asked.entry.key.now ticket asked.entry.op.now answer → OpenedSuits asked.entry.op.now result }
{
    if let Some(answer) = answer {
        ring_all(rt, outlets);
        return Ok(Begun::Told(DeskReply::Told(answer)));
    }
    match OpenAsk::new(asked, ticket, since) {
        Ok(waits) => Ok(Begun::Waits(waits)),
        Err(memory) => {
            ring_all(rt, outlets);
            give_up(rt, shards, shard, asked.call);
            Err(memory)
        }
    }
}
