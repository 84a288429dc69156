//! A desk at a post, with a clock.

ghost use Rattle.std.specs.Prelude.{◌≡◌, ◌≤◌, ℕ, List, Option, min, true, None, Ok, IsTrue, IfOk, OnOk};
ghost use Rattle.std.specs.Arc.{arc_value};
ghost use Rattle.std.specs.Option.{IfSome};
ghost use Rattle.hk_base.specs.declared.memory.Memory.{Memory};
ghost use Rattle.hk_base.specs.declared.call.CallNo.{CallNo};
ghost use Rattle.hk_base.specs.declared.call.Op.{Op};
ghost use Rattle.hk_base.specs.declared.call.Op.TheVariants.{Read};
ghost use Rattle.hk_base.specs.declared.time.TheConstants.{MAX_TIME};
ghost use Rattle.hk_outside.specs.Desk.{BeginSuits, IsSettled, Suits, answers, suits};
ghost use Rattle.hk_outside.specs.declared.desk.DeskReply.TheVariants.{Told};
ghost use Rattle.hk_locked.specs.Locked.{ReaderState};
ghost use Rattle.hk_locked.specs.Places.{NodeNames};
ghost use Rattle.hk_locked.specs.Steps.{IsGrown};
ghost use Rattle.hk_worker.specs.Asking.{AsksAtPost, PostState, Tells, reader_of};
ghost use Rattle.hk_worker.specs.Reading.{AsksByClock, HasLooked, HasRisen, TellsByClock, TellsRead, holds_by_lease};
ghost use Rattle.hk_worker.specs.Sending.{Sends, SendsByClock};
ghost use Rattle.hk_worker.specs.Opening.{BeginsAtPost, BeginsByClock, BeginSends, BeginSendsByClock, FinishesAtPost, OpenedSuits, begun_by_lease, told_by_lease};

use crate::asking::OpenAsk;
use crate::desk::NodeDesk;
use crate::desk_clock::DeskClock;
use crate::post::Post;
use crate::reading::{give, look};
use crate::shards::Shards;
use hk_base::{Answer, Key, MAX_TIME, Memory, Op};
use hk_callback::Completion;
use hk_locked::{Places, ShardReader};
use hk_outside::{Begun, Desk, DeskReply};
use hk_shard::shard_of;
use std::alloc::Global;
use std::sync::{Arc, Wait};

// A reading as it counts: one above the limit is the limit.
fn within(reading: u64) -> u64
    ensures is { result ≡ min reading MAX_TIME }
    ensures below { result ≤ MAX_TIME }
{
    reading.min(MAX_TIME)
}

// Whether the reader's shard was ticked to such a reading.
fn has_ticked<P: Places>(reader: &ShardReader<P>, now: u64) -> bool
    ensures { IsTrue result → now ≤ reader.now.lease.now }
{
    now <= reader.ticked()
}

// Raises the clock of the reader's shard to a reading, where that rose since the reader's last tick.
fn raise<F: Completion + Copy + Drop, P: Places, R: Wait>(
    rt: &R,
    alloc: Global,
    shards: &Shards<F, P>,
    reader: &mut ShardReader<P>,
    now: u64,
) -> Result<(), Memory>
    requires { now ≤ MAX_TIME }
    ensures grown { (key : List ℕ) → IsGrown key reader.old reader.new }
    ensures risen { OnOk result (now ≤ reader.new.lease.now) }
{
    if has_ticked(reader, now) {
        return Ok(());
    }
    shards.tick(rt, alloc, reader, now)?;
    Ok(())
}

// Whether the answer holds only while the lease runs: it tells what the key holds, and no update began.
pub(crate) fn holds_by_lease(answer: &Answer) -> bool
    ensures { result ≡ holds_by_lease answer.now }
{
    match answer {
        Answer::Found { .. } => true,
        Answer::Missing => true,
        Answer::Exists => true,
        Answer::NotFound => true,
        Answer::NotNumber => true,
        Answer::NotStored => true,
        Answer::Exhausted(_) => true,
        Answer::Stored => false,
        Answer::Number(_) => false,
        Answer::Deleted => false,
        Answer::Aborted(_) => false,
        Answer::Busy(_) => false,
    }
}

// Whether what was told holds only while the lease runs.
fn told_by_lease(reply: &DeskReply) -> bool
    ensures { result ≡ told_by_lease reply.now }
{
    match reply {
        DeskReply::Told(answer) => holds_by_lease(answer),
        DeskReply::Unknown { .. } => false,
        DeskReply::Spent { .. } => false,
    }
}

// The same of what came of an ask that began.
fn begun_by_lease(begun: &Result<Begun<OpenAsk>, Memory>) -> bool
    ensures { result ≡ begun_by_lease begun.now }
{
    match begun {
        Ok(begun) => match begun {
            Begun::Told(reply) => told_by_lease(reply),
            Begun::Waits(_) => false,
        },
        Err(_) => false,
    }
}

impl<F: Completion + Copy + Drop, P: Places> Post<F, P> {
    // Answers a read from what the shard of its key shows, where that can be.
    fn look_at<C: DeskClock, R: Wait>(
        &mut self,
        rt: &R,
        clock: &C,
        key: &Key,
    ) -> Result<Option<Answer>, Memory>
        ensures looked { HasLooked key.now self.old self.new }
        ensures told { IfOk result (λ told. IfSome told (λ answer. TellsRead (C.was_read clock.now) key.now (reader_of key.now self.old) (reader_of key.now self.new) answer)) }
        ensures suits { IfOk result (λ told. IfSome told (λ answer. answers Read answer ≡ true)) }
    {
        let shard = usize::from(shard_of(key));
        look(
            rt,
            self.alloc,
            &self.shards,
            &mut self.readers[shard],
            self.outlets.as_slice(),
            clock,
            key,
        )
    }

    // The same of a read. None for any other operation.
    fn read<C: DeskClock, R: Wait>(
        &mut self,
        rt: &R,
        clock: &C,
        key: &Key,
        op: &Op,
    ) -> Result<Option<Answer>, Memory>
        ensures looked { HasLooked key.now self.old self.new }
        ensures read { IfOk result (λ told. IfSome told (λ answer. op.now ≡ Read)) }
        ensures told { IfOk result (λ told. IfSome told (λ answer. TellsRead (C.was_read clock.now) key.now (reader_of key.now self.old) (reader_of key.now self.new) answer)) }
        ensures suits { IfOk result (λ told. IfSome told (λ answer. answers op.now answer ≡ true)) }
    {
        match op {
            Op::Read => self.look_at(rt, clock, key),
            _ => Ok(None),
        }
    }

    // Raises the clock of the key's shard to a reading, where that rose. One above the limit counts as the limit.
    fn raise<R: Wait>(&mut self, rt: &R, key: &Key, reading: u64) -> Result<(), Memory>
        ensures looked { HasLooked key.now self.old self.new }
        ensures risen { OnOk result (min reading MAX_TIME ≤ (reader_of key.now self.new).lease.now) }
    {
        let shard = usize::from(shard_of(key));
        let now = within(reading);
        raise(rt, self.alloc, &self.shards, &mut self.readers[shard], now)
    }

    // What is given of what a step at the key's shard told, once the clock is read behind it.
    fn give<C: DeskClock, R: Wait>(
        &mut self,
        rt: &R,
        clock: &C,
        key: &Key,
        answer: Answer,
    ) -> Answer
        ensures looked { HasLooked key.now self.old self.new }
        ensures given { (call : CallNo) (op : Op) (old : ReaderState) → Tells call key.now op old (reader_of key.now self.old) (Told answer) → TellsByClock (C.was_read clock.now) call key.now op old (reader_of key.now self.new) (Told result) }
        ensures suits { (op : Op) → answers op answer ≡ true → answers op result ≡ true }
    {
        let shard = usize::from(shard_of(key));
        give(rt, &mut self.readers[shard], clock, answer)
    }

    // The same of what an ask was told: an answer that holds by the lease is given by a reading behind the step.
    fn give_reply<C: DeskClock, R: Wait>(
        &mut self,
        rt: &R,
        clock: &C,
        key: &Key,
        reply: DeskReply,
    ) -> DeskReply
        ensures told { (reading : Option ℕ) (op : Op) (before : PostState) → HasRisen reading key.now self.old → AsksAtPost {E = Memory} key.now op before self.old (Ok reply) → AsksByClock {E = Memory} (C.was_read clock.now) reading key.now op before self.new (Ok result) }
        ensures sent { (places : List NodeNames) (op : Op) (before : PostState) → Sends {E = Memory} places key.now op before self.old (Ok reply) → Sends {E = Memory} places key.now op before self.new (Ok result) }
        ensures suits { (op : Op) → IsTrue (suits op reply) → IsTrue (suits op result) }
    {
        match reply {
            DeskReply::Told(answer) => DeskReply::Told(self.give(rt, clock, key, answer)),
            DeskReply::Unknown { turns } => DeskReply::Unknown { turns },
            DeskReply::Spent { asks } => DeskReply::Spent { asks },
        }
    }

    // The same of what an ask came to that began. What waits goes on to wait.
    fn give_begun<C: DeskClock, R: Wait>(
        &mut self,
        rt: &R,
        clock: &C,
        key: &Key,
        begun: Begun<OpenAsk>,
    ) -> Begun<OpenAsk>
        ensures told { (reading : Option ℕ) (op : Op) (old before : PostState) → HasLooked key.now old before → HasRisen reading key.now before → HasRisen reading key.now self.old → BeginsAtPost {E = Memory} key.now op before self.old (Ok begun) → BeginsByClock {E = Memory} (C.was_read clock.now) reading key.now op old self.new (Ok result) }
        ensures sent { (places : List NodeNames) (op : Op) (before : PostState) → BeginSends {E = Memory} places key.now op before self.old (Ok begun) → BeginSends {E = Memory} places key.now op before self.new (Ok result) }
        ensures suits { (op : Op) → OpenedSuits {E = Memory} op (Ok begun) → OpenedSuits {E = Memory} op (Ok result) }
    {
        match begun {
            Begun::Told(reply) => Begun::Told(self.give_reply(rt, clock, key, reply)),
            Begun::Waits(waits) => Begun::Waits(waits),
        }
    }

    /// Asks one operation by a clock. A read is told from what the shard of its key shows, with no lock, where it shows the key's row; while that is not Valid, it
    /// is looked at again for a while. For any other ask the shard is ticked to the clock, where its reading rose, and the post is asked. What began no update is told only
    /// where the lease runs by a reading of the clock behind the step. Else it is told that the lease may be over: it may be asked again.
    pub fn ask_by<C: DeskClock, R: Wait>(
        &mut self,
        rt: &R,
        clock: &C,
        key: &Key,
        op: &Op,
    ) -> Result<DeskReply, Memory>
        ensures suits { Suits op.now result }
        ensures told { AsksByClock (C.was_read clock.now) (C.reading clock.now) key.now op.now self.old self.new result }
        ensures sent { SendsByClock P.places key.now op.now self.old self.new result }
    {
        if let Some(answer) = self.read(rt, clock, key, op)? {
            return Ok(DeskReply::Told(answer));
        }
        let reading = clock.now();
        self.raise(rt, key, reading)?;
        let reply = self.ask(rt, key, op)?;
        Ok(self.give_reply(rt, clock, key, reply))
    }

    /// Begins to ask one operation by a clock, as `ask_by` asks it. An update may wait, and others may be asked before it is finished. Its letters are rung for as those
    /// of `begin` are.
    pub fn begin_by<C: DeskClock, R: Wait>(
        &mut self,
        rt: &R,
        clock: &C,
        key: &Key,
        op: &Op,
    ) -> Result<Begun<OpenAsk>, Memory>
        ensures suits { OpenedSuits op.now result }
        ensures told { BeginsByClock (C.was_read clock.now) (C.reading clock.now) key.now op.now self.old self.new result }
        ensures sent { BeginSendsByClock P.places key.now op.now self.old self.new result }
    {
        if let Some(answer) = self.read(rt, clock, key, op)? {
            return Ok(Begun::Told(DeskReply::Told(answer)));
        }
        let reading = clock.now();
        self.raise(rt, key, reading)?;
        let begun = self.begin(rt, key, op);
        // what needs no lease is given as it is, without being moved once more
        if !begun_by_lease(&begun) {
            return begun;
        }
        match begun {
            Ok(begun) => Ok(self.give_begun(rt, clock, key, begun)),
            Err(memory) => Err(memory),
        }
    }
}

/// Asks operations at the post of a [`NodeDesk`], with a clock. A read is told from what the shard of its key shows, with no lock, where that shows the key's
/// row. For any other ask the shard is ticked to the clock first.
#[derive(Drop)]
pub struct ClockDesk<C: DeskClock + Drop, R: Wait + Drop, F: Completion + Copy + Drop, P: Places> {
    pub desk: NodeDesk<R, F, P>,
    clock: Arc<C>,
}

impl<C: DeskClock + Drop, R: Wait + Drop, F: Completion + Copy + Drop, P: Places> ClockDesk<
    C,
    R,
    F,
    P,
> {
    /// The desk with this clock. It takes no memory.
    pub fn new(desk: NodeDesk<R, F, P>, clock: Arc<C>) -> ClockDesk<C, R, F, P>
        ensures { result.desk ≡ desk }
    {
        ClockDesk { desk, clock }
    }
}

impl<C: DeskClock + Drop, R: Wait + Drop, F: Completion + Copy + Drop, P: Places> Desk
    for ClockDesk<C, R, F, P> {
    type Waits = OpenAsk;

    ghost asks = { λ desk. None };

    ghost op_of = { λ waits. waits.op };

    fn ask(&mut self, key: &Key, op: &Op) -> Result<DeskReply, Memory>
        ensures suits { Suits op.now result }
        ensures told { AsksByClock (C.was_read (arc_value self.old.clock)) (C.reading (arc_value self.old.clock)) key.now op.now self.old.desk.post self.new.desk.post result }
        ensures sent { SendsByClock P.places key.now op.now self.old.desk.post self.new.desk.post result }
    {
        self.desk.ask_by(&*self.clock, key, op)
    }

    fn begin(&mut self, key: &Key, op: &Op) -> Result<Begun<OpenAsk>, Memory>
        ensures suits { BeginSuits (λ waits. waits.op) op.now result }
        ensures told { BeginsByClock (C.was_read (arc_value self.old.clock)) (C.reading (arc_value self.old.clock)) key.now op.now self.old.desk.post self.new.desk.post result }
        ensures sent { BeginSendsByClock P.places key.now op.now self.old.desk.post self.new.desk.post result }
    {
        self.desk.begin_by(&*self.clock, key, op)
    }

    fn finish(&mut self, waits: OpenAsk) -> Result<DeskReply, Memory>
        ensures suits { Suits waits.op result }
        ensures settled { IsSettled result }
        ensures told { FinishesAtPost waits self.old.desk.post self.new.desk.post result }
    {
        self.desk.finish(waits)
    }
}
