//! A desk, which is asked operations.

ghost use Rattle.std.specs.Prelude.{◌≡◌, ◌++◌, ◌∷◌, [], drop, List, Option, Result, Ok, Some, None, true, false, IfOk, if◌then◌else◌};
ghost use Rattle.hk_base.specs.declared.call.Op.{Op};
ghost use Rattle.hk_base.specs.declared.memory.Memory.{Memory};
ghost use Rattle.hk_outside.specs.Desk.{ActSuits, Asks, Begins, BeginSuits, Finishes, IsSettled, Suits, answers, suits, is_busy, next_of};
ghost use Rattle.hk_outside.specs.Late.{WaitsOrTold};
ghost use Rattle.hk_outside.specs.declared.desk.Asked.{Asked};
ghost use Rattle.hk_outside.specs.declared.desk.DeskReply.{DeskReply};
ghost use Rattle.hk_outside.specs.declared.desk.DeskReply.TheVariants.{Spent};

use crate::wait::FakeWait;
use hk_base::{Answer, Key, Memory, Op, Why};
use std::alloc::Global;
use std::collections::VecDeque;

/// What a desk tells.
#[derive(PartialEq, Eq, Drop)]
pub enum DeskReply {
    /// The answer.
    Told(Answer),
    /// The update was still on its way after so many turns. It may take effect yet, once.
    Unknown { turns: u64 },
    /// The desk has made all the asks that it may, so many. Nothing was begun.
    Spent { asks: u64 },
}

/// One ask of a desk: its key and operation with what was told, or that no memory was found.
#[derive(PartialEq, Eq, Drop)]
pub enum Asked {
    Replied { key: Key, op: Op, reply: DeskReply },
    NoMemory,
}

/// What is told at once of an ask that begins.
#[derive(Drop)]
pub enum Begun<W> {
    /// What it is told.
    Told(DeskReply),
    /// It waits: to finish it tells it.
    Waits(W),
}

/// What is asked an operation on a key, and tells the outcome.
pub trait Desk {
    /// An ask that waits. Each is to be finished: until then its desk may keep something for it.
    type Waits: Drop;

    /// Its asks so far with what it told or will tell, in the order in which they began, the newest last, where it tells them.
    ghost asks: { Self → Option (List Asked) };

    /// What operation waits.
    ghost op_of: { Self.Waits → Op };

    /// What an ask that waits will be told, where its desk tells its asks.
    ghost will: { Self.Waits → Result DeskReply Memory } = { λ _. Ok (Spent 0) };

    /// Asks one operation. What is told suits it: an unknown outcome is told of an update alone.
    fn ask(&mut self, key: &Key, op: &Op) -> Result<DeskReply, Memory>
        ensures listed { Asks (asks self.old) (asks self.new) key.now op.now result }
        ensures suits { Suits op.now result };

    /// Begins to ask one operation: others may be asked before it is told. By default it is told at once.
    fn begin(&mut self, key: &Key, op: &Op) -> Result<Begun<Self::Waits>, Memory>
        ensures listed { Begins will (asks self.old) (asks self.new) key.now op.now result }
        ensures suits { BeginSuits op_of op.now result }
    {
        match self.ask(key, op) {
            Ok(reply) => Ok(Begun::Told(reply)),
            Err(memory) => Err(memory),
        }
    }

    /// Tells an ask that waits. It is not Busy: what waits has begun.
    fn finish(&mut self, waits: Self::Waits) -> Result<DeskReply, Memory>
        ensures listed { Finishes (asks self.old) (asks self.new) (will waits) result }
        ensures settled { IsSettled result }
        ensures suits { Suits (op_of waits) result };
}

/// What waits at a desk at which nothing does.
#[derive(Drop)]
pub enum NoWait {}

impl DeskReply {
    /// The same reply, which shares the bytes.
    pub fn share(&self) -> Result<DeskReply, Memory>
        ensures { IfOk result (λ reply. reply ≡ self.now) }
    {
        match self {
            DeskReply::Told(answer) => {
                let answer = answer.share()?;
                Ok(DeskReply::Told(answer))
            }
            DeskReply::Unknown { turns } => Ok(DeskReply::Unknown { turns: *turns }),
            DeskReply::Spent { asks } => Ok(DeskReply::Spent { asks: *asks }),
        }
    }
}

/// Whether an answer can be one to the operation. Each may be refused for now; an update may be Exhausted, and one
/// that looks at what is held, which is each but a write, may be Aborted.
pub fn answers(op: &Op, answer: &Answer) -> bool
    ensures { result ≡ answers op.now answer.now }
{
    match answer {
        Answer::Busy(_) => true,
        Answer::Found { .. } | Answer::Missing => matches!(op, Op::Read),
        Answer::Stored => matches!(
            op,
            Op::Write(_) | Op::Cas { .. } | Op::Add(_) | Op::Replace(_)
        ),
        Answer::Number(_) | Answer::NotNumber => matches!(op, Op::Incr(_) | Op::Decr(_)),
        Answer::Exists => matches!(op, Op::Cas { .. }),
        Answer::NotFound => matches!(op, Op::Cas { .. } | Op::Incr(_) | Op::Decr(_) | Op::Delete),
        Answer::NotStored => matches!(op, Op::Add(_) | Op::Replace(_)),
        Answer::Deleted => matches!(op, Op::Delete),
        Answer::Aborted(_) => !matches!(op, Op::Read | Op::Write(_)),
        Answer::Exhausted(_) => !matches!(op, Op::Read),
    }
}

/// What the operation `op` answers on a register, by the definition `act`, is an answer to it: a desk that asks `act`
/// alone tells what suits.
pub fn act_suits()
    ensures { ActSuits }
{}

/// Whether a desk may tell this of the operation: an answer to it; an unknown outcome of an update alone; or that it
/// has made all its asks.
pub fn suits(op: &Op, reply: &DeskReply) -> bool
    ensures { result ≡ suits op.now reply.now }
{
    match reply {
        DeskReply::Told(answer) => answers(op, answer),
        DeskReply::Unknown { .. } => !matches!(op, Op::Read),
        DeskReply::Spent { .. } => true,
    }
}

/// A desk that tells what stands in its list, one after the other. Where the next reply does not suit the operation,
/// or the list is at its end, it tells Busy of a lease with end 0 and now 1. It takes the room for its list of asks
/// when it is made, and tells the list while it fits.
#[derive(Drop)]
pub struct FakeDesk {
    pub replies: VecDeque<DeskReply>,
    pub asked: Vec<Asked>,
    /// Whether every ask so far stands in the list.
    pub complete: bool,
    /// Whether what begins waits, unless it is told Busy or there is no memory.
    pub late: bool,
}

impl FakeDesk {
    /// A desk with these replies, and room for so many asks.
    pub fn new(alloc: Global, replies: VecDeque<DeskReply>, room: usize) -> Result<FakeDesk, Memory>
        ensures { IfOk result (λ desk. (desk.replies ≡ replies) × (desk.asked.items ≡ []) × (desk.complete ≡ true) × (desk.late ≡ false)) }
    {
        let asked = Vec::with_capacity(alloc, room)?;
        Ok(FakeDesk {
            replies,
            asked,
            complete: true,
            late: false,
        })
    }

    // The next reply, or one that suits any operation.
    fn next(&mut self, op: &Op) -> DeskReply
        ensures suits { suits op.now result ≡ true }
        ensures told { next_of op.now self.old.replies.items ≡ result }
        ensures rest { self.new.replies.items ≡ drop 1 self.old.replies.items }
        ensures asked { self.new.asked ≡ self.old.asked }
        ensures complete { self.new.complete ≡ self.old.complete }
    {
        match self.replies.pop_front() {
            Some(reply) if suits(op, &reply) => reply,
            _ => DeskReply::Told(Answer::Busy(Why::Lease { end: 0, now: 1 })),
        }
    }

    // Notes an ask, where there is room.
    fn note(&mut self, ask: Asked)
        ensures replies { self.new.replies ≡ self.old.replies }
        ensures noted { self.new.complete ≡ true → (self.old.complete ≡ true) × (self.new.asked.items ≡ self.old.asked.items ++ ask ∷ []) }
    {
        if self.asked.len() < self.asked.capacity() {
            self.asked.push_reserved(ask);
        } else {
            self.complete = false;
        }
    }
}

fn replied(key: &Key, op: &Op, reply: &DeskReply) -> Result<Asked, Memory>
    ensures { IfOk result (λ ask. ask ≡ Asked.Replied key.now op.now reply.now) }
{
    let key = key.share()?;
    let op = op.share()?;
    let reply = reply.share()?;
    Ok(Asked::Replied { key, op, reply })
}

fn is_busy(reply: &DeskReply) -> bool
    ensures { result ≡ is_busy reply.now }
{
    matches!(reply, DeskReply::Told(Answer::Busy(_)))
}

// What was told waits, where the desk is late, unless it is Busy.
fn waits(late: bool, op: Op, reply: DeskReply) -> Begun<FakeWait>
    requires { suits op reply ≡ true }
    ensures { WaitsOrTold op reply result }
{
    if !late {
        return Begun::Told(reply);
    }
    if is_busy(&reply) {
        return Begun::Told(reply);
    }
    Begun::Waits(FakeWait { op, reply })
}

impl Desk for FakeDesk {
    type Waits = FakeWait;

    ghost asks = { λ desk. if desk.complete then Some desk.asked.items else None };

    ghost op_of = { λ waits. waits.op };

    ghost will = { λ waits. Ok waits.reply };

    fn ask(&mut self, key: &Key, op: &Op) -> Result<DeskReply, Memory> {
        let reply = self.next(op);
        match replied(key, op, &reply) {
            Ok(ask) => {
                self.note(ask);
                Ok(reply)
            }
            Err(Memory) => {
                self.note(Asked::NoMemory);
                Err(Memory)
            }
        }
    }

    fn begin(&mut self, key: &Key, op: &Op) -> Result<Begun<FakeWait>, Memory> {
        let Ok(shared) = op.share() else {
            self.note(Asked::NoMemory);
            return Err(Memory);
        };
        match self.ask(key, op) {
            Ok(reply) => Ok(waits(self.late, shared, reply)),
            Err(memory) => Err(memory),
        }
    }

    fn finish(&mut self, waits: FakeWait) -> Result<DeskReply, Memory> {
        Ok(waits.reply)
    }
}
