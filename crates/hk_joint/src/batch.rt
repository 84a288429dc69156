//! Reads of several keys that one node answers at events that follow each other.

ghost use Rattle.std.specs.Prelude.{◌≡◌, [], ◌∷◌, ◌++◌, map, IfOk, OnOk};
ghost use Rattle.hk_joint.specs.Batch.{is_told, reading_by, reading_in, goes_on, calls_of};

use hk_base::{Answer, CallNo, Key, Memory, NodeId, Op, Reply, Sequence};
use hk_event::Event;
use hk_world::Shown;
use std::alloc::Global;
use std::marker::Model;

/// The calls of a batch, the first one first.
pub type BatchCalls = Sequence<CallNo>;

/// Batches by their calls, the first one first.
pub type Batches = Sequence<BatchCalls>;

/// A Read that told what its key holds.
#[derive(Drop)]
pub struct Reading {
    pub node: NodeId,
    pub key: Key,
    pub call: CallNo,
}

/// Finds the batches of a run as its events come. The open batch is the one that may go on.
#[derive(Drop)]
pub struct Batching {
    open: Vec<Reading>,
    made: Vec<BatchCalls>,
}

impl Model for Batching {
    ghost use Rattle.hk_joint.specs.Batch.{BatchingState};

    ghost Value = { BatchingState };

    ghost view = { λ b. record { open_batch = b.open.items; made = b.made.items } };
}

// Whether the answer tells what the key holds.
fn is_told(answer: &Answer) -> bool
    ensures { result ≡ is_told answer.now }
{
    matches!(answer, Answer::Found { .. } | Answer::Missing)
}

fn told_by(node: NodeId, key: &Key, replies: &[Reply]) -> Result<Option<Reading>, Memory>
    ensures { IfOk result (λ reading. reading ≡ reading_by node key.now replies.now) }
{
    let Some(reply) = replies.first() else {
        return Ok(None);
    };
    if !is_told(&reply.answer) {
        return Ok(None);
    }
    let key = key.share()?;
    Ok(Some(Reading {
        node,
        key,
        call: reply.call,
    }))
}

// The Read that an event is, where it is one.
fn reading_in(event: &Event, replies: &[Reply]) -> Result<Option<Reading>, Memory>
    ensures { IfOk result (λ reading. reading ≡ reading_in event.now replies.now) }
{
    match event {
        Event::Call {
            node,
            key,
            op: Op::Read,
        } => told_by(*node, key, replies),
        _ => Ok(None),
    }
}

fn goes_on(batch: &[Reading], reading: &Reading) -> bool
    ensures { result ≡ goes_on batch.now reading.now }
{
    batch.iter().all(|other| other.node.0 == reading.node.0 && !other.key.cmp(&reading.key).is_eq())
}

fn calls_of(alloc: Global, batch: &[Reading]) -> Result<BatchCalls, Memory>
    ensures { IfOk result (λ calls. calls ≡ calls_of batch.now) }
{
    let mut calls = BatchCalls::new(alloc);
    for reading in batch {
        calls.push(reading.call)?;
    }
    Ok(calls)
}

impl Batching {
    ghost use Rattle.hk_joint.specs.Batch.{no_batch, ended, noted};

    /// No events yet. It takes no memory.
    pub fn new(alloc: Global) -> Batching
        ensures { result ≡ no_batch }
    {
        Batching {
            open: Vec::new(alloc),
            made: Vec::new(alloc),
        }
    }

    // The open batch ends, and is one of the batches if it has at least two Reads.
    fn close(&mut self, alloc: Global) -> Result<(), Memory>
        ensures { OnOk result (self.new ≡ record { open_batch = []; made = ended self.old }) }
    {
        if self.open.len() > 1 {
            let calls = calls_of(alloc, self.open.as_slice())?;
            self.made.push(calls)?;
        }
        self.open.clear();
        Ok(())
    }

    /// An event that the world accepted, and what it showed. After want of memory some batches may be lost.
    pub fn note(&mut self, alloc: Global, event: &Event, shown: &Shown) -> Result<(), Memory>
        ensures { OnOk result (self.new ≡ noted self.old (reading_in event.now shown.now.replies)) }
    {
        let Some(reading) = reading_in(event, shown.replies.as_slice())? else {
            return self.close(alloc);
        };
        if !goes_on(self.open.as_slice(), &reading) {
            self.close(alloc)?;
        }
        self.open.push(reading)?;
        Ok(())
    }

    /// The batches of the events so far.
    pub fn finish(self, alloc: Global) -> Result<Batches, Memory>
        ensures { IfOk result (λ batches. batches ≡ ended self) }
    {
        let mut batching = self;
        batching.close(alloc)?;
        let Batching { open: _open, made } = batching;
        Ok(Batches::from_vec(made))
    }
}
