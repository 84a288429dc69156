//! A thread's place at the shards of a node.

ghost use Rattle.std.specs.Prelude.{◌≡◌, ◌<◌, ◌≤◌, ◌^◌, ℕ, true, length, IsTrue, Ok, IfOk, OnOk, OnErr};
ghost use Rattle.hk_base.specs.declared.time.TheConstants.{MAX_TIME};
ghost use Rattle.hk_outside.specs.Desk.{IsSettled, Suits, is_busy};
ghost use Rattle.hk_worker.specs.Asking.{AsksAtPost, AreReadersBelow, HaveTicked, HaveAsked, AsksBy, IsTicked, call_number};
ghost use Rattle.std.specs.Arc.{arc_value};
ghost use Rattle.hk_turns.specs.Requests.{requests_in};
ghost use Rattle.hk_worker.specs.Sending.{Sends};
ghost use Rattle.hk_worker.specs.Opening.{BeginsAtPost, BeginSends, FinishesAtPost, OpenedSuits};
ghost use Rattle.hk_worker.specs.Working.{HasWorked, WereQuietBelow};

use crate::asking::{KeyCall, OpenAsk, ask, begin, tell_or_wait};
use crate::shards::Shards;
use crate::waiting::finish_ask;
use hk_base::{Actor, Answer, CallNo, Key, MAX_TIME, Memory, NodeId, Op, SHARDS};
use hk_callback::Completion;
use hk_link::Outlet;
use hk_locked::{Doubt, Places, ShardReader, Started};
use hk_outside::{Begun, DeskReply, suits};
use hk_overseer::{Gate, Outlets, ring_all, send_all};
use hk_shard::shard_of;
use hk_turns::{Inlets, Worker};
use std::alloc::Global;
use std::marker::Model;
use std::sync::{Arc, Wait};

// The numbers of a post's calls are this many apart from those of the next post.
const NUMBERS: u64 = 4_294_967_296;

/// A thread's place at the shards of a node: its readers of them, its inlets and its outlets to others, what it has to do as a worker, and the numbers of its
/// calls. Contracts see these, the node and how long its leases are, the post's number, how many asks were made, and the greatest reading that it ticked to.
#[derive(Drop)]
pub struct Post<F: Completion + Copy + Drop, P: Places> {
    pub(crate) alloc: Global,
    number: u32,
    asks: u32,
    ticked: u64,
    pub(crate) shards: Arc<Shards<F, P>>,
    pub(crate) readers: Vec<ShardReader<P>>,
    worker: Worker,
    pub(crate) outlets: Vec<(Actor, Outlet)>,
    tell: F,
    // So many milliseconds updates that waited have been waited for, one behind the other.
    waited: u64,
}

impl<F: Completion + Copy + Drop, P: Places> Model for Post<F, P> {
    ghost use Rattle.std.specs.Arc.{arc_value};
    ghost use Rattle.std.specs.Coded.{codes};
    ghost use Rattle.hk_link.specs.contracts.rule.Known as known;
    ghost use Rattle.hk_worker.specs.Asking.{PostState, AreReadersBelow};

    ghost Value = { PostState };

    ghost coded = { Prim.hlevel (codes, known.the_row.coded) };

    ghost view = { λ p. record {
      node = (arc_value p.shards).node;
      lease = (arc_value p.shards).lease;
      number = p.number;
      asks = p.asks;
      ticked = p.ticked;
      readers = p.readers.items;
      worker = p.worker;
      outlets = p.outlets.items;
    } };

    ghost invariant = { λ p. AreReadersBelow 8 (arc_value p.shards).node p.readers.items };
}

// The number of the post's call of this number, counted from 1.
fn call_number(post: u32, asks: u32) -> CallNo
    ensures { result ≡ call_number post asks }
{
    CallNo(u64::from(post) * NUMBERS + u64::from(asks))
}

impl<F: Completion + Copy + Drop, P: Places> Post<F, P> {
    /// A post of the node with these shards. Each post of a node has another number. It takes parcels from `inlets`, and letters go by `outlets`. `tell` is
    /// called with the answer of each update of this post that had to wait.
    pub fn new<R: Wait>(
        rt: &R,
        alloc: Global,
        node: u16,
        number: u32,
        shards: Arc<Shards<F, P>>,
        inlets: Inlets,
        outlets: Outlets,
        tell: F,
    ) -> Result<Post<F, P>, Memory>
        ensures node { IfOk result (λ post. post.node ≡ record { 0 = node }) }
        ensures lease { IfOk result (λ post. post.lease ≡ (arc_value shards).lease) }
        ensures number { IfOk result (λ post. post.number ≡ number) }
        ensures asks { IfOk result (λ post. post.asks ≡ 0) }
        ensures ticked { IfOk result (λ post. post.ticked ≡ 0) }
        ensures inlets { IfOk result (λ post. post.worker.inlets ≡ inlets) }
        ensures outlets { IfOk result (λ post. post.outlets ≡ outlets) }
    {
        let node = shards_node(&shards, node)?;
        let readers = readers_of(rt, alloc, &shards, node)?;
        let worker = Worker::new(alloc, node, shards.managers(), inlets)?;
        Ok(Post {
            alloc,
            number,
            asks: 0,
            ticked: 0,
            shards,
            readers,
            worker,
            outlets: outlets.into_vec(),
            tell,
            waited: 0,
        })
    }

    /// Asks one operation. What is told is shown by what the post's reader of the key's shard has seen, and just the letters of the call's step are sent. Spent comes
    /// exactly where the post has made 4,294,967,295 asks.
    pub fn ask<R: Wait>(&mut self, rt: &R, key: &Key, op: &Op) -> Result<DeskReply, Memory>
        ensures suits { Suits op.now result }
        ensures told { AsksAtPost key.now op.now self.old self.new result }
        ensures sent { Sends P.places key.now op.now self.old self.new result }
    {
        if self.asks == u32::MAX {
            return Ok(DeskReply::Spent {
                asks: u64::from(self.asks),
            });
        }
        self.asks += 1;
        let call = call_number(self.number, self.asks);
        let asked = KeyCall { call, key, op };
        let shard = usize::from(shard_of(key));
        ask(
            rt,
            self.alloc,
            &self.shards,
            &mut self.readers[shard],
            &mut self.outlets,
            asked,
            self.tell,
        )
    }

    /// Begins to ask one operation. It is told at once, or its update waits, and others may be asked before it is finished. Just the letters of the call's step are sent.
    /// Where it waits they are rung for by the next call that finishes, that waits or that is told at once, or by `ring`: one of these has to follow before the post
    /// is left alone. After `Memory` its update may have begun, once, and nobody waits for it.
    pub fn begin<R: Wait>(&mut self, rt: &R, key: &Key, op: &Op) -> Result<Begun<OpenAsk>, Memory>
        ensures suits { OpenedSuits op.now result }
        ensures told { BeginsAtPost key.now op.now self.old self.new result }
        ensures sent { BeginSends P.places key.now op.now self.old self.new result }
    {
        if self.asks == u32::MAX {
            return Ok(Begun::Told(DeskReply::Spent {
                asks: u64::from(self.asks),
            }));
        }
        self.asks += 1;
        let call = call_number(self.number, self.asks);
        let asked = KeyCall { call, key, op };
        let shard = shard_of(key);
        let started = match begin(
            rt,
            self.alloc,
            &self.shards,
            &mut self.readers[usize::from(shard)],
            self.outlets.as_slice(),
            asked,
            self.tell,
        ) {
            Ok(started) => started,
            Err(memory) => return Err(memory),
        };
        let Started {
            ticket,
            answer,
            letters,
        } = started;
        send_all(rt, &mut self.outlets, shard, letters);
        tell_or_wait(
            rt,
            &self.shards,
            self.outlets.as_slice(),
            shard,
            asked,
            ticket,
            answer,
            self.waited,
        )
    }

    /// Rings for all that was sent, and looks until an update that waits was told. What is told is shown by what the post's reader of the key's shard has seen. Nothing is sent.
    pub fn finish<R: Wait>(&mut self, rt: &R, waits: OpenAsk) -> Result<DeskReply, Memory>
        ensures suits { Suits waits.op result }
        ensures settled { IsSettled result }
        ensures told { FinishesAtPost waits self.old self.new result }
    {
        let shard = usize::from(shard_of(&waits.key));
        let passed = self.waited.saturating_sub(waits.since);
        let mut patience = self.shards.waits().for_answer_behind(passed);
        let told = finish_ask(
            rt,
            &self.shards,
            &mut self.readers[shard],
            self.outlets.as_slice(),
            &waits.key,
            waits.call,
            waits.ticket,
            &mut patience,
        );
        self.waited = self.waited.saturating_add(patience.slept());
        fitting(&waits.op, told)
    }

    /// Raises the clocks of all shards to a reading. One above the limit counts as the limit. Where the reading is above all that the post ticked to before, each
    /// shard that has then less than half left of the time for which a lease serves is to ask each of its managers for one. After `Memory` the shards before the refused one have it.
    pub fn tick<R: Wait>(&mut self, rt: &R, now: u64) -> Result<(), Memory>
        ensures ticked { OnOk result (IsTicked 8 now self.old self.new) }
        ensures err { OnErr result ((count : ℕ) × (count < 8) × IsTicked count now self.old self.new) }
    {
        let now = now.min(MAX_TIME);
        let rises = self.ticked < now;
        self.ticked = self.ticked.max(now);
        tick_all(
            rt,
            self.alloc,
            &self.shards,
            &mut self.readers,
            &mut self.worker,
            rises,
            now,
        )
    }

    /// Makes turns of a worker at the post. See [`crate::work`].
    pub(crate) fn work<G: Gate, R: Wait>(&mut self, rt: &R, gate: &mut G, turns: u64) -> u64
        ensures made { HasWorked P.places G.answers G.closed result self.old gate.old self.new gate.new }
        ensures most { result ≤ turns }
        ensures fewer { result < turns → G.closed gate.new ≡ true }
    {
        hk_turns::work(
            rt,
            self.alloc,
            &*self.shards,
            &mut self.worker,
            &mut self.outlets,
            gate,
            turns,
        )
    }

    /// From now on its letters go by these outlets. Those that were put are rung for.
    pub fn lead<R: Wait>(&mut self, rt: &R, outlets: Outlets)
        ensures { self.new ≡ record self.old { outlets = outlets } }
    {
        ring_all(rt, self.outlets.as_slice());
        self.outlets = outlets.into_vec();
    }

    /// Rings for the letters of asks that were begun, if it was not done yet.
    pub fn ring<R: Wait>(&self, rt: &R) {
        ring_all(rt, self.outlets.as_slice());
    }

    /// For the letters of asks that were begun nobody has to be rung any more: whoever calls has them taken.
    pub fn hush(&self) {
        for (_, outlet) in &self.outlets {
            outlet.hush();
        }
    }

    /// How many requests for leases are due.
    pub fn requests_due(&self) -> u64
        ensures { result ≡ requests_in self.now.worker.requests.left }
    {
        self.worker.requests_due()
    }

    /// How many bytes the letters of the parcels have, as frames, that its worker took since the last call.
    pub fn take_brought(&mut self) -> u64
        ensures { self.new ≡ self.old }
    {
        self.worker.take_brought()
    }

    /// What letters showed that none would show in a group whose nodes all run as they began. Each is told once, at one post of the node.
    pub fn next_doubt(&self) -> Option<Doubt> {
        self.shards.next_doubt()
    }

    /// Whether its worker may sleep until the bell of the shards is rung: its last turn found nothing to do, and no row of a shard is open.
    pub fn rests<R: Wait>(&self, rt: &R) -> bool
        ensures { IsTrue result → WereQuietBelow 8 P.places self.now.node }
    {
        self.worker.rests() && !self.shards.has_open(rt)
    }

    /// The shards.
    pub fn shards(&self) -> &Arc<Shards<F, P>> {
        &self.shards
    }

    /// Checkpoints each shard whose journal has at least so many entries, and drops what is handed out. After `Memory` the shards before the refused one are
    /// checkpointed.
    pub fn trim<R: Wait>(&mut self, rt: &R, entries: u32) -> Result<(), Memory>
        ensures { self.new ≡ self.old }
    {
        for shard in 0..SHARDS {
            self.shards.trim(rt, self.alloc, shard, entries)?;
        }
        Ok(())
    }
}

fn is_busy(reply: &DeskReply) -> bool
    ensures { result ≡ is_busy reply.now }
{
    matches!(reply, DeskReply::Told(Answer::Busy(_)))
}

// What was told, where it suits the operation and is not Busy. Nothing else can be told of an update that waited.
fn fitting(op: &Op, told: Result<DeskReply, Memory>) -> Result<DeskReply, Memory>
    ensures suits { Suits op.now result }
    ensures settled { IsSettled result }
    ensures same { IfOk result (λ reply. told ≡ Ok reply) }
{
    match told {
        Ok(reply) => {
            if !suits(op, &reply) {
                return Err(Memory);
            }
            if is_busy(&reply) {
                return Err(Memory);
            }
            Ok(reply)
        }
        Err(memory) => Err(memory),
    }
}

// The number of the node, which is that of the shards.
fn shards_node<F: Completion + Copy + Drop, P: Places>(
    shards: &Shards<F, P>,
    node: u16,
) -> Result<NodeId, Memory>
    ensures node { IfOk result (λ id. id ≡ record { 0 = node }) }
    ensures same { IfOk result (λ id. id ≡ shards.now.node) }
{
    let id = NodeId(node);
    if shards.node() != id {
        return Err(Memory);
    }
    Ok(id)
}

// Where a shard's lease is short after a rise, it is to ask for one.
fn note_lease(worker: &mut Worker, shard: u8, rises: bool, short: bool)
    requires { shard < 8 }
    ensures { AsksBy rises short shard worker.old worker.new }
{
    if rises {
        if short {
            worker.ask_leases(shard);
        }
    }
}

// Raises the clocks of the readers' shards, one after the other. Where the reading rises, those whose lease is short are to ask for one.
fn tick_all<F: Completion + Copy + Drop, P: Places, R: Wait>(
    rt: &R,
    alloc: Global,
    shards: &Shards<F, P>,
    readers: &mut Vec<ShardReader<P>>,
    worker: &mut Worker,
    rises: bool,
    now: u64,
) -> Result<(), Memory>
    requires long { length readers.old.items ≡ 8 }
    requires now { now ≤ MAX_TIME }
    ensures ticked { OnOk result (HaveTicked 8 now readers.old.items readers.new.items) }
    ensures asked { OnOk result (HaveAsked 8 rises shards.now.lease readers.new.items worker.old worker.new) }
    ensures err { OnErr result ((count : ℕ) × (count < 8) × HaveTicked count now readers.old.items readers.new.items × HaveAsked count rises shards.now.lease readers.new.items worker.old worker.new) }
{
    for shard in 0..SHARDS {
        let short = shards.tick(rt, alloc, &mut readers[usize::from(shard)], now)?;
        note_lease(worker, shard, rises, short);
    }
    Ok(())
}

// A reader of each shard, in the order of their numbers.
fn readers_of<F: Completion + Copy + Drop, P: Places, R: Wait>(
    rt: &R,
    alloc: Global,
    shards: &Shards<F, P>,
    node: NodeId,
) -> Result<Vec<ShardReader<P>>, Memory>
    ensures { IfOk result (λ readers. AreReadersBelow 8 node readers.items) }
{
    let mut readers = Vec::new(alloc);
    for shard in 0..SHARDS {
        let reader = shards.shard_reader(rt, alloc, node, shard)?;
        readers.push(reader)?;
    }
    Ok(readers)
}
