//! What a worker has.

ghost use Rattle.std.specs.Prelude.{◌≡◌, ◌⊎◌, ◌<◌, ℕ, length, Some, None, MatchOption, IfOk, IfSome};
ghost use Rattle.std.specs.List.{AllByRecursion};
ghost use Rattle.hk_base.specs.Range.{IsLetter};
ghost use Rattle.hk_link.specs.Ends.{WasEmpty};
ghost use Rattle.hk_turns.specs.Requests.{first_due, no_requests, raised, requests_in};
ghost use Rattle.hk_turns.specs.Rounds.{resting, begun};
ghost use Rattle.hk_turns.specs.Workers.{WasEmptyAt, IsTakenAt, TakesParcel, FindsNoParcel, TakesRequest, TakesDue, with_requests, with_round};

use crate::requests::LeaseRequests;
use crate::round::{Round, next_due};
use crate::workplace::Workplace;
use hk_base::{Letter, Memory, NodeId, Sequence, frame_length};
use hk_due::Due;
use hk_link::{Inlet, Parcel};
use std::alloc::Global;
use std::marker::Model;
use std::mem;
use std::sync::Wait;

/// The inlets of a worker.
pub type Inlets = Sequence<Inlet>;

/// A worker of a node: its inlets, the requests for leases that it has to make, and where it is in its walk over the open keys. Contracts see these.
#[derive(Drop)]
pub struct Worker {
    node: NodeId,
    inlets: Vec<Inlet>,
    requests: LeaseRequests,
    round: Round,
    // Whether its last turn found nothing to do.
    rests: bool,
    // So many bytes of letters its parcels brought since that was taken.
    brought: u64,
}

impl Model for Worker {
    ghost use Rattle.std.specs.Coded.{codes};
    ghost use Rattle.hk_link.specs.contracts.rule.Known as known;
    ghost use Rattle.hk_turns.specs.Workers.{WorkerState};

    ghost Value = { WorkerState };

    ghost coded = { Prim.hlevel (codes, known.the_row.coded) };

    ghost view = { λ w. record { node = w.node; inlets = w.inlets.items; requests = w.requests; round = w.round } };
}

// Takes a parcel from the inlet at a place.
fn take_at<R: Wait>(rt: &R, inlets: &mut Vec<Inlet>, place: usize) -> Option<Parcel>
    requires { place < length inlets.old.items }
    ensures { MatchOption result ((inlets.new.items ≡ inlets.old.items) × WasEmptyAt place inlets.old.items) (λ parcel. IsTakenAt place parcel inlets.old.items inlets.new.items) }
{
    inlets[place].take(rt)
}

// Takes the first parcel that an inlet has.
fn take_first<R: Wait>(rt: &R, inlets: &mut Vec<Inlet>) -> Option<Parcel>
    ensures taken { IfSome result (λ parcel. (place : ℕ) × IsTakenAt place parcel inlets.old.items inlets.new.items) }
    ensures empty { result ≡ None → (inlets.new.items ≡ inlets.old.items) × AllByRecursion WasEmpty inlets.old.items }
{
    for place in 0..inlets.len() {
        if let Some(parcel) = take_at(rt, inlets, place) {
            return Some(parcel);
        }
    }
    None
}

impl Worker {
    /// A worker of this node, whose group has so many managers. It takes parcels from `inlets`.
    pub fn new(alloc: Global, node: NodeId, managers: u8, inlets: Inlets) -> Result<Worker, Memory>
        ensures { IfOk result (λ worker. worker ≡ record { node = node; inlets = inlets; requests = no_requests managers; round = resting }) }
    {
        let requests = LeaseRequests::new(alloc, managers)?;
        Ok(Worker {
            node,
            inlets: inlets.into_vec(),
            requests,
            round: Round::new(),
            rests: false,
            brought: 0,
        })
    }

    /// The shard is to ask each manager for a lease once. It takes no memory.
    pub fn ask_leases(&mut self, shard: u8)
        requires { shard < 8 }
        ensures asks { self.new ≡ with_requests self.old (raised self.old.requests shard) }
        ensures long { length self.old.requests.left ≡ 8 }
    {
        self.requests.raise(shard);
    }

    /// Whether its last turn found nothing to do: no parcel, no request for a lease, and no key that was due.
    pub fn rests(&self) -> bool {
        self.rests
    }

    /// How many requests for leases are due.
    pub fn requests_due(&self) -> u64
        ensures { result ≡ requests_in self.now.requests.left }
    {
        self.requests.count()
    }

    /// How many bytes the letters of its parcels have as frames, of those that were taken since the last call.
    pub fn take_brought(&mut self) -> u64
        ensures { self.new ≡ self.old }
    {
        mem::replace(&mut self.brought, 0)
    }

    /// Its node.
    pub(crate) fn node(&self) -> NodeId
        ensures { result ≡ self.now.node }
    {
        self.node
    }

    // A turn found something to do, or nothing.
    pub(crate) fn note(&mut self, rests: bool)
        ensures { self.new ≡ self.old }
    {
        self.rests = rests;
    }

    // A parcel brought this letter.
    pub(crate) fn count(&mut self, letter: &Letter)
        requires { IsLetter letter.now }
        ensures { self.new ≡ self.old }
    {
        self.brought = self.brought.saturating_add(frame_length(letter) as u64);
    }

    // A call of `work` begins, at this ticket.
    pub(crate) fn begin(&mut self, ticket: u64)
        ensures { self.new ≡ with_round self.old (begun self.old.round ticket) }
    {
        self.round.begin(ticket);
    }

    // Takes a parcel.
    pub(crate) fn take<R: Wait>(&mut self, rt: &R) -> Option<Parcel>
        ensures taken { IfSome result (λ parcel. TakesParcel parcel self.old self.new) }
        ensures empty { result ≡ None → (self.new ≡ self.old) × FindsNoParcel self.old }
    {
        take_first(rt, &mut self.inlets)
    }

    // Takes the first request that is due: the shard and the manager that it asks.
    pub(crate) fn take_request(&mut self) -> Option<(u8, u8)>
        ensures taken { MatchOption result ((first_due self.old.requests.left ≡ None) × (self.new ≡ self.old)) (λ request. TakesRequest request.0 request.1 self.old self.new) }
        ensures below { IfSome result (λ request. request.0 < 8) }
    {
        self.requests.take()
    }

    // Goes to the next open key of the walk that is due, and takes what is due there.
    pub(crate) fn take_due<W: Workplace, R: Wait>(&mut self, rt: &R, place: &W) -> Option<(u8, Due)>
        ensures taken { TakesDue (W.finds place.now) (W.lacks place.now) result self.old self.new }
        ensures below { IfSome result (λ due. due.0 < 8) }
    {
        next_due(rt, place, &mut self.round)
    }
}
