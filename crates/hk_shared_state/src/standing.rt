//! What a process has come to know of its group.

ghost use Rattle.std.specs.Prelude.{◌≡◌, ◌≤◌, IfOk, IfSome};
ghost use Rattle.hk_shared_state.specs.Standings.{none_seen, none_counted, IsNew, is_place, is_number, own_ticket, takes, is_here, bound, bound_party, is_another, look_up, IsReached, IsNodeReached};

use crate::identity::Identity;
use hk_base::{Actor, Memory, NodeId, Sequence};
use hk_boards::Boards;
use hk_fields::Ticket;
use hk_hello::{Hello, LookedUp, Party, Purpose};
use hk_host_words::INSIDE_PORT;
use hk_hosts::{Address, read_address};
use hk_inside::{Counts, NodeState, NodesSeen};
use std::alloc::Global;
use thiserror::Error;

/// The log of a process's manager has fewer records than it once told: what it promised by the others is lost.
#[derive(Clone, Copy, Debug, PartialEq, Eq, Error)]
#[error("lost its tail: {records} records, manager {place} was told {told}")]
pub struct LostTail {
    /// How many records it has.
    pub records: u64,
    /// The place of the manager that was told more.
    pub place: u8,
    /// How many that one was told.
    pub told: u64,
}

/// How the shards of a process's node stand, as they were seen last.
#[derive(Clone, Copy, Debug, PartialEq, Eq)]
pub struct ShardsSeen {
    /// How many of the eight are ready.
    pub ready: u8,
    /// The least epoch of the views that they have, 0 before its node has any.
    pub least_epoch: u64,
    /// The reading of the process's clock, in milliseconds, at which the first of their leases ends. It is 0 before its node has any.
    pub lease_end: u64,
}

impl ShardsSeen {
    /// There is no node yet.
    pub fn none() -> ShardsSeen
        ensures { result ≡ none_seen }
    {
        ShardsSeen {
            ready: 0,
            least_epoch: 0,
            lease_end: 0,
        }
    }
}

// What is counted before there is a node.
fn none_counted() -> Counts
    ensures { result ≡ none_counted }
{
    Counts {
        keys: 0,
        bytes: 0,
        gets: 0,
        sets: 0,
        busy: 0,
        aborted: 0,
        unknown: 0,
    }
}

/// How the process stands in its group.
#[derive(Drop)]
pub struct Standing {
    /// The number of its founding: that of its manager, once this is open, else that with which a majority is open; 0 before.
    pub founding: u64,
    /// The ticket of its manager, if that is open.
    pub manager: Option<Ticket>,
    /// To which tickets its manager binds managers, by their places; where it is not open, to which a majority's boards bind them.
    pub managers: [Option<Ticket>; 9],
    /// Whether its manager binds the number of its place to this process: then its node is a founder.
    pub is_founder: bool,
    /// How many records the log of its manager has.
    pub records: u64,
    /// What shows that this log lost records, if anything does.
    pub lost_tail: Option<LostTail>,
    /// The number that a manager gave it, which it claims at the others.
    pub given: Option<NodeId>,
    /// By the managers' places, which of them refused that.
    pub refusals: [bool; 9],
    /// The number of its node, once the node is made.
    pub node: Option<NodeId>,
    /// How its node stands.
    pub state: NodeState,
    /// The reading at which its node began to leave, as long as it leaves.
    pub leaving: Option<u64>,
    /// How the shards of its node stand.
    pub shards: ShardsSeen,
    /// What its node holds, and what it has told.
    pub counts: Counts,
    /// When nodes asked its manager for leases last.
    pub asks: NodesSeen,
    /// Which nodes leave an update of its node unacknowledged, and for how long.
    pub unacknowledged: NodesSeen,
    /// What the managers told last.
    pub boards: Boards,
}

pub(crate) fn is_place(place: u8, own: Option<u8>) -> bool
    ensures { result ≡ is_place place own }
{
    match own {
        Some(own) => own == place,
        None => false,
    }
}

fn is_number(node: NodeId, own: Option<NodeId>) -> bool
    ensures { result ≡ is_number node own }
{
    match own {
        Some(own) => own.0 == node.0,
        None => false,
    }
}

// Whether an actor is bound to another process than that of this ticket.
fn is_another(ticket: Ticket, bound: Option<Ticket>) -> bool
    ensures { result ≡ is_another ticket bound }
{
    match bound {
        Some(holder) => holder != ticket,
        None => false,
    }
}

impl Standing {
    /// Nothing was heard yet, in a group with so many managers.
    pub fn new(alloc: Global, managers: u8) -> Result<Standing, Memory>
        requires { managers ≤ 9 }
        ensures { IfOk result (IsNew managers) }
    {
        Ok(Standing {
            founding: 0,
            manager: None,
            managers: [None; 9],
            is_founder: false,
            records: 0,
            lost_tail: None,
            given: None,
            refusals: [false; 9],
            node: None,
            state: NodeState::Waiting,
            leaving: None,
            shards: ShardsSeen::none(),
            counts: none_counted(),
            asks: Sequence::new(alloc),
            unacknowledged: Sequence::new(alloc),
            boards: Boards::new(alloc, managers)?,
        })
    }

    /// The ticket of an actor of this process, once it is open. No other actor has one here.
    pub fn own_ticket(&self, identity: &Identity, actor: Actor) -> Option<Ticket>
        ensures { result ≡ own_ticket self.now identity.now actor }
    {
        match actor {
            Actor::Manager(place) => {
                if is_place(place, identity.place) {
                    self.manager
                } else {
                    None
                }
            }
            Actor::Node(node) => {
                if is_number(node, self.node) {
                    Some(identity.ticket)
                } else {
                    None
                }
            }
        }
    }

    // The ticket of the process to which an actor belongs, as far as this one knows.
    fn bound(&self, actor: Actor) -> Option<Ticket>
        ensures { result ≡ bound self.now actor }
    {
        match actor {
            Actor::Manager(place) => match self.managers.get(usize::from(place)) {
                Some(ticket) => *ticket,
                None => None,
            },
            Actor::Node(node) => self.boards.holder(self.founding, node),
        }
    }

    fn bound_party(&self, party: Party) -> Option<Ticket>
        ensures { result ≡ bound_party self.now party }
    {
        match party {
            Party::Actor(actor) => self.bound(actor),
            Party::Neither => None,
        }
    }

    // Whether an actor of this process takes what is for this purpose.
    fn takes(&self, identity: &Identity, purpose: Purpose, actor: Actor) -> bool
        ensures { result ≡ takes self.now identity.now purpose actor }
    {
        match purpose {
            Purpose::Requests => match actor {
                Actor::Manager(place) => is_place(place, identity.place),
                Actor::Node(_) => false,
            },
            Purpose::Letters => self.own_ticket(identity, actor).is_some(),
        }
    }

    // Whether who is dialled is at this process.
    fn is_here(&self, identity: &Identity, purpose: Purpose, to: Party) -> bool
        ensures { result ≡ is_here self.now identity.now purpose to }
    {
        match to {
            Party::Actor(actor) => self.takes(identity, purpose, actor),
            Party::Neither => false,
        }
    }

    /// What is known of a hello's actors: who dials is bound to the process that this manager's roll tells, a manager, or
    /// that a majority's boards tell, a node.
    pub fn look_up(&self, identity: &Identity, hello: &Hello) -> LookedUp
        ensures { result ≡ look_up self.now identity.now hello.now }
    {
        let bound = self.bound_party(hello.from);
        LookedUp {
            founding: self.founding,
            to_is_here: self.is_here(identity, hello.purpose, hello.to),
            from_is_bound: bound.is_some(),
            is_taken: is_another(hello.ticket, bound),
        }
    }

    // Where a node is reached.
    fn address_of_node(&self, alloc: Global, node: NodeId) -> Option<Address>
        ensures { IsNodeReached self.now node result }
    {
        let text = self.boards.address_of(self.founding, node)?;
        let Ok(text) = str::from_utf8(text) else {
            return None;
        };
        match read_address(alloc, text, INSIDE_PORT) {
            Ok(address) => Some(address),
            Err(_) => None,
        }
    }

    /// Where an actor is reached, if that is known, and there is memory for it.
    pub fn address_of(&self, alloc: Global, identity: &Identity, actor: Actor) -> Option<Address>
        ensures { IsReached self.now identity.now actor result }
    {
        match actor {
            Actor::Manager(place) => match identity.host(place) {
                Some(host) => copy_of(alloc, host),
                None => None,
            },
            Actor::Node(node) => self.address_of_node(alloc, node),
        }
    }
}

/// An equal address, if there is memory for it.
pub fn copy_of(alloc: Global, address: &Address) -> Option<Address>
    ensures { IfSome result (λ copy. copy ≡ address.now) }
{
    match address.host.as_slice().to_vec(alloc) {
        Ok(host) => Some(Address {
            host: Sequence::from_vec(host),
            port: address.port,
        }),
        Err(_) => None,
    }
}
