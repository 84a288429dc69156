//! What a manager was told by processes and nodes.

ghost use Rattle.std.specs.Prelude.{◌≡◌, ◌<◌, ◌≤◌, ◌+◌, length, map, OnOk, OnErr, IfOk};
ghost use Rattle.std.specs.List.{find, list_any};
ghost use Rattle.std.specs.Option.{option_copied};
ghost use Rattle.hk_reports.specs.Hearing.{bit, is_up_at, managers_up, node_heard, is_newcomer, shards_heard, heard_by};
ghost use Rattle.hk_reports.specs.Reports.{is_of, at_first, reported, asked, bound_at, seated, proposes, most_of, was_in_vain, AreOneEach, IsFew};

use crate::hearing::{
    bit, is_newcomer, is_up, known_nodes, managers_heard, node_heard, shards_heard,
};
use crate::kept::{AskCame, Came, NumberKept, Proposed, SeatGiven};
use crate::steps::{
    forget_if_ready, forget_lost, is_of, last_ready, lately_at, most_told, number_of, put_number,
    put_report, put_seat,
};
use hk_base::{Memory, NodeId, Sequence, View};
use hk_fields::Ticket;
use hk_inside::{Report, Text};
use hk_keeper::{Heard, NodeHeard, ShardHeard};
use std::alloc::Global;
use std::marker::Model;

/// Of how many processes reports are kept at most. As many numbers of nodes are kept, and addresses of newcomers.
pub const MOST_PROCESSES: usize = 64;

/// For how many milliseconds a newcomer's address is held to have been seated in vain.
pub const IN_VAIN_FOR: u64 = 600_000;

/// How many managers there are at most.
pub(crate) const MANAGERS: usize = 9;

/// What a manager was told: by processes how they stand, by nodes of which views they want leases, and by itself what
/// it bound and proposed. Contracts see lists, in which what came last stands in front.
#[derive(Drop)]
pub struct Reports {
    start: u64,
    // The reading at which a process told last that its node is ready.
    ready_at: u64,
    came: Vec<Came>,
    records: [u64; 9],
    numbers: Vec<NumberKept>,
    proposed: [Proposed; 8],
    seats: Vec<SeatGiven>,
}

impl Model for Reports {
    ghost use Rattle.hk_reports.specs.Reports.{ReportsState, state, AreOneEach, AreFew};

    ghost Value = { ReportsState };

    ghost view = { λ r. state r.start r.ready_at r.came.items r.records r.numbers.items r.proposed r.seats.items };

    ghost invariant = { λ r. AreOneEach r.came.items × AreFew r.came.items r.numbers.items r.seats.items };
}

impl Reports {
    /// Nothing was told yet. `start` is the reading at which the process began. It takes no memory.
    pub fn new(alloc: Global, start: u64) -> Reports
        ensures { result ≡ at_first start }
    {
        let none = Proposed {
            epoch: 0,
            count: 0,
            at: 0,
        };
        Reports {
            start,
            ready_at: start,
            came: Vec::new(alloc),
            records: [0; 9],
            numbers: Vec::new(alloc),
            proposed: [none; 8],
            seats: Vec::new(alloc),
        }
    }

    /// REPORT: keeps it as the last one of its ticket. Where there is no room, that of the process goes which was
    /// silent for the longest time.
    pub fn take(&mut self, now: u64, report: Report) -> Result<(), Memory>
        ensures ok { OnOk result (self.new ≡ reported now report self.old) }
        ensures err { OnErr result (self.new ≡ self.old) }
    {
        self.came.reserve(1)?;
        self.ready_at = last_ready(now, &report, self.ready_at);
        self.records = most_told(self.records, &report);
        forget_if_ready(&mut self.seats, &report);
        put_report(&mut self.came, Came { report, at: now });
        Ok(())
    }

    /// A node's ask for a lease in a shard, of the view of this epoch. The last one counts.
    pub fn note_ask(&mut self, now: u64, shard: u8, node: NodeId, epoch: u64) -> Result<(), Memory>
        requires { shard < 8 }
        ensures ok { OnOk result (self.new ≡ asked now shard node epoch self.old) }
        ensures err { OnErr result (self.new ≡ self.old) }
    {
        self.numbers.reserve(1)?;
        let mut number = number_of(self.numbers.as_slice(), node);
        number.asks[shard as usize] = Some(AskCame { epoch, at: now });
        put_number(&mut self.numbers, number);
        Ok(())
    }

    /// A node's number was bound to a process. Who was given it before did not get it.
    pub fn note_bound(&mut self, now: u64, node: NodeId, ticket: Ticket) -> Result<(), Memory>
        ensures ok { OnOk result (self.new ≡ bound_at now node ticket self.old) }
        ensures err { OnErr result (self.new ≡ self.old) }
    {
        self.numbers.reserve(1)?;
        forget_lost(&mut self.seats, node, ticket);
        let mut number = number_of(self.numbers.as_slice(), node);
        number.bound = Some(now);
        put_number(&mut self.numbers, number);
        Ok(())
    }

    /// A number was given to the process of this ticket, at this address.
    pub fn note_seated(
        &mut self,
        alloc: Global,
        now: u64,
        node: NodeId,
        ticket: Ticket,
        inside: &[u8],
    ) -> Result<(), Memory>
        ensures ok { OnOk result (self.new ≡ seated now node ticket inside.now self.old) }
        ensures err { OnErr result (self.new ≡ self.old) }
    {
        let text = inside.to_vec(alloc)?;
        self.seats.reserve(1)?;
        let inside = Text::from_vec(text);
        let seat = SeatGiven {
            node,
            ticket,
            inside,
            at: now,
        };
        put_seat(&mut self.seats, seat);
        Ok(())
    }

    /// This manager proposed a change of the view of this epoch in a shard.
    pub fn note_proposal(&mut self, now: u64, shard: u8, epoch: u64)
        requires { shard < 8 }
        ensures { self.new ≡ proposes now shard epoch self.old }
    {
        let place = shard as usize;
        self.proposed[place] = self.proposed[place].again(now, epoch);
    }

    /// The last reports of all processes, 64 at most, the one that came last in front.
    pub fn all(&self) -> &[Came]
        ensures came { result.now ≡ self.now.came }
        ensures few { IsFew result.now }
        ensures each { AreOneEach result.now }
    {
        self.came.as_slice()
    }

    /// The last report of the process with this ticket, if one is kept.
    pub fn last(&self, ticket: Ticket) -> Option<&Came>
        ensures { option_copied result ≡ find (is_of ticket) self.now.came }
    {
        self.came.iter().find(|came| is_of(ticket, *came))
    }

    /// The reading at which a process told last that its node is ready. Before the first one it is that at which this process
    /// began.
    pub fn ready_at(&self) -> u64
        ensures { result ≡ self.now.ready_at }
    {
        self.ready_at
    }

    /// The most records that reports told of the log of the manager of this place. It is 0 where none came.
    pub fn most_records(&self, place: u8) -> u64
        ensures { result ≡ most_of place self.now }
    {
        let place = usize::from(place);
        if place < MANAGERS {
            self.records[place]
        } else {
            0
        }
    }

    /// Whether in the last ten minutes a number was given to another process than that of this ticket, at this address, which
    /// no other one took, and no process there was ready since.
    pub fn was_lately_in_vain(&self, now: u64, inside: &[u8], ticket: Ticket) -> bool
        ensures { result ≡ was_in_vain now inside.now ticket self.now }
    {
        self.seats
            .iter()
            .any(|seat| lately_at(now, inside, ticket, seat))
    }

    // The bit of a manager, if that is up.
    fn bit_up(&self, now: u64, own: u8, lease: u32, place: u8, value: u16) -> u16
        ensures exact { result ≡ bit (is_up_at now own lease self.now.came place) value }
        ensures few { result ≤ value }
    {
        bit(is_up(now, own, lease, self.came.as_slice(), place), value)
    }

    /// Which managers are up: the bit of a place is set, the lowest one being that of place 0. Up is the manager of
    /// `place`, which is this one, and each of which the last report came within half a lease. A lease lasts `lease`
    /// milliseconds.
    pub fn managers_up(&self, now: u64, place: u8, lease: u32) -> u16
        ensures { result ≡ managers_up now place lease self.now }
    {
        self.bit_up(now, place, lease, 0, 1)
            + self.bit_up(now, place, lease, 1, 2)
            + self.bit_up(now, place, lease, 2, 4)
            + self.bit_up(now, place, lease, 3, 8)
            + self.bit_up(now, place, lease, 4, 16)
            + self.bit_up(now, place, lease, 5, 32)
            + self.bit_up(now, place, lease, 6, 64)
            + self.bit_up(now, place, lease, 7, 128)
            + self.bit_up(now, place, lease, 8, 256)
    }

    fn nodes_heard(
        &self,
        alloc: Global,
        now: u64,
        nodes: &[NodeId],
        bound: &[NodeId],
    ) -> Result<Sequence<NodeHeard>, Memory>
        ensures { IfOk result (λ heard. heard ≡ map (node_heard self.now now bound.now) nodes.now) }
    {
        let mut heard = Sequence::new(alloc);
        for node in nodes {
            let number = number_of(self.numbers.as_slice(), *node);
            heard.push(node_heard(now, self.start, self.came.as_slice(), number, bound))?;
        }
        Ok(heard)
    }

    fn shards_heard(
        &self,
        alloc: Global,
        now: u64,
        views: &[View],
    ) -> Result<Sequence<ShardHeard>, Memory>
        ensures { IfOk result (λ shards. shards ≡ shards_heard now self.now.proposed 0 views.now) }
    {
        shards_heard(alloc, now, &self.proposed, views)
    }

    fn has_newcomer(&self, now: u64, lease: u32) -> bool
        ensures { result ≡ list_any (is_newcomer now lease) self.now.came }
    {
        self.came.iter().any(|came| is_newcomer(now, lease, came))
    }

    /// What a keeper makes its wishes of: all that the manager of `place`, one of so many managers, has heard at a
    /// reading of its clock. `views` are those that it holds, by shards, and `bound` the numbers of nodes that are
    /// bound. A lease lasts `lease` ms.
    pub fn heard(
        &self,
        alloc: Global,
        now: u64,
        place: u8,
        managers: u8,
        lease: u32,
        views: &[View],
        bound: &[NodeId],
    ) -> Result<Heard, Memory>
        ensures exact { IfOk result (λ heard. heard ≡ heard_by self.now now place managers lease views.now bound.now) }
        ensures few { IfOk result (λ heard. length heard.managers ≤ 9) }
    {
        let known = known_nodes(alloc, views, bound)?;
        let nodes = self.nodes_heard(alloc, now, known.as_slice(), bound)?;
        let managers = managers_heard(alloc, now, self.all(), managers)?;
        let shards = self.shards_heard(alloc, now, views)?;
        Ok(Heard {
            clock: now,
            place,
            lease,
            managers,
            nodes,
            newcomer: self.has_newcomer(now, lease),
            shards,
        })
    }
}
