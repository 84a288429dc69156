//! The desk of one connection, and what it does beside asking.

ghost use Rattle.std.specs.Prelude.{◌≡◌, None};
ghost use Rattle.hk_outside.specs.Desk.{BeginSuits, IsSettled, Suits};
ghost use Rattle.hk_worker.specs.Opening.{FinishesAtPost};
ghost use Rattle.hk_group.specs.Led.{IsLed, AsksLed, BeginsLed, AsksAgain, BeginsAgain, tells_late, is_late, is_late_begun};

use crate::completion::Unheard;
use crate::journals::{Load, MAX_DATA, MAX_ENTRIES, empty_journals};
use crate::needs::{Leases, Reserve, data_in};
use hk_base::{Key, Memory, Op};
use hk_link::Bell;
use hk_locked::Places;
use hk_outside::{Begun, Clock, Desk, DeskReply};
use hk_routes::Follower;
use hk_worker::{DeskClock, OpenAsk, Post, is_out_of_lease};
use std::alloc::Global;
use std::sync::{Arc, Wait};

// After so many updates a desk looks at the journals.
const UPDATES_A_LOOK: u64 = 64;

// Where its updates brought so many bytes, the workers are to look at them too.
const DATA_A_RING: u64 = 1_048_576;

// A call is asked so often at most: where enough of a lease was left and it is told late yet, a sixteenth of a lease has gone by, and after two leases it is asked no more.
const MOST_ASKS: u32 = 32;

// What keeps a post able to serve: its letters go by the outlets as they are now, leases are asked for and waited for, and journals begin anew.
#[derive(Drop)]
pub(crate) struct Upkeep<R: Wait + Drop, C: Drop> {
    pub(crate) rt: R,
    pub(crate) alloc: Global,
    /// The outlets of its post, as they change.
    pub(crate) routes: Follower,
    pub(crate) reserve: Reserve,
    pub(crate) leases: Leases<C>,
    /// Wake the workers of each node of the program: the journals of all hold what one stored.
    pub(crate) bells: Vec<Arc<Bell>>,
    pub(crate) load: Arc<Load>,
    /// So many updates were asked since the desk looked at the journals.
    pub(crate) updates: u64,
    /// So many bytes they brought since the workers were to look.
    pub(crate) bytes: u64,
}

impl<R: Wait + Drop, C: Clock + Drop> Upkeep<R, C> {
    // Has the workers of all nodes look at the journals where much data was brought.
    fn count_data(&mut self, bytes: u64) {
        self.bytes = self.bytes.saturating_add(bytes);
        if self.bytes < DATA_A_RING {
            return;
        }
        self.load.add(self.bytes);
        self.bytes = 0;
        for bell in &self.bells {
            bell.ring(&self.rt, 1);
        }
    }

    // Counts what was asked, and gives whether the desk is to look at the journals now. Reads fill none.
    fn is_to_look(&mut self, op: &Op) -> bool {
        if matches!(op, Op::Read) {
            return false;
        }
        self.count_data(data_in(op) as u64);
        self.updates = self.updates.saturating_add(1);
        if self.updates < UPDATES_A_LOOK {
            return false;
        }
        self.updates = 0;
        true
    }

    // Its letters go by the outlets as they are now.
    #[tactic(auto, using(crate::proofs::Led::led_itself, crate::proofs::Led::led_by))]
    fn follow<P: Places>(&mut self, post: &mut Post<Unheard, P>)
        ensures { IsLed post.old post.new }
    {
        if let Some(outlets) = self.routes.renewed(&self.rt, self.alloc) {
            post.lead(&self.rt, outlets);
        }
    }

    // Has journals begun anew, since they hold what was replaced and deleted: here at once, elsewhere by the workers.
    fn give_back<P: Places>(&mut self, post: &mut Post<Unheard, P>)
        ensures { post.new ≡ post.old }
    {
        self.count_data(MAX_DATA);
        empty_journals(&self.rt, post);
    }

    // Whether memory is left for what an operation brings. Where none is, journals give back what they hold, and it looks again.
    fn has_room<P: Places>(&mut self, post: &mut Post<Unheard, P>, op: &Op) -> bool
        ensures { post.new ≡ post.old }
    {
        if self.reserve.is_left(data_in(op)) {
            return true;
        }
        self.give_back(post);
        self.reserve.is_left(data_in(op))
    }

    // Leads the post, keeps the lease that an ask needs, and gives whether memory is left for what it brings.
    #[tactic(auto, using(crate::proofs::Led::led_still))]
    fn is_ready<P: Places>(
        &mut self,
        post: &mut Post<Unheard, P>,
        key: &Key,
        op: &Op,
        until: u64,
    ) -> bool
        ensures { IsLed post.old post.new }
    {
        self.follow(post);
        if !self.has_room(post, op) {
            return false;
        }
        self.leases.keep(&self.rt, post, key, until);
        true
    }

    // Counts what was asked, and has the journals begun anew where it is time to look at them.
    fn count<P: Places>(&mut self, post: &mut Post<Unheard, P>, op: &Op)
        ensures { post.new ≡ post.old }
    {
        if self.is_to_look(op) {
            let _ = post.trim(&self.rt, MAX_ENTRIES);
        }
    }
}

/// A desk at a node. It has the journals that it filled begun anew, and wakes the workers where it finds a lease near its end, or brought much data. What began no update
/// and is told that the lease may be over is asked again, once a lease serves.
#[derive(Drop)]
pub struct GroupDesk<C: DeskClock + Drop, R: Wait + Drop, P: Places> {
    pub(crate) clock: Arc<C>,
    pub(crate) upkeep: Upkeep<R, C>,
    pub(crate) post: Post<Unheard, P>,
}

impl<C: DeskClock + Drop, R: Wait + Drop, P: Places> GroupDesk<C, R, P> {
    /// For the letters of what was begun nobody has to be woken any more: whoever calls has them leave.
    pub fn hush(&self) {
        self.post.hush();
    }

    // Asks the post once, by the clock.
    #[tactic(auto, using(hk_worker::proofs::Freely::looked_itself, crate::proofs::Led::asks_led))]
    fn ask_once(&mut self, key: &Key, op: &Op, until: u64) -> Result<DeskReply, Memory>
        ensures suits { Suits op.now result }
        ensures told { AsksLed (C.was_read self.old.clock.value) (C.reading self.old.clock.value) key.now op.now self.old.post self.new.post result }
        ensures clock { self.new.clock ≡ self.old.clock }
    {
        if !self.upkeep.is_ready(&mut self.post, key, op, until) {
            return Err(Memory);
        }
        let told = self.post.ask_by(&self.upkeep.rt, &*self.clock, key, op);
        self.upkeep.count(&mut self.post, op);
        told
    }

    // Begins to ask the post once.
    #[tactic(auto, using(hk_worker::proofs::Freely::looked_itself, crate::proofs::Led::begins_led))]
    fn begin_once(&mut self, key: &Key, op: &Op, until: u64) -> Result<Begun<OpenAsk>, Memory>
        ensures suits { BeginSuits (λ waits. waits.op) op.now result }
        ensures told { BeginsLed (C.was_read self.old.clock.value) (C.reading self.old.clock.value) key.now op.now self.old.post self.new.post result }
        ensures clock { self.new.clock ≡ self.old.clock }
    {
        if !self.upkeep.is_ready(&mut self.post, key, op, until) {
            return Err(Memory);
        }
        let begun = self.post.begin_by(&self.upkeep.rt, &*self.clock, key, op);
        self.upkeep.count(&mut self.post, op);
        begun
    }
}

impl<C: DeskClock + Drop, R: Wait + Drop, P: Places> Desk for GroupDesk<C, R, P> {
    type Waits = OpenAsk;

    ghost asks = { λ desk. None };

    ghost op_of = { λ waits. waits.op };

    #[tactic(auto, using(crate::proofs::Led::asked_once))]
    fn ask(&mut self, key: &Key, op: &Op) -> Result<DeskReply, Memory>
        ensures suits { Suits op.now result }
        ensures told { AsksAgain (C.was_read self.old.clock.value) (C.reading self.old.clock.value) key.now op.now self.old.post self.new.post result }
    {
        let until = self.upkeep.leases.until();
        let mut told = self.ask_once(key, op, until);
        for _again in 1..MOST_ASKS {
            if !is_late(&told) || !self.upkeep.leases.is_to_go_on(until) {
                return told;
            }
            told = self.ask_once(key, op, until);
        }
        told
    }

    #[tactic(auto, using(crate::proofs::Led::begun_once))]
    fn begin(&mut self, key: &Key, op: &Op) -> Result<Begun<OpenAsk>, Memory>
        ensures suits { BeginSuits (λ waits. waits.op) op.now result }
        ensures told { BeginsAgain (C.was_read self.old.clock.value) (C.reading self.old.clock.value) key.now op.now self.old.post self.new.post result }
    {
        let until = self.upkeep.leases.until();
        let mut begun = self.begin_once(key, op, until);
        for _again in 1..MOST_ASKS {
            if !is_late_begun(&begun) || !self.upkeep.leases.is_to_go_on(until) {
                return begun;
            }
            begun = self.begin_once(key, op, until);
        }
        begun
    }

    fn finish(&mut self, waits: OpenAsk) -> Result<DeskReply, Memory>
        ensures suits { Suits waits.op result }
        ensures settled { IsSettled result }
        ensures told { FinishesAtPost waits self.old.post self.new.post result }
    {
        self.post.finish(&self.upkeep.rt, waits)
    }
}

// Whether it is told that the lease may be over.
fn tells_late(reply: &DeskReply) -> bool
    ensures { result ≡ tells_late reply.now }
{
    match reply {
        DeskReply::Told(answer) => is_out_of_lease(answer),
        DeskReply::Unknown { .. } => false,
        DeskReply::Spent { .. } => false,
    }
}

// The same of what came of an ask.
fn is_late(told: &Result<DeskReply, Memory>) -> bool
    ensures { result ≡ is_late told.now }
{
    match told {
        Ok(reply) => tells_late(reply),
        Err(_) => false,
    }
}

// The same of one that begins.
fn is_late_begun(begun: &Result<Begun<OpenAsk>, Memory>) -> bool
    ensures { result ≡ is_late_begun begun.now }
{
    match begun {
        Ok(begun) => match begun {
            Begun::Told(reply) => tells_late(reply),
            Begun::Waits(_) => false,
        },
        Err(_) => false,
    }
}
