//! What the threads of a process share.

ghost use Rattle.std.specs.Prelude.{◌≡◌, IfOk, IfSome};
ghost use Rattle.hk_shared_state.specs.Identities.{ours_of};
ghost use Rattle.hk_shared_state.specs.Standings.{IsOwnTicket, IsLookedUp, IsReachedThen};

use crate::identity::Identity;
use crate::mailbox::Mailbox;
use crate::standing::Standing;
use crate::telling::Telling;
use hk_base::{Actor, Memory};
use hk_fields::Ticket;
use hk_greet::LookUp;
use hk_hello::{Hello, LookedUp, Ours};
use hk_hosts::Address;
use hk_link::Outlet;
use std::alloc::Global;
use std::sync::atomic::{AtomicBool, Ordering};
use std::sync::{Arc, Mutex, Wait};

/// What the threads of a process share.
#[derive(Drop)]
pub struct SharedState<R: Wait + Drop, C: Drop> {
    pub rt: R,
    pub alloc: Global,
    pub clock: Arc<C>,
    /// What the process is.
    pub identity: Identity,
    /// What it tells its operator.
    pub telling: Telling,
    /// What it has come to know.
    pub standing: Mutex<Standing>,
    /// Where letters to its manager go in, once this is open. It is split for each connection that brings some.
    pub manager: Mutex<Option<Outlet>>,
    /// What comes to the loop of its manager.
    pub mailbox: Mailbox,
    /// Whether the process is to end, since its node was left out.
    pub is_out: AtomicBool,
    /// Whether its node is leaving the group.
    pub is_leaving: AtomicBool,
}

impl<R: Wait + Drop, C: Drop> SharedState<R, C> {
    /// The number of the founding, 0 unless it is open.
    pub fn founding(&self) -> u64 {
        let guard = self.standing.lock(&self.rt);
        guard.founding
    }

    /// The ticket of an actor of this process, as it stands at some moment of the call.
    pub fn own_ticket(&self, actor: Actor) -> Option<Ticket>
        ensures { IsOwnTicket self.now.identity actor result }
    {
        let guard = self.standing.lock(&self.rt);
        let standing = &*guard;
        standing.own_ticket(&self.identity, actor)
    }

    /// What is known of a hello's actors, as it stands at some moment of the call.
    pub fn look_up(&self, hello: &Hello) -> LookedUp
        ensures { IsLookedUp self.now.identity hello.now result }
    {
        let guard = self.standing.lock(&self.rt);
        let standing = &*guard;
        standing.look_up(&self.identity, hello)
    }

    /// Where an actor is reached, as it stands at some moment of the call.
    pub fn address_of(&self, actor: Actor) -> Option<Address>
        ensures { IsReachedThen self.now.identity actor result }
    {
        let guard = self.standing.lock(&self.rt);
        let standing = &*guard;
        standing.address_of(self.alloc, &self.identity, actor)
    }

    /// One outlet more to the manager of this process, if it takes letters and there is memory for it. Which place it has is for
    /// [`SharedState::look_up`] to tell.
    pub fn manager_outlet(&self) -> Option<Outlet> {
        let mut guard = self.manager.lock(&self.rt);
        match &mut *guard {
            Some(outlet) => outlet.split().ok(),
            None => None,
        }
    }

    /// Whether the process is to end.
    pub fn is_out(&self) -> bool {
        self.is_out.load(Ordering::SeqCst)
    }

    /// Looks whether the process is to end: a majority of the managers left its node out, or is open with another founding. It is to end from then on.
    pub fn look_out(&self) -> bool {
        if self.is_left_out() {
            self.is_out.store(true, Ordering::SeqCst);
        }
        self.is_out()
    }

    fn is_left_out(&self) -> bool {
        let guard = self.standing.lock(&self.rt);
        let standing = &*guard;
        standing.is_left_out(&self.identity)
    }

    /// Whether its node leaves the group: it serves no clients, and asks for no lease.
    pub fn is_leaving(&self) -> bool {
        self.is_leaving.load(Ordering::SeqCst)
    }

    /// Notes, at this reading, whether its node leaves the group from now on, or stays after all.
    pub fn look_leaving(&self, now: u64) {
        let leaves = self.note_leaving(now);
        self.is_leaving.store(leaves, Ordering::SeqCst);
    }

    fn note_leaving(&self, now: u64) -> bool {
        let mut guard = self.standing.lock(&self.rt);
        let standing = &mut *guard;
        standing.note_leaving(&self.identity, now);
        standing.leaving.is_some()
    }

    /// What an acceptor of this process is of.
    pub fn ours(&self) -> Result<Ours, Memory>
        ensures { IfOk result (λ ours. ours ≡ ours_of self.now.identity) }
    {
        self.identity.ours(self.alloc)
    }
}

impl<R: Wait + Drop, C: Drop> LookUp for SharedState<R, C> {
    ghost use Rattle.hk_shared_state.specs.Standings.{IsLookedUp};

    ghost finds = { λ shared. IsLookedUp shared.identity };

    fn look_up(&self, hello: &Hello) -> LookedUp {
        SharedState::look_up(self, hello)
    }
}
