//! The way to an actor of another process.

ghost use Rattle.std.specs.Prelude.{◌≡◌, Some, IfSome, IfOk};
ghost use Rattle.std.specs.Arc.{arc_value};
ghost use Rattle.hk_hello.specs.Hellos.{IsHelloInRange};
ghost use Rattle.hk_greet.specs.Greeting.{Knocks};
ghost use Rattle.hk_shared_state.specs.Standings.{IsReachedThen};
ghost use Rattle.hk_channel.specs.Greeted.{IsOwn, Says};
ghost use Rattle.hk_channel.specs.Retrying.{at_once};
ghost use Rattle.hk_channel.specs.Dialled.{Begins};

use crate::retry::Retry;
use hk_base::{Actor, Memory};
use hk_fields::Ticket;
use hk_greet::{Buffered, KnockFault, knock};
use hk_hello::{Hello, Party, Purpose};
use hk_hosts::{Address, Patient};
use hk_outside::Clock;
use hk_shared_state::{Notice, SharedState, Told};
use std::io::Eprint;
use std::sync::Wait;

/// A connection is dialled within so many milliseconds.
pub const DIAL_MILLIS: u64 = 1_000;

/// Who dials, and what for.
#[derive(Clone, Copy, Debug)]
pub struct Speaker {
    pub purpose: Purpose,
    pub from: Party,
    /// The ticket of `from`; of nobody its process's.
    pub ticket: Ticket,
}

/// Leads to an actor of another process: to be tried, but not too often.
#[derive(Drop)]
pub struct Approach {
    pub to: Actor,
    pub retry: Retry,
    pub told: Told,
}

/// A call that may be made now.
#[derive(Drop)]
pub struct Call {
    /// What is said.
    pub hello: Hello,
    /// Where the actor is reached.
    pub address: Address,
}

// What a speaker says where it dials for an actor.
fn hello_of<R: Wait + Drop, C: Drop>(
    shared: &SharedState<R, C>,
    speaker: Speaker,
    to: Actor,
) -> Result<Hello, Memory>
    requires { IsOwn shared.now.identity speaker.from speaker.ticket }
    ensures range { IfOk result IsHelloInRange }
    ensures said { IfOk result (Says shared.now.identity speaker.purpose speaker.from to) }
{
    shared.identity.hello(
        shared.alloc,
        speaker.purpose,
        speaker.from,
        Party::Actor(to),
        shared.founding(),
        speaker.ticket,
    )
}

// The call of a speaker for an actor, if there is an address for it.
fn call_of<R: Wait + Drop, C: Drop>(
    shared: &SharedState<R, C>,
    speaker: Speaker,
    to: Actor,
) -> Option<Call>
    requires { IsOwn shared.now.identity speaker.from speaker.ticket }
    ensures range { IfSome result (λ call. IsHelloInRange call.hello) }
    ensures said { IfSome result (λ call. Says shared.now.identity speaker.purpose speaker.from to call.hello) }
    ensures reached { IfSome result (λ call. IsReachedThen shared.now.identity to (Some call.address)) }
{
    let hello = hello_of(shared, speaker, to).ok()?;
    let address = shared.address_of(to)?;
    Some(Call { hello, address })
}

impl Approach {
    /// Nobody was tried yet. The first pause is of so many milliseconds.
    pub fn new(to: Actor, pause: u64) -> Approach
        ensures to { result.to ≡ to }
        ensures retry { result.retry ≡ at_once pause }
    {
        Approach {
            to,
            retry: Retry::new(pause),
            told: Told::new(),
        }
    }

    /// The call of a speaker, if one may be made now. From here on it was tried in vain; the caller tells by `retry` if it
    /// went well after all.
    pub fn begin<R: Wait + Drop, C: Clock + Drop>(
        &mut self,
        shared: &SharedState<R, C>,
        speaker: Speaker,
    ) -> Option<Call>
        requires { IsOwn shared.now.identity speaker.from speaker.ticket }
        ensures range { IfSome result (λ call. IsHelloInRange call.hello) }
        ensures said { IfSome result (λ call. Says shared.now.identity speaker.purpose speaker.from self.old.to call.hello) }
        ensures reached { IfSome result (λ call. IsReachedThen shared.now.identity self.old.to (Some call.address)) }
        ensures begun { Begins (λ now. IfSome (C.reading (arc_value shared.now.clock)) (λ time. now ≡ time)) result self.old.retry self.new.retry }
        ensures to { self.new.to ≡ self.old.to }
    {
        let now = shared.clock.now();
        if !self.retry.is_due(now) {
            return None;
        }
        self.retry.failed(now);
        call_of(shared, speaker, self.to)
    }

    /// Nobody was reached.
    pub fn unreached(&mut self)
        ensures to { self.new.to ≡ self.old.to }
        ensures retry { self.new.retry ≡ self.old.retry }
    {
        self.told.taken();
    }

    // The operator is told of a refusal that has lasted for a lease, once a minute.
    fn note<R: Wait + Eprint + Drop, C: Clock + Drop>(
        &mut self,
        shared: &SharedState<R, C>,
        knocked: &Result<(), KnockFault>,
    )
        ensures to { self.new.to ≡ self.old.to }
        ensures retry { self.new.retry ≡ self.old.retry }
    {
        let Err(KnockFault::Refused(refusal)) = knocked else {
            self.told.taken();
            return;
        };
        let now = shared.clock.now();
        if self.told.refused(shared.identity.lease, now) {
            shared.tell(&Notice::Refused {
                to: self.to,
                refusal: *refusal,
            });
        }
    }

    /// Greets whoever accepted a connection that was dialled.
    pub fn greet<R: Wait + Eprint + Drop, C: Clock + Drop, N: Patient>(
        &mut self,
        shared: &SharedState<R, C>,
        hello: Hello,
        conn: &mut Buffered<N>,
    ) -> Result<(), KnockFault>
        requires { IsHelloInRange hello }
        ensures knocked { Knocks result shared.now.identity.secret hello conn.old conn.new }
        ensures to { self.new.to ≡ self.old.to }
        ensures retry { self.new.retry ≡ self.old.retry }
    {
        let secret = shared.identity.secret.as_slice();
        let knocked = knock(shared.alloc, &*shared.clock, conn, secret, hello);
        self.note(shared, &knocked);
        knocked
    }
}
