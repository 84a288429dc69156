//! The way of letters from an actor of this process to another actor.

ghost use Rattle.std.specs.Prelude.{◌≡◌, ◌/◌, true, max, IfSome, None};
ghost use Rattle.std.specs.Arc.{arc_value};
ghost use Rattle.hk_peer.specs.Parcels.{frames_of};
ghost use Rattle.hk_channel.specs.Greeted.{IsOwn, SaysForLetters};
ghost use Rattle.hk_channel.specs.Sending.{Sent, IsWhole, HasWhole};
ghost use Rattle.hk_channel.specs.Retrying.{at_once};
ghost use Rattle.hk_channel.specs.Dialled.{Redials};

use crate::approach::{Approach, DIAL_MILLIS, Speaker};
use hk_base::Actor;
use hk_greet::Buffered;
use hk_hello::{Party, Purpose};
use hk_hosts::{DialAt, Patient};
use hk_link::Parcel;
use hk_outside::Clock;
use hk_peer::{Carrier, PromptCarrier, Prompted, SendFault, send_parcels};
use hk_shared_state::SharedState;
use std::alloc::Global;
use std::io::Eprint;
use std::sync::{Arc, Wait};

/// Leads from an actor of this process to another one. It dials and greets where it has no connection, and drops one on
/// which writing failed.
#[derive(Drop)]
pub struct Channel<R: Wait + Drop, C: Drop, D: DialAt + Drop> {
    shared: Arc<SharedState<R, C>>,
    dialer: D,
    from: Actor,
    approach: Approach,
    conn: Option<Buffered<D::Conn>>,
}

impl<R: Wait + Drop, C: Drop, D: DialAt + Drop> Channel<R, C, D> {
    /// No connection was made yet.
    pub fn new(
        shared: Arc<SharedState<R, C>>,
        dialer: D,
        from: Actor,
        to: Actor,
    ) -> Channel<R, C, D>
        ensures { result.conn ≡ None }
    {
        let pause = shared.identity.beat();
        Channel {
            shared,
            dialer,
            from,
            approach: Approach::new(to, pause),
            conn: None,
        }
    }
}

// What an actor says where it dials for letters, if it is one of this process.
fn speaker_of<R: Wait + Drop, C: Drop>(shared: &SharedState<R, C>, from: Actor) -> Option<Speaker>
    ensures purpose { IfSome result (λ speaker. speaker.purpose ≡ Purpose.Letters) }
    ensures from_actor { IfSome result (λ speaker. speaker.from ≡ Party.Actor from) }
    ensures own { IfSome result (λ speaker. IsOwn shared.now.identity speaker.from speaker.ticket) }
{
    let ticket = shared.own_ticket(from)?;
    Some(Speaker {
        purpose: Purpose::Letters,
        from: Party::Actor(from),
        ticket,
    })
}

// Sends parcels, and gives whether the connection stays: not where a frame may have been cut.
fn send<N: Patient>(alloc: Global, conn: &mut Buffered<N>, batch: &[Parcel]) -> bool
    ensures { Sent result (frames_of batch.now) conn.old.held conn.new.held }
{
    match send_parcels(alloc, conn, batch) {
        Ok(()) => true,
        Err(SendFault::Memory) => true,
        Err(SendFault::WriteFault) => false,
    }
}

// Has what is kept leave, sends parcels, and has these leave too, as long as a write may wait. Gives whether the connection stays.
fn send_patiently<N: Patient>(alloc: Global, conn: &mut Buffered<N>, batch: &[Parcel]) -> bool
    ensures { result ≡ true → IsWhole (frames_of batch.now) conn.old.held conn.new.held }
{
    if conn.catch_up().is_err() {
        return false;
    }
    if !send(alloc, conn, batch) {
        return false;
    }
    conn.catch_up().is_ok()
}

impl<R: Wait + Eprint + Drop, C: Clock + Drop, D: DialAt + Drop> Carrier for Channel<R, C, D> {
    fn forward(&mut self, batch: &[Parcel])
        ensures whole { HasWhole (arc_value self.old.shared).identity.secret (SaysForLetters (arc_value self.old.shared).identity self.old.from self.old.approach.to) (frames_of batch.now) self.old.conn self.new.conn }
        ensures dials { Redials (arc_value self.old.shared).identity self.old.approach.to (λ now. IfSome (C.reading (arc_value (arc_value self.old.shared).clock)) (λ time. now ≡ time)) self.old.conn self.new.conn self.old.approach.retry self.new.approach.retry (D.addresses self.old.dialer) (D.addresses self.new.dialer) }
    {
        if let Some(conn) = &mut self.conn {
            if !send_patiently(self.shared.alloc, conn, batch) {
                self.conn = None;
            }
            return;
        }
        let Some(speaker) = speaker_of(&*self.shared, self.from) else {
            return;
        };
        let Some(call) = self.approach.begin(&*self.shared, speaker) else {
            return;
        };
        let Ok(dialled) = self.dialer.dial(&call.address, DIAL_MILLIS) else {
            self.approach.unreached();
            return;
        };
        let mut conn = Buffered::new(self.shared.alloc, dialled);
        let Ok(()) = self.approach.greet(&*self.shared, call.hello, &mut conn) else {
            return;
        };
        conn.wait_at_most(0, u64::from(self.shared.identity.lease));
        conn.write_promptly();
        if send_patiently(self.shared.alloc, &mut conn, batch) {
            self.approach.retry.went_well();
            self.conn = Some(conn);
        }
    }

    fn is_connected(&self) -> bool {
        self.conn.is_some()
    }
}

// Sends parcels on a connection that is there, unless something is kept on it still. Where a frame may have been cut the connection is gone.
fn send_now<N: Patient + Drop>(
    alloc: Global,
    conn: &mut Option<Buffered<N>>,
    batch: &[Parcel],
) -> Prompted {
    let Some(held) = conn else {
        return Prompted::Unsent;
    };
    if held.keeps() {
        return Prompted::Unsent;
    }
    if !send(alloc, held, batch) {
        *conn = None;
        return Prompted::Sent;
    }
    if held.keeps() {
        return Prompted::Kept;
    }
    Prompted::Sent
}

impl<R: Wait + Eprint + Drop, C: Clock + Drop, D: DialAt + Drop> PromptCarrier
    for Channel<R, C, D> {
    fn forward_now(&mut self, batch: &[Parcel]) -> Prompted {
        send_now(self.shared.alloc, &mut self.conn, batch)
    }
}

/// Carries parcels to an actor, which may become another one.
pub trait AimedCarrier: PromptCarrier {
    /// Leads to this actor from now on. A connection that it had is ended.
    fn aim(&mut self, to: Actor);
}

impl<R: Wait + Eprint + Drop, C: Clock + Drop, D: DialAt + Drop> AimedCarrier for Channel<R, C, D> {
    // It is as if it were made anew.
    fn aim(&mut self, to: Actor)
        ensures to { self.new.approach.to ≡ to }
        ensures retry { self.new.approach.retry ≡ at_once (max ((arc_value self.old.shared).identity.lease / 16) 10) }
        ensures conn { self.new.conn ≡ None }
        ensures from { self.new.from ≡ self.old.from }
        ensures shared { self.new.shared ≡ self.old.shared }
        ensures dialer { self.new.dialer ≡ self.old.dialer }
    {
        let pause = self.shared.identity.beat();
        self.approach = Approach::new(to, pause);
        self.conn = None;
    }
}
