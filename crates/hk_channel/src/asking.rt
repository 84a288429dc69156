//! Asking a manager.

ghost use Rattle.std.specs.Prelude.{◌≡◌, Ok, IfSome, None};
ghost use Rattle.std.specs.Arc.{arc_value};
ghost use Rattle.hk_inside.specs.Messages.{IsInquiryInRange};
ghost use Rattle.hk_greet.specs.Exchange.{Asks};
ghost use Rattle.hk_channel.specs.Greeted.{IsOwn, SaysForRequests};
ghost use Rattle.hk_channel.specs.Asking.{IsAsked};
ghost use Rattle.hk_channel.specs.Dialled.{Redials};

use crate::approach::{Approach, DIAL_MILLIS, Speaker};
use hk_base::Actor;
use hk_greet::{Buffered, ask};
use hk_hello::{Party, Purpose};
use hk_hosts::{DialAt, Patient};
use hk_inside::{Inquiry, Response};
use hk_outside::Clock;
use hk_shared_state::SharedState;
use std::alloc::Global;
use std::io::Eprint;
use std::sync::{Arc, Wait};

/// Asks a manager.
pub trait AskManager {
    ghost use Rattle.hk_inside.specs.Messages.{IsInquiryInRange};

    /// Asks it one thing. None where it is not answered now.
    fn ask(&mut self, inquiry: &Inquiry) -> Option<Response>
        requires { IsInquiryInRange inquiry.now };
}

/// Asks the manager of a host. It dials and greets where it has no connection, and drops one on which an answer failed to
/// come.
#[derive(Drop)]
pub struct Asker<R: Wait + Drop, C: Drop, D: DialAt + Drop> {
    shared: Arc<SharedState<R, C>>,
    dialer: D,
    approach: Approach,
    conn: Option<Buffered<D::Conn>>,
}

// What this process says where it dials for a manager: as its own manager once that is open, else as nobody.
fn speaker_of<R: Wait + Drop, C: Drop>(shared: &SharedState<R, C>) -> Speaker
    ensures purpose { result.purpose ≡ Purpose.Requests }
    ensures own { IsOwn shared.now.identity result.from result.ticket }
{
    let nobody = Speaker {
        purpose: Purpose::Requests,
        from: Party::Neither,
        ticket: shared.identity.ticket,
    };
    let Some(place) = shared.identity.place else {
        return nobody;
    };
    let own = Actor::Manager(place);
    match shared.own_ticket(own) {
        Some(ticket) => Speaker {
            purpose: Purpose::Requests,
            from: Party::Actor(own),
            ticket,
        },
        None => nobody,
    }
}

impl<R: Wait + Drop, C: Drop, D: DialAt + Drop> Asker<R, C, D> {
    /// The manager of the host at this place is to be asked. No connection was made yet.
    pub fn new(shared: Arc<SharedState<R, C>>, dialer: D, place: u8) -> Asker<R, C, D>
        ensures conn { result.conn ≡ None }
        ensures to { result.approach.to ≡ Actor.Manager place }
    {
        let pause = shared.identity.beat();
        Asker {
            shared,
            dialer,
            approach: Approach::new(Actor::Manager(place), pause),
            conn: None,
        }
    }
}

// Asks on a connection, and gives the answer, if it came.
fn answer_on<N: Patient>(
    alloc: Global,
    conn: &mut Buffered<N>,
    inquiry: &Inquiry,
) -> Option<Response>
    requires { IsInquiryInRange inquiry.now }
    ensures { IfSome result (λ response. Asks (Ok response) inquiry.now conn.old conn.new) }
{
    match ask(alloc, conn, inquiry) {
        Ok(response) => Some(response),
        Err(_) => None,
    }
}

impl<R: Wait + Eprint + Drop, C: Clock + Drop, D: DialAt + Drop> AskManager for Asker<R, C, D> {
    fn ask(&mut self, inquiry: &Inquiry) -> Option<Response>
        requires { IsInquiryInRange inquiry.now }
        ensures asked { IsAsked (arc_value self.old.shared).identity.secret (SaysForRequests (arc_value self.old.shared).identity self.old.approach.to) inquiry.now result self.old.conn self.new.conn }
        ensures dials { Redials (arc_value self.old.shared).identity self.old.approach.to (λ now. IfSome (C.reading (arc_value (arc_value self.old.shared).clock)) (λ time. now ≡ time)) self.old.conn self.new.conn self.old.approach.retry self.new.approach.retry (D.addresses self.old.dialer) (D.addresses self.new.dialer) }
    {
        if let Some(conn) = &mut self.conn {
            let answer = answer_on(self.shared.alloc, conn, inquiry);
            if answer.is_none() {
                self.conn = None;
            }
            return answer;
        }
        let speaker = speaker_of(&*self.shared);
        let call = self.approach.begin(&*self.shared, speaker)?;
        let Ok(dialled) = self.dialer.dial(&call.address, DIAL_MILLIS) else {
            self.approach.unreached();
            return None;
        };
        let mut conn = Buffered::new(self.shared.alloc, dialled);
        let Ok(()) = self.approach.greet(&*self.shared, call.hello, &mut conn) else {
            return None;
        };
        let lease = u64::from(self.shared.identity.lease);
        conn.wait_at_most(lease, lease);
        let answer = answer_on(self.shared.alloc, &mut conn, inquiry)?;
        self.approach.retry.went_well();
        self.conn = Some(conn);
        Some(answer)
    }
}
