//! The jobs that send what is put for other actors.

ghost use Rattle.hk_host.specs.Starting.{Starts};

use crate::fault::StartFault;
use hk_base::{Actor, Memory};
use hk_channel::Channel;
use hk_group::{SendQueue, start_each};
use hk_hosts::DialAt;
use hk_link::Parcel;
use hk_outside::{Clock, Spawner};
use hk_peer::Carrier;
use hk_process::{SendJob, Sending};
use hk_shared_state::SharedState;
use std::io::Eprint;
use std::sync::{Arc, Wait};

/// Makes dialers.
pub trait Dialers {
    type Dialer: DialAt + Send + Drop + 'static;

    fn dialer(&self) -> Self::Dialer;
}

/// Carries letters from an actor of this process to a manager. A node tells managers nothing but that it wants leases, and one that leaves wants none.
#[derive(Drop)]
pub(crate) struct ManagerCarrier<R: Wait + Drop, C: Drop, D: DialAt + Drop> {
    shared: Arc<SharedState<R, C>>,
    from: Actor,
    channel: Channel<R, C, D>,
}

// Whether an actor of this process tells the managers nothing at this moment.
fn is_quiet<R: Wait + Drop, C: Drop>(shared: &SharedState<R, C>, from: Actor) -> bool {
    match from {
        Actor::Node(_) => shared.is_leaving(),
        Actor::Manager(_) => false,
    }
}

impl<R: Wait + Eprint + Drop, C: Clock + Drop, D: DialAt + Drop> Carrier
    for ManagerCarrier<R, C, D> {
    fn forward(&mut self, batch: &[Parcel]) {
        if !is_quiet(&*self.shared, self.from) {
            self.channel.forward(batch);
        }
    }

    fn is_connected(&self) -> bool {
        self.channel.is_connected()
    }
}

fn carrier_to<R: Wait + Copy + Drop, C: Drop, E: Dialers>(
    shared: &Arc<SharedState<R, C>>,
    dialers: &E,
    from: Actor,
    to: Actor,
) -> Result<ManagerCarrier<R, C, E::Dialer>, Memory> {
    let channel = Channel::new(Arc::try_clone(shared)?, dialers.dialer(), from, to);
    Ok(ManagerCarrier {
        shared: Arc::try_clone(shared)?,
        from,
        channel,
    })
}

// A loop for each of these queues from an actor of this process.
fn send_jobs<R: Wait + Copy + Drop, C: Drop, E: Dialers>(
    shared: &Arc<SharedState<R, C>>,
    dialers: &E,
    sending: &mut Sending,
    from: Actor,
    queues: Vec<SendQueue>,
) -> Result<Vec<SendJob<R, ManagerCarrier<R, C, E::Dialer>>>, Memory> {
    let mut jobs = Vec::new(shared.alloc);
    for queue in queues {
        let carrier = carrier_to(shared, dialers, from, queue.to)?;
        jobs.push(sending.job(shared.rt, shared.alloc, carrier, queue)?)?;
    }
    Ok(jobs)
}

/// Starts a loop for each of these queues from an actor of this process to managers.
pub(crate) fn start_queues<
    R: Wait + Eprint + Copy + Send + Sync + Drop + 'static,
    C: Clock + Send + Sync + Drop + 'static,
    E: Dialers,
    S: Spawner,
>(
    shared: &Arc<SharedState<R, C>>,
    dialers: &E,
    sending: &mut Sending,
    spawner: &mut S,
    from: Actor,
    queues: Vec<SendQueue>,
) -> Result<(), StartFault>
    ensures { Starts (S.faults spawner.old) (S.faults spawner.new) result }
{
    let jobs = send_jobs(shared, dialers, sending, from, queues)?;
    start_each(jobs, spawner)?;
    Ok(())
}
