//! When faults come, and what a group owes once they are over.

use crate::happening::Happening;
use crate::judge::Fault;
use crate::mistake::Mistake;
use crate::world::World;
use hk_base::Memory;
use std::io::Eprint;
use std::sync::Wait;

// So often faults come, and are healed, in one group.
const ROUNDS: u64 = 12;

// In milliseconds, beside the leases. A manager may be reserved for 10 s by an `init` that was typed before, and so the
// next one is in vain: two are typed by then that are more than 10 s apart.
const FOUNDED_WITHIN: u64 = 40_000;

const SERVES_WITHIN: u64 = 5_000;

/// Whether faults come.
#[derive(Clone, Copy, PartialEq, Eq)]
pub enum Phase {
    Faults,
    /// None come, and all begin again.
    Healed,
    /// All had time to begin again.
    Settled,
}

impl<R: Wait + Eprint + Copy + Drop> World<R> {
    /// The processes of a group that is not founded yet are to begin. Faults may come from the start.
    pub fn begin(&mut self) -> Result<(), Memory> {
        self.start_all()?;
        let first = if self.draws.happens(500) {
            self.phase = Phase::Faults;
            1
        } else {
            50_000
        };
        self.schedule(100, Happening::Init)?;
        self.schedule(50_000, Happening::Phase)?;
        self.schedule(first, Happening::Fault)
    }

    /// Faults come from now on, or all is healed.
    pub fn end_phase(&mut self) -> Result<(), Memory> {
        let lease = self.lease();
        let delay = match self.phase {
            Phase::Faults => {
                self.phase = Phase::Healed;
                self.heal()?;
                lease.saturating_mul(4)
            }
            Phase::Healed => {
                self.phase = Phase::Settled;
                self.was_sound = self.count_whole() > 0;
                let more = if self.judge.founding == 0 {
                    FOUNDED_WITHIN
                } else {
                    SERVES_WITHIN
                };
                lease.saturating_mul(30).saturating_add(more)
            }
            Phase::Settled => {
                self.phase = Phase::Faults;
                self.judge_settled();
                self.raise_all()?;
                self.draws.within(lease, lease.saturating_mul(60))
            }
        };
        self.schedule(delay, Happening::Phase)
    }

    // A group is founded, and one that had a node with all rows when faults had been over for a while serves again.
    fn judge_settled(&mut self) {
        self.rounds = self.rounds.saturating_add(1);
        self.is_over = self.rounds > ROUNDS;
        if self.is_served() {
            self.counts.served = self.counts.served.saturating_add(1);
        } else if self.was_sound && self.mistake != Mistake::EmptyDisks {
            self.judge.blame(Fault::NeverServes);
        } else if self.is_lost() {
            self.counts.lost = self.counts.lost.saturating_add(1);
            self.is_over = true;
        } else if self.judge.founding == 0 && !self.is_host_down() {
            self.judge.blame(Fault::NeverOpens);
        }
    }

    // Whether no node of a founded group has all rows.
    fn is_lost(&self) -> bool {
        self.judge.founding != 0 && self.count_whole() == 0
    }

    fn is_host_down(&self) -> bool {
        self.hosts.iter().any(|host| host.is_down)
    }

    // No host stays down.
    fn raise_all(&mut self) -> Result<(), Memory> {
        for host in self.hosts.iter_mut() {
            host.is_down = false;
        }
        self.start_all()
    }

    fn heal_disks(&self) {
        for host in &self.hosts {
            let mut guard = host.disk.lock(&self.rt);
            let disk = &mut *guard;
            disk.heal();
        }
    }

    // Nothing is cut or fails any more, and all hosts are up but one.
    fn heal(&mut self) -> Result<(), Memory> {
        let slow = (self.lease() / 64).saturating_add(1);
        self.network.heal(slow);
        self.heal_disks();
        self.raise_all()?;
        let managers = usize::from(self.terms.managers);
        // a host whose log could not be written has no manager until its process starts again
        for at in 0..managers {
            if self.is_without_manager(at) {
                self.restart(at, 1)?;
            }
        }
        let at = self.draw_host();
        if at < managers && self.count_lost() < managers / 2 && self.draws.happens(300) {
            self.take_down(at);
        }
        Ok(())
    }

    // The process of a host ends, and none begins there.
    fn take_down(&mut self, at: usize) {
        self.end(at);
        if let Some(host) = self.hosts.get_mut(at) {
            host.is_down = true;
        }
    }

    fn is_without_manager(&self, at: usize) -> bool {
        let Some(host) = self.hosts.get(at) else {
            return false;
        };
        match &host.running {
            Some(process) => process.manager.is_none(),
            None => false,
        }
    }
}
