//! What is drawn that goes wrong.

use crate::disk::Disk;
use crate::happening::Happening;
use crate::phases::Phase;
use crate::world::World;
use hk_base::Memory;
use std::io::Eprint;
use std::sync::Wait;

/// What goes wrong at a host.
#[derive(Clone, Copy)]
enum Wrong {
    /// Its process is killed, and starts again.
    Kill,
    /// Nothing comes from it to another host.
    Cut,
    /// Nothing comes from it to any other host, or to it.
    CutOff,
    /// All that travels is slow.
    Slow,
    /// A part of that is lost, and no more of it is slow.
    Loss,
    /// Its clock jumps.
    Jump,
    /// Its disk fails.
    Disk,
    /// Its node leaves.
    Leave,
    /// Its disk is lost.
    Wipe,
    /// `init` is typed.
    Init,
}

// By how often they come.
const WRONGS: [Wrong; 16] = [
    Wrong::Kill,
    Wrong::Kill,
    Wrong::Kill,
    Wrong::Kill,
    Wrong::Cut,
    Wrong::Cut,
    Wrong::CutOff,
    Wrong::CutOff,
    Wrong::Slow,
    Wrong::Loss,
    Wrong::Jump,
    Wrong::Jump,
    Wrong::Disk,
    Wrong::Leave,
    Wrong::Wipe,
    Wrong::Init,
];

impl<R: Wait + Eprint + Copy + Drop> World<R> {
    /// Any host.
    pub fn draw_host(&mut self) -> usize {
        let hosts = self.terms.hosts as u64;
        self.draws.below(hosts) as usize
    }

    /// Something goes wrong, where faults come.
    pub fn draw_fault(&mut self) -> Result<(), Memory> {
        let lease = self.lease();
        let delay = self.draws.within(1, lease.saturating_mul(4));
        self.schedule(delay, Happening::Fault)?;
        let host = self.draw_host();
        let wrong = WRONGS[self.draws.place(WRONGS.len())];
        if self.phase == Phase::Faults {
            return self.go_wrong(host, wrong);
        }
        Ok(())
    }

    fn go_wrong(&mut self, host: usize, wrong: Wrong) -> Result<(), Memory> {
        let lease = self.lease();
        match wrong {
            Wrong::Kill => self.kill(host)?,
            Wrong::Cut => {
                let other = self.draw_host();
                self.cut(host, other)?;
            }
            Wrong::CutOff => self.cut_off(host)?,
            Wrong::Slow => {
                self.network.slow = self.draws.within(1, lease);
            }
            Wrong::Loss => {
                self.network.slow = (lease / 64).saturating_add(1);
                self.network.loss = self.draws.below(150);
            }
            Wrong::Jump => self.jump(host),
            Wrong::Disk => self.fail_disk(host),
            Wrong::Leave => {
                let times = self.draws.within(1, 40);
                self.leave(host, times)?;
            }
            Wrong::Wipe => self.wipe(host)?,
            Wrong::Init => self.begin_init()?,
        }
        Ok(())
    }

    // Whether a process may end: the group is not open yet, or two other nodes have all rows. Seldom it ends all the
    // same, and all rows may be lost.
    fn may_end(&mut self) -> bool {
        self.judge.founding == 0 || self.count_whole() > 2 || self.draws.happens(20)
    }

    fn kill(&mut self, at: usize) -> Result<(), Memory> {
        if self.may_end() {
            let within = self.lease().saturating_mul(4);
            self.restart(at, within)?;
        }
        Ok(())
    }

    fn cut(&mut self, from: usize, to: usize) -> Result<(), Memory> {
        self.network.cut(from, to);
        let lease = self.lease();
        let delay = self.draws.within(1, lease.saturating_mul(6));
        self.schedule(delay, Happening::Heal { from, to })
    }

    fn cut_off(&mut self, host: usize) -> Result<(), Memory> {
        if !self.may_end() {
            return Ok(());
        }
        for other in 0..self.terms.hosts {
            self.cut(host, other)?;
            self.cut(other, host)?;
        }
        Ok(())
    }

    fn jump(&mut self, at: usize) {
        let skew = self.skew();
        let jump = self
            .draws
            .below(skew.saturating_sub(4).saturating_mul(9) / 20);
        if let Some(process) = self.running(at) {
            process.pace.jump(jump);
        }
    }

    fn fail_disk(&mut self, at: usize) {
        if let Some(host) = self.hosts.get(at) {
            if host.running.is_some() {
                let mut guard = host.disk.lock(&self.rt);
                let disk = &mut *guard;
                disk.fail(&mut self.draws);
            }
        }
    }

    // A disk is lost, where most of them are left behind that, and all managers are open that can be.
    fn wipe(&mut self, at: usize) -> Result<(), Memory> {
        let most = usize::from(self.terms.managers) / 2;
        if !self.are_others_open() || self.count_lost() >= most || !self.may_end() {
            return Ok(());
        }
        let lease = self.lease();
        self.restart(at, lease)?;
        if let Some(host) = self.hosts.get_mut(at) {
            host.is_wiped = true;
            let mut guard = host.disk.lock(&self.rt);
            let disk = &mut *guard;
            *disk = Disk::new(self.alloc);
        }
        Ok(())
    }
}
