//! How a group stands, as nobody in it can see.

use crate::judge::Fault;
use crate::process::Process;
use crate::world::{Host, World};
use hk_base::View;
use std::io::Eprint;
use std::sync::Wait;

impl<R: Wait + Eprint + Copy + Drop> World<R> {
    // The number of the node at a host that this view leaves out, while its lease runs in an earlier one.
    fn outside(&self, host: &Host<R>, shard: usize, view: &View) -> Option<u16> {
        let process = host.running.as_ref()?;
        let held = host.held(shard)?;
        let number = process.number()?;
        let is_out = held.epoch() < view.epoch && !view.has_member(number);
        if is_out && held.serves(process.read(self.now), self.skew()) {
            Some(number.0)
        } else {
            None
        }
    }

    /// No lease may run of a node that the last view of the shard leaves out.
    pub fn check_leases(&mut self, shard: u8) {
        let at = usize::from(shard);
        let Some(view) = self.judge.begun(at) else {
            return;
        };
        let mut early = None;
        for host in &self.hosts {
            early = early.or(self.outside(host, at, view));
        }
        if let Some(number) = early {
            self.judge.blame(Fault::TooEarly { shard, number });
        }
    }

    // Whether the node of a process serves in all shards, in the last views.
    fn serves(&self, process: &Process<R>) -> bool {
        let Some(node) = &process.node else {
            return false;
        };
        let reading = process.read(self.now);
        for (shard, held) in node.shards.iter().enumerate() {
            let is_last = match self.judge.begun(shard) {
                Some(view) => held.epoch() == view.epoch,
                None => false,
            };
            if !is_last || !held.is_whole || !held.serves(reading, self.skew()) {
                return false;
            }
        }
        !process.shared.is_leaving()
    }

    /// Whether a node serves.
    pub fn is_served(&self) -> bool {
        self.hosts.iter().any(|host| match &host.running {
            Some(process) => self.serves(process),
            None => false,
        })
    }

    // Whether the node at a host has all rows, and is a member of the last views that were chosen.
    fn is_whole(&self, host: &Host<R>) -> bool {
        let Some(process) = &host.running else {
            return false;
        };
        let Some(node) = &process.node else {
            return false;
        };
        for (shard, held) in node.shards.iter().enumerate() {
            let is_member = match self.judge.chosen(shard) {
                Some(view) => view.has_member(node.number),
                None => false,
            };
            if !is_member || !held.is_whole {
                return false;
            }
        }
        true
    }

    /// At how many hosts there is a node that has all rows, and is a member of the last views.
    pub fn count_whole(&self) -> usize {
        let mut count = 0usize;
        for host in &self.hosts {
            if self.is_whole(host) {
                count = count.saturating_add(1);
            }
        }
        count
    }

    /// How many hosts with managers are down, or have lost their disks.
    pub fn count_lost(&self) -> usize {
        let mut count = 0usize;
        for host in self.hosts.iter().take(usize::from(self.terms.managers)) {
            if host.is_down || host.is_wiped {
                count = count.saturating_add(1);
            }
        }
        count
    }

    /// Whether all managers are open but those whose disks were lost, which never are again.
    pub fn are_others_open(&self) -> bool {
        let mut managers = self.hosts.iter().take(usize::from(self.terms.managers));
        managers.all(|host| match &host.running {
            Some(process) => host.is_wiped || process.open_founding().is_some(),
            None => false,
        })
    }
}
