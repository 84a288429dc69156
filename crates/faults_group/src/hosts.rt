//! How processes begin and end, and what they do at each beat.

use crate::clock::Pace;
use crate::disk::{Disk, DiskLog};
use crate::happening::Happening;
use crate::identity::identity_of;
use crate::judge::Judge;
use crate::let_go::let_go;
use crate::manager::Manager;
use crate::mistake::Mistake;
use crate::node::{Node, NodeShard};
use crate::process::{Process, new_shared};
use crate::world::{Host, World};
use hk_base::{Memory, SHARDS};
use hk_inside::HostTickets;
use std::alloc::Global;
use std::io::Eprint;
use std::sync::{Arc, Mutex, Wait};

impl<R: Wait + Drop> Host<R> {
    // The log for a process that begins. There is none where one runs, or the host stays down. By mistake the disk is
    // empty.
    fn begin(
        &mut self,
        rt: R,
        alloc: Global,
        is_empty: bool,
    ) -> Result<Option<DiskLog<R>>, Memory> {
        if self.running.is_some() || self.is_down {
            return Ok(None);
        }
        self.lives = self.lives.saturating_add(1);
        if is_empty {
            self.disk = Arc::new(alloc, Mutex::new(Disk::new(alloc)))?;
        }
        Ok(Some(DiskLog::new(rt, Arc::try_clone(&self.disk)?)))
    }
}

// Notes the views that a node begins with.
fn note_views(judge: &mut Judge, alloc: Global, node: &Node) -> Result<(), Memory> {
    for (shard, held) in (0..SHARDS).zip(node.shards.iter()) {
        if let Some(view) = &held.view {
            judge.note_begun(alloc, shard, view)?;
        }
    }
    Ok(())
}

impl<R: Wait + Eprint + Copy + Drop> World<R> {
    /// The processes of all hosts are to begin.
    pub fn start_all(&mut self) -> Result<(), Memory> {
        for host in 0..self.terms.hosts {
            self.schedule(0, Happening::Start(host))?;
        }
        Ok(())
    }

    // How the clock of a process goes that begins now.
    fn draw_pace(&mut self, at: usize) -> Pace {
        let mut pace = Pace::new(&mut self.draws, self.now);
        if self.mistake == Mistake::HastyClocks && at <= usize::from(self.terms.managers) / 2 {
            pace.hurry(3);
        }
        pace
    }

    /// A process begins at a host where none runs.
    pub fn start(&mut self, at: usize) -> Result<(), Memory> {
        let drawn = HostTickets {
            manager: self.draws.ticket(),
            node: self.draws.ticket(),
        };
        let pace = self.draw_pace(at);
        let is_empty = self.mistake == Mistake::EmptyDisks;
        let Some(host) = self.hosts.get_mut(at) else {
            return Ok(());
        };
        let Some(log) = host.begin(self.rt, self.alloc, is_empty)? else {
            return Ok(());
        };
        let life = host.lives;
        let process = self.new_process(at, life, pace, log, drawn)?;
        self.run(at, process);
        self.schedule(0, Happening::Beat { host: at, life })
    }

    // A process of a host, with its manager, whose tickets were drawn.
    fn new_process(
        &self,
        at: usize,
        life: u64,
        pace: Pace,
        log: DiskLog<R>,
        drawn: HostTickets,
    ) -> Result<Process<R>, Memory> {
        let identity = identity_of(self.alloc, &self.terms, at, drawn.node)?;
        let shared = new_shared(self.rt, self.alloc, identity)?;
        shared.clock.rise(pace.reading(self.now));
        let manager = Manager::begin(&shared, log, drawn)?;
        Ok(Process::new(at, life, pace, shared, manager))
    }

    // The process runs.
    fn run(&mut self, at: usize, process: Process<R>) {
        match self.hosts.get_mut(at) {
            Some(host) => let_go(host.running.replace(process)),
            None => let_go(process),
        }
    }

    fn stop_disk(&mut self, at: usize) {
        if let Some(host) = self.hosts.get(at) {
            let mut guard = host.disk.lock(&self.rt);
            let disk = &mut *guard;
            disk.stop(&mut self.draws);
        }
    }

    /// The process of a host ends.
    pub fn end(&mut self, at: usize) {
        let Some(host) = self.hosts.get_mut(at) else {
            return;
        };
        if let Some(process) = &host.running {
            let ran = self.now.saturating_sub(process.pace.born);
            self.counts.ran = self.counts.ran.saturating_add(ran);
        }
        let_go(host.running.take());
        self.stop_disk(at);
    }

    /// All processes end, and the group with them.
    pub fn end_all(&mut self) {
        for host in 0..self.terms.hosts {
            self.end(host);
        }
        self.counts.groups = self.counts.groups.saturating_add(1);
    }

    /// The process of a host ends, and another one begins within so many milliseconds.
    pub fn restart(&mut self, at: usize, within: u64) -> Result<(), Memory> {
        self.end(at);
        let delay = self.draws.within(1, within);
        self.schedule(delay, Happening::Start(at))
    }

    /// A process looks how it stands, reports, and renews its leases.
    pub fn beat(&mut self, at: usize, life: u64) -> Result<(), Memory> {
        let (now, lease) = (self.now, self.lease());
        let mistake = self.mistake;
        let Some(process) = self.process(at, life) else {
            return Ok(());
        };
        let beat = process.shared.identity.beat();
        if !process.look(now) {
            return self.restart(at, lease);
        }
        let is_made = process.make_node(mistake)?;
        let sent = process.beat(now)?;
        if is_made {
            self.note_node(at)?;
        }
        self.send_all(at, sent)?;
        self.copy(at);
        self.schedule_turn(at)?;
        let delay = beat.saturating_add(self.draws.below(2));
        self.schedule(delay, Happening::Beat { host: at, life })
    }

    // Notes who holds a number, and the views that a founder begins with.
    fn note_node(&mut self, at: usize) -> Result<(), Memory> {
        let Some(host) = self.hosts.get(at) else {
            return Ok(());
        };
        let Some(process) = &host.running else {
            return Ok(());
        };
        let Some(node) = &process.node else {
            return Ok(());
        };
        self.judge
            .note_holder(node.number, process.shared.identity.ticket)?;
        note_views(&mut self.judge, self.alloc, node)?;
        self.numbers.push(node.number)?;
        self.counts.nodes = self.counts.nodes.saturating_add(1);
        Ok(())
    }

    // Whether some host has all rows of a shard, in the view that it has at this host.
    fn can_copy(&self, at: usize, shard: usize) -> bool {
        let Some(host) = self.hosts.get(at) else {
            return false;
        };
        let Some(taker) = host.held(shard) else {
            return false;
        };
        let epoch = taker.epoch();
        self.hosts.iter().any(|host| match host.held(shard) {
            Some(giver) => giver.is_whole && giver.epoch() == epoch && epoch > 0,
            None => false,
        })
    }

    fn shard_of(&mut self, at: usize, shard: usize) -> Option<&mut NodeShard> {
        let node = self.running(at)?.node.as_mut()?;
        node.shards.get_mut(shard)
    }

    // Shards that have a view but not all rows copy them, for some beats.
    fn copy(&mut self, at: usize) {
        for shard in 0..usize::from(SHARDS) {
            let is_copied = self.draws.happens(200) && self.can_copy(at, shard);
            if let Some(held) = self.shard_of(at, shard) {
                held.is_whole = held.is_whole || is_copied;
            }
        }
    }
}
