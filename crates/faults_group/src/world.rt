//! A group: its hosts, the network between them, and what will happen.

use crate::counts::Counts;
use crate::disk::Disk;
use crate::draws::Draws;
use crate::founding::Command;
use crate::happening::Happening;
use crate::identity::GroupTerms;
use crate::judge::Judge;
use crate::let_go::let_go;
use crate::mistake::Mistake;
use crate::network::Network;
use crate::node::NodeShard;
use crate::phases::Phase;
use crate::process::Process;
use hk_base::{Actor, Memory, NodeId};
use std::alloc::Global;
use std::collections::BTreeMap;
use std::io::Eprint;
use std::sync::{Arc, Mutex, Wait};

/// A host.
#[derive(Drop)]
pub struct Host<R: Wait + Drop> {
    pub disk: Arc<Mutex<Disk>>,
    /// How many processes it has had.
    pub lives: u64,
    /// Whether it stays down.
    pub is_down: bool,
    /// Whether its disk was lost.
    pub is_wiped: bool,
    pub running: Option<Process<R>>,
}

impl<R: Wait + Drop> Host<R> {
    /// A shard of the node that runs there.
    pub fn held(&self, shard: usize) -> Option<&NodeShard> {
        let node = self.running.as_ref()?.node.as_ref()?;
        node.shards.get(shard)
    }
}

/// A group, and all around it.
#[derive(Drop)]
pub struct World<R: Wait + Drop> {
    pub rt: R,
    pub alloc: Global,
    pub draws: Draws,
    pub terms: GroupTerms,
    pub mistake: Mistake,
    pub now: u64,
    sequence: u64,
    queue: BTreeMap<(u64, u64), Happening>,
    pub hosts: Vec<Host<R>>,
    pub network: Network,
    /// The numbers of all nodes that were made.
    pub numbers: Vec<NodeId>,
    pub commands: Vec<Command>,
    pub phase: Phase,
    /// How often faults came, and were healed.
    pub rounds: u64,
    /// Whether a node had all rows, and was a member, when faults had been over for some leases.
    pub was_sound: bool,
    pub is_over: bool,
    pub judge: Judge,
    pub counts: Counts,
}

const LEASES: [u32; 6] = [200, 400, 1_000, 1_000, 5_000, 60_000];

const MANAGERS: [u8; 6] = [1, 3, 3, 3, 5, 5];

fn draw_terms(draws: &mut Draws) -> GroupTerms {
    let lease = LEASES[draws.place(LEASES.len())];
    let managers = MANAGERS[draws.place(MANAGERS.len())];
    // a reading is rounded, which counts as a jump
    let skew = draws.within(5, u64::from(lease) / 8);
    GroupTerms {
        managers,
        hosts: usize::from(managers).saturating_add(draws.place(3)),
        lease,
        skew: u32::try_from(skew).unwrap_or(0),
    }
}

fn new_hosts<R: Wait + Eprint + Copy + Drop>(
    alloc: Global,
    count: usize,
) -> Result<Vec<Host<R>>, Memory> {
    let mut hosts = Vec::new(alloc);
    for _host in 0..count {
        hosts.push(Host {
            disk: Arc::new(alloc, Mutex::new(Disk::new(alloc)))?,
            lives: 0,
            is_down: false,
            is_wiped: false,
            running: None,
        })?;
    }
    Ok(hosts)
}

impl<R: Wait + Eprint + Copy + Drop> World<R> {
    /// A group that is not founded yet, whose processes are to begin.
    pub fn new(
        rt: R,
        alloc: Global,
        seed: u64,
        mistake: Mistake,
        counts: Counts,
    ) -> Result<World<R>, Memory> {
        let mut draws = Draws::new(seed, counts.groups);
        let terms = draw_terms(&mut draws);
        let hosts = new_hosts(alloc, terms.hosts)?;
        let network = Network::new(alloc, terms.hosts)?;
        let judge = Judge::new(alloc)?;
        Ok(World {
            rt,
            alloc,
            draws,
            terms,
            mistake,
            now: 0,
            sequence: 0,
            queue: BTreeMap::new(alloc),
            hosts,
            network,
            numbers: Vec::new(alloc),
            commands: Vec::new(alloc),
            phase: Phase::Settled,
            rounds: 0,
            was_sound: false,
            is_over: false,
            judge,
            counts,
        })
    }

    /// The length of a lease.
    pub fn lease(&self) -> u64 {
        u64::from(self.terms.lease)
    }

    /// By how much clocks may differ.
    pub fn skew(&self) -> u64 {
        u64::from(self.terms.skew)
    }

    /// It will happen behind so many milliseconds.
    pub fn schedule(&mut self, delay: u64, happening: Happening) -> Result<(), Memory> {
        self.sequence = self.sequence.wrapping_add(1);
        let at = (self.now.saturating_add(delay), self.sequence);
        let_go(self.queue.insert(at, happening)?);
        Ok(())
    }

    /// What happens next.
    pub fn next(&mut self) -> Option<Happening> {
        let ((at, _), happening) = self.queue.pop_first()?;
        self.now = self.now.max(at);
        Some(happening)
    }

    /// Makes what happens.
    pub fn make(&mut self, happening: Happening) -> Result<(), Memory> {
        self.counts.events = self.counts.events.saturating_add(1);
        match happening {
            Happening::Start(host) => self.start(host),
            Happening::Beat { host, life } => self.beat(host, life),
            Happening::Turn { host, life } => self.turn(host, life),
            Happening::Letter { founding, parcel } => self.take_letter(founding, parcel),
            Happening::Ask {
                asker,
                place,
                inquiry,
            } => self.take_ask(asker, usize::from(place), inquiry),
            Happening::Answer {
                asker,
                place,
                response,
            } => self.take_answer(asker, place, response),
            Happening::Heal { from, to } => {
                self.network.mend(from, to);
                Ok(())
            }
            Happening::Leave { host, times } => self.leave(host, times),
            Happening::Init => self.type_init(),
            Happening::Fault => self.draw_fault(),
            Happening::Phase => self.end_phase(),
        }
    }

    /// The process of a host, whichever runs there.
    pub fn running(&mut self, host: usize) -> Option<&mut Process<R>> {
        self.hosts.get_mut(host)?.running.as_mut()
    }

    /// The process of a host, if that one runs.
    pub fn process(&mut self, host: usize, life: u64) -> Option<&mut Process<R>> {
        let process = self.running(host)?;
        if process.life == life {
            Some(process)
        } else {
            None
        }
    }

    /// Where the process of this node's number runs.
    pub fn host_of(&self, number: NodeId) -> Option<usize> {
        for (place, host) in self.hosts.iter().enumerate() {
            if let Some(process) = &host.running {
                if process.number() == Some(number) {
                    return Some(place);
                }
            }
        }
        None
    }

    // To which host it travels.
    fn target(&self, happening: &Happening) -> Option<usize> {
        match happening {
            Happening::Letter { parcel, .. } => match parcel.letter.to {
                Actor::Manager(place) => Some(usize::from(place)),
                Actor::Node(number) => self.host_of(number),
            },
            Happening::Ask { place, .. } => Some(usize::from(*place)),
            Happening::Answer { asker, .. } => Some(asker.host),
            _ => None,
        }
    }

    // For how long it is on its way from a host to where it will happen, if it comes.
    fn travels(&mut self, from: usize, happening: &Happening) -> Option<u64> {
        let to = self.target(happening)?;
        self.network.travels(&mut self.draws, from, to)
    }

    /// It travels from a host to where it will happen, if it comes.
    pub fn send(&mut self, from: usize, happening: Happening) -> Result<(), Memory> {
        match self.travels(from, &happening) {
            Some(delay) => self.schedule(delay, happening),
            // it is lost on its way
            None => {
                let_go(happening);
                Ok(())
            }
        }
    }

    /// All of these do.
    pub fn send_all(&mut self, from: usize, sent: Vec<Happening>) -> Result<(), Memory> {
        for happening in sent {
            self.send(from, happening)?;
        }
        Ok(())
    }
}
