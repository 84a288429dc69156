//! A process of the group: its clock, what its parts share, its manager and its node.
//!
//! What a process asks, claims and holds, what its node is to be, how that stands, when it leaves and when it ends tells
//! `hk_shared_state`, what it reports `hk_channel`. Their jobs, which wait for connections and for time, stand here again.

ghost use Rattle.std.specs.Prelude.{◌≤◌};
ghost use Rattle.hk_base.specs.declared.time.TheConstants.{MAX_TIME};

use crate::clock::{HostClock, Pace};
use crate::happening::{Asker, Happening};
use crate::identity::MOST_MANAGERS;
use crate::let_go::let_go;
use crate::manager::{HostShared, Manager};
use crate::mistake::Mistake;
use crate::node::Node;
use hk_base::{Memory, NodeId, SHARDS, View};
use hk_boards::HeardBoard;
use hk_channel::report_of;
use hk_host_words::Verbosity;
use hk_inside::{Board, Inquiry, NodeState, Report, Response};
use hk_link::Parcel;
use hk_shared_state::{
    Coming, Identity, Mailbox, Part, SharedState, Standing, Telling, state_behind,
};
use std::alloc::Global;
use std::io::Eprint;
use std::sync::atomic::AtomicBool;
use std::sync::{Arc, Mutex, Wait};

/// A process.
#[derive(Drop)]
pub struct Process<R: Wait + Drop> {
    pub host: usize,
    /// Which process of its host it is.
    pub life: u64,
    pub pace: Pace,
    pub shared: Arc<HostShared<R>>,
    pub manager: Option<Manager<R>>,
    pub node: Option<Node>,
    // By places, when the report that is on its way there is given up.
    waits: [u64; MOST_MANAGERS],
    /// Whether its manager is to make a turn.
    pub has_turn: bool,
}

// What the node of a process is. By mistake it takes a number that it was given for its own at once.
fn part_of(identity: &Identity, standing: &Standing, mistake: Mistake) -> Option<Part> {
    let part = standing.part(identity);
    if part.is_none() && mistake == Mistake::SharedNumbers {
        return standing.given.map(Part::Joiner);
    }
    part
}

fn claimed_by(inquiry: &Inquiry) -> Option<NodeId> {
    match inquiry {
        Inquiry::Claim { node, .. } => Some(*node),
        _ => None,
    }
}

// What changes of what the parts of a process share.
#[derive(Drop)]
struct Changing {
    clock: Arc<HostClock>,
    mailbox: Mailbox,
    standing: Standing,
}

impl Changing {
    // As it is when this process begins.
    fn new(alloc: Global, identity: &Identity) -> Result<Changing, Memory> {
        let clock = Arc::new(alloc, HostClock::new())?;
        let mailbox = Mailbox::new(alloc)?;
        let standing = Standing::new(alloc, identity.managers())?;
        Ok(Changing {
            clock,
            mailbox,
            standing,
        })
    }
}

/// What the parts of a process share, as it begins.
pub fn new_shared<R: Wait + Drop>(
    rt: R,
    alloc: Global,
    identity: Identity,
) -> Result<Arc<HostShared<R>>, Memory> {
    let Changing {
        clock,
        mailbox,
        standing,
    } = Changing::new(alloc, &identity)?;
    let shared = SharedState {
        rt,
        alloc,
        clock,
        identity,
        telling: Telling {
            verbosity: Verbosity::Quiet,
            began: 0,
        },
        standing: Mutex::new(standing),
        manager: Mutex::new(None),
        mailbox,
        is_out: AtomicBool::new(false),
        is_leaving: AtomicBool::new(false),
    };
    Ok(Arc::new(alloc, shared)?)
}

impl<R: Wait + Eprint + Copy + Drop> Process<R> {
    /// A process that begins.
    pub fn new(
        host: usize,
        life: u64,
        pace: Pace,
        shared: Arc<HostShared<R>>,
        manager: Option<Manager<R>>,
    ) -> Process<R> {
        Process {
            host,
            life,
            pace,
            shared,
            manager,
            node: None,
            waits: [0; MOST_MANAGERS],
            has_turn: false,
        }
    }

    /// What its clock reads now.
    pub fn read(&self, now: u64) -> u64
        ensures { result ≤ MAX_TIME }
    {
        self.shared.clock.rise(self.pace.reading(now))
    }

    /// The number of its node.
    pub fn number(&self) -> Option<NodeId> {
        Some(self.node.as_ref()?.number)
    }

    /// The founding with which its manager is open.
    pub fn open_founding(&self) -> Option<u64> {
        let guard = self.shared.standing.lock(&self.shared.rt);
        let standing = &*guard;
        if standing.manager.is_some() {
            Some(standing.founding)
        } else {
            None
        }
    }

    fn note_node(&self, node: &Node) {
        let mut guard = self.shared.standing.lock(&self.shared.rt);
        let standing = &mut *guard;
        let ready = node.count_whole();
        let least_epoch = node.least_epoch();
        standing.state = state_behind(standing.state, ready, least_epoch);
        standing.shards.ready = ready;
        standing.shards.least_epoch = least_epoch;
        standing.shards.lease_end = node.least_end();
    }

    /// Looks how its node stands, and whether that is to leave. It gives whether the process goes on.
    pub fn look(&self, now: u64) -> bool {
        let reading = self.read(now);
        if let Some(node) = &self.node {
            self.note_node(node);
        }
        self.shared.look_leaving(reading);
        !self.shared.look_out()
    }

    fn part(&self, mistake: Mistake) -> Option<Part> {
        let guard = self.shared.standing.lock(&self.shared.rt);
        let standing = &*guard;
        part_of(&self.shared.identity, standing, mistake)
    }

    fn stand(&self, number: NodeId) {
        let mut guard = self.shared.standing.lock(&self.shared.rt);
        let standing = &mut *guard;
        standing.node = Some(number);
        standing.state = NodeState::Seated;
    }

    /// Makes its node, once it has a number. It gives whether it did.
    pub fn make_node(&mut self, mistake: Mistake) -> Result<bool, Memory> {
        if self.node.is_some() {
            return Ok(false);
        }
        let Some(part) = self.part(mistake) else {
            return Ok(false);
        };
        let number = part.number();
        let (alloc, managers) = (self.shared.alloc, self.shared.identity.managers());
        let first = View::first(alloc, managers)?;
        let view = match part {
            Part::Founder(_) => Some(&first),
            Part::Joiner(_) => None,
        };
        self.node = Some(Node::new(alloc, number, managers, view)?);
        self.stand(number);
        Ok(true)
    }

    fn asker(&self, asked: u64, claimed: Option<NodeId>) -> Asker {
        Asker {
            host: self.host,
            life: self.life,
            is_command: false,
            asked,
            claimed,
        }
    }

    fn report(&self, reading: u64) -> Result<Report, Memory> {
        let guard = self.shared.standing.lock(&self.shared.rt);
        let standing = &*guard;
        report_of(self.shared.alloc, &self.shared.identity, standing, reading)
    }

    // Reports to the manager of a place, where no report is on its way there.
    fn put_report(&mut self, place: u8, now: u64, sent: &mut Vec<Happening>) -> Result<(), Memory> {
        let Some(wait) = self.waits.get_mut(usize::from(place)) else {
            return Ok(());
        };
        if *wait > now {
            return Ok(());
        }
        *wait = now.saturating_add(u64::from(self.shared.identity.lease));
        let reading = self.read(now);
        sent.push(Happening::Ask {
            asker: self.asker(reading, None),
            place,
            inquiry: Inquiry::Report(self.report(reading)?),
        })?;
        Ok(())
    }

    // Its node asks the manager of a place for leases, unless it leaves.
    fn put_asks(&self, place: u8, now: u64, sent: &mut Vec<Happening>) -> Result<(), Memory> {
        let identity = &self.shared.identity;
        let Some(node) = &self.node else {
            return Ok(());
        };
        if self.shared.is_leaving() {
            return Ok(());
        }
        let (lease, skew) = (u64::from(identity.lease), u64::from(identity.skew));
        let (founding, reading) = (self.shared.founding(), self.read(now));
        for shard in 0..SHARDS {
            if let Some(parcel) = node.ask(place, shard, reading, lease, skew) {
                sent.push(Happening::Letter { founding, parcel })?;
            }
        }
        Ok(())
    }

    /// What goes out at a beat: reports, and asks for leases.
    pub fn beat(&mut self, now: u64) -> Result<Vec<Happening>, Memory> {
        let managers = self.shared.identity.managers();
        let mut sent = Vec::new(self.shared.alloc);
        for place in 0..managers {
            self.put_report(place, now, &mut sent)?;
            self.put_asks(place, now, &mut sent)?;
        }
        Ok(sent)
    }

    // Its manager is stopped for good.
    fn withdraw(&mut self) {
        let_go(self.manager.take());
        let mut guard = self.shared.standing.lock(&self.shared.rt);
        let standing = &mut *guard;
        standing.manager = None;
    }

    /// Its manager makes a turn, with letters to the nodes of these numbers. What goes out behind that is put, and it
    /// is told whether more letters may wait for it.
    pub fn turn(
        &mut self,
        now: u64,
        numbers: &[NodeId],
        sent: &mut Vec<Happening>,
    ) -> Result<bool, Memory> {
        self.has_turn = false;
        self.read(now);
        let Some(manager) = &mut self.manager else {
            return Ok(false);
        };
        manager.lead(&self.shared.rt, numbers)?;
        let turned = manager.job.turn();
        match turned {
            Ok(more) => {
                self.put_turned(now, sent)?;
                Ok(more)
            }
            Err(_) => {
                self.withdraw();
                Ok(false)
            }
        }
    }

    // What its manager answered and sent.
    fn put_turned(&mut self, now: u64, sent: &mut Vec<Happening>) -> Result<(), Memory> {
        let Some(place) = self.shared.identity.place else {
            return Ok(());
        };
        if let Some(manager) = &mut self.manager {
            manager.put_answers(&*self.shared, place, now, sent)?;
            manager.put_letters(&*self.shared, sent)?;
        }
        Ok(())
    }

    // The board of a manager came that was asked for then. Its own manager hears of it.
    fn hear(&self, place: u8, asked: u64, came: u64, board: Board) {
        let mut guard = self.shared.standing.lock(&self.shared.rt);
        let standing = &mut *guard;
        standing
            .boards
            .hear(place, HeardBoard { asked, came, board });
        standing.note_boards();
    }

    fn asks_of(&self, place: u8, reading: u64) -> Option<Inquiry> {
        let guard = self.shared.standing.lock(&self.shared.rt);
        let standing = &*guard;
        standing.asks_of(&self.shared.identity, place, reading)
    }

    // What it asks of the manager of a place beside its report, which was answered. Where that is nothing it may
    // report again.
    fn seek(&mut self, place: u8, reading: u64) -> Option<Happening> {
        let Some(inquiry) = self.asks_of(place, reading) else {
            return self.end_report(place);
        };
        let asker = self.asker(reading, claimed_by(&inquiry));
        Some(Happening::Ask {
            asker,
            place,
            inquiry,
        })
    }

    // The next report may go to the manager of a place. Nothing is asked of it beside that.
    fn end_report(&mut self, place: u8) -> Option<Happening> {
        if let Some(wait) = self.waits.get_mut(usize::from(place)) {
            *wait = 0;
        }
        None
    }

    fn take_board(&mut self, place: u8, asked: u64, now: u64, board: Board) -> Option<Happening> {
        let came = self.read(now);
        self.hear(place, asked, came, board);
        if self.manager.is_some() {
            self.shared
                .mailbox
                .put(&self.shared.rt, Coming::Told { place });
        }
        self.seek(place, came)
    }

    /// What the manager of a place answered it comes. It gives what it asks then.
    pub fn take_answer(
        &mut self,
        asker: Asker,
        place: u8,
        now: u64,
        response: Response,
    ) -> Option<Happening> {
        match response {
            Response::Board(board) => self.take_board(place, asker.asked, now, board),
            Response::Seated(number) => {
                self.take_given(number);
                self.end_report(place)
            }
            Response::No { .. } => {
                self.take_refusal(place, asker.claimed);
                self.end_report(place)
            }
            _ => self.end_report(place),
        }
    }

    // Its manager, where that is of this group.
    fn manager_of(&mut self, founding: u64) -> Option<&mut Manager<R>> {
        if self.shared.founding() == founding {
            self.manager.as_mut()
        } else {
            None
        }
    }

    /// Its manager takes a letter of a group.
    pub fn put_letter(&mut self, founding: u64, parcel: Parcel) {
        let rt = self.shared.rt;
        match self.manager_of(founding) {
            Some(manager) => manager.put(&rt, parcel),
            None => let_go(parcel),
        }
    }

    /// Its manager is asked by somebody who waits until then.
    pub fn put_ask(&mut self, asker: Asker, until: u64, inquiry: Inquiry) -> Result<(), Memory> {
        match &mut self.manager {
            Some(manager) => manager.ask(&*self.shared, asker, until, inquiry),
            None => {
                let_go(inquiry);
                Ok(())
            }
        }
    }

    /// A manager gave it a number.
    pub fn take_given(&self, number: NodeId) {
        let mut guard = self.shared.standing.lock(&self.shared.rt);
        let standing = &mut *guard;
        standing.take_given(number);
    }

    // The manager of a place refused what it claims.
    fn take_refusal(&self, place: u8, claimed: Option<NodeId>) {
        if let Some(number) = claimed {
            let mut guard = self.shared.standing.lock(&self.shared.rt);
            let standing = &mut *guard;
            standing.note_refusal(place, number);
        }
    }
}
