//! A group of three hosts in memory.

use hk_base::{Memory, Sequence};
use hk_fields::Ticket;
use hk_init::{AskHost, NoAnswer};
use hk_inside::{HostTickets, Inquiry, ManagerState, Response, Stage as ShownStage};
use hk_stage::{Board, Opening, Stage, StageAnswer, StageEvent};
use std::alloc::Global;

/// The manager of a host.
#[derive(Clone, Copy, Debug)]
pub struct FakeManager {
    pub opening: Opening,
    /// Whether it is reached.
    pub is_up: bool,
    pub lease: u32,
    /// Whether the node of its host waits.
    pub node_waits: bool,
    /// Whether it tells that all is lost.
    pub tells_lost: bool,
    /// Whether its disk was lost: it tells that it knows of no group.
    pub knows_none: bool,
}

/// Three managers that tell each other their boards while whoever asks rests.
#[derive(Drop)]
pub struct FakeGroup {
    pub alloc: Global,
    pub managers: [FakeManager; 3],
    /// The clock of all, in milliseconds.
    pub now: u64,
    /// For how long an answer is awaited.
    pub pause: u64,
    /// How often they were asked.
    pub asks: usize,
    /// From the question with this number on nobody answers: whoever asks was stopped there.
    pub cut: usize,
    /// Before the question with this number another `init` looks at all, and sends FOUND to all, with this founding.
    pub rival: Option<(usize, u64)>,
}

fn make_manager(place: u8) -> FakeManager {
    FakeManager {
        opening: Opening::begin(3, place, Stage::Empty, 1),
        is_up: true,
        lease: 1_000,
        node_waits: true,
        tells_lost: false,
        knows_none: false,
    }
}

fn ticket_of(place: usize, waits: bool) -> Ticket {
    if waits {
        Ticket([(place % 8) as u8 + 1; 16])
    } else {
        Ticket([0; 16])
    }
}

fn founding_of(stage: Stage) -> u64 {
    match stage {
        Stage::Empty => 0,
        Stage::Founded(founding) => founding,
        Stage::Open(founding) => founding,
    }
}

fn shown(stage: Stage) -> ShownStage {
    match stage {
        Stage::Empty => ShownStage::Empty,
        Stage::Founded(_) => ShownStage::Founded,
        Stage::Open(_) => ShownStage::Open,
    }
}

fn word_of(stage: Stage) -> &'static str {
    match stage {
        Stage::Empty => "empty",
        Stage::Founded(_) => "founded",
        Stage::Open(_) => "open",
    }
}

fn state_of(place: usize, manager: &FakeManager, stage: Stage) -> ManagerState {
    ManagerState {
        founding: founding_of(stage),
        stage: shown(stage),
        place: (place % 8) as u8,
        tickets: HostTickets {
            manager: ticket_of(place, true),
            node: ticket_of(place, manager.node_waits),
        },
        lease: manager.lease,
        skew: 10,
    }
}

fn status_of(alloc: Global, manager: &FakeManager) -> Result<Sequence<u8>, Memory> {
    let stage = manager.opening.stage;
    let founding = founding_of(stage);
    let word = word_of(stage);
    let last = if manager.tells_lost { "lost\n" } else { "" };
    let text = if manager.knows_none {
        format!(in alloc; "group g founding=- stage={word} lease=1000 skew=10\n{last}")?
    } else {
        format!(in alloc;
            "group g founding={founding:016x} stage={word} lease=1000 skew=10\n{last}"
        )?
    };
    let bytes = text.as_bytes().to_vec(alloc)?;
    Ok(Sequence::from_vec(bytes))
}

fn response_of(
    alloc: Global,
    place: usize,
    manager: &FakeManager,
    answer: Option<StageAnswer>,
) -> Result<Response, NoAnswer> {
    match answer {
        Some(StageAnswer::State(stage)) => Ok(Response::State(state_of(place, manager, stage))),
        Some(StageAnswer::Yes) => Ok(Response::Yes),
        Some(StageAnswer::No(refusal)) => {
            let Ok(text) = format!(in alloc; "{refusal}") else {
                return Err(NoAnswer::Memory);
            };
            let Ok(bytes) = text.as_bytes().to_vec(alloc) else {
                return Err(NoAnswer::Memory);
            };
            Ok(Response::No {
                code: refusal.code(),
                text: Sequence::from_vec(bytes),
            })
        }
        None => Err(NoAnswer::Silent),
    }
}

impl FakeGroup {
    /// Three managers that were never founded and reached each other for a while.
    pub fn new(alloc: Global) -> FakeGroup {
        FakeGroup {
            alloc,
            managers: [make_manager(0), make_manager(1), make_manager(2)],
            now: 20_000,
            pause: 1,
            asks: 0,
            cut: usize::MAX,
            rival: None,
        }
    }

    fn step(&mut self, place: usize, happens: StageEvent) -> Option<StageAnswer> {
        let now = self.now.min(1_000_000);
        if place >= 3 {
            return None;
        }
        let manager = self.managers[place];
        if !manager.is_up {
            return None;
        }
        let step = manager.opening.step(now, happens);
        self.managers[place] = FakeManager {
            opening: step.opening,
            ..manager
        };
        step.answer
    }

    // Another `init` does all at once.
    fn found_by_rival(&mut self, founding: u64) {
        for place in 0..3_usize {
            let _ = self.step(place, StageEvent::Look(founding));
        }
        for place in 0..3_usize {
            let _ = self.step(place, StageEvent::Found(founding));
        }
    }

    /// Time goes by, and then each manager that is up asks each other one for its board.
    pub fn beat(&mut self, millis: u64) {
        self.now = self.now.saturating_add(millis);
        for from in 0..3_usize {
            let manager = self.managers[from];
            let board = Board {
                from: from as u8,
                stage: manager.opening.shown(self.now),
                asked: self.now,
            };
            if manager.is_up {
                for to in 0..3_usize {
                    let _ = self.step(to, StageEvent::Told(board));
                }
            }
        }
    }

    /// How many are open with this founding, and how many with another one.
    pub fn open_with(&self, founding: u64) -> (usize, usize) {
        let mut these = 0;
        let mut others = 0;
        for place in 0..3_usize {
            match self.managers[place].opening.stage {
                Stage::Open(own) if own == founding => these = (these % 3) + 1,
                Stage::Open(_) => others = (others % 3) + 1,
                _ => {}
            }
        }
        (these, others)
    }

    fn told(&mut self, place: usize, inquiry: &Inquiry) -> Result<Response, NoAnswer> {
        if place >= 3 || !self.managers[place].is_up {
            return Err(NoAnswer::Silent);
        }
        let alloc = self.alloc;
        let answer = match inquiry {
            Inquiry::Look { founding } => self.step(place, StageEvent::Look(*founding)),
            Inquiry::Found { founding, .. } => self.step(place, StageEvent::Found(*founding)),
            Inquiry::Status => {
                return match status_of(alloc, &self.managers[place]) {
                    Ok(text) => Ok(Response::Status(text)),
                    Err(_) => Err(NoAnswer::Memory),
                };
            }
            _ => None,
        };
        response_of(alloc, place, &self.managers[place], answer)
    }
}

impl AskHost for FakeGroup {
    fn ask(&mut self, place: usize, inquiry: &Inquiry) -> Result<Response, NoAnswer> {
        self.now = self.now.saturating_add(self.pause);
        if let Some((number, founding)) = self.rival {
            if number == self.asks {
                self.found_by_rival(founding);
            }
        }
        if self.asks >= self.cut {
            return Err(NoAnswer::Silent);
        }
        self.asks = self.asks.saturating_add(1);
        self.told(place, inquiry)
    }

    fn read_clock(&mut self) -> u64 {
        self.now
    }

    fn rest(&mut self, millis: u64) {
        self.beat(millis);
    }
}
