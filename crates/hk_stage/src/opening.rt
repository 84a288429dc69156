//! A manager on its way to be open.

ghost use Rattle.std.specs.Prelude.{◌≡◌, ◌≤◌};
ghost use Rattle.hk_base.specs.declared.time.TheConstants.{MAX_TIME};
ghost use Rattle.hk_stage.specs.Opening.{begun, reserved_for, rival, against, same, refused, only_itself, opens, opened, opened_if_told, looked, founded, found, with_told, heard, may_open, stepped, shown, takes_letters};

use crate::event::{Board, Logged, StageAnswer, StageEvent, StageRefusal};
use crate::stage::Stage;

/// How many managers there are at most.
const MANY: usize = 9;

/// For how many milliseconds a manager is reserved, and for how long after its start it opens by no board: as long as it may have been reserved before.
pub const RESERVED_FOR: u64 = 10_000;

/// The founding for which a manager is reserved, and up to which reading it is.
#[derive(Clone, Copy, Debug, PartialEq, Eq)]
pub struct Reservation {
    pub founding: u64,
    /// The first reading at which it is not reserved any more.
    pub end: u64,
}

/// What a manager knows of the founding of its group.
#[derive(Clone, Copy, Debug, PartialEq, Eq)]
pub struct Opening {
    /// How many managers there are, 1 to 9.
    pub managers: u8,
    /// Which of them this one is, counted from 0.
    pub place: u8,
    pub stage: Stage,
    /// The last reservation.
    pub reservation: Option<Reservation>,
    /// The reading 10 s behind the start of its process.
    pub ready: u64,
    /// Boards count that were asked for behind this reading.
    pub since: u64,
    /// Who told the founding by such a board. It counts as having told itself.
    pub told: [bool; 9],
}

/// What an event makes of an opening.
#[derive(Clone, Copy, Debug, PartialEq, Eq)]
pub struct OpeningStep {
    pub opening: Opening,
    /// The answer to a request.
    pub answer: Option<StageAnswer>,
    pub logged: Logged,
}

// Of all managers, this one alone.
fn only_itself(place: u8) -> [bool; 9]
    ensures { result ≡ only_itself place }
{
    let mut told = [false; MANY];
    if (place as usize) < MANY {
        told[place as usize] = true;
    }
    told
}

// Nothing happens, or nothing but an answer.
fn same(opening: &Opening, answer: Option<StageAnswer>) -> OpeningStep
    ensures { result ≡ same opening.now answer }
{
    OpeningStep {
        opening: *opening,
        answer,
        logged: Logged {
            founded: None,
            opened: false,
        },
    }
}

fn refused(opening: &Opening, refusal: StageRefusal) -> OpeningStep
    ensures { result ≡ refused opening.now refusal }
{
    same(opening, Some(StageAnswer::No(refusal)))
}

// It opens, for good.
fn opened(founding: u64, step: OpeningStep) -> OpeningStep
    ensures { result ≡ opened founding step }
{
    let opening = Opening {
        stage: Stage::Open(founding),
        ..step.opening
    };
    let logged = Logged {
        opened: true,
        ..step.logged
    };
    OpeningStep {
        opening,
        logged,
        ..step
    }
}

fn opened_if_told(founding: u64, step: OpeningStep) -> OpeningStep
    ensures { result ≡ opened_if_told founding step }
{
    if step.opening.all_told() {
        opened(founding, step)
    } else {
        step
    }
}

fn rival(reserved: Option<u64>, founding: u64) -> Option<StageRefusal>
    ensures { result ≡ rival reserved founding }
{
    match reserved {
        Some(other) => {
            if other == founding {
                None
            } else {
                Some(StageRefusal::AnotherInit)
            }
        }
        None => None,
    }
}

impl Opening {
    /// How a manager begins whose log tells this stage, at the first reading of its process.
    pub fn begin(managers: u8, place: u8, stage: Stage, now: u64) -> Opening
        requires { now ≤ MAX_TIME }
        ensures { result ≡ begun managers place stage now }
    {
        Opening {
            managers,
            place,
            stage,
            reservation: None,
            ready: now + RESERVED_FOR,
            since: now + RESERVED_FOR,
            told: only_itself(place),
        }
    }

    /// The founding for which it is reserved, if it is.
    pub fn reserved_for(&self, now: u64) -> Option<u64>
        ensures { result ≡ reserved_for self.now now }
    {
        match self.reservation {
            Some(reservation) => {
                if now < reservation.end {
                    Some(reservation.founding)
                } else {
                    None
                }
            }
            None => None,
        }
    }

    /// The stage that its own board tells: 0 while it is reserved.
    pub fn shown(&self, now: u64) -> Stage
        ensures { result ≡ shown self.now now }
    {
        match self.reserved_for(now) {
            Some(_) => Stage::Empty,
            None => self.stage,
        }
    }

    /// Whether the manager takes letters and sends them.
    pub fn takes_letters(&self) -> bool
        ensures { result ≡ takes_letters self.now }
    {
        self.stage.is_open()
    }

    // What stands against a founding.
    fn against(&self, now: u64, founding: u64) -> Option<StageRefusal>
        ensures { result ≡ against self.now.stage (reserved_for self.now now) founding }
    {
        match self.stage {
            Stage::Open(living) => Some(StageRefusal::Lives(living)),
            Stage::Empty => rival(self.reserved_for(now), founding),
            Stage::Founded(_) => rival(self.reserved_for(now), founding),
        }
    }

    fn all_told(&self) -> bool
        ensures { result ≡ opens self.now }
    {
        self.told
            .iter()
            .take(self.managers as usize)
            .all(|told| *told)
    }

    // LOOK: it is reserved where nothing stands against it.
    fn looked(&self, now: u64, founding: u64) -> OpeningStep
        requires { now ≤ MAX_TIME }
        ensures { result ≡ looked self.now now founding }
    {
        if let Some(refusal) = self.against(now, founding) {
            return refused(self, refusal);
        }
        let end = now + RESERVED_FOR;
        let opening = Opening {
            reservation: Some(Reservation { founding, end }),
            since: end,
            told: only_itself(self.place),
            ..*self
        };
        same(&opening, Some(StageAnswer::State(self.stage)))
    }

    // It is founded, which ends its reservation.
    fn founded(&self, now: u64, founding: u64) -> OpeningStep
        ensures { result ≡ founded self.now now founding }
    {
        let opening = Opening {
            stage: Stage::Founded(founding),
            reservation: None,
            since: now.max(self.ready),
            told: only_itself(self.place),
            ..*self
        };
        let logged = Logged {
            founded: Some(founding),
            opened: false,
        };
        let step = OpeningStep {
            opening,
            answer: Some(StageAnswer::Yes),
            logged,
        };
        opened_if_told(founding, step)
    }

    // FOUND: it is founded while it is reserved for just this founding.
    fn found(&self, now: u64, founding: u64) -> OpeningStep
        ensures { result ≡ found self.now now founding }
    {
        if let Some(refusal) = self.against(now, founding) {
            return refused(self, refusal);
        }
        match self.reserved_for(now) {
            Some(_) => self.founded(now, founding),
            None => refused(self, StageRefusal::Wait),
        }
    }

    fn with_told(&self, from: u8) -> Opening
        ensures { result ≡ with_told self.now from }
    {
        let mut told = self.told;
        if (from as usize) < MANY {
            told[from as usize] = true;
        }
        Opening { told, ..*self }
    }

    // A board, where it is founded so and not reserved.
    fn heard(&self, founding: u64, board: Board) -> OpeningStep
        ensures { result ≡ heard founding self.now board board.stage }
    {
        match board.stage {
            Stage::Empty => same(self, None),
            Stage::Founded(other) => {
                if other == founding && self.since < board.asked {
                    let opening = self.with_told(board.from);
                    opened_if_told(founding, same(&opening, None))
                } else {
                    same(self, None)
                }
            }
            Stage::Open(other) => {
                if other == founding {
                    opened(founding, same(self, None))
                } else {
                    same(self, None)
                }
            }
        }
    }

    // The founding to which it may open: it is founded so, and not reserved.
    fn may_open(&self, now: u64) -> Option<u64>
        ensures { result ≡ may_open self.now now }
    {
        match (self.stage, self.reserved_for(now)) {
            (Stage::Founded(founding), None) => Some(founding),
            _ => None,
        }
    }

    /// What the event makes of it at this reading, in milliseconds. Where the log does not take what the step logs, the step is not taken.
    pub fn step(&self, now: u64, event: StageEvent) -> OpeningStep
        requires { now ≤ MAX_TIME }
        ensures { result ≡ stepped self.now now event }
    {
        match event {
            StageEvent::Look(founding) => self.looked(now, founding),
            StageEvent::Found(founding) => self.found(now, founding),
            StageEvent::Told(board) => match self.may_open(now) {
                Some(founding) => self.heard(founding, board),
                None => same(self, None),
            },
            StageEvent::Tick => match self.may_open(now) {
                Some(founding) => opened_if_told(founding, same(self, None)),
                None => same(self, None),
            },
        }
    }
}
