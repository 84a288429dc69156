//! When a majority of the managers answers.

ghost use Rattle.std.specs.Prelude.{◌≡◌, ◌≤◌};
ghost use Rattle.hk_base.specs.declared.time.TheConstants.{MAX_TIME};
ghost use Rattle.hk_managing.specs.Answering.{pause, wishes_from, heard, may_wish};

/// Whoever could not reach a host tries again after so many milliseconds at most.
pub const FIRST_WISH: u64 = 1_000;

/// So many beats more a manager lets pass before it wishes anything, in which it hears of who lives.
pub const FIRST_BEATS: u64 = 4;

/// Whether a majority of the managers answers this one. One that was cut off has not heard of who lives: once a majority answers again, whoever could not reach its host
/// meanwhile has to have tried again before it wishes anything. Pauses between tries are no longer than those before took together, so it waits for as long as it was cut
/// off, a second at most.
#[derive(Clone, Copy, Debug, PartialEq, Eq)]
pub enum Answers {
    /// No majority does.
    Silent {
        /// Since this reading, None where none did since the process began.
        since: Option<u64>,
        /// Before this reading nothing is wished, also where one answers again.
        not_before: u64,
    },
    /// A majority does.
    Answering {
        /// From this reading on it may wish.
        wishes_from: u64,
    },
}

fn pause(now: u64, since: Option<u64>) -> u64
    ensures exact { result ≡ pause now since }
    ensures most { result ≤ 1000 }
{
    match since {
        None => FIRST_WISH,
        Some(since) => FIRST_WISH.min(now.saturating_sub(since)),
    }
}

fn wishes_from(beat: u64, now: u64, since: Option<u64>, not_before: u64) -> u64
    requires now { now ≤ MAX_TIME }
    requires beat { beat ≤ MAX_TIME }
    ensures { result ≡ wishes_from beat now since not_before }
{
    not_before.max(now + pause(now, since) + FIRST_BEATS * beat)
}

impl Answers {
    /// None did since the process began.
    pub fn none() -> Answers
        ensures { result ≡ Answers.Silent None 0 }
    {
        Answers::Silent {
            since: None,
            not_before: 0,
        }
    }

    /// It looks at a reading: a majority answered what was asked within the last half of a lease, or not. A lease lasts `lease` milliseconds, a beat `beat`.
    pub fn hear(&mut self, lease: u32, beat: u64, now: u64, answered: bool)
        requires now { now ≤ MAX_TIME }
        requires beat { beat ≤ MAX_TIME }
        ensures { self.new ≡ heard lease beat now answered self.old }
    {
        *self = match *self {
            Answers::Silent { since, not_before } if answered => Answers::Answering {
                wishes_from: wishes_from(beat, now, since, not_before),
            },
            Answers::Answering { wishes_from } if !answered => Answers::Silent {
                since: Some(now.saturating_sub(u64::from(lease / 2))),
                not_before: wishes_from,
            },
            same => same,
        };
    }

    /// Whether it may wish at this reading.
    pub fn may_wish(&self, now: u64) -> bool
        ensures { result ≡ may_wish now self.now }
    {
        match self {
            Answers::Silent { .. } => false,
            Answers::Answering { wishes_from } => *wishes_from <= now,
        }
    }
}
