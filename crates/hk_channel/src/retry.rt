//! When somebody is tried again who was not reached.

ghost use Rattle.std.specs.Prelude.{◌≡◌};
ghost use Rattle.hk_channel.specs.Retrying.{at_once, is_due, in_vain, after_all};

/// When somebody may be tried: at once; behind a try in vain after a pause, which is twice as long behind each further
/// one, up to a second.
#[derive(Clone, Copy, Debug)]
pub struct Retry {
    // The pause behind the first try in vain, in milliseconds.
    least: u64,
    // The pause behind the next one.
    pause: u64,
    // The reading at which the last pause is over.
    due_at: u64,
}

// The longest pause, in milliseconds.
const MOST_PAUSE: u64 = 1_000;

impl Retry {
    /// Nobody was tried yet. The first pause is of so many milliseconds, a second at most.
    pub fn new(least: u64) -> Retry
        ensures { result ≡ at_once least }
    {
        let least = least.min(MOST_PAUSE);
        Retry {
            least,
            pause: least,
            due_at: 0,
        }
    }

    /// Whether one may try at this reading.
    pub fn is_due(&self, now: u64) -> bool
        ensures { result ≡ is_due self.now now }
    {
        self.due_at <= now
    }

    /// It was tried in vain at this reading.
    pub fn failed(&mut self, now: u64)
        ensures { self.new ≡ in_vain now self.old }
    {
        self.due_at = now.saturating_add(self.pause);
        self.pause = self.pause.saturating_mul(2).min(MOST_PAUSE);
    }

    /// It went well: one may try at once, and the pauses begin anew.
    pub fn went_well(&mut self)
        ensures { self.new ≡ after_all self.old }
    {
        self.pause = self.least;
        self.due_at = 0;
    }
}
