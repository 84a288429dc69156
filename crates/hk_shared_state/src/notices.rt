//! When a refusal is told, and who is gone or back.

ghost use Rattle.std.specs.Prelude.{◌≡◌, None};
ghost use Rattle.hk_shared_state.specs.Notices.{since, is_minute_past, is_due, refused_by, taken_by, is_gone, is_over, missed_by};

// A refusal is told again after so many milliseconds.
const MINUTE: u64 = 60_000;

/// For how long somebody is refused, and when that was told last. Readings are in milliseconds on the clock of the process.
#[derive(Clone, Copy, Debug, PartialEq, Eq)]
pub struct Told {
    // The reading at the first refusal behind which nothing else came.
    since: Option<u64>,
    // The reading at which it was told last.
    at: Option<u64>,
}

// From when on somebody is refused who is refused now.
fn since(first: Option<u64>, now: u64) -> u64
    ensures { result ≡ since first now }
{
    match first {
        Some(first) => first,
        None => now,
    }
}

// Whether it was not told within a minute.
fn is_minute_past(at: Option<u64>, now: u64) -> bool
    ensures { result ≡ is_minute_past at now }
{
    match at {
        Some(at) => now.saturating_sub(at) >= MINUTE,
        None => true,
    }
}

impl Told {
    /// Nobody was refused yet, and nothing told.
    pub fn new() -> Told
        ensures since { result.since ≡ None }
        ensures at { result.at ≡ None }
    {
        Told {
            since: None,
            at: None,
        }
    }

    // Whether a refusal of now is to be told.
    fn is_due(&self, lease: u32, now: u64) -> bool
        ensures { result ≡ is_due lease now self.now }
    {
        let lasts = now.saturating_sub(since(self.since, now)) >= u64::from(lease);
        lasts && is_minute_past(self.at, now)
    }

    /// A refusal came, and whether it is to be told: where there were only refusals for a lease, of so many milliseconds, and
    /// once a minute.
    pub fn refused(&mut self, lease: u32, now: u64) -> bool
        ensures due { result ≡ is_due lease now self.old }
        ensures new { self.new ≡ refused_by lease now self.old }
    {
        let is_due = self.is_due(lease, now);
        self.since = Some(since(self.since, now));
        if is_due {
            self.at = Some(now);
        }
        is_due
    }

    /// Something else came than a refusal: an answer, or nothing.
    pub fn taken(&mut self)
        ensures { self.new ≡ taken_by self.old }
    {
        self.since = None;
    }
}

/// Whether something is there that shows at times, as a manager by its answers. Readings are in milliseconds on the
/// clock of the process.
#[derive(Clone, Copy, Debug, PartialEq, Eq)]
pub enum Presence {
    /// It never showed.
    Unseen,
    /// It showed at this reading, the last one.
    There { at: u64 },
    /// It has not shown for long.
    Gone,
}

impl Presence {
    fn is_gone(&self) -> bool
        ensures { result ≡ is_gone self.now }
    {
        matches!(self, Presence::Gone)
    }

    // Whether it was there, and has not shown for so many milliseconds.
    fn is_over(&self, within: u64, now: u64) -> bool
        ensures { result ≡ is_over within now self.now }
    {
        match self {
            Presence::Unseen => false,
            Presence::There { at } => now.saturating_sub(*at) >= within,
            Presence::Gone => false,
        }
    }

    /// It shows at this reading. Whether it was gone, and is back.
    pub fn shows(&mut self, now: u64) -> bool
        ensures back { result ≡ is_gone self.old }
        ensures new { self.new ≡ Presence.There now }
    {
        let was_gone = self.is_gone();
        *self = Presence::There { at: now };
        was_gone
    }

    /// It does not show at this reading. Whether it is gone from now on: it was there, and has not shown for so many
    /// milliseconds.
    pub fn misses(&mut self, within: u64, now: u64) -> bool
        ensures gone { result ≡ is_over within now self.old }
        ensures new { self.new ≡ missed_by within now self.old }
    {
        let is_over = self.is_over(within, now);
        if is_over {
            *self = Presence::Gone;
        }
        is_over
    }
}
