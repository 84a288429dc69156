//! When a manager looks at what it heard.

ghost use Rattle.std.specs.Prelude.{◌≡◌, ◌≤◌};
ghost use Rattle.hk_base.specs.declared.time.TheConstants.{MAX_TIME};
ghost use Rattle.hk_managing.specs.Looking.{stood_still, may_rest, rests_until, looked, rests};

/// When a manager looked last at what it heard, and until when it wishes nothing by that, since it stood still before.
#[derive(Clone, Copy, Debug, PartialEq, Eq)]
pub struct Looks {
    /// The reading of the last look, 0 before the first one.
    pub last: u64,
    /// The reading from which on it wishes what it has to by what it heard.
    pub rests_until: u64,
}

impl Looks {
    /// It did not look yet.
    pub fn none() -> Looks
        ensures { result ≡ record { last = 0; rests_until = 0 } }
    {
        Looks {
            last: 0,
            rests_until: 0,
        }
    }

    // Whether a quarter of a lease and more has gone by since the last look: the manager stood still itself.
    fn stood_still(&self, now: u64, lease: u32) -> bool
        ensures { result ≡ stood_still lease now self.now }
    {
        now.saturating_sub(self.last) >= u64::from(lease / 4)
    }

    // Whether the last rest is over for two leases.
    fn may_rest(&self, now: u64, lease: u32) -> bool
        ensures { result ≡ may_rest lease now self.now }
    {
        now.saturating_sub(self.rests_until) >= 2 * u64::from(lease)
    }

    fn next_rest(&self, now: u64, lease: u32) -> u64
        requires { now ≤ MAX_TIME }
        ensures { result ≡ rests_until lease now self.now }
    {
        if self.stood_still(now, lease) && self.may_rest(now, lease) {
            now + u64::from(lease / 4)
        } else {
            self.rests_until
        }
    }

    /// It looks at a reading. Where it stood still since its last look it has not heard yet of all who asked meanwhile: for
    /// a quarter of a lease it wishes nothing, but lets a view begin that was agreed. It does not rest so again before two
    /// leases have gone by, however often it stands still. A lease lasts `lease` milliseconds.
    pub fn look(&mut self, now: u64, lease: u32)
        requires { now ≤ MAX_TIME }
        ensures { self.new ≡ looked lease now self.old }
    {
        self.rests_until = self.next_rest(now, lease);
        self.last = now;
    }

    /// Whether it wishes nothing at this reading.
    pub fn rests(&self, now: u64) -> bool
        ensures { result ≡ rests now self.now }
    {
        now < self.rests_until
    }
}
