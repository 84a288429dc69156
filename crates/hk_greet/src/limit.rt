//! How long a message is waited for.

ghost use Rattle.std.specs.Prelude.{◌≡◌, true, ⊤};

use crate::buffered::Buffered;
use hk_hosts::Patient;
use hk_outside::{Clock, Connection};

/// A greeting has so many milliseconds from its beginning.
pub const HELLO_MILLIS: u64 = 2_000;

// Ends a wait.
pub trait Limit<C: Connection> {
    // What is so where it does.
    ghost may_end: { Type 0 };

    // Whether no time is left. Else a call of the connection waits no longer than there is.
    fn is_over(&self, conn: &Buffered<C>) -> bool
        ensures { result ≡ true → may_end };
}

// A wait lasts as long as the connection's own limits let it.
#[derive(Clone, Copy)]
pub struct Unlimited;

impl<C: Connection> Limit<C> for Unlimited {
    ghost may_end = { ⊥ };

    fn is_over(&self, _conn: &Buffered<C>) -> bool {
        false
    }
}

// A wait lasts until a time.
#[derive(Drop)]
pub struct Deadline<'a, T> {
    clock: &'a T,
    end: u64,
}

impl<'a, T: Clock> Deadline<'a, T> {
    // The end of a greeting that begins now.
    pub fn of_greeting(clock: &'a T) -> Deadline<'a, T> {
        Deadline {
            clock,
            end: clock.now().saturating_add(HELLO_MILLIS),
        }
    }
}

impl<'a, C: Patient, T: Clock> Limit<C> for Deadline<'a, T> {
    ghost may_end = { ⊤ };

    fn is_over(&self, conn: &Buffered<C>) -> bool {
        let left = self.end.saturating_sub(self.clock.now());
        if left == 0 {
            return true;
        }
        conn.wait_at_most(left, left);
        false
    }
}
