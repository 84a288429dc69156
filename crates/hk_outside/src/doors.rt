//! Doors, through which connections come.

ghost use Rattle.std.specs.Prelude.{◌≡◌, ◌↔◌, ℕ, Option, Some, length, Bool, true, false, IsErr, OnOk};
ghost use Rattle.hk_outside.specs.Causes.{HasCause};
ghost use Rattle.hk_outside.specs.Counts.{Accepts};

use crate::dial::{Dial, NoDialer};
use crate::stream::{Connection, Failed};
use std::collections::VecDeque;

/// What connections come through.
pub trait Doors {
    type Conn: Connection + Send + Drop + 'static;

    /// What connects to others.
    type Dialer: Dial + Send + Drop + 'static;

    /// How many connections are left, where the doors tell it.
    ghost left: { Self → Option ℕ };

    /// How often they failed.
    ghost faults: { Self → ℕ };

    /// Whether they are closed.
    ghost closed: { Self → Bool };

    /// Opens a port, so that connections may come.
    fn open(&mut self, port: u16) -> Result<(), Failed>
        ensures left { left self.new ≡ left self.old }
        ensures opened { OnOk result (closed self.new ≡ false) }
        ensures cause { HasCause (faults self.old) (faults self.new) result };

    /// The next connection, or none where no more come.
    fn accept(&mut self) -> Result<Option<Self::Conn>, Failed>
        ensures left { Accepts (left self.old) (left self.new) result }
        ensures cause { HasCause (faults self.old) (faults self.new) result };

    /// Closes the port: who comes from now on is refused. Connections that were taken stay.
    fn close(&mut self)
        ensures closed { closed self.new ≡ true }
        ensures left { left self.new ≡ left self.old }
        ensures faults { faults self.new ≡ faults self.old };

    /// A new dialer.
    fn dialer(&self) -> Self::Dialer;
}

/// Doors over a list of connections, which come in its order. Their dialers reach nobody.
#[derive(Drop)]
pub struct MemoryDoors<C: Drop> {
    pub conns: VecDeque<C>,
    /// Whether `open` fails.
    pub fails: bool,
    pub is_closed: bool,
    pub faults: u64,
}

impl<C: Drop> MemoryDoors<C> {
    pub fn new(conns: VecDeque<C>, fails: bool) -> MemoryDoors<C>
        ensures { result ≡ record { conns = conns; fails = fails; is_closed = false; faults = 0 } }
    {
        MemoryDoors {
            conns,
            fails,
            is_closed: false,
            faults: 0,
        }
    }
}

impl<C: Connection + Send + Drop + 'static> Doors for MemoryDoors<C> {
    type Conn = C;

    type Dialer = NoDialer<C>;

    ghost left = { λ doors. Some (length doors.conns.items) };

    ghost faults = { λ doors. doors.faults };

    ghost closed = { λ doors. doors.is_closed };

    fn open(&mut self, _port: u16) -> Result<(), Failed>
        ensures left { self.new.conns ≡ self.old.conns }
        ensures opened { OnOk result (self.new.is_closed ≡ false) }
        ensures cause { HasCause self.old.faults self.new.faults result }
        ensures fails { IsErr result ↔ (self.old.fails ≡ true) }
    {
        if self.fails {
            self.faults = self.faults.saturating_add(1);
            return Err(Failed);
        }
        self.is_closed = false;
        Ok(())
    }

    fn accept(&mut self) -> Result<Option<C>, Failed> {
        Ok(self.conns.pop_front())
    }

    fn close(&mut self) {
        self.is_closed = true;
    }

    fn dialer(&self) -> NoDialer<C> {
        NoDialer::new()
    }
}
