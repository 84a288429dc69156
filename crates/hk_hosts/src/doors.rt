//! Doors at an address, through which connections come.

ghost use Rattle.std.specs.Prelude.{◌≡◌, ◌↔◌, ◌≤◌, ℕ, Option, Some, None, length, is_none, Bool, true, false, IsErr, OnOk};
ghost use Rattle.hk_outside.specs.Causes.{HasCause, Rose};
ghost use Rattle.hk_outside.specs.Counts.{Accepts};

use crate::address::Address;
use crate::conn::{HostConnection, Patient};
use hk_outside::{Failed, MemoryDoors};
use std::alloc::Global;
use std::net::{Net, TcpListener, TcpStream, ToSocketAddrs};

/// What connections come through.
pub trait DoorsAt {
    type Conn: Patient + Send + Drop + 'static;

    /// How many connections are left, where the doors tell it.
    ghost left: { Self → Option ℕ };

    /// How often they failed.
    ghost faults: { Self → ℕ };

    /// Whether they are closed.
    ghost closed: { Self → Bool };

    /// Opens the port of an address of this machine, so that connections may come.
    fn open(&mut self, address: &Address) -> Result<(), Failed>
        ensures left { left self.new ≡ left self.old }
        ensures opened { OnOk result (closed self.new ≡ false) }
        ensures cause { HasCause (faults self.old) (faults self.new) result };

    /// The next connection, or none where no more come.
    fn accept(&mut self) -> Result<Option<Self::Conn>, Failed>
        ensures left { Accepts (left self.old) (left self.new) result }
        ensures cause { HasCause (faults self.old) (faults self.new) result };

    /// Closes the port: who comes from now on is refused. Connections that were taken stay.
    fn close(&mut self)
        ensures closed { closed self.new ≡ true }
        ensures left { left self.new ≡ left self.old }
        ensures faults { faults self.new ≡ faults self.old };
}

impl<C: Patient + Send + Drop + 'static> DoorsAt for MemoryDoors<C> {
    type Conn = C;

    ghost left = { λ doors. Some (length doors.conns.items) };

    ghost faults = { λ doors. doors.faults };

    ghost closed = { λ doors. doors.is_closed };

    fn open(&mut self, _address: &Address) -> Result<(), Failed>
        ensures left { self.new.conns ≡ self.old.conns }
        ensures opened { OnOk result (self.new.is_closed ≡ false) }
        ensures cause { HasCause self.old.faults self.new.faults result }
        ensures fails { IsErr result ↔ (self.old.fails ≡ true) }
    {
        if self.fails {
            self.faults = self.faults.saturating_add(1);
            return Err(Failed);
        }
        self.is_closed = false;
        Ok(())
    }

    fn accept(&mut self) -> Result<Option<C>, Failed> {
        Ok(self.conns.pop_front())
    }

    fn close(&mut self) {
        self.is_closed = true;
    }
}

/// Doors over TCP. Where no port is open no connection comes.
#[derive(Drop)]
pub struct HostDoors<R: Net<Listener = TcpListener, Stream = TcpStream> + Copy> {
    rt: R,
    alloc: Global,
    listener: Option<TcpListener>,
    faults: u64,
}

impl<R: Net<Listener = TcpListener, Stream = TcpStream> + Copy> HostDoors<R> {
    pub fn new(rt: R, alloc: Global) -> HostDoors<R> {
        HostDoors {
            rt,
            alloc,
            listener: None,
            faults: 0,
        }
    }

    fn fail(&mut self) -> Failed
        ensures rose { Rose self.old.faults self.new.faults }
        ensures later { self.old.faults ≤ self.new.faults }
        ensures listener { self.new.listener ≡ self.old.listener }
    {
        self.faults = self.faults.saturating_add(1);
        Failed
    }
}

// Opens the first of these ports that can be opened. As many clients as the system allows may wait for `accept`: of a hundred that come at once the last would else try again a
// second later.
fn bound<R: Net<Listener = TcpListener, Stream = TcpStream>>(
    rt: &R,
    address: &Address,
) -> Option<TcpListener> {
    let mut addrs = (address.bare_host()?, address.port)
        .to_socket_addrs(rt)
        .ok()?;
    let listener = addrs.find_map(|addr| mio::net::TcpListener::bind(rt, addr).ok())?;
    let listener = TcpListener::from(listener);
    listener.set_nonblocking(false).ok()?;
    Some(listener)
}

impl<R: Net<Listener = TcpListener, Stream = TcpStream> + Copy> DoorsAt for HostDoors<R> {
    type Conn = HostConnection;

    ghost left = { λ d. None };

    ghost faults = { λ d. d.faults };

    ghost closed = { λ d. is_none d.listener };

    fn open(&mut self, address: &Address) -> Result<(), Failed> {
        match bound(&self.rt, address) {
            Some(listener) => {
                self.listener = Some(listener);
                Ok(())
            }
            None => Err(self.fail()),
        }
    }

    fn accept(&mut self) -> Result<Option<HostConnection>, Failed> {
        let Some(listener) = &self.listener else {
            return Ok(None);
        };
        let Ok((stream, _)) = listener.accept() else {
            return Err(self.fail());
        };
        match HostConnection::new(self.alloc, stream) {
            Ok(conn) => Ok(Some(conn)),
            Err(_) => Err(self.fail()),
        }
    }

    fn close(&mut self) {
        self.listener = None;
    }
}
