//! Connections over TCP on 127.0.0.1, that come and that are dialled.

ghost use Rattle.std.specs.Prelude.{◌≡◌, None, Some, [], refl, is_none, IfOk, IfSome};
ghost use Rattle.std.specs.List.{concat};
ghost use Rattle.hk_outside.specs.Causes.{HasCause};

use crate::dial::Dial;
use crate::doors::Doors;
use crate::notices::{tell_open, tell_port_fault, tell_take_fault};
use crate::record::Record;
use crate::stream::{Connection, Failed, Sink, Source};
use std::io::{Eprint, Read, Write};
use std::net::{Ipv4Addr, Net, OpenListener, SocketAddr, TcpListener, TcpStream};
use std::time::Duration;

// Who is dialled has so many seconds to take the connection, and then so many to take some of what is written at once.
const DIAL_SECONDS: u64 = 1;

const WRITE_SECONDS: u64 = 10;

// The address of a port of this machine.
fn address(port: u16) -> SocketAddr {
    SocketAddr::from((Ipv4Addr::new(127, 0, 0, 1), port))
}

/// A connection over TCP. It records the bytes that came and those that were taken, and can't tell what is left.
#[derive(Drop)]
pub struct TcpConnection {
    stream: TcpStream,
    read_faults: u64,
    write_faults: u64,
    given: Record,
    taken: Record,
}

impl TcpConnection {
    // A connection that has recorded nothing, and has no faults.
    fn new(stream: TcpStream) -> TcpConnection
        ensures given { result.given.pieces ≡ [] }
        ensures taken { result.taken.pieces ≡ [] }
        ensures faults { (result.read_faults ≡ 0) × (result.write_faults ≡ 0) }
    {
        // what is written leaves at once; where that can't be had, the connection is slower
        let _ = stream.set_nodelay(true);
        TcpConnection {
            stream,
            read_faults: 0,
            write_faults: 0,
            given: Record::new(),
            taken: Record::new(),
        }
    }
}

impl Source for TcpConnection {
    ghost left = { λ c. None };

    ghost given = { λ c. Some c.given.pieces };

    ghost faults = { λ c. c.read_faults };

    ghost beside = { λ c. (Some (concat c.taken.pieces), c.write_faults) };

    fn read(&mut self, room: &mut [u8]) -> Result<usize, Failed> {
        match self.stream.read(room) {
            Ok(count) => {
                self.given.note(&room[..count]);
                Ok(count)
            }
            Err(_) => {
                self.read_faults = self.read_faults.saturating_add(1);
                Err(Failed)
            }
        }
    }
}

impl Sink for TcpConnection {
    ghost held = { λ c. Some (concat c.taken.pieces) };

    ghost given = { λ c. Some c.given.pieces };

    ghost faults = { λ c. c.write_faults };

    ghost beside = { λ c. (None, c.read_faults) };

    #[tactic(auto, using(crate::proofs::Records::one_more))]
    fn write(&mut self, piece: &[u8]) -> Result<usize, Failed> {
        match self.stream.write(piece) {
            Ok(count) => {
                self.taken.note(&piece[..count]);
                if count == 0 && !piece.is_empty() {
                    self.write_faults = self.write_faults.saturating_add(1);
                }
                Ok(count)
            }
            Err(_) => {
                self.write_faults = self.write_faults.saturating_add(1);
                Err(Failed)
            }
        }
    }
}

impl Connection for TcpConnection {
    ghost read_keeps = { λ c. refl };

    ghost write_keeps = { λ c. refl };

    ghost one_record = { λ c. refl };
}

/// Doors on a port of 127.0.0.1. Where no port is open no connection comes. What becomes of the port is written on standard error, for the person who started
/// the program.
#[derive(Drop)]
pub struct TcpDoors<R: Net<Listener = TcpListener, Stream = TcpStream> + Eprint + Copy> {
    rt: R,
    listener: Option<TcpListener>,
    faults: u64,
    // Whether the last connection could not be taken.
    is_failing: bool,
}

impl<R: Net<Listener = TcpListener, Stream = TcpStream> + Eprint + Copy> TcpDoors<R> {
    pub fn new(rt: R) -> TcpDoors<R> {
        TcpDoors {
            rt,
            listener: None,
            faults: 0,
            is_failing: false,
        }
    }
}

impl<R: Net<Listener = TcpListener, Stream = TcpStream> + Eprint + Copy + Send + 'static> Doors
    for TcpDoors<R> {
    type Conn = TcpConnection;

    type Dialer = TcpDialer<R>;

    ghost left = { λ d. None };

    ghost faults = { λ d. d.faults };

    ghost closed = { λ d. is_none d.listener };

    fn open(&mut self, port: u16) -> Result<(), Failed> {
        match TcpListener::bind(&self.rt, address(port)) {
            Ok(listener) => {
                self.listener = Some(listener);
                tell_open(&self.rt, port);
                Ok(())
            }
            Err(error) => {
                self.faults = self.faults.saturating_add(1);
                tell_port_fault(&self.rt, port, &error);
                Err(Failed)
            }
        }
    }

    fn accept(&mut self) -> Result<Option<TcpConnection>, Failed>
        ensures cause { HasCause self.old.faults self.new.faults result }

        // A new connection has recorded nothing.
        ensures given { IfOk result (λ come. IfSome come (λ c. c.given.pieces ≡ [])) }
        ensures taken { IfOk result (λ come. IfSome come (λ c. c.taken.pieces ≡ [])) }
    {
        let Some(listener) = &self.listener else {
            return Ok(None);
        };
        match listener.accept() {
            Ok((stream, _)) => {
                self.is_failing = false;
                Ok(Some(TcpConnection::new(stream)))
            }
            Err(error) => {
                self.faults = self.faults.saturating_add(1);
                // told once, since the next tries fail for as long as the cause lasts
                if !self.is_failing {
                    tell_take_fault(&self.rt, &error);
                }
                self.is_failing = true;
                Err(Failed)
            }
        }
    }

    fn close(&mut self) {
        self.listener = None;
    }

    fn dialer(&self) -> TcpDialer<R> {
        TcpDialer::new(self.rt)
    }
}

// Whether a connection that was dialled met itself. The system may give who dials a port of its own range that very port as its own, and where nobody has opened it the
// two ends are one: nobody would ever read what is written, and the port's owner could not open it.
fn meets_itself(stream: &TcpStream) -> bool {
    let Ok(own) = stream.local_addr() else {
        return false;
    };
    match stream.peer_addr() {
        Ok(other) => own == other,
        Err(_) => false,
    }
}

// A connection to whoever serves this port, if one can be had in time.
fn connected<R: Net<Stream = TcpStream>>(rt: &R, port: u16) -> Option<TcpStream> {
    let stream = rt
        .connect_timeout(address(port), Duration::from_secs(DIAL_SECONDS))
        .ok()?;
    if meets_itself(&stream) {
        return None;
    }
    // where that can't be had, a write waits for as long as the other side does
    let _ = stream.set_write_timeout(Some(Duration::from_secs(WRITE_SECONDS)));
    Some(stream)
}

/// Dials the ports of 127.0.0.1. It waits a second for a connection, and a write to one waits ten: then each fails.
#[derive(Drop)]
pub struct TcpDialer<R: Net<Listener = TcpListener, Stream = TcpStream> + Copy> {
    rt: R,
    faults: u64,
}

impl<R: Net<Listener = TcpListener, Stream = TcpStream> + Copy> TcpDialer<R> {
    pub fn new(rt: R) -> TcpDialer<R> {
        TcpDialer { rt, faults: 0 }
    }
}

impl<R: Net<Listener = TcpListener, Stream = TcpStream> + Copy> Dial for TcpDialer<R> {
    type Conn = TcpConnection;

    ghost faults = { λ d. d.faults };

    fn dial(&mut self, port: u16) -> Result<TcpConnection, Failed>
        ensures cause { HasCause self.old.faults self.new.faults result }
        ensures fresh { IfOk result (λ c. (c.read_faults ≡ 0) × (c.write_faults ≡ 0)) }

        // A new connection has recorded nothing.
        ensures given { IfOk result (λ c. c.given.pieces ≡ []) }
        ensures taken { IfOk result (λ c. c.taken.pieces ≡ []) }
    {
        match connected(&self.rt, port) {
            Some(stream) => Ok(TcpConnection::new(stream)),
            None => {
                self.faults = self.faults.saturating_add(1);
                Err(Failed)
            }
        }
    }
}
