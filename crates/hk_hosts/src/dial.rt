//! Dialling: connections to the addresses of others.

ghost use Rattle.std.specs.Prelude.{◌≡◌, ℕ, List, [], Option, None, IfOk};
ghost use Rattle.hk_outside.specs.Causes.{HasCause};
ghost use Rattle.hk_hosts.specs.declared.address.Address.{Address};
ghost use Rattle.hk_hosts.specs.Dialling.{DialsAt};

use crate::address::Address;
use crate::conn::{HostConnection, Patient};
use hk_outside::{Dial, Failed, MemoryConnection, MemoryDialer};
use std::alloc::Global;
use std::net::{Net, SocketAddr, TcpListener, TcpStream, ToSocketAddrs};
use std::time::Duration;

/// Connects to addresses.
pub trait DialAt {
    type Conn: Patient + Send + Drop + 'static;

    /// How often it failed.
    ghost faults: { Self → ℕ };

    /// The addresses that it was asked for, in their order, where the dialer tells them.
    ghost addresses: { Self → Option (List Address) } = { λ _. None };

    /// A new connection to whoever serves this address, in so many milliseconds at most; to look a name up may take longer.
    /// It has no faults yet.
    fn dial(&mut self, address: &Address, limit: u64) -> Result<Self::Conn, Failed>
        ensures address { DialsAt (addresses self.old) (addresses self.new) address.now }
        ensures cause { HasCause (faults self.old) (faults self.new) result }
        ensures fresh { IfOk result (λ conn. (Self.Conn.Source.faults conn ≡ 0) × (Self.Conn.Sink.faults conn ≡ 0)) };
}

impl DialAt for MemoryDialer {
    type Conn = MemoryConnection;

    ghost faults = { λ dialer. dialer.faults };

    fn dial(&mut self, address: &Address, _limit: u64) -> Result<MemoryConnection, Failed> {
        Dial::dial(self, address.port)
    }
}

/// Dials over TCP.
#[derive(Drop)]
pub struct HostDialer<R: Net<Listener = TcpListener, Stream = TcpStream> + Copy> {
    rt: R,
    alloc: Global,
    faults: u64,
}

// Of a name's addresses so many are tried, and each for its part of the time.
const TRIES: u64 = 2;

impl<R: Net<Listener = TcpListener, Stream = TcpStream> + Copy> HostDialer<R> {
    pub fn new(rt: R, alloc: Global) -> HostDialer<R> {
        HostDialer {
            rt,
            alloc,
            faults: 0,
        }
    }
}

// Whether a connection that was dialled met itself. The system may give who dials a port of its own range that very port as
// its own, and where nobody has opened it the two ends are one.
fn meets_itself(stream: &TcpStream) -> bool {
    let Ok(own) = stream.local_addr() else {
        return false;
    };
    match stream.peer_addr() {
        Ok(other) => own == other,
        Err(_) => false,
    }
}

// A stream to an address of the system, if one can be had in time.
fn reached<R: Net<Stream = TcpStream>>(
    rt: &R,
    address: SocketAddr,
    limit: u64,
) -> Option<TcpStream> {
    let stream = rt
        .connect_timeout(address, Duration::from_millis((limit / TRIES).max(1)))
        .ok()?;
    if meets_itself(&stream) {
        return None;
    }
    Some(stream)
}

// A stream to whoever serves an address, if one can be had in time.
fn connected<R: Net<Stream = TcpStream>>(
    rt: &R,
    address: &Address,
    limit: u64,
) -> Option<TcpStream> {
    let found = (address.bare_host()?, address.port)
        .to_socket_addrs(rt)
        .ok()?;
    for place in found.take(TRIES as usize) {
        let stream = reached(rt, place, limit);
        if stream.is_some() {
            return stream;
        }
    }
    None
}

impl<R: Net<Listener = TcpListener, Stream = TcpStream> + Copy> DialAt for HostDialer<R> {
    type Conn = HostConnection;

    ghost faults = { λ dialer. dialer.faults };

    fn dial(&mut self, address: &Address, limit: u64) -> Result<HostConnection, Failed> {
        if let Some(stream) = connected(&self.rt, address, limit) {
            if let Ok(conn) = HostConnection::new(self.alloc, stream) {
                return Ok(conn);
            }
        }
        self.faults = self.faults.saturating_add(1);
        Err(Failed)
    }
}
