//! Dialling: connections to the ports of others.

ghost use Rattle.std.specs.Prelude.{◌≡◌, ℕ, List, Option, None, IfOk};
ghost use Rattle.hk_outside.specs.Causes.{HasCause};
ghost use Rattle.hk_outside.specs.Dialling.{Dials};

use crate::memory::{MemoryConnection, MemorySink, MemorySource};
use crate::stream::{Connection, Failed, Sink, Source};
use std::alloc::Global;
use std::collections::VecDeque;
use std::marker::PhantomData;

/// Connects to ports.
pub trait Dial {
    type Conn: Connection + Send + Drop + 'static;

    /// How often it failed.
    ghost faults: { Self → ℕ };

    /// The ports that it was asked for, in their order, where the dialer tells them.
    ghost ports: { Self → Option (List ℕ) } = { λ _. None };

    /// A new connection to whoever serves this port. It has no faults yet.
    fn dial(&mut self, port: u16) -> Result<Self::Conn, Failed>
        ensures port { Dials (ports self.old) (ports self.new) port }
        ensures cause { HasCause (faults self.old) (faults self.new) result }
        ensures fresh { IfOk result (λ conn. (Self.Conn.Source.faults conn ≡ 0) × (Self.Conn.Sink.faults conn ≡ 0)) };
}

/// Reaches nobody: each call fails.
#[derive(Drop)]
pub struct NoDialer<C> {
    pub faults: u64,
    of: PhantomData<C>,
}

impl<C> NoDialer<C> {
    pub fn new() -> NoDialer<C>
        ensures { result.faults ≡ 0 }
    {
        NoDialer {
            faults: 0,
            of: PhantomData,
        }
    }
}

impl<C: Connection + Send + Drop + 'static> Dial for NoDialer<C> {
    type Conn = C;

    ghost faults = { λ dialer. dialer.faults };

    fn dial(&mut self, _port: u16) -> Result<C, Failed> {
        self.faults = self.faults.saturating_add(1);
        Err(Failed)
    }
}

/// Dials in memory. Nothing is to be read from its connections, and each records what is written to it.
#[derive(Drop)]
pub struct MemoryDialer {
    alloc: Global,
    /// For each connection that can still be had, in their order, the numbers of its writes that fail, counted from 0.
    pub conns: VecDeque<Vec<u64>>,
    pub faults: u64,
}

impl MemoryDialer {
    pub fn new(alloc: Global, conns: VecDeque<Vec<u64>>) -> MemoryDialer
        ensures conns { result.conns ≡ conns }
        ensures faults { result.faults ≡ 0 }
    {
        MemoryDialer {
            alloc,
            conns,
            faults: 0,
        }
    }
}

impl Dial for MemoryDialer {
    type Conn = MemoryConnection;

    ghost faults = { λ dialer. dialer.faults };

    fn dial(&mut self, _port: u16) -> Result<MemoryConnection, Failed> {
        let Some(fails) = self.conns.pop_front() else {
            self.faults = self.faults.saturating_add(1);
            return Err(Failed);
        };
        Ok(MemoryConnection {
            source: MemorySource::new(Vec::new(self.alloc), Vec::new(self.alloc)),
            sink: MemorySink::new(self.alloc, fails),
        })
    }
}
