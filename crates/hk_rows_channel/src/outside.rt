//! A process, and others in memory: who is dialled, what comes from there, and what is written.

ghost use Rattle.std.specs.Prelude.{◌≡◌, None, refl};

use hk_base::{Memory, NodeId, Sequence};
use hk_fields::Ticket;
use hk_hello::{
    Answer, Challenge, Hello, Party, Purpose, is_in_range, print_answer, print_challenge,
    print_hello, sign, welcome,
};
use hk_host_words::{GroupWords, NodeWords, Verbosity};
use hk_hosts::{Address, DialAt, Ender, Patient, read_address, read_hosts};
use hk_link::Outlet;
use hk_outside::{Clock, Connection, Failed, MemorySource, Sink, Source};
use hk_shared_state::{Identity, Mailbox, SharedState, Standing, Telling};
use std::alloc::Global;
use std::collections::VecDeque;
use std::process::Abort;
use std::sync::atomic::{AtomicBool, AtomicU64, Ordering};
use std::sync::{Arc, Mutex, Wait};

pub const SECRET: &[u8] = b"correct horse battery";

pub const ASKED: Challenge = Challenge([0, 1, 2, 3, 4, 5, 6, 7, 8, 9, 10, 11, 12, 13, 14, 15]);

/// The founding that the process knows.
pub const FOUNDING: u64 = 7;

/// The tickets of the process, and of the other managers.
pub const TICKET: Ticket = Ticket([1; 16]);

pub const OTHER: Ticket = Ticket([2; 16]);

/// A clock that is set by hand, also while others hold it.
#[derive(Drop)]
pub struct SetClock {
    at: AtomicU64,
}

impl SetClock {
    pub fn new() -> SetClock {
        SetClock {
            at: AtomicU64::new(0),
        }
    }

    pub fn set(&self, at: u64) {
        self.at.store(at, Ordering::SeqCst);
    }
}

impl Clock for SetClock {
    ghost reading = { λ clock. None };

    fn now(&self) -> u64 {
        self.at.load(Ordering::SeqCst)
    }
}

fn address(rt: &impl Abort, alloc: Global, text: &str) -> Address {
    read_address(alloc, text, 1).expect(rt, "an address")
}

fn sequence(rt: &impl Abort, alloc: Global, bytes: &[u8]) -> Sequence<u8> {
    Sequence::from_vec(bytes.to_vec(alloc).expect(rt, "memory"))
}

// Host 0 of three, with leases of a second, and so with beats of 62 ms.
fn words(rt: &impl Abort, alloc: Global) -> NodeWords {
    let hosts = read_hosts(alloc, "10.0.0.1:9,10.0.0.2:9,10.0.0.3:9", 1).expect(rt, "hosts");
    NodeWords {
        group: GroupWords {
            hosts,
            secret: sequence(rt, alloc, b"file"),
            group: sequence(rt, alloc, b"hermes"),
        },
        at: Some(0),
        inside: address(rt, alloc, "10.0.0.1:9"),
        listen: address(rt, alloc, "10.0.0.1:8"),
        data: sequence(rt, alloc, b"folder"),
        lease: 1_000,
        skew: 10,
        workers: 1,
    }
}

fn identity(rt: &impl Abort, alloc: Global) -> Identity {
    let secret = sequence(rt, alloc, SECRET);
    Identity::new(alloc, words(rt, alloc), secret, TICKET).expect(rt, "an identity")
}

// The process's manager is open, and its node has number 0.
fn standing(rt: &impl Abort, alloc: Global) -> Standing {
    let mut standing = Standing::new(alloc, 3).expect(rt, "memory");
    standing.founding = FOUNDING;
    standing.manager = Some(TICKET);
    standing.managers[0] = Some(TICKET);
    standing.managers[1] = Some(OTHER);
    standing.node = Some(NodeId(0));
    standing
}

pub fn shared<R: Wait + Abort + Copy + Drop>(
    rt: R,
    alloc: Global,
    manager: Option<Outlet>,
) -> Arc<SharedState<R, SetClock>> {
    let clock = Arc::new(alloc, SetClock::new()).expect(&rt, "memory");
    let shared = SharedState {
        rt,
        alloc,
        clock,
        identity: identity(&rt, alloc),
        telling: Telling {
            verbosity: Verbosity::Quiet,
            began: 0,
        },
        standing: Mutex::new(standing(&rt, alloc)),
        manager: Mutex::new(manager),
        mailbox: Mailbox::new(alloc).expect(&rt, "memory"),
        is_out: AtomicBool::new(false),
        is_leaving: AtomicBool::new(false),
    };
    Arc::new(alloc, shared).expect(&rt, "memory")
}

/// What others saw: how often somebody was dialled, and all that was written.
#[derive(Drop)]
pub struct Seen {
    pub dials: AtomicU64,
    pub written: Mutex<Vec<u8>>,
}

impl Seen {
    pub fn new(alloc: Global) -> Seen {
        Seen {
            dials: AtomicU64::new(0),
            written: Mutex::new(Vec::new(alloc)),
        }
    }

    pub fn dials(&self) -> u64 {
        self.dials.load(Ordering::SeqCst)
    }

    fn note<R: Wait>(&self, rt: &R, piece: &[u8]) -> bool {
        let mut guard = self.written.lock(rt);
        let written = &mut *guard;
        written.extend_from_slice(piece).is_ok()
    }

    /// Whether just this was written, over all connections.
    pub fn is<R: Wait>(&self, rt: &R, bytes: &[u8]) -> bool {
        let guard = self.written.lock(rt);
        let written = &*guard;
        written.as_slice() == bytes
    }
}

/// A connection in memory. What is written is seen; after so many writes each fails.
#[derive(Drop)]
pub struct SeenConnection<R: Wait + Drop> {
    rt: R,
    source: MemorySource,
    seen: Arc<Seen>,
    writes: u64,
    faults: u64,
}

impl<R: Wait + Drop> SeenConnection<R> {
    pub fn new(
        rt: R,
        alloc: Global,
        bytes: Vec<u8>,
        seen: Arc<Seen>,
        writes: u64,
    ) -> SeenConnection<R>
        ensures reads { result.source.faults ≡ 0 }
        ensures writes { result.faults ≡ 0 }
    {
        SeenConnection {
            rt,
            source: MemorySource::new(bytes, Vec::new(alloc)),
            seen,
            writes,
            faults: 0,
        }
    }
}

impl<R: Wait + Drop> Source for SeenConnection<R> {
    ghost left = { λ c. None };

    ghost faults = { λ c. c.source.faults };

    ghost beside = { λ c. (None, c.faults) };

    fn read(&mut self, room: &mut [u8]) -> Result<usize, Failed> {
        self.source.read(room)
    }
}

impl<R: Wait + Drop> Sink for SeenConnection<R> {
    ghost held = { λ c. None };

    ghost faults = { λ c. c.faults };

    ghost beside = { λ c. (None, c.source.faults) };

    fn write(&mut self, piece: &[u8]) -> Result<usize, Failed> {
        if self.writes == 0 || !self.seen.note(&self.rt, piece) {
            self.faults = self.faults.saturating_add(1);
            return Err(Failed);
        }
        self.writes -= 1;
        Ok(piece.len())
    }
}

impl<R: Wait + Drop> Connection for SeenConnection<R> {
    ghost read_keeps = { λ c. refl };

    ghost write_keeps = { λ c. refl };

    ghost one_record = { λ c. refl };
}

impl<R: Wait + Drop> Patient for SeenConnection<R> {
    fn wait_at_most(&self, _read: u64, _write: u64) {}

    fn ender(&self) -> Result<Ender, Memory> {
        Ok(Ender::Nothing)
    }
}

/// What a dial comes to: nobody, or what comes from there, and how many writes succeed.
#[derive(Drop)]
pub enum Reached {
    Nobody,
    Somebody { bytes: Vec<u8>, writes: u64 },
}

/// Dials in memory, in the order of a list. Behind it nobody is reached.
#[derive(Drop)]
pub struct FakeDialer<R: Wait + Copy + Drop> {
    pub rt: R,
    pub alloc: Global,
    pub reached: VecDeque<Reached>,
    pub seen: Arc<Seen>,
    pub faults: u64,
}

impl<R: Wait + Copy + Send + Drop + 'static> DialAt for FakeDialer<R> {
    type Conn = SeenConnection<R>;

    ghost faults = { λ dialer. dialer.faults };

    fn dial(&mut self, _address: &Address, _limit: u64) -> Result<SeenConnection<R>, Failed> {
        self.seen.dials.fetch_add(1, Ordering::SeqCst);
        if let Some(Reached::Somebody { bytes, writes }) = self.reached.pop_front() {
            if let Ok(seen) = Arc::try_clone(&self.seen) {
                return Ok(SeenConnection::new(self.rt, self.alloc, bytes, seen, writes));
            }
        }
        self.faults = self.faults.saturating_add(1);
        Err(Failed)
    }
}

// The hello of the process, for a manager.
pub fn hello(
    rt: &impl Abort,
    alloc: Global,
    purpose: Purpose,
    from: Party,
    to: Party,
    ticket: Ticket,
) -> Hello {
    identity(rt, alloc)
        .hello(alloc, purpose, from, to, FOUNDING, ticket)
        .expect(rt, "a hello")
}

/// What is written of a greeting by who dials, and what by who accepts.
#[derive(Drop)]
pub struct Greeting {
    pub dialled: Vec<u8>,
    pub challenge: Vec<u8>,
    pub welcome: Vec<u8>,
}

pub fn greeting_of(rt: &impl Abort, alloc: Global, hello: Hello) -> Greeting {
    let mut dialled = Vec::new(alloc);
    let mut challenge = Vec::new(alloc);
    let mut welcomed = Vec::new(alloc);
    if is_in_range(&hello) {
        let signed = sign(alloc, SECRET, ASKED, hello).expect(rt, "memory");
        print_hello(alloc, &mut dialled, &signed).expect(rt, "memory");
        let right = welcome(SECRET, ASKED, signed.proof);
        print_answer(&mut welcomed, Answer::Welcome(right)).expect(rt, "memory");
    }
    print_challenge(&mut challenge, ASKED).expect(rt, "memory");
    Greeting {
        dialled,
        challenge,
        welcome: welcomed,
    }
}

/// These texts, one behind the other.
pub fn joined(rt: &impl Abort, alloc: Global, texts: &[&[u8]]) -> Vec<u8> {
    let mut bytes = Vec::new(alloc);
    for text in texts {
        bytes.extend_from_slice(text).expect(rt, "memory");
    }
    bytes
}

pub fn dialer<R: Wait + Abort + Copy + Drop>(
    rt: R,
    alloc: Global,
    seen: &Arc<Seen>,
    reached: VecDeque<Reached>,
) -> FakeDialer<R> {
    FakeDialer {
        rt,
        alloc,
        reached,
        seen: Arc::try_clone(seen).expect(&rt, "memory"),
        faults: 0,
    }
}
