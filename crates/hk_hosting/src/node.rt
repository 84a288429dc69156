//! The command `node`.

ghost use Rattle.std.specs.Prelude.{◌≡◌, ◌≤◌, ◌<◌, true, length, IfOk, IfSome};
ghost use Rattle.hk_base.specs.View.{IsView};

use crate::end::HostEnd;
use crate::files::{log_path, open_log, secret_of};
use hk_accept::LooseSpawner;
use hk_base::{MAX_TIME, Memory, View};
use hk_disk::DiskFile;
use hk_fields::Ticket;
use hk_host::{Dialers, HostManager, Inside, ServeFault, Serving, serve_host};
use hk_host_words::{NodeWords, Verbosity};
use hk_hosts::{Address, DoorsAt, HostDialer, HostDoors, Random, SystemRandom};
use hk_inside::HostTickets;
use hk_loops::EventLoops;
use hk_managing::{ManagerStart, begin_manager};
use hk_outside::{Clock, Status, SteadyClock};
use hk_restore::Terms;
use hk_shared_state::{Identity, Telling, copy_of};
use std::alloc::Global;
use std::fs::{File, Files};
use std::io::Eprint;
use std::net::{Net, TcpListener, TcpStream};
use std::random::RandomSource;
use std::sync::{Arc, Wait};
use std::thread::Threads;
use std::time::{SystemTime, UNIX_EPOCH};

// The greatest number of hosts.
const MOST_HOSTS: usize = 9;

// Dials over TCP.
#[derive(Drop)]
struct TcpDialers<R: Drop> {
    rt: R,
    alloc: Global,
}

impl<R: Net<Listener = TcpListener, Stream = TcpStream> + Copy + Send + Drop + 'static> Dialers
    for TcpDialers<R> {
    type Dialer = HostDialer<R>;

    fn dialer(&self) -> HostDialer<R> {
        HostDialer::new(self.rt, self.alloc)
    }
}

// A ticket that nobody can guess.
fn draw<X: Random>(random: &mut X) -> Result<Ticket, HostEnd> {
    match random.drawn::<16>() {
        Ok(drawn) => Ok(Ticket(drawn)),
        Err(_) => Err(HostEnd::NoRandomness),
    }
}

// Tells that an address can't be opened.
fn tell_shut<R: Eprint>(rt: &R, alloc: Global, address: &Address) -> HostEnd {
    let mut text = Vec::new(alloc);
    if address.put(&mut text).is_ok() {
        if let Ok(text) = str::from_utf8(&text) {
            let _ = eprintln!(rt; "hermes: {text} can't be opened");
        }
    }
    HostEnd::Shut
}

// The log in the folder of this host, and its path. No other process has it from now on.
fn log_of<R: Files<File = File> + Eprint>(
    rt: &R,
    alloc: Global,
    words: &NodeWords,
) -> Result<(DiskFile, String), HostEnd> {
    let Ok(folder) = str::from_utf8(words.data.as_slice()) else {
        return Err(HostEnd::Refused);
    };
    let path = log_path(alloc, folder)?;
    Ok((open_log(rt, folder, &path)?, path))
}

// By which terms the manager of this place goes, if there is one in a group of so many hosts.
fn terms_of(words: &NodeWords, place: u8) -> Option<Terms>
    ensures few { IfSome result (λ terms. terms.managers ≤ 9) }
    ensures place { IfSome result (λ terms. terms.place < terms.managers) }
{
    let hosts = words.group.hosts.len();
    if hosts > MOST_HOSTS || usize::from(place) >= hosts {
        return None;
    }
    Some(Terms {
        place,
        managers: hosts as u8,
        lease: words.lease,
        skew: words.skew,
    })
}

// The manager of this host by its log.
fn manager_of<R: Eprint>(
    rt: &R,
    alloc: Global,
    terms: Terms,
    file: DiskFile,
    path: &str,
    tickets: HostTickets,
    now: u64,
) -> Result<ManagerStart<DiskFile>, HostEnd>
    requires few { terms.managers ≤ 9 }
    requires place { terms.place < terms.managers }
{
    let first = View::first(alloc, terms.managers)?;
    match begin_manager(alloc, file, terms, tickets, &first, now.min(MAX_TIME)) {
        Ok(start) => Ok(start),
        Err(fault) => {
            let _ = eprintln!(rt; "hermes: {path} {fault}");
            Err(HostEnd::Log(fault))
        }
    }
}

// The log of a manager, which no other process has, and by which terms that goes.
#[derive(Drop)]
struct HeldLog {
    terms: Terms,
    file: DiskFile,
    path: String,
    ghost few: { terms.managers ≤ 9 },
    ghost place_is: { terms.place < terms.managers },
}

// The log of this host's manager, if it has one.
fn held_log<R: Files<File = File> + Eprint>(
    rt: &R,
    alloc: Global,
    words: &NodeWords,
) -> Result<Option<HeldLog>, HostEnd> {
    let Some(place) = words.at else {
        return Ok(None);
    };
    let Some(terms) = terms_of(words, place) else {
        return Err(HostEnd::Refused);
    };
    let (file, path) = log_of(rt, alloc, words)?;
    Ok(Some(HeldLog { terms, file, path }))
}

// The manager of this host, if it has one, and the path of its log.
#[derive(Drop)]
struct LoggedManager {
    manager: Option<HostManager<DiskFile>>,
    path: String,
}

// The manager of this host by the log that it holds, if it has one.
fn logged_manager<R: Eprint>(
    rt: &R,
    alloc: Global,
    held: Option<HeldLog>,
    tickets: HostTickets,
    now: u64,
) -> Result<LoggedManager, HostEnd> {
    let Some(held) = held else {
        return Ok(LoggedManager {
            manager: None,
            path: String::new(alloc),
        });
    };
    let HeldLog { terms, file, path } = held;
    let start = manager_of(rt, alloc, terms, file, &path, tickets, now)?;
    let manager = HostManager {
        place: terms.place,
        start,
    };
    Ok(LoggedManager {
        manager: Some(manager),
        path,
    })
}

// The folder in which a log is.
fn folder_of(path: &str) -> &str {
    match path.strip_suffix("/log") {
        Some(folder) => folder,
        None => path,
    }
}

// Whether the place of the manager is one of the group.
fn has_place(identity: &Identity, manager: &Option<HostManager<DiskFile>>) -> bool
    ensures { result ≡ true → IfSome manager.now (λ m. m.place < length identity.now.hosts) }
{
    match manager {
        Some(manager) => manager.place < identity.managers(),
        None => true,
    }
}

// How a process ends that served so. What no status of a command says is told.
fn told_end<R: Eprint>(
    rt: &R,
    alloc: Global,
    listen: &Address,
    log: &str,
    served: Result<Status, ServeFault>,
) -> Result<Status, HostEnd> {
    let status = match served {
        Ok(status) => status,
        Err(ServeFault::LostTail(lost)) => {
            let _ = eprintln!(rt; "hermes: {log} {lost}");
            return Err(HostEnd::LostTail);
        }
        Err(ServeFault::Out) => {
            let _ = eprintln!(rt; "hermes: left out of the view; start again");
            return Err(HostEnd::Out);
        }
    };
    if status == Status::DoorFault {
        return Err(tell_shut(rt, alloc, listen));
    }
    Ok(status)
}

// The milliseconds from the beginning of 1970 to the reading 0 of a clock. They are 0 where the machine does not tell
// the date.
fn began<R: std::rt::Clock, C: Clock>(rt: &R, clock: &C) -> u64 {
    let Ok(now) = SystemTime::now(rt) else {
        return 0;
    };
    let Ok(passed) = now.duration_since(UNIX_EPOCH) else {
        return 0;
    };
    u64::try_from(passed.as_millis())
        .unwrap_or(0)
        .saturating_sub(clock.now())
}

/// Runs a process of a group, for as long as it can.
pub(crate) fn run_node<
    R: Threads
        + Wait
        + Net<Listener = TcpListener, Stream = TcpStream>
        + Files<File = File>
        + RandomSource
        + std::rt::Clock
        + Eprint
        + Copy
        + Send
        + Sync
        + Drop
        + 'static,
>(
    rt: R,
    alloc: Global,
    words: NodeWords,
    verbosity: Verbosity,
    secret_path: &str,
) -> Result<Status, HostEnd> {
    let secret = secret_of(&rt, alloc, secret_path)?;
    // The clock begins once the log is held: behind all that a process before this one has granted.
    let held = held_log(&rt, alloc, &words)?;
    let clock = Arc::new(alloc, SteadyClock::new(rt)).or(Err(Memory))?;
    let telling = Telling {
        verbosity,
        began: began(&rt, &*clock),
    };
    let mut random = SystemRandom::new(rt);
    let tickets = HostTickets {
        manager: draw(&mut random)?,
        node: draw(&mut random)?,
    };
    let logged = logged_manager(&rt, alloc, held, tickets, clock.now())?;
    let LoggedManager { manager, path } = logged;
    let mut doors = HostDoors::new(rt, alloc);
    if doors.open(&words.inside).is_err() {
        return Err(tell_shut(&rt, alloc, &words.inside));
    }
    let inside = Inside { doors, random };
    let listen = copy_of(alloc, &words.listen).ok_or(Memory)?;
    let workers = words.workers;
    let identity = Identity::new(alloc, words, secret, tickets.node)?;
    if !has_place(&identity, &manager) {
        return Err(HostEnd::Refused);
    }
    let loops = EventLoops::new(&rt, alloc, workers)?;
    let served = serve_host(
        rt,
        alloc,
        clock,
        identity,
        manager,
        inside,
        &TcpDialers { rt, alloc },
        Serving {
            listen: &listen,
            workers,
            data: folder_of(&path),
            telling,
        },
        &mut HostDoors::new(rt, alloc),
        &loops,
        &mut LooseSpawner::new(rt),
    );
    told_end(&rt, alloc, &listen, &path, served)
}
