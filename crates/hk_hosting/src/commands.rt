//! The commands.

ghost use Rattle.std.specs.Prelude.{◌≤◌, IfSome};

use crate::asker::HostAsker;
use crate::end::HostEnd;
use crate::files::secret_of;
use crate::node::run_node;
use hk_host_words::{GroupWords, HostCommand, NodeWords, Verbosity};
use hk_hosts::{Address, Random, SystemRandom};
use hk_init::{CommandFault, init, leave, put_fault, status};
use hk_inside::Leaver;
use hk_outside::{Sink, Status};
use std::alloc::Global;
use std::fs::{File, Files};
use std::io::Eprint;
use std::net::{Net, TcpListener, TcpStream};
use std::random::RandomSource;
use std::sync::Wait;
use std::thread::Threads;

// The greatest number of hosts.
const MOST_HOSTS: usize = 9;

// The number of a new founding, which is not 0.
fn draw_founding<X: Random>(random: &mut X) -> Option<u64>
    ensures { IfSome result (λ founding. 1 ≤ founding) }
{
    for _tried in 0..8 {
        let Ok(drawn) = random.drawn::<8>() else {
            return None;
        };
        let founding = u64::from_be_bytes(drawn);
        if founding > 0 {
            return Some(founding);
        }
    }
    None
}

// Tells why a command did not do what it is for, and gives how it ends.
fn tell<R: Eprint>(rt: &R, alloc: Global, hosts: &[Address], told: Result<(), CommandFault>) -> u8 {
    let Err(fault) = told else {
        return 0;
    };
    let number = fault.number();
    let mut text = Vec::new(alloc);
    if put_fault(&mut text, hosts, &fault).is_ok() {
        if let Ok(text) = str::from_utf8(&text) {
            let _ = eprintln!(rt; "hermes: {text}");
        }
    }
    number
}

// The path of the file of a group's secret.
fn secret_path(alloc: Global, group: &GroupWords) -> Result<String, HostEnd> {
    let Ok(path) = str::from_utf8(group.secret.as_slice()) else {
        return Err(HostEnd::Refused);
    };
    match path.to_string(alloc) {
        Ok(path) => Ok(path),
        Err(_) => Err(HostEnd::Plain(Status::Memory)),
    }
}

// The command `node`.
fn node<
    R: Threads
        + Wait
        + Net<Listener = TcpListener, Stream = TcpStream>
        + Files<File = File>
        + RandomSource
        + std::rt::Clock
        + Eprint
        + Copy
        + Send
        + Sync
        + Drop
        + 'static,
>(rt: R, alloc: Global, words: NodeWords, verbosity: Verbosity) -> Result<Status, HostEnd> {
    let path = secret_path(alloc, &words.group)?;
    run_node(rt, alloc, words, verbosity, &path)
}

// The number that an end has, which is told where it was not told before.
fn end_by<R: Eprint>(rt: &R, end: HostEnd) -> u8 {
    if matches!(end, HostEnd::Plain(_) | HostEnd::NoRandomness) {
        let _ = eprintln!(rt; "hermes: {end}");
    }
    end.number()
}

// The number that a process of a group ends with.
fn number_of<R: Eprint>(rt: &R, ended: Result<Status, HostEnd>) -> u8 {
    match ended {
        Ok(Status::Done) => Status::Done.number(),
        Ok(status) => end_by(rt, HostEnd::Plain(status)),
        Err(end) => end_by(rt, end),
    }
}

// What asks the managers of a group's hosts, for a command.
fn asker_of<
    R: Wait
        + Net<Listener = TcpListener, Stream = TcpStream>
        + Files<File = File>
        + std::rt::Clock
        + Eprint
        + Copy
        + Drop,
>(rt: R, alloc: Global, group: GroupWords) -> Result<HostAsker<R>, HostEnd> {
    let path = secret_path(alloc, &group)?;
    let secret = secret_of(&rt, alloc, &path)?;
    Ok(HostAsker::new(rt, alloc, secret, group)?)
}

// The command `init`.
fn found<
    R: Wait
        + Net<Listener = TcpListener, Stream = TcpStream>
        + Files<File = File>
        + RandomSource
        + std::rt::Clock
        + Eprint
        + Copy
        + Drop,
    K: Sink,
>(rt: R, alloc: Global, group: GroupWords, sink: &mut K) -> Result<u8, HostEnd> {
    let Some(founding) = draw_founding(&mut SystemRandom::new(rt)) else {
        return Err(HostEnd::NoRandomness);
    };
    let Ok(name) = group.group.as_slice().to_vec(alloc) else {
        return Err(HostEnd::Plain(Status::Memory));
    };
    let count = group.hosts.len();
    if count == 0 || count > MOST_HOSTS {
        return Err(HostEnd::Refused);
    }
    let mut asker = asker_of(rt, alloc, group)?;
    let told = init(alloc, &mut asker, &name, count, founding, sink);
    Ok(tell(&rt, alloc, asker.hosts(), told))
}

// The command `status`.
fn tell_status<
    R: Wait
        + Net<Listener = TcpListener, Stream = TcpStream>
        + Files<File = File>
        + std::rt::Clock
        + Eprint
        + Copy
        + Drop,
    K: Sink,
>(rt: R, alloc: Global, group: GroupWords, sink: &mut K) -> Result<u8, HostEnd> {
    let count = group.hosts.len();
    let mut asker = asker_of(rt, alloc, group)?;
    let told = status(&mut asker, count, sink);
    Ok(tell(&rt, alloc, asker.hosts(), told))
}

// The command `leave`.
fn make_leave<
    R: Wait
        + Net<Listener = TcpListener, Stream = TcpStream>
        + Files<File = File>
        + std::rt::Clock
        + Eprint
        + Copy
        + Drop,
    K: Sink,
>(rt: R, alloc: Global, group: GroupWords, who: Leaver, sink: &mut K) -> Result<u8, HostEnd> {
    let count = group.hosts.len();
    let mut asker = asker_of(rt, alloc, group)?;
    let told = leave(alloc, &mut asker, count, who, sink);
    Ok(tell(&rt, alloc, asker.hosts(), told))
}

// The number that another command ends with.
fn number_told<R: Eprint>(rt: &R, told: Result<u8, HostEnd>) -> u8 {
    match told {
        Ok(number) => number,
        Err(end) => end_by(rt, end),
    }
}

/// Does what a command of a group over hosts says, and gives the number that the process ends with. A process of the
/// group tells its operator as much as is wanted.
pub fn perform<
    R: Threads
        + Wait
        + Net<Listener = TcpListener, Stream = TcpStream>
        + Files<File = File>
        + RandomSource
        + std::rt::Clock
        + Eprint
        + Copy
        + Send
        + Sync
        + Drop
        + 'static,
    K: Sink,
>(rt: R, alloc: Global, command: HostCommand, verbosity: Verbosity, sink: &mut K) -> u8 {
    match command {
        HostCommand::Node(words) => number_of(&rt, node(rt, alloc, words, verbosity)),
        HostCommand::Init(group) => number_told(&rt, found(rt, alloc, group, sink)),
        HostCommand::Status(group) => number_told(&rt, tell_status(rt, alloc, group, sink)),
        HostCommand::Leave { group, who } => {
            number_told(&rt, make_leave(rt, alloc, group, who, sink))
        }
    }
}
