//! Asks the managers of a group's hosts, over the network.

ghost use Rattle.std.specs.Prelude.{IfSome};
ghost use Rattle.hk_hello.specs.Hellos.{IsHelloInRange};
ghost use Rattle.hk_inside.specs.Messages.{IsInquiryInRange};

use hk_base::{Actor, Memory, Sequence};
use hk_fields::Ticket;
use hk_greet::{Buffered, KnockFault, ask, knock};
use hk_hello::{GroupName, Hello, HostsDigest, Party, Purpose, is_in_range};
use hk_host_words::GroupWords;
use hk_hosts::{Address, DialAt, HostConnection, HostDialer, Patient};
use hk_init::{AskHost, NoAnswer};
use hk_inside::{Inquiry, Response};
use hk_outside::{Clock, SteadyClock};
use hk_shared_state::digest_of;
use std::alloc::Global;
use std::net::{Net, TcpListener, TcpStream};
use std::sync::Wait;
use std::thread::Parker;
use std::time::Duration;

// So long, in milliseconds, a host is dialled, and its answer is waited for.
const ANSWER_MILLIS: u64 = 2_000;

/// Asks the managers of a group's hosts, each by a connection of its own.
#[derive(Drop)]
pub(crate) struct HostAsker<
    R: Wait + Net<Listener = TcpListener, Stream = TcpStream> + std::rt::Clock + Copy + Drop,
> {
    rt: R,
    alloc: Global,
    clock: SteadyClock<R>,
    dialer: HostDialer<R>,
    secret: Sequence<u8>,
    group: GroupWords,
    digest: HostsDigest,
}

impl<
    R: Wait + Net<Listener = TcpListener, Stream = TcpStream> + std::rt::Clock + Copy + Drop,
> HostAsker<R> {
    /// It has asked nobody yet.
    pub(crate) fn new(
        rt: R,
        alloc: Global,
        secret: Sequence<u8>,
        group: GroupWords,
    ) -> Result<HostAsker<R>, Memory> {
        let digest = digest_of(alloc, group.hosts.as_slice())?;
        Ok(HostAsker {
            rt,
            alloc,
            clock: SteadyClock::new(rt),
            dialer: HostDialer::new(rt, alloc),
            secret,
            group,
            digest,
        })
    }

    /// The hosts, by their places.
    pub(crate) fn hosts(&self) -> &[Address] {
        self.group.hosts.as_slice()
    }

    // What a command says of itself. None where there is no memory, or no such place.
    fn hello(&self, place: usize) -> Option<Hello>
        ensures { IfSome result IsHelloInRange }
    {
        let place = u8::try_from(place).ok()?;
        let group = self.group.group.as_slice().to_vec(self.alloc).ok()?;
        let hello = Hello {
            purpose: Purpose::Requests,
            from: Party::Neither,
            to: Party::Actor(Actor::Manager(place)),
            founding: 0,
            ticket: Ticket([0; 16]),
            hosts: self.digest,
            lease: 0,
            skew: 0,
            group: GroupName::from_vec(group),
        };
        if is_in_range(&hello) {
            Some(hello)
        } else {
            None
        }
    }

    fn ask_at(&mut self, place: usize, inquiry: &Inquiry) -> Result<Response, NoAnswer>
        requires { IsInquiryInRange inquiry.now }
    {
        let Some(hello) = self.hello(place) else {
            return Err(NoAnswer::Memory);
        };
        let Some(address) = self.group.hosts.get(place) else {
            return Err(NoAnswer::Silent);
        };
        let Ok(dialled) = self.dialer.dial(address, ANSWER_MILLIS) else {
            return Err(NoAnswer::Silent);
        };
        let mut conn = Buffered::new(self.alloc, dialled);
        match knock(
            self.alloc,
            &self.clock,
            &mut conn,
            self.secret.as_slice(),
            hello,
        ) {
            Ok(()) => {}
            Err(KnockFault::Memory) => return Err(NoAnswer::Memory),
            Err(KnockFault::Refused(refusal)) => return Err(NoAnswer::Refused(refusal)),
            Err(_) => return Err(NoAnswer::Silent),
        }
        conn.wait_at_most(ANSWER_MILLIS, ANSWER_MILLIS);
        match ask(self.alloc, &mut conn, inquiry) {
            Ok(response) => Ok(response),
            Err(_) => Err(NoAnswer::Silent),
        }
    }
}

impl<
    R: Wait + Net<Listener = TcpListener, Stream = TcpStream> + std::rt::Clock + Copy + Drop,
> AskHost for HostAsker<R> {
    fn ask(&mut self, place: usize, inquiry: &Inquiry) -> Result<Response, NoAnswer> {
        self.ask_at(place, inquiry)
    }

    fn read_clock(&mut self) -> u64 {
        self.clock.now()
    }

    fn rest(&mut self, millis: u64) {
        Parker::new().park_timeout(&self.rt, Duration::from_millis(millis));
    }
}
