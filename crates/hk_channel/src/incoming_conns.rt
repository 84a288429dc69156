//! The connections that other processes made, as far as one of them ends another.

ghost use Rattle.std.specs.Prelude.{◌≡◌, ◌≤◌, ◌++◌, ◌∷◌, [], vec_len, vec_capacity, IfOk, OnOk, OnErr};
ghost use Rattle.std.specs.List.{list_any};
ghost use Rattle.hk_channel.specs.Incoming.{with_room, is_half_open, others_half_open, others_welcomed, same_end, same_purpose, is_same_use, other_uses, Welcomes};

use hk_base::{Actor, Memory};
use hk_hello::{Party, Purpose};
use hk_hosts::Ender;
use std::alloc::Global;

// So many greetings may be unfinished at once. Where one more begins, the oldest is ended.
const MOST_GREETINGS: usize = 64;

/// A connection whose greeting is unfinished.
#[derive(Drop)]
pub struct HalfOpen {
    pub number: u64,
    pub ender: Ender,
}

/// For what a connection is, and from whom to whom.
#[derive(Clone, Copy, Debug, PartialEq, Eq)]
pub struct ConnUse {
    pub purpose: Purpose,
    pub from: Party,
    pub to: Party,
}

/// A connection whose hello was taken.
#[derive(Drop)]
pub struct Welcomed {
    pub number: u64,
    pub conn_use: ConnUse,
    pub ender: Ender,
}

/// The connections that other processes made: those whose greeting is unfinished, the oldest in front, and the others.
#[derive(Drop)]
pub struct IncomingConns {
    next: u64,
    greeting: Vec<HalfOpen>,
    welcomed: Vec<Welcomed>,
}

fn same_actor(one: Actor, other: Actor) -> bool
    ensures { result ≡ same_end (Party.Actor one) (Party.Actor other) }
{
    match one {
        Actor::Node(node) => match other {
            Actor::Node(number) => node.0 == number.0,
            Actor::Manager(_) => false,
        },
        Actor::Manager(place) => match other {
            Actor::Node(_) => false,
            Actor::Manager(at) => place == at,
        },
    }
}

// Whether both are the same actor. Who is none is the same as nobody.
fn same_end(one: Party, other: Party) -> bool
    ensures { result ≡ same_end one other }
{
    match one {
        Party::Actor(one) => match other {
            Party::Actor(other) => same_actor(one, other),
            Party::Neither => false,
        },
        Party::Neither => false,
    }
}

fn same_purpose(one: Purpose, other: Purpose) -> bool
    ensures { result ≡ same_purpose one other }
{
    match one {
        Purpose::Letters => matches!(other, Purpose::Letters),
        Purpose::Requests => matches!(other, Purpose::Requests),
    }
}

// Whether a connection is for the same, from the same actor and to the same one.
fn is_same_use(conn_use: ConnUse, other: &Welcomed) -> bool
    ensures { result ≡ is_same_use conn_use other.now }
{
    same_purpose(conn_use.purpose, other.conn_use.purpose)
        && same_end(conn_use.from, other.conn_use.from)
        && same_end(conn_use.to, other.conn_use.to)
}

// Ends the oldest greeting where so many are unfinished.
fn make_room(greeting: &mut Vec<HalfOpen>)
    ensures items { greeting.new.items ≡ with_room greeting.old.items }
    ensures few { vec_len greeting.new ≤ vec_len greeting.old }
    ensures capacity { vec_capacity greeting.new ≡ vec_capacity greeting.old }
{
    if greeting.len() >= MOST_GREETINGS {
        let oldest = greeting.remove(0);
        oldest.ender.end();
    }
}

fn forget_half_open(greeting: &mut Vec<HalfOpen>, number: u64)
    ensures items { greeting.new.items ≡ others_half_open number greeting.old.items }
    ensures few { vec_len greeting.new ≤ vec_len greeting.old }
    ensures capacity { vec_capacity greeting.new ≡ vec_capacity greeting.old }
{
    greeting.retain(|other| other.number != number);
}

fn forget_welcomed(welcomed: &mut Vec<Welcomed>, number: u64)
    ensures items { welcomed.new.items ≡ others_welcomed number welcomed.old.items }
    ensures few { vec_len welcomed.new ≤ vec_len welcomed.old }
    ensures capacity { vec_capacity welcomed.new ≡ vec_capacity welcomed.old }
{
    welcomed.retain(|other| other.number != number);
}

// Ends those that are for the same, from the same actor and to the same one.
fn end_earlier(welcomed: &mut Vec<Welcomed>, conn_use: ConnUse)
    ensures items { welcomed.new.items ≡ other_uses conn_use welcomed.old.items }
    ensures few { vec_len welcomed.new ≤ vec_len welcomed.old }
    ensures capacity { vec_capacity welcomed.new ≡ vec_capacity welcomed.old }
{
    for earlier in welcomed.iter() {
        if is_same_use(conn_use, earlier) {
            earlier.ender.end();
        }
    }
    welcomed.retain(|other| !is_same_use(conn_use, other));
}

impl IncomingConns {
    /// Nobody came yet.
    pub fn new(alloc: Global) -> IncomingConns
        ensures greeting { result.greeting.items ≡ [] }
        ensures welcomed { result.welcomed.items ≡ [] }
    {
        IncomingConns {
            next: 0,
            greeting: Vec::new(alloc),
            welcomed: Vec::new(alloc),
        }
    }

    /// A connection came, and gets a number. Where 64 greetings are unfinished the oldest is ended.
    pub fn begin(&mut self, ender: Ender) -> Result<u64, Memory>
        ensures ok { OnOk result (self.new.greeting.items ≡ with_room self.old.greeting.items ++ (record { number = self.old.next; ender = ender }) ∷ []) }
        ensures number { IfOk result (λ number. number ≡ self.old.next) }
        ensures err { OnErr result (self.new.greeting.items ≡ self.old.greeting.items) }
        ensures welcomed { self.new.welcomed.items ≡ self.old.welcomed.items }
    {
        self.greeting.reserve(1)?;
        let number = self.next;
        make_room(&mut self.greeting);
        self.greeting.push_reserved(HalfOpen { number, ender });
        self.next = self.next.wrapping_add(1);
        Ok(number)
    }

    // Whether the greeting of this number is unfinished.
    fn is_greeting(&self, number: u64) -> bool
        ensures { result ≡ list_any (is_half_open number) self.now.greeting.items }
    {
        self.greeting.iter().any(|other| other.number == number)
    }

    /// The hello of the connection of this number was taken, and is for this. Earlier ones for the same, from the same actor and
    /// to the same one, are ended. It is false, and the connection not to be served, where it was ended meanwhile.
    pub fn welcome(&mut self, number: u64, conn_use: ConnUse, ender: Ender) -> Result<bool, Memory>
        ensures { Welcomes result number conn_use ender self.old self.new }
    {
        self.welcomed.reserve(1)?;
        if !self.is_greeting(number) {
            return Ok(false);
        }
        forget_half_open(&mut self.greeting, number);
        end_earlier(&mut self.welcomed, conn_use);
        self.welcomed.push_reserved(Welcomed {
            number,
            conn_use,
            ender,
        });
        Ok(true)
    }

    /// The connection of this number has ended.
    pub fn forget(&mut self, number: u64)
        ensures greeting { self.new.greeting.items ≡ others_half_open number self.old.greeting.items }
        ensures welcomed { self.new.welcomed.items ≡ others_welcomed number self.old.welcomed.items }
    {
        forget_half_open(&mut self.greeting, number);
        forget_welcomed(&mut self.welcomed, number);
    }
}
