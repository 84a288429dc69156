//! Reads a number from standard input, sends as many parcels from one thread to another through a link with room for 1,024, and prints how many came in order.
//! `bench/link` measures it.
#![tactic(auto)]

ghost use Rattle.std.specs.Prelude.{◌≤◌};
ghost use Rattle.hk_base.specs.declared.time.TheConstants.{MAX_TIME};

use hk_base::{Actor, Body, Letter, MAX_TIME, NodeId};
use hk_link::{Full, Inlet, Outlet, Parcel, link};
use std::sync::Wait;
use std::thread::Threads;
use std::{io, thread};

const ROOM: usize = 1024;

// A parcel with this number.
#[tactic(auto, unfolding(hk_base::specs::Lengths::body_length))]
fn parcel(number: u64) -> Parcel
    requires { number ≤ MAX_TIME }
{
    Parcel {
        shard: 0,
        letter: Letter {
            epoch: 1,
            from: Actor::Node(NodeId(0)),
            to: Actor::Node(NodeId(1)),
            body: Body::LeaseAsk { asked: number },
        },
    }
}

// Puts a parcel, as often as the link is full.
fn put_when_there_is_room<R: Wait>(rt: &R, outlet: &mut Outlet, parcel: Parcel) {
    let mut parcel = parcel;
    for _ in rt.forever() {
        match outlet.put(rt, parcel) {
            Ok(()) => return,
            Err(Full(back)) => {
                parcel = back;
                thread::yield_now();
            }
        }
    }
}

fn put_all<R: Wait>(rt: &R, outlet: &mut Outlet, count: u64)
    requires { count ≤ MAX_TIME }
{
    for number in 0..count {
        put_when_there_is_room(rt, outlet, parcel(number));
    }
}

// The next parcel, once there is one.
fn take_when_there_is_one<R: Wait>(rt: &R, inlet: &mut Inlet) -> Option<Parcel> {
    for _ in rt.forever() {
        match inlet.take(rt) {
            Some(parcel) => return Some(parcel),
            None => thread::yield_now(),
        }
    }
    None
}

// Takes so many parcels, and counts those that come in order.
fn take_all<R: Wait>(rt: &R, mut inlet: Inlet, count: u64) -> u64 {
    let mut ordered: u64 = 0;
    for expected in 0..count {
        if let Some(parcel) = take_when_there_is_one(rt, &mut inlet) {
            if let Body::LeaseAsk { asked } = &parcel.letter.body {
                if *asked == expected {
                    ordered = ordered.saturating_add(1);
                }
            }
        }
    }
    ordered
}

// The number on the first line of the input, 0 where there is none.
fn read_count<R: Input + Alloc>(rt: &R) -> io::Result<u64> {
    let mut line = String::new(rt.alloc());
    rt.read_line(&mut line)?;
    Ok(line.trim().parse::<u64>().unwrap_or(0))
}

fn main(rt: HostRuntime) -> io::Result<()> {
    let count = read_count(&rt)?.min(MAX_TIME);
    let Ok((mut outlet, inlet)) = link(rt.alloc(), ROOM) else {
        return println!(rt; "no memory");
    };
    let Ok(taker) = thread::spawn(&rt, move || take_all(&rt, inlet, count)) else {
        return println!(rt; "no thread");
    };
    put_all(&rt, &mut outlet, count);
    let ordered = taker.join(&rt);
    println!(rt; "ordered {ordered}")
}
