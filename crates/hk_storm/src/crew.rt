//! The callers and workers of a storm.

ghost use Rattle.hk_storm.specs.Storm.{IsStorm};

use crate::caller::{Caller, NumberedCall, Sight};
use crate::calls::StormCall;
use crate::draw::draw_calls;
use crate::founding::Node;
use crate::opts::StormOpts;
use crate::quiet::Quiet;
use crate::seat::Seat;
use crate::wiring::{Wiring, wire};
use crate::worker::StormWorker;
use hk_base::{Memory, SHARDS, Sequence};
use hk_link::Inlet;
use hk_locked::Places;
use hk_overseer::Outlets;
use hk_turns::Inlets;
use hk_worker::{NodeDesk, Post};
use std::alloc::Global;
use std::sync::{Arc, Wait};

// A post at the node of the seat. Callers have the odd numbers of posts, and workers the even ones.
fn post<P: Places, R: Wait>(
    rt: &R,
    alloc: Global,
    node: &Node<P>,
    seat: Seat,
    post_number: u32,
    inlets: Inlets,
    outlets: Outlets,
) -> Result<Post<Quiet, P>, Memory> {
    let shards = Arc::try_clone(node)?;
    let node = seat.node_id().0;
    Post::new(rt, alloc, node, post_number, shards, inlets, outlets, Quiet)
}

// What is seen of each shard of a node.
fn sights<P: Places, R: Wait>(rt: &R, alloc: Global, node: &Node<P>) -> Result<Vec<Sight>, Memory> {
    let mut sights = Vec::new(alloc);
    for shard in 0..SHARDS {
        let (reader, lease) = node.reader(rt, alloc, shard)?;
        sights.push(Sight { reader, lease })?;
    }
    Ok(sights)
}

// A caller that has no calls yet.
fn caller<P: Places, R: Wait + Copy + Drop>(
    rt: R,
    alloc: Global,
    nodes: &[Node<P>],
    wiring: &mut Wiring,
    seat: Seat,
) -> Result<Caller<R, P>, Memory> {
    let Some(node) = nodes.get(usize::from(seat.node)) else {
        return Err(Memory);
    };
    let outlets = wiring.outlets(alloc, seat)?;
    let number = 2 * u32::from(seat.number) + 1;
    let post = post(
        &rt,
        alloc,
        node,
        seat,
        number,
        Sequence::new(alloc),
        outlets,
    )?;
    let sights = sights(&rt, alloc, node)?;
    Ok(Caller {
        node: seat.node_id(),
        desk: NodeDesk::new(rt, post),
        sights,
        calls: Vec::new(alloc),
        notes: Vec::new(alloc),
    })
}

// Gives the callers the calls, in turn.
fn deal<P: Places, R: Wait + Copy + Drop>(
    callers: &mut [Caller<R, P>],
    calls: Vec<StormCall>,
) -> Result<(), Memory> {
    let count = callers.len() as u64;
    let mut number = 0u64;
    for call in calls {
        let turn = number.checked_rem(count).unwrap_or(0);
        number = number.saturating_add(1);
        match callers.get_mut(turn as usize) {
            Some(caller) => caller.calls.push(NumberedCall { number, call })?,
            None => return Err(Memory),
        }
    }
    Ok(())
}

// Puts a caller of this number behind the others.
fn put_caller<P: Places, R: Wait + Copy + Drop>(
    rt: R,
    alloc: Global,
    nodes: &[Node<P>],
    wiring: &mut Wiring,
    number: u8,
    callers: &mut Vec<Caller<R, P>>,
) -> Result<(), Memory> {
    let seat = wiring.seat(number);
    let caller = caller(rt, alloc, nodes, wiring, seat)?;
    callers.push(caller)?;
    Ok(())
}

// Puts so many callers, and gives them the calls.
fn put_callers<P: Places, R: Wait + Copy + Drop>(
    rt: R,
    alloc: Global,
    nodes: &[Node<P>],
    wiring: &mut Wiring,
    count: u8,
    calls: Vec<StormCall>,
    callers: &mut Vec<Caller<R, P>>,
) -> Result<(), Memory> {
    for number in 0..count {
        put_caller(rt, alloc, nodes, wiring, number, callers)?;
    }
    deal(callers.as_mut_slice(), calls)
}

// So many callers, which take turns in making the calls.
fn callers<P: Places, R: Wait + Copy + Drop>(
    rt: R,
    alloc: Global,
    nodes: &[Node<P>],
    wiring: &mut Wiring,
    count: u8,
    calls: Vec<StormCall>,
) -> Result<Vec<Caller<R, P>>, Memory> {
    let mut callers = Vec::new(alloc);
    put_callers(rt, alloc, nodes, wiring, count, calls, &mut callers)?;
    Ok(callers)
}

// What a worker takes from.
fn lone(alloc: Global, inlet: Inlet) -> Result<Inlets, Memory> {
    let mut inlets = Vec::new(alloc);
    inlets.push(inlet)?;
    Ok(Sequence::from_vec(inlets))
}

// The worker of a seat, which takes from the inlet.
fn worker<P: Places, R: Wait>(
    rt: &R,
    alloc: Global,
    nodes: &[Node<P>],
    wiring: &mut Wiring,
    seat: Seat,
    inlet: Inlet,
) -> Result<StormWorker<P>, Memory> {
    let Some(node) = nodes.get(usize::from(seat.node)) else {
        return Err(Memory);
    };
    let inlets = lone(alloc, inlet)?;
    let outlets = wiring.outlets(alloc, seat)?;
    let number = 2 * u32::from(seat.number) + 2;
    let post = post(rt, alloc, node, seat, number, inlets, outlets)?;
    Ok(StormWorker {
        number: seat.number,
        post,
    })
}

// Puts a worker of this number behind the others.
fn put_worker<P: Places, R: Wait>(
    rt: &R,
    alloc: Global,
    nodes: &[Node<P>],
    wiring: &mut Wiring,
    number: u8,
    inlet: Inlet,
    workers: &mut Vec<StormWorker<P>>,
) -> Result<(), Memory> {
    let seat = wiring.seat(number);
    let worker = worker(rt, alloc, nodes, wiring, seat, inlet)?;
    workers.push(worker)?;
    Ok(())
}

// Puts a worker for each inlet.
fn put_workers<P: Places, R: Wait>(
    rt: &R,
    alloc: Global,
    nodes: &[Node<P>],
    wiring: &mut Wiring,
    inlets: Vec<Inlet>,
    workers: &mut Vec<StormWorker<P>>,
) -> Result<(), Memory> {
    let mut number = 0u8;
    for inlet in inlets {
        put_worker(rt, alloc, nodes, wiring, number, inlet, workers)?;
        number = number.saturating_add(1);
    }
    Ok(())
}

// A worker for each inlet.
fn workers<P: Places, R: Wait>(
    rt: &R,
    alloc: Global,
    nodes: &[Node<P>],
    wiring: &mut Wiring,
    inlets: Vec<Inlet>,
) -> Result<Vec<StormWorker<P>>, Memory> {
    let mut workers = Vec::new(alloc);
    put_workers(rt, alloc, nodes, wiring, inlets, &mut workers)?;
    Ok(workers)
}

/// Those who make a storm.
#[derive(Drop)]
pub(crate) struct Crew<R: Wait + Drop, P: Places> {
    pub(crate) callers: Vec<Caller<R, P>>,
    pub(crate) workers: Vec<StormWorker<P>>,
}

// With these links.
fn wired<P: Places, R: Wait + Copy + Drop>(
    rt: R,
    alloc: Global,
    nodes: &[Node<P>],
    wiring: &mut Wiring,
    inlets: Vec<Inlet>,
    count: u8,
    calls: Vec<StormCall>,
) -> Result<Crew<R, P>, Memory> {
    let callers = callers(rt, alloc, nodes, wiring, count, calls)?;
    let workers = workers(&rt, alloc, nodes, wiring, inlets)?;
    Ok(Crew { callers, workers })
}

/// As many callers and workers at the nodes as are asked for; the callers have the drawn calls.
pub(crate) fn crew_of<P: Places, R: Wait + Copy + Drop>(
    rt: R,
    alloc: Global,
    opts: &StormOpts,
    nodes: &[Node<P>],
) -> Result<Crew<R, P>, Memory>
    requires { IsStorm opts.now }
{
    let calls = draw_calls(alloc, opts)?;
    let (mut wiring, inlets) = wire(alloc, opts.nodes, opts.workers)?;
    let count = opts.nodes * opts.workers;
    wired(rt, alloc, nodes, &mut wiring, inlets, count, calls)
}
