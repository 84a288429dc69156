//! The links between the nodes of a storm.

use crate::seat::Seat;
use hk_base::{Actor, Memory, NodeId, Sequence};
use hk_link::{Inlet, Outlet, link};
use hk_overseer::Outlets;
use std::alloc::Global;

// So many parcels wait at a worker at most.
const ROOM: usize = 1_024;

/// The outlets of all links, in the order of the workers that take from them.
#[derive(Drop)]
pub(crate) struct Wiring {
    nodes: u8,
    outlets: Vec<Outlet>,
}

// Puts one link's ends behind the others.
fn put_link(
    alloc: Global,
    outlets: &mut Vec<Outlet>,
    inlets: &mut Vec<Inlet>,
) -> Result<(), Memory> {
    let (outlet, inlet) = link(alloc, ROOM)?;
    outlets.push(outlet)?;
    inlets.push(inlet)?;
    Ok(())
}

// The inlets of so many links, whose outlets are put.
fn inlets(alloc: Global, count: u16, wiring: &mut Wiring) -> Result<Vec<Inlet>, Memory> {
    let mut inlets = Vec::new(alloc);
    for _link in 0..count {
        put_link(alloc, &mut wiring.outlets, &mut inlets)?;
    }
    Ok(inlets)
}

/// A link for each of so many workers of so many nodes.
pub(crate) fn wire(alloc: Global, nodes: u8, workers: u8) -> Result<(Wiring, Vec<Inlet>), Memory> {
    let mut wiring = Wiring {
        nodes,
        outlets: Vec::new(alloc),
    };
    let inlets = inlets(alloc, u16::from(nodes) * u16::from(workers), &mut wiring)?;
    Ok((wiring, inlets))
}

impl Wiring {
    /// The seat of this number.
    pub(crate) fn seat(&self, number: u8) -> Seat {
        Seat::of(number, self.nodes)
    }

    // An outlet to a node, by its worker at this place.
    fn outlet(&mut self, place: u8, node: u8) -> Result<Outlet, Memory> {
        let worker = usize::from(place) * usize::from(self.nodes) + usize::from(node);
        match self.outlets.get_mut(worker) {
            Some(outlet) => outlet.split(),
            None => Err(Memory),
        }
    }

    /// Outlets to all other nodes, each by its worker at the same place.
    pub(crate) fn outlets(&mut self, alloc: Global, seat: Seat) -> Result<Outlets, Memory> {
        let mut outlets = Vec::new(alloc);
        for node in 0..self.nodes {
            if node != seat.node {
                let outlet = self.outlet(seat.place, node)?;
                outlets.push((Actor::Node(NodeId(u16::from(node))), outlet))?;
            }
        }
        Ok(Sequence::from_vec(outlets))
    }
}
