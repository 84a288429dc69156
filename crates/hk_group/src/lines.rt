//! The links to nodes and managers.

use hk_base::{Actor, Memory, Sequence};
use hk_link::{Bell, Inlet, Outlet, link};
use hk_overseer::Outlets;
use hk_routes::Routes;
use std::alloc::Global;
use std::sync::{Arc, Wait};

/// A link has room for so many parcels.
pub(crate) const ROOM: usize = 1_024;

/// For each node and manager an outlet that leads there, and the bell that its parcels ring.
#[derive(Drop)]
pub(crate) struct Lines {
    outlets: Vec<(Actor, Outlet)>,
    bells: Vec<Arc<Bell>>,
}

impl Lines {
    /// No links.
    pub(crate) fn new(alloc: Global) -> Lines {
        Lines {
            outlets: Vec::new(alloc),
            bells: Vec::new(alloc),
        }
    }

    /// A new link to this actor, whose parcels ring the bell.
    pub(crate) fn add(
        &mut self,
        alloc: Global,
        actor: Actor,
        bell: &Arc<Bell>,
    ) -> Result<Inlet, Memory> {
        let (outlet, inlet) = link(alloc, ROOM)?;
        let outlet = outlet.with_bell(Arc::try_clone(bell)?);
        self.outlets.push((actor, outlet))?;
        self.bells.push(Arc::try_clone(bell)?)?;
        Ok(inlet)
    }

    /// One outlet more to each of them.
    pub(crate) fn split(&mut self, alloc: Global) -> Result<Outlets, Memory> {
        split_all(alloc, &mut self.outlets)
    }

    /// One outlet more to each of them, as they are before they change.
    pub(crate) fn routes(&mut self, alloc: Global) -> Result<Arc<Routes>, Memory> {
        let outlets = self.split(alloc)?;
        Ok(Arc::new(alloc, Routes::new(outlets))?)
    }

    /// One outlet more by the first link.
    pub(crate) fn split_first(&mut self) -> Result<Outlet, Memory> {
        let Some(first) = self.outlets.first_mut() else {
            return Err(Memory);
        };
        first.1.split()
    }

    /// Wakes whoever sleeps at one of the bells.
    pub(crate) fn ring_all<R: Wait>(&self, rt: &R) {
        for bell in &self.bells {
            bell.wake_all(rt);
        }
    }
}

// An outlet more, to the same actor.
fn split_one(outlet: &mut (Actor, Outlet)) -> Result<(Actor, Outlet), Memory> {
    let more = outlet.1.split()?;
    Ok((outlet.0, more))
}

/// One outlet more to each actor to whom these lead.
pub(crate) fn split_all(
    alloc: Global,
    outlets: &mut Vec<(Actor, Outlet)>,
) -> Result<Outlets, Memory> {
    let mut more = Sequence::new(alloc);
    for place in 0..outlets.len() {
        more.push(split_one(&mut outlets[place])?)?;
    }
    Ok(more)
}
