//! What makes the steps of the parcels that one thread reads.

use crate::completion::Unheard;
use crate::gate::{Ending, Open, Rings};
use crate::journals::{Load, Trimming};
use crate::lines::ROOM;
use crate::working::{TURNS, tend};
use hk_base::{Actor, Memory, Sequence};
use hk_link::{Bell, Inlet, Outlet, link};
use hk_locked::Places;
use hk_overseer::Outlets;
use hk_routes::Follower;
use hk_worker::{Post, Shards, work};
use std::alloc::Global;
use std::sync::{Arc, Wait};

/// Makes the steps of the parcels that are put where it takes them, in the thread that calls it. What the node says to them it puts without a ring: whoever
/// called has it leave.
#[derive(Drop)]
pub struct Reader<R: Wait + Drop, P: Places> {
    rt: R,
    alloc: Global,
    post: Post<Unheard, P>,
    // The outlets of its post, as they change.
    routes: Follower,
    load: Arc<Load>,
    gate: Open,
    trimming: Trimming,
}

// A bell at which nobody waits, for outlets whose puts wake nobody.
fn quiet(alloc: Global, outlets: Outlets) -> Result<Outlets, Memory> {
    let bell = Arc::new(alloc, Bell::new())?;
    let mut quiet = Sequence::new(alloc);
    for (actor, outlet) in outlets.into_vec() {
        quiet.push((actor, outlet.with_bell(Arc::try_clone(&bell)?)))?;
    }
    Ok(quiet)
}

// A link, what takes from it, and the gate that lets a turn be made for each parcel.
fn gated_link(alloc: Global) -> Result<(Outlet, Inlet, Open), Memory> {
    let bell = Arc::new(alloc, Bell::new())?;
    let (outlet, inlet) = link(alloc, ROOM)?;
    let outlet = outlet.with_bell(Arc::try_clone(&bell)?);
    let rings = Arc::new(alloc, Rings::new(bell))?;
    let ending = Arc::new(alloc, Ending::new())?;
    Ok((outlet, inlet, Open::new(ending, rings)))
}

impl<R: Wait + Drop, P: Places> Reader<R, P> {
    /// One at a post of this number, and the outlet that leads to it.
    pub(crate) fn new(
        rt: R,
        alloc: Global,
        shards: &Arc<Shards<Unheard, P>>,
        load: &Arc<Load>,
        number: u32,
        routes: Follower,
        outlets: Outlets,
    ) -> Result<(Outlet, Reader<R, P>), Memory> {
        let (outlet, inlet, gate) = gated_link(alloc)?;
        let mut inlets = Sequence::new(alloc);
        inlets.push(inlet)?;
        let load = Arc::try_clone(load)?;
        let post = Post::new(
            &rt,
            alloc,
            shards.node().0,
            number,
            Arc::try_clone(shards)?,
            inlets,
            quiet(alloc, outlets)?,
            Unheard,
        )?;
        let reader = Reader {
            rt,
            alloc,
            post,
            routes,
            load,
            gate,
            trimming: Trimming::new(),
        };
        Ok((outlet, reader))
    }

    // Its letters go by the outlets as they are now. Where memory is wanting for that they go by those of before.
    fn follow(&mut self) {
        let Some(outlets) = self.routes.renewed(&self.rt, self.alloc) else {
            return;
        };
        match quiet(self.alloc, outlets) {
            Ok(outlets) => self.post.lead(&self.rt, outlets),
            Err(_) => self.routes.tell_again(),
        }
    }

    /// Makes the steps of all parcels that were put.
    pub fn step(&mut self) {
        self.follow();
        for _ in self.rt.forever() {
            let turns = work(&self.rt, &mut self.post, &mut self.gate, TURNS);
            tend(
                &self.rt,
                &mut self.post,
                &self.load,
                &mut self.trimming,
                turns,
            );
            if turns < TURNS {
                return;
            }
        }
    }
}
