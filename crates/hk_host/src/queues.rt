//! The queues of letters from this host's manager.

ghost use Rattle.std.specs.Prelude.{◌≡◌, ◌≤◌, ◌<◌, ◌+◌, length, IfOk, OnOk};

use hk_base::{Actor, Memory, Sequence};
use hk_group::SendQueue;
use hk_link::{Bell, Inlet, Outlet, link};
use hk_overseer::Outlets;
use std::alloc::Global;
use std::sync::Arc;

// A link has room for so many parcels.
const ROOM: usize = 1_024;

/// A link whose parcels ring a bell.
pub(crate) fn rung_link(alloc: Global, bell: &Arc<Bell>) -> Result<(Outlet, Inlet), Memory> {
    let (outlet, inlet) = link(alloc, ROOM)?;
    Ok((outlet.with_bell(Arc::try_clone(bell)?), inlet))
}

/// The outlets of a manager, and where each leads.
#[derive(Drop)]
pub(crate) struct ManagerQueues {
    pub(crate) outlets: Outlets,
    pub(crate) queues: Vec<SendQueue>,
}

impl ManagerQueues {
    // One to this actor more.
    fn add(&mut self, alloc: Global, to: Actor) -> Result<(), Memory>
        ensures { OnOk result (length self.new.queues.items ≡ length self.old.queues.items + 1) }
    {
        let bell = Arc::new(alloc, Bell::new())?;
        let (outlet, inlet) = rung_link(alloc, &bell)?;
        self.outlets.push((to, outlet))?;
        self.queues.push(SendQueue { to, inlet, bell })?;
        Ok(())
    }

    // One more to each manager from one number on and below another.
    fn add_managers(&mut self, alloc: Global, from: u8, end: u8) -> Result<(), Memory>
        requires { from ≤ end }
        ensures { OnOk result (length self.new.queues.items + from ≡ length self.old.queues.items + end) }
    {
        for number in from..end {
            self.add(alloc, Actor::Manager(number))?;
        }
        Ok(())
    }

    /// From the manager of this place to each other manager.
    pub(crate) fn new(alloc: Global, place: u8, managers: u8) -> Result<ManagerQueues, Memory>
        requires { place < managers }
        ensures { IfOk result (λ made. length made.queues.items + 1 ≡ managers) }
    {
        let mut made = ManagerQueues {
            outlets: Sequence::new(alloc),
            queues: Vec::new(alloc),
        };
        made.add_managers(alloc, 0, place)?;
        made.add_managers(alloc, place + 1, managers)?;
        Ok(made)
    }
}
