//! What must not happen.

use hk_base::{Memory, NodeId, SHARDS, View};
use hk_fields::Ticket;
use std::alloc::Global;

/// What happened that must not.
#[derive(Clone, Copy, Debug, PartialEq, Eq)]
pub enum Fault {
    /// Two processes held a number.
    TwoHolders { number: u16 },
    /// Two groups were open.
    TwoFoundings,
    /// A view began in a shard while a lease ran of this node, which it leaves out.
    TooEarly { shard: u8, number: u16 },
    /// No node served though most managers were well, and one had all rows.
    NeverServes,
    /// No manager opened though all were well, and `init` was typed.
    NeverOpens,
}

// The last views of a shard: that were chosen, and that began.
#[derive(Drop)]
struct LastViews {
    chosen: Option<View>,
    begun: Option<View>,
}

/// What was heard of a group so far.
#[derive(Drop)]
pub struct Judge {
    /// The first fault, if there was one.
    pub fault: Option<Fault>,
    /// The number of the founding, 0 before the group is open.
    pub founding: u64,
    // By shards.
    views: Vec<LastViews>,
    holders: Vec<(NodeId, Ticket)>,
}

// Notes a view, if it is later than the last one. It gives whether it is.
fn note(last: &mut Option<View>, alloc: Global, view: &View) -> Result<bool, Memory> {
    let epoch = match last {
        Some(view) => view.epoch,
        None => 0,
    };
    if view.epoch <= epoch {
        return Ok(false);
    }
    *last = Some(view.copy(alloc)?);
    Ok(true)
}

impl Judge {
    /// Nothing was heard yet.
    pub fn new(alloc: Global) -> Result<Judge, Memory> {
        let mut views = Vec::new(alloc);
        for _shard in 0..SHARDS {
            views.push(LastViews {
                chosen: None,
                begun: None,
            })?;
        }
        Ok(Judge {
            fault: None,
            founding: 0,
            views,
            holders: Vec::new(alloc),
        })
    }

    /// This happened.
    pub fn blame(&mut self, fault: Fault) {
        if self.fault.is_none() {
            self.fault = Some(fault);
        }
    }

    /// A manager is open with this founding.
    pub fn note_open(&mut self, founding: u64) {
        if self.founding == 0 {
            self.founding = founding;
        } else if self.founding != founding {
            self.blame(Fault::TwoFoundings);
        }
    }

    /// A process made its node of this number.
    pub fn note_holder(&mut self, number: NodeId, ticket: Ticket) -> Result<(), Memory> {
        let is_taken = self
            .holders
            .iter()
            .any(|(other, holder)| *other == number && *holder != ticket);
        if is_taken {
            self.blame(Fault::TwoHolders { number: number.0 });
        }
        self.holders.push((number, ticket))?;
        Ok(())
    }

    /// Somebody told that a view was chosen.
    pub fn note_chosen(&mut self, alloc: Global, shard: u8, view: &View) -> Result<(), Memory> {
        if let Some(last) = self.views.get_mut(usize::from(shard)) {
            note(&mut last.chosen, alloc, view)?;
        }
        Ok(())
    }

    /// A view began at a node. It gives whether that is the first one at which it did.
    pub fn note_begun(&mut self, alloc: Global, shard: u8, view: &View) -> Result<bool, Memory> {
        self.note_chosen(alloc, shard, view)?;
        match self.views.get_mut(usize::from(shard)) {
            Some(last) => note(&mut last.begun, alloc, view),
            None => Ok(false),
        }
    }

    /// The last view of a shard that was chosen.
    pub fn chosen(&self, shard: usize) -> Option<&View> {
        self.views.get(shard)?.chosen.as_ref()
    }

    /// The last view of a shard that began.
    pub fn begun(&self, shard: usize) -> Option<&View> {
        self.views.get(shard)?.begun.as_ref()
    }
}
