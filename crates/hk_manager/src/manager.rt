//! A manager and its steps.

ghost use Rattle.std.specs.Prelude.{◌≡◌, ◌≤◌, ◌<◌, IfOk};
ghost use Rattle.hk_base.specs.declared.time.TheConstants.{MAX_TIME};
ghost use Rattle.hk_manager.specs.Sound.{founding_untils};

mod agree;
mod lease;
mod post;
mod propose;
mod put;
mod receive;
mod step;
mod undo;

use crate::instance::Instance;
use hk_base::{Memory, NodeId, View};
use hk_lease::{Grants, wait};
use hk_paxos::Proposer;
use std::alloc::Global;
use std::collections::BTreeMap;
use std::marker::Model;

/// A manager of a group.
#[derive(Drop)]
pub struct Manager {
    id: u8,
    managers: u8,
    lease: u64,
    held: View,
    clock: u64,
    untils: Grants,
    instances: BTreeMap<u64, Instance>,
    proposal: Option<Proposer>,
}

impl Model for Manager {
    ghost use Rattle.hk_manager.specs.Manager.{ManagerState};
    ghost use Rattle.hk_manager.specs.Sound.{IsManager};

    ghost Value = { ManagerState };

    ghost view = { λ m. record { id = m.id; managers = m.managers; lease = m.lease; held = m.held; clock = m.clock; untils = m.untils; instances = m.instances.entries; proposal = m.proposal } };

    ghost invariant = { λ m. IsManager (record { id = m.id; managers = m.managers; lease = m.lease; held = m.held; clock = m.clock; untils = m.untils; instances = m.instances.entries; proposal = m.proposal }) };
}

// The until of a first lease, for each founder.
fn founding_untils(alloc: Global, founders: &[NodeId], lease: u64) -> Result<Grants, Memory>
    requires { lease ≤ MAX_TIME }
    ensures { IfOk result (λ untils. untils ≡ founding_untils founders.now lease) }
{
    let until = wait(lease);
    let mut untils = Grants::new(alloc);
    for node in founders {
        untils.grant(*node, until)?;
    }
    Ok(untils)
}

impl Manager {
    ghost use Rattle.hk_base.specs.View.{IsView};
    ghost use Rattle.hk_manager.specs.Sound.{manager_new};

    /// The manager of this number among so many, with the first view, whose members have each a lease of the length `lease`, in
    /// milliseconds, from every manager. Its clock begins at 1.
    pub fn new(
        alloc: Global,
        id: u8,
        managers: u8,
        view: View,
        lease: u64,
    ) -> Result<Manager, Memory>
        requires few { managers ≤ 9 }
        requires number { id < managers }
        requires view { IsView view }
        requires lease { lease ≤ MAX_TIME }
        ensures { IfOk result (λ manager. manager ≡ manager_new id managers view lease) }
    {
        let untils = founding_untils(alloc, view.members.as_slice(), lease)?;
        Ok(Manager {
            id,
            managers,
            lease,
            held: view,
            clock: 1,
            untils,
            instances: BTreeMap::new(alloc),
            proposal: None,
        })
    }

    /// The view that it holds: of those that it learned, that of the greatest epoch.
    pub fn held(&self) -> &View
        ensures { result.now ≡ self.now.held }
    {
        &self.held
    }

    /// Its clock.
    pub fn now(&self) -> u64
        ensures { result ≡ self.now.clock }
    {
        self.clock
    }
}
