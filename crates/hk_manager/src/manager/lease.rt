//! Leases, and views that begin.

ghost use Rattle.std.specs.Prelude.{◌≡◌, ◌≤◌, IfOk, OnOk, OnErr};
ghost use Rattle.hk_lease.specs.Grants.{with_grant};
ghost use Rattle.hk_base.specs.declared.time.TheConstants.{MAX_TIME};
ghost use Rattle.hk_manager.specs.Steps.{asks_lease, activates};
ghost use Rattle.hk_manager.specs.Undone.{HasReplaced, TellsReplaced};
ghost use Rattle.hk_manager.specs.Outs.{IsMadeOf, IsStepOf};

use super::Manager;
use super::post::idle;
use crate::fault::ManagerFault;
use crate::out::{ManagerOut, Replaced};
use hk_base::{Actor, Body, Letters, MAX_TIME, Memory, NodeId};
use hk_lease::wait;
use std::alloc::Global;

impl Manager {
    // Notes an until for the node. It gives what the step replaced.
    fn note(&mut self, node: NodeId, until: u64) -> Result<Replaced, Memory>
        ensures ok { OnOk result (self.new ≡ record self.old { untils = with_grant self.old.untils node until }) }
        ensures replaced { IfOk result (λ replaced. HasReplaced replaced self.old self.new) }
        ensures err { OnErr result (self.new ≡ self.old) }
    {
        let noted = self.untils.noted(node);
        self.untils.grant(node, until)?;
        Ok(Replaced::Until { node, until: noted })
    }

    /// Takes a LeaseAsk, at `asked` milliseconds by the asker's clock.
    pub(super) fn take_ask(
        &mut self,
        alloc: Global,
        from: NodeId,
        asked: u64,
    ) -> Result<ManagerOut, Memory>
        requires { asked ≤ MAX_TIME }
        ensures made { IsMadeOf result self.old self.new (asks_lease self.old from asked) }
        ensures replaced { TellsReplaced result self.old self.new }
    {
        if !self.held.has_member(from) {
            return Ok(idle(alloc));
        }
        let end = (asked + self.lease).min(MAX_TIME);
        let until = self.clock + wait(self.lease);
        let mut letters = Letters::new(alloc);
        self.post(
            &mut letters,
            self.held.epoch,
            Body::LeaseGive { end },
            Actor::Node(from),
        )?;
        let replaced = self.note(from, until)?;
        Ok(ManagerOut {
            letters,
            chosen: None,
            replaced,
        })
    }

    /// Tells the members of the view that it holds that it may begin, where its clock is past every until that it noted outside.
    pub fn activate(&self, alloc: Global) -> Result<ManagerOut, ManagerFault>
        ensures made { IsStepOf result self.now self.now (activates self.now) }
        ensures replaced { TellsReplaced result self.now self.now }
    {
        if let Err(running) = self.untils.all_past(&self.held, self.clock) {
            return Err(ManagerFault::NotPast {
                node: running.node,
                end: running.end,
            });
        }
        let body = Body::Activate(self.held.copy(alloc)?);
        let letters = self.post_members(alloc, self.held.epoch, &body)?;
        Ok(ManagerOut {
            letters,
            chosen: None,
            replaced: Replaced::Nothing,
        })
    }
}
