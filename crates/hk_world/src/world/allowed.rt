//! Which node an event lets act, or why it is refused.

ghost use Rattle.std.specs.Prelude.{◌≡◌, ◌≤◌, length, Err, None, IfOk, IfErr};
ghost use Rattle.std.specs.List.{list_any};
ghost use Rattle.hk_base.specs.View.{IsView, is_member};
ghost use Rattle.hk_node.specs.declared.event.NodeEvent.TheVariants.{Grant, Install as NodeInstall};
ghost use Rattle.hk_event.specs.declared.event.Event.TheVariants.{Install, Lease};
ghost use Rattle.hk_world.specs.World.{last_view};
ghost use Rattle.hk_world.specs.Views.{given_before};
ghost use Rattle.hk_world.specs.Steps.{may_join, world_step};
ghost use Rattle.hk_world.specs.Acting.{made_by, allowed};
ghost use Rattle.hk_world.specs.Allowed.{is_managed};

use super::World;
use super::numbers::numbered;
use super::scan::first_running;
use crate::process::ManagerProcess;
use hk_base::{NodeId, View};
use hk_event::Refused;

// How many numbers were given before the view of this epoch.
fn given_before(views: &[View], epoch: u64) -> u32
    ensures { result ≡ given_before views.now epoch }
{
    if epoch == 0 {
        return 0;
    }
    match numbered(epoch - 1, views) {
        Some(view) => view.next,
        None => 0,
    }
}

// Whether some manager holds a view that has the node as a member, also where it has crashed.
fn is_held(id: NodeId, managers: &[ManagerProcess]) -> bool
    ensures { result ≡ list_any (λ p. is_member id p.manager.held.members) managers.now }
{
    managers
        .iter()
        .any(|process| process.manager.held().has_member(id))
}

impl World {
    /// The last view.
    pub(super) fn last_view(&self) -> &View
        ensures { result.now ≡ last_view self.now.views }
    {
        &self.views[self.views.len() - 1]
    }

    /// Whether the group has managers, and so is not told its views and leases from outside.
    pub(super) fn is_managed(&self) -> bool
        ensures { result ≡ is_managed self.now.managers }
    {
        !self.managers.is_empty()
    }

    /// Whether the last view, or one that a manager holds, has the node as a member.
    pub(super) fn may_join(&self, id: NodeId) -> bool
        ensures { result ≡ may_join self.now id }
    {
        self.last_view().has_member(id) || is_held(id, &self.managers)
    }

    /// The view of the epoch. It is installed by a member that is in a lower epoch, and only where no lease outside the view
    /// may run.
    pub(super) fn may_install(&self, id: NodeId, epoch: u64) -> Result<&View, Refused>
        ensures ok { IfOk result (λ view. world_step self.now (Install id epoch) ≡ made_by self.now id None (NodeInstall view.now)) }
        ensures is_view { IfOk result (λ view. IsView view.now) }
        ensures err { IfErr result (λ refused. world_step self.now (Install id epoch) ≡ Err refused) }
    {
        if self.is_managed() {
            return Err(Refused::Managed);
        }
        let held = match self.live(id) {
            Ok(node) => node.epoch(),
            Err(refused) => return Err(refused),
        };
        let Some(view) = numbered(epoch, &self.views) else {
            return Err(Refused::NoView);
        };
        if !view.has_member(id) {
            return Err(Refused::NotMember);
        }
        if view.epoch <= held {
            return Err(Refused::Behind { held });
        }
        let given = given_before(&self.views, epoch);
        match first_running(&self.processes, self.skew, given, view) {
            Some(refused) => Err(refused),
            None => Ok(view),
        }
    }

    /// Only a member of the last agreed view is granted a lease.
    pub(super) fn may_lease(&self, id: NodeId, end: u64) -> Result<NodeId, Refused>
        ensures { world_step self.now (Lease id end) ≡ allowed result self.now (Grant end) }
    {
        if self.is_managed() {
            return Err(Refused::Managed);
        }
        if let Err(refused) = self.live(id) {
            return Err(refused);
        }
        if !self.last_view().has_member(id) {
            return Err(Refused::NotMember);
        }
        Ok(id)
    }
}
