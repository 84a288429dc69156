//! Events of one actor but calls, ticks and crashes: which one acts, and in what event of its own.

ghost use Rattle.std.specs.Prelude.{◌≡◌, ◌≤◌, IfOk};
ghost use Rattle.hk_base.specs.Range.{IsRoom};
ghost use Rattle.hk_base.specs.declared.time.TheConstants.{MAX_TIME};
ghost use Rattle.hk_manager.specs.declared.event.ManagerEvent.TheVariants.{Receive as Receipt};
ghost use Rattle.hk_node.specs.declared.event.NodeEvent.TheVariants.{Resend as NodeResend, Replay as NodeReplay, Receive, Install as NodeInstall};
ghost use Rattle.hk_event.specs.declared.event.Event.TheVariants.{Take, Resend, Replay, Copy, Install, Lease, AskLease, Propose, Activate};
ghost use Rattle.hk_world.specs.Sound.{IsStepOf};

use super::World;
use super::numbers::numbered;
use crate::fault::WorldFault;
use crate::shown::Shown;
use hk_base::{Actor, Change, Key, Letter, Memory, NodeId, View};
use hk_event::Refused;
use hk_manager::ManagerEvent;
use hk_node::NodeEvent;
use std::alloc::Global;

// The letter is taken, as an event of its addressee.
fn receive(alloc: Global, letter: &Letter) -> Result<NodeEvent, Memory>
    ensures { IfOk result (λ event. event ≡ Receive letter.now) }
{
    let letter = letter.share(alloc)?;
    Ok(NodeEvent::Receive(letter))
}

fn resend(key: &Key) -> Result<NodeEvent, Memory>
    ensures { IfOk result (λ event. event ≡ NodeResend key.now) }
{
    let key = key.share()?;
    Ok(NodeEvent::Resend(key))
}

fn replay(key: &Key) -> Result<NodeEvent, Memory>
    ensures { IfOk result (λ event. event ≡ NodeReplay key.now) }
{
    let key = key.share()?;
    Ok(NodeEvent::Replay(key))
}

fn install(alloc: Global, view: &View) -> Result<NodeEvent, Memory>
    ensures { IfOk result (λ event. event ≡ NodeInstall view.now) }
{
    let view = view.copy(alloc)?;
    Ok(NodeEvent::Install(view))
}

fn receipt(alloc: Global, letter: &Letter) -> Result<ManagerEvent, Memory>
    ensures { IfOk result (λ event. event ≡ Receipt letter.now) }
{
    let letter = letter.share(alloc)?;
    Ok(ManagerEvent::Receive(letter))
}

impl World {
    /// The addressee of a letter takes it.
    pub(super) fn take(&mut self, alloc: Global, number: u64) -> Result<Shown, WorldFault>
        ensures { IsStepOf result self.old self.new (Take number) }
    {
        let Some(letter) = numbered(number, &self.letters) else {
            return Err(WorldFault::Refused(Refused::NoLetter));
        };
        match letter.to {
            Actor::Node(id) => {
                let event = receive(alloc, letter)?;
                self.act(alloc, id, None, &event)
            }
            Actor::Manager(manager) => {
                let event = receipt(alloc, letter)?;
                self.manage(alloc, manager, &event)
            }
        }
    }

    /// INV of the pending update of the node's key is sent again.
    pub(super) fn resend(
        &mut self,
        alloc: Global,
        id: NodeId,
        key: &Key,
    ) -> Result<Shown, WorldFault>
        ensures { IsStepOf result self.old self.new (Resend id key.now) }
    {
        let event = resend(key)?;
        self.act(alloc, id, None, &event)
    }

    /// The update of the node's Invalid row is sent again.
    pub(super) fn replay(
        &mut self,
        alloc: Global,
        id: NodeId,
        key: &Key,
    ) -> Result<Shown, WorldFault>
        ensures { IsStepOf result self.old self.new (Replay id key.now) }
    {
        let event = replay(key)?;
        self.act(alloc, id, None, &event)
    }

    /// The joiner asks another member for its next rows.
    pub(super) fn ask_copy(
        &mut self,
        alloc: Global,
        id: NodeId,
        from: NodeId,
        room: u8,
    ) -> Result<Shown, WorldFault>
        requires { IsRoom room }
        ensures { IsStepOf result self.old self.new (Copy id from room) }
    {
        self.act(alloc, id, None, &NodeEvent::AskCopy { from, room })
    }

    /// The node installs the agreed view of the epoch.
    pub(super) fn install(
        &mut self,
        alloc: Global,
        id: NodeId,
        epoch: u64,
    ) -> Result<Shown, WorldFault>
        ensures { IsStepOf result self.old self.new (Install id epoch) }
    {
        match self.may_install(id, epoch) {
            Ok(view) => {
                let event = install(alloc, view)?;
                self.act(alloc, id, None, &event)
            }
            Err(refused) => Err(WorldFault::Refused(refused)),
        }
    }

    /// The node is granted a lease.
    pub(super) fn lease(&mut self, alloc: Global, id: NodeId, end: u64) -> Result<Shown, WorldFault>
        requires { end ≤ MAX_TIME }
        ensures { IsStepOf result self.old self.new (Lease id end) }
    {
        let leave = self.may_lease(id, end);
        self.act_by(alloc, leave, &NodeEvent::Grant { end })
    }

    /// The node asks a manager for a lease.
    pub(super) fn ask_lease(
        &mut self,
        alloc: Global,
        id: NodeId,
        manager: u8,
    ) -> Result<Shown, WorldFault>
        ensures { IsStepOf result self.old self.new (AskLease id manager) }
    {
        self.act(alloc, id, None, &NodeEvent::AskLease { manager })
    }

    /// A manager proposes a change of the view of the epoch `base`.
    pub(super) fn propose(
        &mut self,
        alloc: Global,
        manager: u8,
        base: u64,
        change: Change,
    ) -> Result<Shown, WorldFault>
        ensures { IsStepOf result self.old self.new (Propose manager base change) }
    {
        self.manage(alloc, manager, &ManagerEvent::Propose { base, change })
    }

    /// A manager lets the view that it holds begin.
    pub(super) fn activate(&mut self, alloc: Global, manager: u8) -> Result<Shown, WorldFault>
        ensures { IsStepOf result self.old self.new (Activate manager) }
    {
        self.manage(alloc, manager, &ManagerEvent::Activate)
    }
}
