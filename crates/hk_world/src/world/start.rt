//! Joiners that start.

ghost use Rattle.std.specs.Prelude.{◌≡◌, ◌≤◌, IfOk, OnOk, OnErr};
ghost use Rattle.std.specs.BTreeMap.{is_at};
ghost use Rattle.std.specs.Map.{remove_entry};
ghost use Rattle.hk_base.specs.declared.time.TheConstants.{MAX_TIME};
ghost use Rattle.hk_event.specs.declared.event.Event.TheVariants.{Start};
ghost use Rattle.hk_world.specs.World.{by_number, put_process};
ghost use Rattle.hk_world.specs.Allowed.{joined};
ghost use Rattle.hk_world.specs.Sound.{IsStepOf};

use super::World;
use super::post::nothing;
use crate::fault::WorldFault;
use crate::process::Process;
use crate::shown::Shown;
use hk_base::{Actor, Memory, NodeId};
use hk_event::Refused;
use hk_node::{Node, steps_keep_nodes};
use std::alloc::Global;
use std::collections::BTreeMap;

/// Puts a process under a number.
pub(super) fn put_in(
    processes: &mut BTreeMap<NodeId, Process>,
    id: NodeId,
    process: Process,
) -> Result<(), Memory>
    ensures ok { OnOk result (processes.new.entries ≡ put_process id process processes.old.entries) }
    ensures err { OnErr result (processes.new.entries ≡ processes.old.entries) }
{
    processes.insert(id, process)?;
    Ok(())
}

// Takes the process of a number out. It takes no memory.
fn take_out(processes: &mut BTreeMap<NodeId, Process>, id: NodeId)
    ensures { processes.new.entries ≡ remove_entry (is_at (by_number id)) processes.old.entries }
{
    processes.remove(&id);
}

// A joiner of a group with so many managers, whose clock reads so much.
fn joiner(alloc: Global, id: NodeId, skew: u64, managers: u8, clock: u64) -> Result<Process, Memory>
    requires skew { skew ≤ MAX_TIME }
    requires few { managers ≤ 9 }
    requires clock { clock ≤ MAX_TIME }
    ensures { IfOk result (λ process. process ≡ joined id skew managers clock) }
{
    let node = Node::joiner(alloc, id, skew, managers)?;
    let mut process = Process {
        node,
        crashed: false,
    };
    process.tick(alloc, clock);
    Ok(process)
}

impl World {
    /// A joiner starts, as the last view has it, or one that a manager holds. Its clock is the greatest of a live actor.
    pub(super) fn start(&mut self, alloc: Global, id: NodeId) -> Result<Shown, WorldFault>
        ensures { IsStepOf result self.old self.new (Start id) }
    {
        steps_keep_nodes();
        if self.processes.contains_key(&id) {
            return Err(WorldFault::Refused(Refused::Started));
        }
        if !self.may_join(id) {
            return Err(WorldFault::Refused(Refused::NotMember));
        }
        let clock = self.clocks.greatest(1);
        let process = joiner(alloc, id, self.skew, self.managers.len() as u8, clock)?;
        put_in(&mut self.processes, id, process)?;
        if let Err(fault) = self.clocks.start(alloc, Actor::Node(id), clock) {
            take_out(&mut self.processes, id);
            return Err(WorldFault::from(fault));
        }
        Ok(nothing(alloc))
    }
}
