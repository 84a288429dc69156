//! Managers made anew from their log.

ghost use Rattle.std.specs.Prelude.{◌≡◌, ◌<◌, All, map, IfOk, OnOk};
ghost use Rattle.hk_base.specs.Range.{IsLetter};
ghost use Rattle.hk_base.specs.declared.letter.Actor.TheVariants.{Node as NodeActor, Manager as ManagerActor};
ghost use Rattle.hk_base.specs.declared.letter.Body.TheVariants.{LeaseAsk};
ghost use Rattle.hk_log.specs.Entries.{IsEntryInRange};
ghost use Rattle.hk_manager.specs.Sound.{IsManager};
ghost use Rattle.hk_manager.specs.declared.event.ManagerEvent.TheVariants.{Propose as Proposing, Receive as Receiving};
ghost use Rattle.hk_manager.specs.Outs.{IsMadeOf, IsStepOf};
ghost use Rattle.hk_manager.specs.Steps.{manager_step, receives, proposes};
ghost use Rattle.hk_return.specs.Log.{ask_of, manager_or};
ghost use Rattle.hk_durable.specs.Batches.{AreManagers};
ghost use Rattle.hk_durable.specs.Replays.{noted, TakesAsks, anew, taken_up, all_taken_up, IsAnswered};

use crate::managers::Managers;
use hk_base::{Actor, Body, Change, Letter, Memory, NodeId};
use hk_log::Entry;
use hk_manager::{Manager, ManagerFault, ManagerOut, steps_keep_managers};
use hk_return::logs_are_replayed;
use std::alloc::Global;

// The letter by which a node asks for a lease when its clock reads 0.
fn ask_of(manager: u8, node: NodeId) -> Letter
    requires { manager < 9 }
    ensures letter { result ≡ record { epoch = 0; from = NodeActor node; to = ManagerActor manager; body = LeaseAsk 0 } }
    ensures range { IsLetter result }
{
    Letter {
        epoch: 0,
        from: Actor::Node(node),
        to: Actor::Manager(manager),
        body: Body::LeaseAsk { asked: 0 },
    }
}

// Nobody hears of what a step told.
fn forget(_told: ManagerOut) {}

// The step of a letter at a manager.
fn take(alloc: Global, manager: &mut Manager, letter: &Letter) -> Result<ManagerOut, Memory>
    requires sound { IsManager manager.old }
    requires letter { IsLetter letter.now }
    ensures made { IsMadeOf result manager.old manager.new (receives manager.old letter.now) }
    ensures number { manager.new.id ≡ manager.old.id }
    ensures leases { manager.new.lease ≡ manager.old.lease }
    ensures sound { IsManager manager.new }
{
    steps_keep_managers();
    manager.receive(alloc, letter)
}

// The step of a proposal at a manager.
fn propose(
    alloc: Global,
    manager: &mut Manager,
    base: u64,
    change: Change,
) -> Result<ManagerOut, ManagerFault>
    requires { IsManager manager.old }
    ensures made { IsStepOf result manager.old manager.new (proposes manager.old base change) }
    ensures number { manager.new.id ≡ manager.old.id }
    ensures leases { manager.new.lease ≡ manager.old.lease }
    ensures sound { IsManager manager.new }
{
    steps_keep_managers();
    manager.propose(alloc, base, change)
}

// The manager takes an ask for a lease from a node, and nobody hears of the answer.
fn note(alloc: Global, id: u8, manager: &mut Manager, node: NodeId) -> Result<(), Memory>
    requires few { id < 9 }
    requires number { manager.old.id ≡ id }
    requires sound { IsManager manager.old }
    ensures noted { OnOk result (manager.new ≡ manager_or manager.old (manager_step manager.old (ask_of manager.old node))) }
    ensures number { manager.new.id ≡ id }
    ensures leases { manager.new.lease ≡ manager.old.lease }
    ensures sound { IsManager manager.new }
{
    let ask = ask_of(id, node);
    match take(alloc, manager, &ask) {
        Ok(told) => {
            forget(told);
            Ok(())
        }
        Err(memory) => Err(memory),
    }
}

// The manager takes asks for leases of these nodes.
fn note_each(alloc: Global, id: u8, manager: &mut Manager, nodes: Vec<NodeId>) -> Result<(), Memory>
    requires few { id < 9 }
    requires number { manager.old.id ≡ id }
    requires sound { IsManager manager.old }
    ensures asked { OnOk result (TakesAsks manager.old nodes.items manager.old manager.new) }
    ensures number { manager.new.id ≡ id }
    ensures leases { manager.new.lease ≡ manager.old.lease }
    ensures sound { IsManager manager.new }
{
    for node in nodes {
        note(alloc, id, manager, node)?;
    }
    Ok(())
}

// The members of the view that the manager holds.
fn members_of(alloc: Global, manager: &Manager) -> Result<Vec<NodeId>, Memory>
    ensures { IfOk result (λ members. members.items ≡ manager.now.held.members) }
{
    let members = manager.held().members.as_slice().to_vec(alloc)?;
    Ok(members)
}

// Notes the until of a lease that is granted now for each member of the view that the manager holds: it takes an ask of each.
fn note_members(alloc: Global, id: u8, manager: &mut Manager) -> Result<(), Memory>
    requires few { id < 9 }
    requires number { manager.old.id ≡ id }
    requires sound { IsManager manager.old }
    ensures noted { OnOk result (manager.new ≡ noted manager.old) }
    ensures number { manager.new.id ≡ id }
    ensures leases { manager.new.lease ≡ manager.old.lease }
    ensures sound { IsManager manager.new }
{
    logs_are_replayed();
    let members = members_of(alloc, manager)?;
    note_each(alloc, id, manager, members)
}

// Notes the untils, and makes the step of a proposal.
fn propose_anew(
    alloc: Global,
    id: u8,
    manager: &mut Manager,
    base: u64,
    change: Change,
) -> Result<(), ManagerFault>
    requires few { id < 9 }
    requires number { manager.old.id ≡ id }
    requires sound { IsManager manager.old }
    ensures anew { IsAnswered result (anew manager.old (Proposing base change)) manager.new }
    ensures number { manager.new.id ≡ id }
    ensures leases { manager.new.lease ≡ manager.old.lease }
    ensures sound { IsManager manager.new }
{
    note_members(alloc, id, manager)?;
    match propose(alloc, manager, base, change) {
        Ok(told) => {
            forget(told);
            Ok(())
        }
        Err(fault) => Err(fault),
    }
}

// Notes the untils, and makes the step of a letter.
fn take_anew(
    alloc: Global,
    id: u8,
    manager: &mut Manager,
    letter: &Letter,
) -> Result<(), ManagerFault>
    requires few { id < 9 }
    requires number { manager.old.id ≡ id }
    requires sound { IsManager manager.old }
    requires letter { IsLetter letter.now }
    ensures anew { IsAnswered result (anew manager.old (Receiving letter.now)) manager.new }
    ensures number { manager.new.id ≡ id }
    ensures leases { manager.new.lease ≡ manager.old.lease }
    ensures sound { IsManager manager.new }
{
    note_members(alloc, id, manager)?;
    match take(alloc, manager, letter) {
        Ok(told) => {
            forget(told);
            Ok(())
        }
        Err(Memory) => Err(ManagerFault::Memory),
    }
}

// Notes the untils at each of these managers.
fn note_all(alloc: Global, id: u8, lease: u64, managers: &mut Vec<Manager>) -> Result<(), Memory>
    requires { AreManagers id lease managers.old.items }
    ensures noted { OnOk result (managers.new.items ≡ map noted managers.old.items) }
    ensures kept { AreManagers id lease managers.new.items }
{
    for manager in managers.iter_mut() {
        note_members(alloc, id, manager)?;
    }
    Ok(())
}

impl Managers {
    /// Takes up an entry of the log: the manager of its shard notes the until of a lease that is granted now for each member of the view that it holds, and makes
    /// its step anew. Where it refuses that, the entry is none of its log, and its fault is told. After a fault the managers are of no use.
    pub fn take_up_one(&mut self, alloc: Global, entry: &Entry) -> Result<(), ManagerFault>
        requires { IsEntryInRange entry.now }
        ensures { IsAnswered result (taken_up entry.now self.old) self.new }
    {
        let id = self.id;
        match entry {
            Entry::Propose {
                shard,
                base,
                change,
            } => propose_anew(
                alloc,
                id,
                &mut self.items[usize::from(*shard)],
                *base,
                *change,
            ),
            Entry::Receive { shard, letter } => {
                take_anew(alloc, id, &mut self.items[usize::from(*shard)], letter)
            }
            Entry::Founded(_) | Entry::Open | Entry::Bound { .. } => Ok(()),
        }
    }

    /// Takes up entries of the log, one after the other, up to the first that is refused.
    pub fn take_up(&mut self, alloc: Global, entries: &[Entry]) -> Result<(), ManagerFault>
        requires { All IsEntryInRange entries.now }
        ensures { IsAnswered result (all_taken_up entries.now self.old) self.new }
    {
        for entry in entries {
            self.take_up_one(alloc, entry)?;
        }
        Ok(())
    }

    /// Notes that until once more, behind the last entry. From here on the managers are those that return. After `Memory` they are of no use.
    pub fn note_untils(&mut self, alloc: Global) -> Result<(), Memory>
        ensures { OnOk result (self.new ≡ map noted self.old) }
    {
        note_all(alloc, self.id, self.lease, &mut self.items)
    }
}
