//! The managers of one number.

ghost use Rattle.std.specs.Prelude.{◌≡◌, ◌<◌, ◌≤◌, length, replicate, Some, IfOk, OnErr};
ghost use Rattle.std.specs.List.{AllByRecursion, slice_get};
ghost use Rattle.hk_base.specs.declared.time.TheConstants.{MAX_TIME};
ghost use Rattle.hk_base.specs.Range.{IsLetter};
ghost use Rattle.hk_base.specs.View.{IsView};
ghost use Rattle.hk_manager.specs.Sound.{IsManager, IsManagerEvent, manager_new};
ghost use Rattle.hk_manager.specs.Steps.{manager_step, manager_ticks};
ghost use Rattle.hk_manager.specs.Outs.{IsStepOf};
ghost use Rattle.hk_durable.specs.Batches.{ticked, may_begin, IsStepAt, IsRefusal};

use hk_base::{Letters, Memory, SHARDS, View};
use hk_lease::wait;
use hk_manager::{Manager, ManagerEvent, ManagerFault, ManagerOut, steps_keep_managers};
use std::alloc::Global;
use std::marker::Model;

/// The managers of one number, one for each of eight shards. Contracts see them in the order of their shards.
#[derive(Drop)]
pub struct Managers {
    pub(crate) id: u8,
    pub(crate) lease: u64,
    pub(crate) items: Vec<Manager>,
}

impl Model for Managers {
    ghost use Rattle.std.specs.Prelude.{List};
    ghost use Rattle.hk_manager.specs.Manager.{ManagerState};
    ghost use Rattle.hk_durable.specs.Batches.{AreManagers};

    ghost Value = { List ManagerState };

    ghost view = { λ m. m.items.items };

    ghost invariant = { λ m. AreManagers m.id m.lease m.items.items };
}

// A manager with the first view.
fn new_manager(
    alloc: Global,
    id: u8,
    managers: u8,
    view: &View,
    lease: u64,
) -> Result<Manager, Memory>
    requires few { managers ≤ 9 }
    requires number { id < managers }
    requires view { IsView view.now }
    requires lease { lease ≤ MAX_TIME }
    ensures { IfOk result (λ manager. manager ≡ manager_new id managers view.now lease) }
{
    let view = view.copy(alloc)?;
    Manager::new(alloc, id, managers, view, lease)
}

// The clock of a manager rises to `now`.
fn tick(manager: &mut Manager, alloc: Global, now: u64)
    requires { now ≤ MAX_TIME }
    ensures { manager.new ≡ (manager_ticks manager.old now).manager }
{
    manager.tick(alloc, now);
}

// The clocks of these managers rise to `now`.
fn tick_all(managers: &mut Vec<Manager>, alloc: Global, now: u64)
    requires { now ≤ MAX_TIME }
    ensures { managers.new.items ≡ ticked now managers.old.items }
{
    for manager in managers.iter_mut() {
        tick(manager, alloc, now);
    }
}

// The step of an event at a manager.
fn step(
    alloc: Global,
    manager: &mut Manager,
    event: &ManagerEvent,
) -> Result<ManagerOut, ManagerFault>
    requires sound { IsManager manager.old }
    requires event { IsManagerEvent event.now }
    ensures made { IsStepOf result manager.old manager.new (manager_step manager.old event.now) }
    ensures in_range { IfOk result (λ out. AllByRecursion IsLetter out.letters) }
    ensures sound { IsManager manager.new }
    ensures number { manager.new.id ≡ manager.old.id }
    ensures leases { manager.new.lease ≡ manager.old.lease }
{
    steps_keep_managers();
    manager.step(alloc, event)
}

// Whether the clock of a manager with leases of this length reads more than 1 and the wait.
fn is_behind(lease: u64, manager: &Manager) -> bool
    requires within { lease ≤ MAX_TIME }
    requires leases { manager.now.lease ≡ lease }
    ensures { result ≡ may_begin (Some manager.now) }
{
    1 + wait(lease) < manager.now()
}

fn letters_of(out: ManagerOut) -> Letters
    ensures { result ≡ out.letters }
{
    out.letters
}

impl Managers {
    /// The managers of this number among so many, each with the first view, whose members have a lease of the length `lease`, in milliseconds.
    pub fn founding(
        alloc: Global,
        id: u8,
        managers: u8,
        view: &View,
        lease: u64,
    ) -> Result<Managers, Memory>
        requires few { managers ≤ 9 }
        requires number { id < managers }
        requires view { IsView view.now }
        requires lease { lease ≤ MAX_TIME }
        ensures { IfOk result (λ made. made ≡ replicate 8 (manager_new id managers view.now lease)) }
    {
        let mut items = Vec::new(alloc);
        for _shard in 0..SHARDS {
            items.push(new_manager(alloc, id, managers, view, lease)?)?;
        }
        Ok(Managers { id, lease, items })
    }

    /// The manager of a shard, 0 to 7.
    pub fn of(&self, shard: u8) -> &Manager
        requires { shard < 8 }
        ensures at { slice_get self.now shard ≡ Some result.now }
    {
        &self.items[usize::from(shard)]
    }

    /// Whether the clock of a shard's manager reads more than 1 and the wait. Before, it lets no view begin.
    pub fn may_begin(&self, shard: u8) -> bool
        requires { shard < 8 }
        ensures { result ≡ may_begin (slice_get self.now shard) }
    {
        is_behind(self.lease, &self.items[usize::from(shard)])
    }

    /// The clocks of all managers rise to `now`. It takes no memory.
    pub fn tick(&mut self, alloc: Global, now: u64)
        requires { now ≤ MAX_TIME }
        ensures { self.new ≡ ticked now self.old }
    {
        steps_keep_managers();
        tick_all(&mut self.items, alloc, now);
    }

    /// The manager of the shard makes the step of an event, and gives the letters that it sends; or it refuses it, by the fault that is told, or memory is wanting,
    /// and all are as they were.
    pub fn step(
        &mut self,
        alloc: Global,
        shard: u8,
        event: &ManagerEvent,
    ) -> Result<Letters, ManagerFault>
        requires shard { shard < 8 }
        requires event { IsManagerEvent event.now }
        ensures made { IfOk result (λ letters. IsStepAt shard event.now self.old letters self.new) }
        ensures refused { IsRefusal result shard event.now self.old }
        ensures kept { OnErr result (self.new ≡ self.old) }
        ensures in_range { IfOk result (λ letters. AllByRecursion IsLetter letters) }
    {
        let out = step(alloc, &mut self.items[usize::from(shard)], event)?;
        Ok(letters_of(out))
    }
}
