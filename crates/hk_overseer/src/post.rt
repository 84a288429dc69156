//! Managers with their links.

ghost use Rattle.std.specs.Prelude.{◌≡◌, ◌<◌, ◌≤◌, length, IfOk, OnErr};
ghost use Rattle.std.specs.List.{AllByRecursion};
ghost use Rattle.hk_base.specs.declared.time.TheConstants.{MAX_TIME};
ghost use Rattle.hk_base.specs.Range.{IsLetter};
ghost use Rattle.hk_base.specs.View.{IsView};
ghost use Rattle.hk_manager.specs.Sound.{IsManager, manager_new};
ghost use Rattle.hk_manager.specs.Steps.{receives, manager_ticks};
ghost use Rattle.hk_manager.specs.Outs.{IsMadeOf};
ghost use Rattle.hk_overseer.specs.Overseer.{founding};
ghost use Rattle.hk_overseer.specs.Turns.{ticked, IsSteppedAt};

use crate::outlets::Outlets;
use hk_base::{Actor, Letter, Letters, Memory, SHARDS, View};
use hk_link::{Inlet, Outlet};
use hk_manager::{Manager, ManagerOut, steps_keep_managers};
use std::alloc::Global;
use std::marker::Model;

/// The managers of a program with one number, one for each of eight shard numbers, and their links. Contracts see these.
#[derive(Drop)]
pub struct ManagerPost {
    pub(crate) managers: Vec<Manager>,
    pub(crate) inlet: Inlet,
    pub(crate) outlets: Vec<(Actor, Outlet)>,
}

impl Model for ManagerPost {
    ghost use Rattle.std.specs.Prelude.{◌≡◌, length};
    ghost use Rattle.std.specs.List.{AllByRecursion};
    ghost use Rattle.std.specs.Coded.{codes};
    ghost use Rattle.hk_link.specs.contracts.rule.Known as known;
    ghost use Rattle.hk_manager.specs.Sound.{IsManager};
    ghost use Rattle.hk_overseer.specs.Overseer.{Overseer};

    ghost Value = { Overseer };

    ghost coded = { Prim.hlevel (codes, known.the_row.coded) };

    ghost view = { λ p. record { managers = p.managers.items; inlet = p.inlet; outlets = p.outlets.items } };

    ghost invariant = { λ p. (length p.managers.items ≡ 8) × AllByRecursion IsManager p.managers.items };
}

// A manager with the first view.
fn new_manager(
    alloc: Global,
    id: u8,
    managers: u8,
    view: &View,
    lease: u64,
) -> Result<Manager, Memory>
    requires few { managers ≤ 9 }
    requires number { id < managers }
    requires view { IsView view.now }
    requires lease { lease ≤ MAX_TIME }
    ensures made { IfOk result (λ manager. manager ≡ manager_new id managers view.now lease) }
{
    let view = view.copy(alloc)?;
    Manager::new(alloc, id, managers, view, lease)
}

fn founding(
    alloc: Global,
    id: u8,
    managers: u8,
    view: &View,
    lease: u64,
) -> Result<Vec<Manager>, Memory>
    requires few { managers ≤ 9 }
    requires number { id < managers }
    requires view { IsView view.now }
    requires lease { lease ≤ MAX_TIME }
    ensures { IfOk result (λ made. made.items ≡ founding id managers view.now lease) }
{
    let mut made = Vec::new(alloc);
    for _shard in 0..SHARDS {
        made.push(new_manager(alloc, id, managers, view, lease)?)?;
    }
    Ok(made)
}

// The clock of a manager rises to `now`.
fn tick(manager: &mut Manager, alloc: Global, now: u64)
    requires { now ≤ MAX_TIME }
    ensures { manager.new ≡ (manager_ticks manager.old now).manager }
{
    manager.tick(alloc, now);
}

/// The clocks of all managers rise to `now`. It takes no memory.
pub(crate) fn tick_all(managers: &mut Vec<Manager>, alloc: Global, now: u64)
    requires { now ≤ MAX_TIME }
    ensures { managers.new.items ≡ ticked now managers.old.items }
{
    for manager in managers.iter_mut() {
        tick(manager, alloc, now);
    }
}

fn letters_of(out: ManagerOut) -> Letters
    ensures { result ≡ out.letters }
{
    out.letters
}

// A manager takes a letter. Where memory is wanting, it is as it was.
fn step(alloc: Global, manager: &mut Manager, letter: &Letter) -> Result<ManagerOut, Memory>
    requires sound { IsManager manager.old }
    requires letter { IsLetter letter.now }
    ensures made { IsMadeOf result manager.old manager.new (receives manager.old letter.now) }
    ensures in_range { IfOk result (λ out. AllByRecursion IsLetter out.letters) }
    ensures sound { IsManager manager.new }
{
    steps_keep_managers();
    manager.receive(alloc, letter)
}

/// The manager of the shard takes a letter, and gives those that it sends. Where memory is wanting, all are as they were.
pub(crate) fn step_at(
    alloc: Global,
    managers: &mut Vec<Manager>,
    shard: u8,
    letter: &Letter,
) -> Result<Letters, Memory>
    requires shard { shard < length managers.old.items }
    requires sound { AllByRecursion IsManager managers.old.items }
    requires letter { IsLetter letter.now }
    ensures stepped { IfOk result (λ letters. IsSteppedAt shard letter.now managers.old.items letters managers.new.items) }
    ensures in_range { IfOk result (λ letters. AllByRecursion IsLetter letters) }
    ensures sound { AllByRecursion IsManager managers.new.items }
    ensures long { length managers.new.items ≡ length managers.old.items }
    ensures err { OnErr result (managers.new.items ≡ managers.old.items) }
{
    let out = step(alloc, &mut managers[usize::from(shard)], letter)?;
    Ok(letters_of(out))
}

impl ManagerPost {
    /// The managers of this number among so many, each with the first view, whose members have a lease of the length `lease`, in milliseconds. Their letters
    /// come by `inlet`, and theirs go by `outlets`.
    pub fn new(
        alloc: Global,
        id: u8,
        managers: u8,
        view: &View,
        lease: u64,
        inlet: Inlet,
        outlets: Outlets,
    ) -> Result<ManagerPost, Memory>
        requires few { managers ≤ 9 }
        requires number { id < managers }
        requires view { IsView view.now }
        requires lease { lease ≤ MAX_TIME }
        ensures { IfOk result (λ post. post ≡ record { managers = founding id managers view.now lease; inlet = inlet; outlets = outlets }) }
    {
        let managers = founding(alloc, id, managers, view, lease)?;
        Ok(ManagerPost {
            managers,
            inlet,
            outlets: outlets.into_vec(),
        })
    }
}
