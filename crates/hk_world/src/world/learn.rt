//! Sending what a manager's step gave, and learning the view that it holds.

ghost use Rattle.std.specs.Prelude.{◌≡◌, ◌++◌, IfOk, OnOk, OnErr};
ghost use Rattle.hk_manager.specs.Sound.{IsManager};
ghost use Rattle.hk_manager.specs.Undone.{rolled_back, IsThere};
ghost use Rattle.hk_world.specs.World.{last_view};
ghost use Rattle.hk_world.specs.Steps.{held_of, learned};
ghost use Rattle.hk_world.specs.Posted.{manager_posted};

use super::numbers::numbered;
use super::post::{Sent, first_number, send};
use crate::shown::Shown;
use hk_base::{Letter, Letters, Memory, View};
use hk_manager::{Manager, ManagerOut};
use hk_node::StepReplies;
use std::alloc::Global;

// The epoch of the last view.
fn last_epoch(views: &[View]) -> u64
    ensures { result ≡ (last_view views.now).epoch }
{
    match numbered(views.len() as u64, views) {
        Some(view) => view.epoch,
        None => 0,
    }
}

// The view comes behind all others, where no view of its epoch or of a greater one was learned.
fn learn(alloc: Global, views: &mut Vec<View>, held: &View) -> Result<(), Memory>
    ensures ok { OnOk result (views.new.items ≡ learned views.old.items held.now) }
    ensures err { OnErr result (views.new.items ≡ views.old.items) }
{
    if held.epoch <= last_epoch(views) {
        return Ok(());
    }
    let view = held.copy(alloc)?;
    views.push(view)?;
    Ok(())
}

// The view that the manager holds, where that is another one than before.
fn copy_held(alloc: Global, manager: &Manager, chosen: Option<u64>) -> Result<Option<View>, Memory>
    ensures { IfOk result (λ view. view ≡ held_of chosen manager.now) }
{
    if chosen.is_none() {
        return Ok(None);
    }
    let view = manager.held().copy(alloc)?;
    Ok(Some(view))
}

// Learns the view that the manager holds, and sends letters. After `Memory` all is as it was.
fn learn_and_send(
    alloc: Global,
    manager: &Manager,
    sent: &mut Vec<Letter>,
    views: &mut Vec<View>,
    letters: Letters,
    chosen: Option<u64>,
) -> Result<Sent, Memory>
    ensures views { OnOk result (views.new.items ≡ learned views.old.items manager.now.held) }
    ensures sent { OnOk result (sent.new.items ≡ sent.old.items ++ letters) }
    ensures letters { IfOk result (λ told. told.letters ≡ letters) }
    ensures view { IfOk result (λ told. told.view ≡ held_of chosen manager.now) }
    ensures unlearned { OnErr result (views.new.items ≡ views.old.items) }
    ensures unsent { OnErr result (sent.new.items ≡ sent.old.items) }
{
    let view = copy_held(alloc, manager, chosen)?;
    let known = views.len();
    learn(alloc, views, manager.held())?;
    match send(alloc, sent, letters, view) {
        Ok(told) => Ok(told),
        Err(error) => {
            views.truncate(known);
            Err(error)
        }
    }
}

/// Sends the letters of a step that the manager has made, learns the view that it holds, and tells what the step shows. What is
/// shown shares each letter. After `Memory` nothing is sent or learned, and the step is undone.
pub(super) fn post_of_manager(
    alloc: Global,
    number: u8,
    manager: &mut Manager,
    sent: &mut Vec<Letter>,
    views: &mut Vec<View>,
    out: ManagerOut,
) -> Result<Shown, Memory>
    requires there { IsThere out.replaced manager.old }
    requires before { IsManager (rolled_back out.replaced manager.old) }
    ensures manager { OnOk result (manager.new ≡ manager.old) }
    ensures letters { OnOk result (sent.new.items ≡ sent.old.items ++ out.letters) }
    ensures views { OnOk result (views.new.items ≡ learned views.old.items manager.old.held) }
    ensures shown { IfOk result (λ shown. shown ≡ manager_posted sent.old.items number manager.old out) }
    ensures undone { OnErr result (manager.new ≡ rolled_back out.replaced manager.old) }
    ensures unsent { OnErr result (sent.new.items ≡ sent.old.items) }
    ensures unlearned { OnErr result (views.new.items ≡ views.old.items) }
{
    let first_letter = first_number(sent, &out.letters);
    match learn_and_send(alloc, manager, sent, views, out.letters, out.chosen) {
        Ok(told) => Ok(Shown {
            call: None,
            view: told.view,
            chosen: out.chosen.map(|_| number),
            installed: None,
            first_letter,
            letters: told.letters,
            replies: StepReplies::nothing(),
            acted: None,
        }),
        Err(error) => {
            manager.undo(out.replaced);
            Err(error)
        }
    }
}
