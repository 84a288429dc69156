//! The view that is agreed next.

ghost use Rattle.std.specs.Prelude.{◌≡◌, ◌+◌, ◌<◌, ◌++◌, ◌∷◌, [], Some, IfOk, OnOk, OnErr};
ghost use Rattle.hk_event.specs.declared.event.Event.TheVariants.{Agree};
ghost use Rattle.hk_world.specs.Steps.{nothing};
ghost use Rattle.hk_world.specs.Views.{dropped, added, next_of, IsNextOf};
ghost use Rattle.hk_world.specs.Sound.{IsStepOf};

use super::World;
use crate::fault::WorldFault;
use crate::shown::Shown;
use hk_base::{Change, Letters, Members, Memory, NodeId, View};
use hk_event::Refused;
use hk_node::StepReplies;
use std::alloc::Global;

// The members but one.
fn without(alloc: Global, id: NodeId, view: &View, epoch: u64) -> Result<View, Memory>
    requires { epoch ≡ view.now.epoch + 1 }
    ensures { IfOk result (λ next. next ≡ dropped view.now id) }
{
    let mut members = view.members.as_slice().to_vec(alloc)?;
    members.retain(|member| *member != id);
    Ok(View {
        epoch,
        members: Members::from_vec(members),
        next: view.next,
    })
}

// The members and the node of the next number.
fn with(alloc: Global, view: &View, epoch: u64) -> Result<View, Memory>
    requires epoch { epoch ≡ view.now.epoch + 1 }
    requires next { view.now.next < 65536 }
    ensures { IfOk result (λ next. next ≡ added view.now) }
{
    let mut members = view.members.as_slice().to_vec(alloc)?;
    members.push(NodeId(view.next as u16))?;
    Ok(View {
        epoch,
        members: Members::from_vec(members),
        next: view.next + 1,
    })
}

// The view with the change, where there may be one. A count of epochs that is full is as want of memory.
fn next_view(alloc: Global, view: &View, change: Change) -> Result<View, WorldFault>
    ensures { IsNextOf result (next_of view.now change) }
{
    let Some(epoch) = view.epoch.checked_add(1) else {
        return Err(WorldFault::Memory);
    };
    match change {
        Change::Drop(id) => {
            if !view.has_member(id) {
                return Err(WorldFault::Refused(Refused::NoSuchMember));
            }
            if view.members.len() == 1 {
                return Err(WorldFault::Refused(Refused::LastMember));
            }
            let next = without(alloc, id, view, epoch)?;
            Ok(next)
        }
        Change::Add => {
            if view.members.len() >= 16 {
                return Err(WorldFault::Refused(Refused::Full));
            }
            if view.next >= 65_536 {
                return Err(WorldFault::Refused(Refused::NoNumbers));
            }
            let next = with(alloc, view, epoch)?;
            Ok(next)
        }
    }
}

// The view is shown, and nothing else.
fn agreed(alloc: Global, view: View) -> Shown
    ensures { result ≡ record nothing { view = Some view } }
{
    Shown {
        call: None,
        view: Some(view),
        chosen: None,
        installed: None,
        first_letter: 0,
        letters: Letters::new(alloc),
        replies: StepReplies::nothing(),
        acted: None,
    }
}

// Adds the view, and a copy of it is left to show.
fn add(alloc: Global, views: &mut Vec<View>, view: View) -> Result<View, Memory>
    ensures shown { IfOk result (λ shown. shown ≡ view) }
    ensures ok { OnOk result (views.new.items ≡ views.old.items ++ view ∷ []) }
    ensures err { OnErr result (views.new.items ≡ views.old.items) }
{
    let shown = view.copy(alloc)?;
    views.push(view)?;
    Ok(shown)
}

impl World {
    /// The next view is agreed.
    pub(super) fn agree(&mut self, alloc: Global, change: Change) -> Result<Shown, WorldFault>
        ensures { IsStepOf result self.old self.new (Agree change) }
    {
        if self.is_managed() {
            return Err(WorldFault::Refused(Refused::Managed));
        }
        let next = match next_view(alloc, self.last_view(), change) {
            Ok(next) => next,
            Err(fault) => return Err(fault),
        };
        let shown = add(alloc, &mut self.views, next)?;
        Ok(agreed(alloc, shown))
    }
}
