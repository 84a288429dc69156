//! The view that follows another one.

ghost use Rattle.std.specs.Prelude.{◌≡◌, ◌+◌, ◌<◌, None, Some, Ok, Err, IfOk};
ghost use Rattle.hk_base.specs.declared.view.Change.TheVariants.{Drop, Add};
ghost use Rattle.hk_manager.specs.Changes.{changed, change_fault};
ghost use Rattle.hk_manager.specs.Outs.{IsFaultOf};

use crate::fault::ManagerFault;
use hk_base::{Change, Members, Memory, NodeId, View};
use std::alloc::Global;

/// Why the view can't be changed so, if it can't. It takes no memory.
pub(crate) fn check_change(view: &View, change: Change) -> Result<(), ManagerFault>
    ensures { IsFaultOf result (change_fault view.now change) }
{
    match change {
        Change::Drop(node) => {
            if !view.has_member(node) {
                return Err(ManagerFault::NoSuchMember);
            }
            if view.members.len() == 1 {
                return Err(ManagerFault::LastMember);
            }
            Ok(())
        }
        Change::Add => {
            if view.members.len() >= 16 {
                return Err(ManagerFault::Full);
            }
            if view.next >= 65_536 {
                return Err(ManagerFault::NoNumbers);
            }
            Ok(())
        }
    }
}

// The members but one.
fn without(alloc: Global, view: &View, node: NodeId) -> Result<View, Memory>
    requires { view.now.epoch < 18446744073709551615 }
    ensures { IfOk result (λ next. next ≡ changed view.now (Drop node)) }
{
    let mut members = view.members.as_slice().to_vec(alloc)?;
    members.retain(|member| *member != node);
    Ok(View {
        epoch: view.epoch + 1,
        members: Members::from_vec(members),
        next: view.next,
    })
}

// The members and the node of the next number.
fn with(alloc: Global, view: &View) -> Result<View, Memory>
    requires epoch { view.now.epoch < 18446744073709551615 }
    requires next { view.now.next < 65536 }
    ensures { IfOk result (λ next. next ≡ changed view.now Add) }
{
    let mut members = view.members.as_slice().to_vec(alloc)?;
    members.push(NodeId(view.next as u16))?;
    Ok(View {
        epoch: view.epoch + 1,
        members: Members::from_vec(members),
        next: view.next + 1,
    })
}

/// The view with the change, which must be one that it can have.
pub(crate) fn changed(alloc: Global, view: &View, change: Change) -> Result<View, Memory>
    requires epoch { view.now.epoch < 18446744073709551615 }
    requires possible { change_fault view.now change ≡ None }
    ensures { IfOk result (λ next. next ≡ changed view.now change) }
{
    match change {
        Change::Drop(node) => without(alloc, view, node),
        Change::Add => with(alloc, view),
    }
}
