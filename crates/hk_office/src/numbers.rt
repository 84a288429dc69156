//! The numbers of which boards tell.

ghost use Rattle.std.specs.Prelude.{◌≡◌, IfOk, OnOk};
ghost use Rattle.hk_office.specs.Numbers.{with_number, with_next, with_view, numbers};

use hk_base::{Memory, NodeId, View};
use std::alloc::Global;

// Notes a number, once.
fn note(numbers: &mut Vec<NodeId>, node: NodeId) -> Result<(), Memory>
    ensures { OnOk result (numbers.new.items ≡ with_number numbers.old.items node) }
{
    if !numbers.as_slice().contains(&node) {
        numbers.push(node)?;
    }
    Ok(())
}

fn note_next(numbers: &mut Vec<NodeId>, next: u32) -> Result<(), Memory>
    ensures { OnOk result (numbers.new.items ≡ with_next numbers.old.items next) }
{
    if next < 65_536 {
        note(numbers, NodeId(next as u16))
    } else {
        Ok(())
    }
}

fn note_view(numbers: &mut Vec<NodeId>, view: &View) -> Result<(), Memory>
    ensures { OnOk result (numbers.new.items ≡ with_view numbers.old.items view.now) }
{
    for node in view.members.as_slice() {
        note(numbers, *node)?;
    }
    note_next(numbers, view.next)
}

/// The numbers of the members of these views, and those that they give next, each once.
pub fn numbers(alloc: Global, views: &[View]) -> Result<Vec<NodeId>, Memory>
    ensures { IfOk result (λ found. found.items ≡ numbers views.now) }
{
    let mut found = Vec::new(alloc);
    for view in views {
        note_view(&mut found, view)?;
    }
    Ok(found)
}
