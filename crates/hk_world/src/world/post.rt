//! Sending what a node's step gave.

ghost use Rattle.std.specs.Prelude.{◌≡◌, ◌++◌, map, IfOk, OnOk, OnErr, take};
ghost use Rattle.std.specs.Option.{IsSome};
ghost use Rattle.std.specs.List.{AllByRecursion};
ghost use Rattle.std.specs.List.Sorted.{IsStrictlySortedBy};
ghost use Rattle.hk_copy.specs.Batches.{key_cmp};
ghost use Rattle.hk_node.specs.Rows.{find_row};
ghost use Rattle.hk_node.specs.Sound.{IsNode};
ghost use Rattle.hk_node.specs.Report.{rolled_back};
ghost use Rattle.hk_world.specs.Steps.{nothing, first_number, view_of};
ghost use Rattle.hk_world.specs.Posted.{posted};

use crate::shown::{Acted, Shown};
use hk_base::{CallNo, Letter, Letters, Memory, NodeId, View};
use hk_node::{Node, NodeOut, StepReplies};
use std::alloc::Global;

/// Nothing is shown.
pub(super) fn nothing(alloc: Global) -> Shown
    ensures { result ≡ nothing }
{
    Shown {
        call: None,
        view: None,
        chosen: None,
        installed: None,
        first_letter: 0,
        letters: Letters::new(alloc),
        replies: StepReplies::nothing(),
        acted: None,
    }
}

// The same letters, which share keys and contents.
fn share_letters(alloc: Global, letters: &Letters) -> Result<Letters, Memory>
    ensures { IfOk result (λ same. same ≡ letters.now) }
{
    let mut same = Letters::new(alloc);
    for letter in letters.as_slice() {
        let letter = letter.share(alloc)?;
        same.push(letter)?;
    }
    Ok(same)
}

// The view that a step installed, if it did.
fn copy_installed(
    alloc: Global,
    node: &Node,
    installed: Option<u64>,
) -> Result<Option<View>, Memory>
    ensures { IfOk result (λ view. view ≡ view_of installed node.now) }
{
    if installed.is_none() {
        return Ok(None);
    }
    match node.view() {
        Some(view) => {
            let view = view.copy(alloc)?;
            Ok(Some(view))
        }
        None => Ok(None),
    }
}

/// The number of the first of these letters behind those, 0 where there are none.
pub(super) fn first_number(sent: &Vec<Letter>, letters: &Letters) -> u64
    ensures { result ≡ first_number sent.now.items letters.now }
{
    if letters.is_empty() {
        return 0;
    }
    sent.len() as u64 + 1
}

/// What is shown of letters that were sent, and of a view that is held or installed.
#[derive(Drop)]
pub(super) struct Sent {
    pub(super) letters: Letters,
    pub(super) view: Option<View>,
}

/// Sends letters, and shows them beside a view. After `Memory` nothing is sent.
pub(super) fn send(
    alloc: Global,
    sent: &mut Vec<Letter>,
    letters: Letters,
    view: Option<View>,
) -> Result<Sent, Memory>
    ensures sent { OnOk result (sent.new.items ≡ sent.old.items ++ letters) }
    ensures letters { IfOk result (λ told. told.letters ≡ letters) }
    ensures view { IfOk result (λ told. told.view ≡ view) }
    ensures err { OnErr result (sent.new.items ≡ sent.old.items) }
{
    let same = share_letters(alloc, &letters)?;
    let mut letters = letters.into_vec();
    sent.append(&mut letters)?;
    Ok(Sent {
        letters: same,
        view,
    })
}

// Sends letters, and shows the view that the step installed. After `Memory` nothing is sent.
fn send_installed(
    alloc: Global,
    node: &Node,
    sent: &mut Vec<Letter>,
    letters: Letters,
    installed: Option<u64>,
) -> Result<Sent, Memory>
    ensures sent { OnOk result (sent.new.items ≡ sent.old.items ++ letters) }
    ensures letters { IfOk result (λ told. told.letters ≡ letters) }
    ensures view { IfOk result (λ told. told.view ≡ view_of installed node.now) }
    ensures err { OnErr result (sent.new.items ≡ sent.old.items) }
{
    let view = copy_installed(alloc, node, installed)?;
    send(alloc, sent, letters, view)
}

/// Sends the letters of a step that the node has made, and tells what the step shows. The letters go into the world's list,
/// and what is shown shares each. After `Memory` nothing is sent, and the step is undone.
pub(crate) fn post(
    alloc: Global,
    id: NodeId,
    call: Option<CallNo>,
    node: &mut Node,
    letters: &mut Vec<Letter>,
    out: NodeOut,
) -> Result<Shown, Memory>
    requires rising { IsStrictlySortedBy key_cmp (map (λ f. f.key) out.report.rows) }
    requires there { AllByRecursion (λ f. IsSome (find_row f.key node.old.rows)) out.report.rows }
    requires node { IsNode (rolled_back out.report.rows out.undo node.old) }
    ensures node { OnOk result (node.new ≡ node.old) }
    ensures letters { OnOk result (letters.new.items ≡ letters.old.items ++ out.letters) }
    ensures shown { IfOk result (λ shown. shown ≡ posted letters.old.items id node.old out call) }
    ensures undone { OnErr result (node.new ≡ rolled_back out.report.rows out.undo node.old) }
    ensures unsent { OnErr result (letters.new.items ≡ letters.old.items) }
{
    let first_letter = first_number(letters, &out.letters);
    match send_installed(alloc, node, letters, out.letters, out.installed) {
        Ok(sent) => Ok(Shown {
            call,
            view: sent.view,
            chosen: None,
            installed: out.installed.map(|_| id),
            first_letter,
            letters: sent.letters,
            replies: out.replies,
            acted: Some(Acted {
                node: id,
                report: out.report,
            }),
        }),
        Err(error) => {
            node.undo(out.report, out.undo);
            Err(error)
        }
    }
}
