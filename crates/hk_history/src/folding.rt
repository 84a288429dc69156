//! The operations of an order, acting one after the other on one register.

ghost use Rattle.std.specs.Prelude.{◌≡◌, ◌≢◌, ◌↔◌, ◌⊎◌, ◌<◌, ℕ, Some, None, IsTrue, IfOk, ◌&&◌, not, OnOk, OnErr, is_some, true, unwrap_or};
ghost use Rattle.std.specs.Option.{option_copied, option_or};
ghost use Rattle.hk_base.specs.Register.{Register, first, act, Acted};
ghost use Rattle.hk_rmw.specs.Turned.{acted_of};
ghost use Rattle.hk_history.specs.History.{op_of, is_answered, is_unsure};
ghost use Rattle.hk_history.specs.Legal.{Stands};
ghost use Rattle.hk_history.specs.Cases.{IsIndexed};
ghost use Rattle.hk_history.specs.Fold.{FoldGives, StepGives, EntryGives, Rises};
ghost use Rattle.hk_history.specs.Folded.{register_in};

use crate::case::Case;
use crate::event::Entry;
use crate::fault::{CheckFault, Rule};
use crate::kind::{is_answered, is_unsure};
use hk_base::{Answer, Content, Memory, Op};
use hk_rmw::{Turn, turn};
use std::alloc::Global;

/// The register so far, and the last tag that stood in the order.
#[derive(Drop)]
pub struct Folding {
    /// What the register holds. Nothing too has a tag, that of the change which left it.
    pub content: Option<Content>,
    pub tag: u64,
    pub last: Option<u64>,
}

// Whether an answered call was given another answer than the one told.
fn gives_another(given: Option<&Answer>, told: &Answer) -> bool
    ensures other { IsTrue result → IsTrue (is_answered (option_copied given.entry)) × (option_copied given.entry ≢ Some told.now) }
    ensures same { IsTrue result ⊎ (IsTrue (is_answered (option_copied given.entry)) → option_copied given.entry ≡ Some told.now) }
{
    match given {
        Some(answer) => is_answered(given) && *answer != *told,
        None => false,
    }
}

// Whether an unsure call changes nothing.
fn is_idle(given: Option<&Answer>, changed: bool) -> bool
    ensures { result ≡ (is_unsure (option_copied given.entry) && not changed) }
{
    is_unsure(given) && !changed
}

fn rises(last: Option<u64>, tag: Option<u64>) -> bool
    ensures { IsTrue result ↔ Rises last tag }
{
    match (last, tag) {
        (Some(last), Some(tag)) => last < tag,
        (Some(_), None) => true,
        (None, _) => true,
    }
}

// How an entry fails first, if it does.
fn entry_fault(
    given: Option<&Answer>,
    told: &Answer,
    changed: bool,
    tag: Option<u64>,
    last: Option<u64>,
) -> Option<Rule>
    ensures { (register : Register) → EntryGives last tag (option_copied given.entry) (record { answer = told.now; changed = changed; register = register }) result }
{
    if gives_another(given, told) {
        return Some(Rule::Answer);
    }
    if is_idle(given, changed) {
        return Some(Rule::Idle);
    }
    if tag.is_some() != changed {
        return Some(Rule::Tags);
    }
    if !rises(last, tag) {
        return Some(Rule::Tags);
    }
    None
}

// Tells how an entry fails first, if it does.
fn judged(
    given: Option<&Answer>,
    told: &Answer,
    changed: bool,
    entry: &Entry,
    last: Option<u64>,
) -> Result<(), CheckFault>
    ensures { (register : Register) → StepGives last entry.now (option_copied given.entry) (record { answer = told.now; changed = changed; register = register }) result }
{
    match entry_fault(given, told, changed, entry.tag, last) {
        Some(rule) => Err(CheckFault::Breach {
            rule,
            first: entry.call.0,
            second: entry.call.0,
        }),
        None => Ok(()),
    }
}

impl Folding {
    /// The first register, which holds nothing, and no tag.
    pub fn new() -> Folding
        ensures register { register_in result ≡ first }
        ensures last { result.last ≡ None }
    {
        Folding {
            content: None,
            tag: 0,
            last: None,
        }
    }

    fn turn(&self, alloc: Global, op: &Op) -> Result<Turn, Memory>
        ensures { IfOk result (λ turn. (newtag : ℕ) →
            acted_of turn (register_in self.now) newtag ≡ act op.now (register_in self.now) newtag) }
    {
        match &self.content {
            Some(content) => turn(alloc, op, Some((content, self.tag))),
            None => turn(alloc, op, None),
        }
    }

    /// Acts by one entry, whose operation and answer are given. Unchanged after an error.
    pub fn step(
        &mut self,
        alloc: Global,
        op: &Op,
        given: Option<&Answer>,
        entry: &Entry,
    ) -> Result<(), CheckFault>
        ensures told { StepGives self.old.last entry.now (option_copied given.entry)
            (act op.now (register_in self.old) (unwrap_or entry.now.tag 0)) result }
        ensures register { OnOk result (register_in self.new ≡ (act op.now (register_in self.old) (unwrap_or entry.now.tag 0)).register) }
        ensures last { OnOk result (self.new.last ≡ option_or entry.now.tag self.old.last) }
        ensures err { OnErr result (self.new ≡ self.old) }
    {
        match self.turn(alloc, op) {
            Ok(Turn::Change { content, answer }) => self.change(content, &answer, given, entry),
            Ok(Turn::Stay(answer)) => judged(given, &answer, false, entry, self.last),
            Err(Memory) => Err(CheckFault::Memory),
        }
    }

    // Acts by an entry that changes the register to this content, or to nothing.
    fn change(
        &mut self,
        content: Option<Content>,
        told: &Answer,
        given: Option<&Answer>,
        entry: &Entry,
    ) -> Result<(), CheckFault>
        ensures told { (register : Register) → StepGives self.old.last entry.now (option_copied given.entry)
            (record { answer = told.now; changed = true; register = register }) result }
        ensures register { OnOk result (register_in self.new ≡ record { content = content; tag = unwrap_or entry.now.tag 0 }) }
        ensures last { OnOk result (self.new.last ≡ option_or entry.now.tag self.old.last) }
        ensures err { OnErr result (self.new ≡ self.old) }
    {
        match judged(given, told, true, entry, self.last) {
            Ok(()) => {
                self.content = content;
                self.tag = entry.tag.unwrap_or(0);
                self.last = entry.tag.or(self.last);
                Ok(())
            }
            Err(fault) => Err(fault),
        }
    }
}

impl<'a> Case<'a> {
    /// Folds the operations over the order, from the first register on.
    pub fn check_fold(&self, alloc: Global) -> Result<(), CheckFault>
        requires indexed { IsIndexed self.now }
        requires known { (n : ℕ) → Stands self.now.order.now n → IsTrue (is_some (op_of self.now.items.now n)) }
        ensures { FoldGives self.now.items.now first None self.now.order.now result }
    {
        let mut folding = Folding::new();
        for entry in self.order {
            let Some(op) = self.op(entry.call.0) else {
                unreachable!()
            };
            folding.step(alloc, op, self.answer(entry.call.0), entry)?;
        }
        Ok(())
    }
}
