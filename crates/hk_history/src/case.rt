//! A history and an order of it, with an index of both.

ghost use Rattle.std.specs.Prelude.{◌≡◌, ◌≤◌, length, ℕ, Some, is_some, IfOk, nat_lt, count_by};
ghost use Rattle.std.specs.Option.{option_copied};
ghost use Rattle.std.specs.List.{list_any, find, slice_get, position_or_len};
ghost use Rattle.hk_history.specs.History.{op_of, answer_of, is_call, is_reply};
ghost use Rattle.hk_history.specs.Legal.{is_entry};
ghost use Rattle.hk_history.specs.Cases.{IsIndexed};

use crate::event::{Entry, Event};
use crate::index;
use hk_base::{Answer, Memory, Op};
use std::alloc::Global;
use std::collections::BTreeMap;

/// A history and an order, and where their calls stand.
#[derive(Drop)]
pub struct Case<'a> {
    pub items: &'a [Event],
    pub order: &'a [Entry],
    pub calls: BTreeMap<u64, usize>,
    pub replies: BTreeMap<u64, usize>,
    pub entries: BTreeMap<u64, usize>,
    pub counts: BTreeMap<u64, usize>,
}

fn event_at(items: &[Event], place: usize) -> Option<&Event>
    ensures { option_copied result ≡ slice_get items.now place }
{
    items.get(place)
}

impl<'a> Case<'a> {
    /// Reads the history and the order once.
    pub fn new(alloc: Global, items: &'a [Event], order: &'a [Entry]) -> Result<Case<'a>, Memory>
        ensures indexed { IfOk result IsIndexed }
        ensures items { IfOk result (λ case. case.items.now ≡ items.now) }
        ensures order { IfOk result (λ case. case.order.now ≡ order.now) }
    {
        let calls = index::call_places(alloc, items)?;
        let replies = index::reply_places(alloc, items)?;
        let entries = index::entry_places(alloc, order)?;
        let counts = index::entry_counts(alloc, order)?;
        Ok(Case {
            items,
            order,
            calls,
            replies,
            entries,
            counts,
        })
    }

    /// Whether the history has the call.
    #[tactic(auto, using(crate::proofs::FoundRules::called))]
    pub fn is_called(&self, number: u64) -> bool
        requires { IsIndexed self.now }
        ensures { result ≡ is_some (op_of self.now.items.now number) }
    {
        self.calls.contains_key(&number)
    }

    #[tactic(auto, using(crate::proofs::FoundRules::found))]
    fn call_event(&self, number: u64) -> Option<&'a Event>
        requires { IsIndexed self.now }
        ensures { option_copied result ≡ find (is_call number) self.now.items.now }
    {
        match self.calls.get(&number) {
            Some(place) => event_at(self.items, *place),
            None => None,
        }
    }

    #[tactic(auto, using(crate::proofs::FoundRules::found))]
    fn reply_event(&self, number: u64) -> Option<&'a Event>
        requires { IsIndexed self.now }
        ensures { option_copied result ≡ find (is_reply number) self.now.items.now }
    {
        match self.replies.get(&number) {
            Some(place) => event_at(self.items, *place),
            None => None,
        }
    }

    /// The operation of a call of the history.
    #[tactic(auto, using(crate::proofs::FoundRules::read))]
    pub fn op(&self, number: u64) -> Option<&'a Op>
        requires { IsIndexed self.now }
        ensures { option_copied result ≡ op_of self.now.items.now number }
    {
        match self.call_event(number) {
            Some(Event::Call { op, .. }) => Some(op),
            Some(Event::Reply { .. }) => None,
            None => None,
        }
    }

    /// The answer of a call that has a reply.
    #[tactic(auto, using(crate::proofs::FoundRules::read))]
    pub fn answer(&self, number: u64) -> Option<&'a Answer>
        requires { IsIndexed self.now }
        ensures { option_copied result ≡ answer_of self.now.items.now number }
    {
        match self.reply_event(number) {
            Some(Event::Reply { answer, .. }) => Some(answer),
            Some(Event::Call { .. }) => None,
            None => None,
        }
    }

    /// Whether the call stands in the order.
    #[tactic(auto, using(crate::proofs::FoundRules::placed))]
    pub fn stands(&self, number: u64) -> bool
        requires { IsIndexed self.now }
        ensures { result ≡ list_any (is_entry number) self.now.order.now }
    {
        self.entries.contains_key(&number)
    }

    /// Whether the call stands in the order more than once.
    pub fn stands_twice(&self, number: u64) -> bool
        requires { IsIndexed self.now }
        ensures { result ≡ nat_lt 1 (count_by (is_entry number) self.now.order.now) }
    {
        self.counts.get(&number).copied().unwrap_or(0) > 1
    }

    /// The place in the order where the call stands first, or the order's length.
    #[tactic(auto, using(crate::proofs::FoundRules::placed))]
    pub fn entry_place(&self, number: u64) -> usize
        requires { IsIndexed self.now }
        ensures { result ≡ position_or_len (is_entry number) self.now.order.now }
    {
        self.entries
            .get(&number)
            .copied()
            .unwrap_or(self.order.len())
    }

    /// The place in the history where the call begins, or the history's length.
    #[tactic(auto, using(crate::proofs::FoundRules::placed))]
    pub fn call_place(&self, number: u64) -> usize
        requires { IsIndexed self.now }
        ensures { result ≡ position_or_len (is_call number) self.now.items.now }
    {
        self.calls.get(&number).copied().unwrap_or(self.items.len())
    }

    /// The place in the history where the call has its reply, or the history's length.
    #[tactic(auto, using(crate::proofs::FoundRules::placed))]
    pub fn reply_place(&self, number: u64) -> usize
        requires { IsIndexed self.now }
        ensures exact { result ≡ position_or_len (is_reply number) self.now.items.now }
        ensures within { result ≤ length self.now.items.now }
    {
        self.replies
            .get(&number)
            .copied()
            .unwrap_or(self.items.len())
    }
}
