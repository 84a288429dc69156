//! Whether items are a history.

ghost use Rattle.std.specs.Prelude.{◌≡◌, ◌↔◌, ◌+◌, ◌<◌, ◌^◌, ℕ, ◌==◌, if◌then◌else◌, IsTrue, OnOk, IfOk, unwrap_or, map, count_by};
ghost use Rattle.std.specs.List.{list_all, position_or_len};
ghost use Rattle.std.specs.Ordering.{nat_cmp};
ghost use Rattle.std.specs.BTreeMap.{get};
ghost use Rattle.hk_history.specs.History.{is_call, is_reply, IsHistory};
ghost use Rattle.hk_history.specs.Index.{number_of, PlacesCalls, PlacesReplies, CountsCalls, CountsReplies};
ghost use Rattle.hk_history.specs.Tests.{is_single};
ghost use Rattle.hk_history.specs.Tallies.{IsTallied};

use crate::event::{Event, Items};
use crate::index;
use crate::rules::number_of;
use hk_base::Memory;
use std::alloc::Global;
use std::collections::BTreeMap;

// Counts the number once more.
fn count(counts: &mut BTreeMap<u64, usize>, number: u64) -> Result<(), Memory>
    requires { unwrap_or (get nat_cmp counts.old number) 0 < 2 ^ 63 }
    ensures { OnOk result ((n : ℕ) → unwrap_or (get nat_cmp counts.new n) 0
        ≡ unwrap_or (get nat_cmp counts.old n) 0 + (if number == n then 1 else 0)) }
{
    let count = counts.get(&number).copied().unwrap_or(0);
    counts.insert(number, count + 1)?;
    Ok(())
}

fn count_call(counts: &mut BTreeMap<u64, usize>, event: &Event) -> Result<(), Memory>
    requires { (n : ℕ) → unwrap_or (get nat_cmp counts.old n) 0 < 2 ^ 63 }
    ensures { OnOk result ((n : ℕ) → unwrap_or (get nat_cmp counts.new n) 0
        ≡ unwrap_or (get nat_cmp counts.old n) 0 + (if is_call n event.now then 1 else 0)) }
{
    match event {
        Event::Call { no, .. } => count(counts, no.0),
        Event::Reply { .. } => Ok(()),
    }
}

fn count_reply(counts: &mut BTreeMap<u64, usize>, event: &Event) -> Result<(), Memory>
    requires { (n : ℕ) → unwrap_or (get nat_cmp counts.old n) 0 < 2 ^ 63 }
    ensures { OnOk result ((n : ℕ) → unwrap_or (get nat_cmp counts.new n) 0
        ≡ unwrap_or (get nat_cmp counts.old n) 0 + (if is_reply n event.now then 1 else 0)) }
{
    match event {
        Event::Call { .. } => Ok(()),
        Event::Reply { no, .. } => count(counts, no.0),
    }
}

// How often each number is called.
fn call_counts(alloc: Global, items: &[Event]) -> Result<BTreeMap<u64, usize>, Memory>
    ensures { IfOk result (λ counts. CountsCalls counts items.now) }
{
    let mut counts = BTreeMap::new(alloc);
    for event in items {
        count_call(&mut counts, event)?;
    }
    Ok(counts)
}

// How many replies each number has.
fn reply_counts(alloc: Global, items: &[Event]) -> Result<BTreeMap<u64, usize>, Memory>
    ensures { IfOk result (λ counts. CountsReplies counts items.now) }
{
    let mut counts = BTreeMap::new(alloc);
    for event in items {
        count_reply(&mut counts, event)?;
    }
    Ok(counts)
}

/// Items, and how often and where their numbers are called and replied.
#[derive(Drop)]
pub struct Tally<'a> {
    pub items: &'a [Event],
    pub calls: BTreeMap<u64, usize>,
    pub replies: BTreeMap<u64, usize>,
    pub call_counts: BTreeMap<u64, usize>,
    pub reply_counts: BTreeMap<u64, usize>,
}

impl<'a> Tally<'a> {
    fn new(alloc: Global, items: &'a [Event]) -> Result<Tally<'a>, Memory>
        ensures tallied { IfOk result IsTallied }
        ensures items { IfOk result (λ tally. tally.items.now ≡ items.now) }
    {
        let calls = index::call_places(alloc, items)?;
        let replies = index::reply_places(alloc, items)?;
        let call_counts = call_counts(alloc, items)?;
        let reply_counts = reply_counts(alloc, items)?;
        Ok(Tally {
            items,
            calls,
            replies,
            call_counts,
            reply_counts,
        })
    }

    #[tactic(auto, using(crate::proofs::FoundRules::placed))]
    fn call_place(&self, number: u64) -> usize
        requires { IsTallied self.now }
        ensures { result ≡ position_or_len (is_call number) self.now.items.now }
    {
        self.calls.get(&number).copied().unwrap_or(self.items.len())
    }

    #[tactic(auto, using(crate::proofs::FoundRules::placed))]
    fn reply_place(&self, number: u64) -> usize
        requires { IsTallied self.now }
        ensures { result ≡ position_or_len (is_reply number) self.now.items.now }
    {
        self.replies
            .get(&number)
            .copied()
            .unwrap_or(self.items.len())
    }

    // Whether the number is called once at most, and has at most one reply, which follows.
    #[tactic(auto, using(crate::proofs::FoundRules::placed), unfolding(crate::specs::Tests::is_single))]
    fn is_single(&self, number: u64) -> bool
        requires { IsTallied self.now }
        ensures { result ≡ is_single self.now.items.now number }
    {
        let calls = self.call_counts.get(&number).copied().unwrap_or(0);
        let replies = self.reply_counts.get(&number).copied().unwrap_or(0);
        let in_turn = self.call_place(number) < self.reply_place(number);
        calls <= 1 && replies <= 1 && (!self.replies.contains_key(&number) || in_turn)
    }

    fn all_single(&self) -> bool
        requires { IsTallied self.now }
        ensures { result ≡ list_all (is_single self.now.items.now) (map number_of self.now.items.now) }
    {
        self.items
            .iter()
            .map(|event| number_of(event))
            .all(|number| self.is_single(number))
    }
}

/// Whether the items are a history: each number is called once, and has at most one reply, which follows its call.
pub fn is_history(alloc: Global, items: &Items) -> Result<bool, Memory>
    ensures { IfOk result (λ answer. IsTrue answer ↔ IsHistory items.now) }
{
    let tally = Tally::new(alloc, items.as_slice())?;
    Ok(tally.all_single())
}
