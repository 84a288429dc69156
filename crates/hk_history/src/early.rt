//! Calls that stand before one that was answered before they began.

ghost use Rattle.std.specs.Prelude.{◌≡◌, ◌≤◌, ℕ, ◌+◌, min, map, filter, length, drop, IfOk};
ghost use Rattle.std.specs.List.{reduce};
ghost use Rattle.hk_history.specs.Legal.{calls_of};
ghost use Rattle.hk_history.specs.Cases.{IsIndexed};
ghost use Rattle.hk_history.specs.Index.{number_of};
ghost use Rattle.hk_history.specs.Tests.{begun_place, nearest, IsNearest, is_overtaken, overtakes};

use crate::case::Case;
use crate::event::Event;
use crate::kind::is_answered;
use crate::rules::number_of;
use hk_base::Memory;
use std::alloc::Global;

impl<'a> Case<'a> {
    fn begun_place(&self, event: &Event) -> usize
        requires { IsIndexed self.now }
        ensures { result ≡ begun_place self.now.order.now event.now }
    {
        match event {
            Event::Call { no, .. } => self.entry_place(no.0),
            Event::Reply { .. } => self.order.len(),
        }
    }

    /// For each place in the history, and its end, the least place in the order of the calls that begin from there on.
    pub fn nearest(&self, alloc: Global) -> Result<Vec<usize>, Memory>
        requires { IsIndexed self.now }
        ensures { IfOk result (λ places. IsNearest places.items self.now.items.now self.now.order.now) }
    {
        let mut places = vec![in alloc; self.order.len(); self.items.len() + 1]?;
        let mut at = self.items.len();
        while at > 0 {
            at -= 1;
            let begun = self.begun_place(&self.items[at]);
            places[at] = begun.min(places[at + 1]);
        }
        Ok(places)
    }

    // The least place in the order of the calls that began after this place in the history.
    fn nearest_after(&self, places: &[usize], place: usize) -> usize
        requires nearest { IsNearest places.now self.now.items.now self.now.order.now }
        requires within { place ≤ length self.now.items.now }
        ensures { result ≡ nearest self.now.order.now (drop (place + 1) self.now.items.now) }
    {
        if place < self.items.len() {
            places[place + 1]
        } else {
            self.order.len()
        }
    }

    #[tactic(auto, unfolding(crate::specs::Tests::is_overtaken))]
    fn is_overtaken(&self, places: &[usize], number: u64) -> bool
        requires indexed { IsIndexed self.now }
        requires nearest { IsNearest places.now self.now.items.now self.now.order.now }
        ensures { result ≡ is_overtaken self.now.items.now self.now.order.now number }
    {
        let nearest = self.nearest_after(places, self.reply_place(number));
        is_answered(self.answer(number))
            && self.stands(number)
            && nearest <= self.entry_place(number)
    }

    /// The least answered call that stands no earlier than one that began after its reply.
    pub fn least_overtaken(&self, places: &[usize]) -> Option<u64>
        requires indexed { IsIndexed self.now }
        requires nearest { IsNearest places.now self.now.items.now self.now.order.now }
        ensures { result ≡ reduce min (filter (is_overtaken self.now.items.now self.now.order.now) (map number_of self.now.items.now)) }
    {
        self.items
            .iter()
            .map(|event| number_of(event))
            .filter(|number| self.is_overtaken(places, *number))
            .min()
    }

    #[tactic(auto, unfolding(crate::specs::Tests::overtakes))]
    fn overtakes(&self, first: u64, second: u64) -> bool
        requires { IsIndexed self.now }
        ensures { result ≡ overtakes self.now.items.now self.now.order.now first second }
    {
        self.reply_place(first) < self.call_place(second)
            && self.entry_place(second) <= self.entry_place(first)
    }

    /// The least call that stands no later than `first`, though it began after the reply of `first`.
    pub fn least_overtaking(&self, first: u64) -> Option<u64>
        requires { IsIndexed self.now }
        ensures { result ≡ reduce min (filter (overtakes self.now.items.now self.now.order.now first) (calls_of self.now.order.now)) }
    {
        self.order
            .iter()
            .map(|entry| entry.call.0)
            .filter(|number| self.overtakes(first, *number))
            .min()
    }
}
