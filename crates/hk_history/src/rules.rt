//! The rules that an order breaks at one call: for each, the call of the least number at which it is broken.

ghost use Rattle.std.specs.Prelude.{◌≡◌, ◌&&◌, ℕ, not, is_some, min, map, filter, nat_lt, count_by};
ghost use Rattle.std.specs.List.{reduce, list_any};
ghost use Rattle.hk_history.specs.History.{op_of, answer_of, is_void, is_answered};
ghost use Rattle.hk_history.specs.Legal.{is_entry, calls_of};
ghost use Rattle.hk_history.specs.Cases.{IsIndexed};
ghost use Rattle.hk_history.specs.Index.{number_of};
ghost use Rattle.hk_history.specs.Tests.{lacks};

use crate::case::Case;
use crate::event::Event;
use crate::kind::{is_answered, is_void};

impl<'a> Case<'a> {
    /// The least call that stands and is none of the history's.
    pub fn least_stranger(&self) -> Option<u64>
        requires { IsIndexed self.now }
        ensures { result ≡ reduce min (filter (λ n. not (is_some (op_of self.now.items.now n))) (calls_of self.now.order.now)) }
    {
        self.order
            .iter()
            .map(|entry| entry.call.0)
            .filter(|number| !self.is_called(*number))
            .min()
    }

    /// The least call that stands more than once.
    pub fn least_twice(&self) -> Option<u64>
        requires { IsIndexed self.now }
        ensures { result ≡ reduce min (filter (λ n. nat_lt 1 (count_by (is_entry n) self.now.order.now)) (calls_of self.now.order.now)) }
    {
        self.order
            .iter()
            .map(|entry| entry.call.0)
            .filter(|number| self.stands_twice(*number))
            .min()
    }

    /// The least call that stands though it was Busy or Exhausted.
    pub fn least_void(&self) -> Option<u64>
        requires { IsIndexed self.now }
        ensures { result ≡ reduce min (filter (λ n. is_void (answer_of self.now.items.now n)) (calls_of self.now.order.now)) }
    {
        self.order
            .iter()
            .map(|entry| entry.call.0)
            .filter(|number| is_void(self.answer(*number)))
            .min()
    }

    #[tactic(auto, unfolding(crate::specs::Tests::lacks))]
    fn lacks(&self, number: u64) -> bool
        requires { IsIndexed self.now }
        ensures { result ≡ lacks self.now.items.now self.now.order.now number }
    {
        is_answered(self.answer(number)) && !self.stands(number)
    }

    /// The least answered call that does not stand.
    pub fn least_lacking(&self) -> Option<u64>
        requires { IsIndexed self.now }
        ensures { result ≡ reduce min (filter (lacks self.now.items.now self.now.order.now) (map number_of self.now.items.now)) }
    {
        self.items
            .iter()
            .map(|event| number_of(event))
            .filter(|number| self.lacks(*number))
            .min()
    }
}

/// The number of the event's call.
#[tactic(auto, unfolding(crate::specs::Index::number_of))]
pub fn number_of(event: &Event) -> u64
    ensures { result ≡ number_of event.now }
{
    match event {
        Event::Call { no, .. } => no.0,
        Event::Reply { no, .. } => no.0,
    }
}
