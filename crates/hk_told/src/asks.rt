//! The asks that stand under a shard's lock.

ghost use Rattle.std.specs.Prelude.{◌≡◌, ◌≢◌, ◌∷◌, [], ℕ, Some, None, true, false, OnOk, OnErr, is_some, IsTrue};
ghost use Rattle.std.specs.Option.{IsSomeAnd};
ghost use Rattle.hk_by_call.specs.Kept.{kept_at};
ghost use Rattle.hk_told.specs.Held.{AreFewer, Delivers};
ghost use Rattle.hk_told.specs.Kept.{asks_in, told_ask, unwanted_ask, is_of, is_told, is_left, given_up, answered, look_at, AreOthersSame, LooksAs, TakesOut};
ghost use Rattle.hk_told.specs.declared.ask.Ask.{Ask as AnAsk};

use crate::ask::Ask;
use hk_base::{Answer, CallNo, Key, Memory, Reply};
use hk_by_call::ByCall;
use std::alloc::Global;
use std::marker::Model;

/// How an ask stands.
#[derive(PartialEq, Eq, Drop)]
pub enum AskState {
    /// There is none.
    Gone,
    /// Nothing was delivered yet.
    Waits,
    /// This was delivered.
    Told(Answer),
}

/// The asks that are kept, by the numbers of their calls. Contracts see each call with its ask, in rising order of the numbers.
#[derive(Drop)]
pub struct Asks {
    kept: ByCall<Ask>,
}

impl Model for Asks {
    ghost use Rattle.std.specs.Prelude.{List};
    ghost use Rattle.hk_base.specs.declared.call.CallNo.{CallNo};
    ghost use Rattle.hk_told.specs.declared.ask.Ask.{Ask};

    ghost Value = { List (CallNo × Ask) };

    ghost view = { λ a. a.kept };
}

fn look_at(told: Option<Answer>) -> AskState
    ensures { result ≡ look_at told }
{
    match told {
        Some(answer) => AskState::Told(answer),
        None => AskState::Waits,
    }
}

impl Asks {
    /// None is kept. It takes no memory.
    pub fn new(alloc: Global) -> Asks
        ensures { result ≡ [] }
    {
        Asks {
            kept: ByCall::new(alloc),
        }
    }

    /// Whether an ask of the call is kept.
    pub fn has(&self, call: CallNo) -> bool
        ensures { result ≡ is_some (asks_in self.now call) }
    {
        self.kept.get(call).is_some()
    }

    /// Whether an ask of the call is kept that is of the key.
    pub fn is_at(&self, call: CallNo, key: &Key) -> bool
        ensures is { IsTrue result → IsSomeAnd (asks_in self.now call) (λ ask. ask.key ≡ key.now) }
        ensures not { result ≡ false → (ask : AnAsk) → asks_in self.now call ≡ Some ask → ask.key ≢ key.now }
    {
        match self.kept.get(call) {
            Some(ask) => ask.key == *key,
            None => false,
        }
    }

    /// Keeps an ask of a call that has none.
    pub fn keep(&mut self, call: CallNo, ask: Ask) -> Result<(), Memory>
        requires { asks_in self.old call ≡ None }
        ensures kept { OnOk result (asks_in self.new call ≡ Some ask) }
        ensures others { AreOthersSame call (asks_in self.old) (asks_in self.new) }
        ensures err { OnErr result (self.new ≡ self.old) }
    {
        match self.kept.insert(call, ask) {
            Ok(()) => Ok(()),
            Err(_) => Err(Memory),
        }
    }

    /// Delivers the answer of the call to its ask, if it has one that waits. What nobody waits for any more is dropped. It takes no memory.
    pub fn deliver(&mut self, reply: Reply)
        ensures answered { asks_in self.new reply.call ≡ answered reply.answer (asks_in self.old reply.call) }
        ensures others { AreOthersSame reply.call (asks_in self.old) (asks_in self.new) }
        ensures delivers { Delivers (reply ∷ []) (asks_in self.old) (asks_in self.new) }
    {
        if self.is_left(reply.call) {
            self.forget(reply.call);
        } else {
            self.tell(reply.call, reply.answer);
        }
    }

    /// How the ask of the call stands, if it was begun under the ticket. One that was told something is taken out. It takes no memory.
    pub fn look(&mut self, call: CallNo, ticket: u64) -> AskState
        ensures stands { LooksAs ticket (asks_in self.old call) result }
        ensures takes { TakesOut call self.old self.new result }
        ensures fewer { AreFewer (asks_in self.old) (asks_in self.new) }
    {
        if !self.is_of(call, ticket) {
            return AskState::Gone;
        }
        if !self.is_told(call) {
            return AskState::Waits;
        }
        match self.forget(call) {
            Some(ask) => look_at(ask.told),
            None => AskState::Gone,
        }
    }

    /// Nobody waits any more for what the call is told. One that was told something is taken out. It takes no memory.
    pub fn give_up(&mut self, call: CallNo)
        ensures left { asks_in self.new call ≡ given_up (asks_in self.old call) }
        ensures others { AreOthersSame call (asks_in self.old) (asks_in self.new) }
        ensures fewer { AreFewer (asks_in self.old) (asks_in self.new) }
    {
        if self.is_told(call) {
            self.forget(call);
        } else {
            self.leave(call);
        }
    }

    // Tells the ask of the call, if there is one.
    fn tell(&mut self, call: CallNo, answer: Answer)
        ensures there { (ask : AnAsk) → asks_in self.old call ≡ Some ask → self.new ≡ kept_at self.old call (told_ask answer ask) }
        ensures nobody { asks_in self.old call ≡ None → self.new ≡ self.old }
    {
        if let Some(ask) = self.kept.get_mut(call) {
            ask.tell(answer);
        }
    }

    // Nobody waits any more for what the call is told.
    fn leave(&mut self, call: CallNo)
        ensures there { (ask : AnAsk) → asks_in self.old call ≡ Some ask → self.new ≡ kept_at self.old call (unwanted_ask ask) }
        ensures nobody { asks_in self.old call ≡ None → self.new ≡ self.old }
    {
        if let Some(ask) = self.kept.get_mut(call) {
            ask.wanted = false;
        }
    }

    fn is_of(&self, call: CallNo, ticket: u64) -> bool
        ensures { result ≡ is_of ticket (asks_in self.now call) }
    {
        match self.kept.get(call) {
            Some(ask) => ask.ticket == ticket,
            None => false,
        }
    }

    fn is_told(&self, call: CallNo) -> bool
        ensures { result ≡ is_told (asks_in self.now call) }
    {
        match self.kept.get(call) {
            Some(ask) => ask.told.is_some(),
            None => false,
        }
    }

    // Whether an ask is kept that nobody waits for.
    fn is_left(&self, call: CallNo) -> bool
        ensures { result ≡ is_left (asks_in self.now call) }
    {
        match self.kept.get(call) {
            Some(ask) => !ask.wanted,
            None => false,
        }
    }

    /// Takes the ask of the call out, if there is one. It takes no memory.
    pub fn forget(&mut self, call: CallNo) -> Option<Ask>
        ensures ask { result ≡ asks_in self.old call }
        ensures gone { asks_in self.new call ≡ None }
        ensures others { AreOthersSame call (asks_in self.old) (asks_in self.new) }
    {
        self.kept.remove(call)
    }
}
