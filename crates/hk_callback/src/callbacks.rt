//! Completions by the number of their call.

ghost use Rattle.std.specs.Prelude.{◌≡◌, [], Some, None, IsSome, OnOk, OnErr, IfOk};
ghost use Rattle.hk_by_call.specs.Kept.{kept_without};
ghost use Rattle.hk_callback.specs.Kept.{completion_of, AreOthersSame, IsKeep, IsFired};

use crate::completion::{Completion, Delivery};
use hk_base::{Answer, CallNo, Memory};
use hk_by_call::ByCall;
use std::alloc::Global;
use std::marker::Model;
use thiserror::Error;

/// Why a completion was not kept. It comes back.
#[derive(Debug, Drop, Error)]
pub enum KeepFault<F> {
    /// An allocation was refused.
    #[error("no memory")]
    Memory(F),
    /// The call has a completion already.
    #[error("the call has a completion already")]
    Kept(F),
}

/// The completions of calls that are not answered yet. Contracts see the calls, each with its completion, in rising order of the numbers.
#[derive(Drop)]
pub struct Callbacks<F: Completion + Drop> {
    kept: ByCall<F>,
}

impl<F: Completion + Drop> Model for Callbacks<F> {
    ghost use Rattle.std.specs.Prelude.{List};
    ghost use Rattle.hk_base.specs.declared.call.CallNo.{CallNo};

    ghost Value = { List (CallNo × F) };

    ghost view = { λ c. c.kept };
}

impl<F: Completion + Drop> Callbacks<F> {
    /// None is kept. It takes no memory.
    pub fn new(alloc: Global) -> Callbacks<F>
        ensures { result ≡ [] }
    {
        Callbacks {
            kept: ByCall::new(alloc),
        }
    }

    /// Keeps the completion of a call. `Kept` comes exactly where the call has one already. After a fault nothing has changed.
    pub fn keep(&mut self, call: CallNo, done: F) -> Result<(), KeepFault<F>>
        ensures exact { IsKeep result self.old self.new call done }
        ensures kept { OnOk result (completion_of self.new call ≡ Some done) }
        ensures others { AreOthersSame self.old self.new call }
    {
        if self.kept.get(call).is_some() {
            return Err(KeepFault::Kept(done));
        }
        match self.kept.insert(call, done) {
            Ok(()) => Ok(()),
            Err(back) => Err(KeepFault::Memory(back)),
        }
    }

    /// Calls the completion of a call with its answer. `None` comes exactly where the call has none. After a delivery it is gone, and after `Memory` it is
    /// still kept.
    pub fn fire(&mut self, call: CallNo, answer: &Answer) -> Result<Option<Delivery>, Memory>
        ensures fired { IfOk result (λ fired. IsFired fired self.old self.new call answer.now) }
        ensures gone { OnOk result (completion_of self.new call ≡ None) }
        ensures others { AreOthersSame self.old self.new call }
        ensures err { OnErr result (self.new ≡ self.old) }
        ensures still_kept { OnErr result (IsSome (completion_of self.new call)) }
    {
        let Some(done) = self.kept.get(call) else {
            return Ok(None);
        };
        let delivery = done.deliver(call, answer)?;
        self.forget(call);
        Ok(Some(delivery))
    }

    /// Takes out the completion of a call that was not made, and gives it back. It takes no memory.
    pub fn forget(&mut self, call: CallNo) -> Option<F>
        ensures done { result ≡ completion_of self.old call }
        ensures exact { self.new ≡ kept_without self.old call }
        ensures gone { completion_of self.new call ≡ None }
        ensures others { AreOthersSame self.old self.new call }
    {
        self.kept.remove(call)
    }
}
