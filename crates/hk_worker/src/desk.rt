//! A desk at a post.

ghost use Rattle.std.specs.Prelude.{◌≡◌, None};
ghost use Rattle.hk_outside.specs.Desk.{BeginSuits, IsSettled, Suits};
ghost use Rattle.hk_worker.specs.Opening.{BeginsAtPost, BeginsByClock, BeginSends, BeginSendsByClock, FinishesAtPost};
ghost use Rattle.hk_worker.specs.Asking.{AsksAtPost};
ghost use Rattle.hk_worker.specs.Reading.{AsksByClock};
ghost use Rattle.hk_worker.specs.Sending.{Sends, SendsByClock};

use crate::asking::OpenAsk;
use crate::desk_clock::DeskClock;
use crate::post::Post;
use hk_base::{Key, Memory, Op};
use hk_callback::Completion;
use hk_locked::Places;
use hk_outside::{Begun, Desk, DeskReply};
use std::sync::Wait;

/// Asks operations at a post.
#[derive(Drop)]
pub struct NodeDesk<R: Wait + Drop, F: Completion + Copy + Drop, P: Places> {
    rt: R,
    pub post: Post<F, P>,
}

impl<R: Wait + Drop, F: Completion + Copy + Drop, P: Places> NodeDesk<R, F, P> {
    /// A desk at this post. It takes no memory.
    pub fn new(rt: R, post: Post<F, P>) -> NodeDesk<R, F, P>
        ensures { result.post ≡ post }
    {
        NodeDesk { rt, post }
    }

    // Asks one operation by a clock.
    pub(crate) fn ask_by<C: DeskClock>(
        &mut self,
        clock: &C,
        key: &Key,
        op: &Op,
    ) -> Result<DeskReply, Memory>
        ensures suits { Suits op.now result }
        ensures told { AsksByClock (C.was_read clock.now) (C.reading clock.now) key.now op.now self.old.post self.new.post result }
        ensures sent { SendsByClock P.places key.now op.now self.old.post self.new.post result }
    {
        self.post.ask_by(&self.rt, clock, key, op)
    }

    // Begins to ask one operation by a clock.
    pub(crate) fn begin_by<C: DeskClock>(
        &mut self,
        clock: &C,
        key: &Key,
        op: &Op,
    ) -> Result<Begun<OpenAsk>, Memory>
        ensures suits { BeginSuits (λ waits. waits.op) op.now result }
        ensures told { BeginsByClock (C.was_read clock.now) (C.reading clock.now) key.now op.now self.old.post self.new.post result }
        ensures sent { BeginSendsByClock P.places key.now op.now self.old.post self.new.post result }
    {
        self.post.begin_by(&self.rt, clock, key, op)
    }
}

impl<R: Wait + Drop, F: Completion + Copy + Drop, P: Places> Desk for NodeDesk<R, F, P> {
    type Waits = OpenAsk;

    ghost asks = { λ desk. None };

    ghost op_of = { λ waits. waits.op };

    fn ask(&mut self, key: &Key, op: &Op) -> Result<DeskReply, Memory>
        ensures suits { Suits op.now result }
        ensures told { AsksAtPost key.now op.now self.old.post self.new.post result }
        ensures sent { Sends P.places key.now op.now self.old.post self.new.post result }
    {
        self.post.ask(&self.rt, key, op)
    }

    fn begin(&mut self, key: &Key, op: &Op) -> Result<Begun<OpenAsk>, Memory>
        ensures suits { BeginSuits (λ waits. waits.op) op.now result }
        ensures told { BeginsAtPost key.now op.now self.old.post self.new.post result }
        ensures sent { BeginSends P.places key.now op.now self.old.post self.new.post result }
    {
        self.post.begin(&self.rt, key, op)
    }

    fn finish(&mut self, waits: OpenAsk) -> Result<DeskReply, Memory>
        ensures suits { Suits waits.op result }
        ensures settled { IsSettled result }
        ensures told { FinishesAtPost waits self.old.post self.new.post result }
    {
        self.post.finish(&self.rt, waits)
    }
}
