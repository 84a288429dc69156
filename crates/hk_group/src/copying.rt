//! A joiner's shard copies the rows of another member.

ghost use Rattle.std.specs.Prelude.{◌<◌};
ghost use Rattle.std.specs.List.{AllByRecursion};
ghost use Rattle.hk_base.specs.Range.{IsLetter};

use crate::completion::Unheard;
use hk_base::{Actor, Body, Key, Letter, Letters, NodeId};
use hk_link::Outlet;
use hk_locked::Places;
use hk_node::NodeEvent;
use hk_overseer::{Outlets, ring_all, send_all};
use hk_routes::Follower;
use hk_turns::Workplace;
use hk_worker::Shards;
use std::alloc::Global;
use std::sync::{Arc, Wait};

// So many rows are asked for at once.
const ROOM: u8 = 64;

/// Copies the rows of a shard, a batch at a time.
#[derive(Drop)]
pub struct Copier<P: Places> {
    alloc: Global,
    shard: u8,
    shards: Arc<Shards<Unheard, P>>,
    routes: Follower,
    outlets: Vec<(Actor, Outlet)>,
    // Behind which key it asked last, if it asked.
    asked: Option<Option<Key>>,
    ghost below: { shard < 8 },
}

// Behind which key a letter asks for rows, if it does.
fn after_of(letter: &Letter) -> Option<&Option<Key>> {
    match &letter.body {
        Body::CopyAsk { after, .. } => Some(after),
        _ => None,
    }
}

fn is_same(one: &Option<Key>, other: &Option<Key>) -> bool {
    match (one, other) {
        (Some(one), Some(other)) => one.cmp(other).is_eq(),
        (None, None) => true,
        (Some(_), None) | (None, Some(_)) => false,
    }
}

// Whether rows are asked for behind this key already.
fn is_asked(asked: &Option<Option<Key>>, after: &Option<Key>) -> bool {
    match asked {
        Some(asked) => is_same(asked, after),
        None => false,
    }
}

// The same key, if there is one, and memory for it.
fn shared(after: &Option<Key>) -> Option<Option<Key>> {
    match after {
        Some(key) => match key.share() {
            Ok(key) => Some(Some(key)),
            Err(_) => None,
        },
        None => Some(None),
    }
}

impl<P: Places> Copier<P> {
    /// Nothing was asked yet.
    pub(crate) fn new(
        alloc: Global,
        shard: u8,
        shards: Arc<Shards<Unheard, P>>,
        routes: Follower,
        outlets: Outlets,
    ) -> Copier<P>
        requires { shard < 8 }
    {
        Copier {
            alloc,
            shard,
            shards,
            routes,
            outlets: outlets.into_vec(),
            asked: None,
        }
    }

    /// Whether all rows were copied.
    pub fn is_whole<R: Wait>(&self, rt: &R) -> bool {
        self.shards.is_whole_at(rt, self.shard)
    }

    /// Whether the shard has a view. Before that nobody gives it rows.
    pub fn has_view<R: Wait>(&self, rt: &R) -> bool {
        self.shards.epoch_at(rt, self.shard) > 0
    }

    // Its letters go by the outlets as they are now.
    fn follow<R: Wait>(&mut self, rt: &R) {
        if let Some(outlets) = self.routes.renewed(rt, self.alloc) {
            self.outlets = outlets.into_vec();
        }
    }

    // Sends what asks for rows.
    fn send<R: Wait>(&mut self, rt: &R, letters: Letters)
        requires { AllByRecursion IsLetter letters }
    {
        self.follow(rt);
        send_all(rt, &mut self.outlets, self.shard, letters);
        ring_all(rt, self.outlets.as_slice());
    }

    /// Asks a member for the rows behind those that were copied, unless that was asked for already and is not to be asked again. It gives whether rows came since it
    /// was asked for others.
    pub fn ask<R: Wait>(&mut self, rt: &R, from: NodeId, again: bool) -> bool {
        let event = NodeEvent::AskCopy { from, room: ROOM };
        let Ok(letters) = self.shards.apply(rt, self.alloc, self.shard, event) else {
            return false;
        };
        let asked = match letters.as_slice().first() {
            Some(letter) => match after_of(letter) {
                Some(after) => (is_asked(&self.asked, after), shared(after)),
                None => return false,
            },
            None => return false,
        };
        let (is_asked, after) = asked;
        if is_asked && !again {
            return false;
        }
        let came = !is_asked && self.asked.is_some();
        self.asked = after;
        self.send(rt, letters);
        came
    }
}
