//! What a run keeps of one key.

ghost use Rattle.std.specs.Prelude.{◌≡◌, ◌∷◌, [], OnOk};
ghost use Rattle.hk_safety.specs.Kept.{first_key, no_stamp};
ghost use Rattle.hk_safety.specs.Grown.{IsCoveredAt, IsBegunAt, IsLookedAt, IsTurned};

use crate::evidence::{Cover, Evidence};
use crate::marked::Marked;
use hk_base::{CallNo, Memory, Op, Reply, Sequence, View};
use hk_history::Event;
use std::alloc::Global;
use std::collections::BTreeMap;
use std::marker::Model;

/// A call that found a stamp and changed nothing, and the number of the event at which it was answered.
#[derive(Clone, Copy, Debug, PartialEq, Eq)]
pub struct ReadOnlyCall {
    pub call: CallNo,
    pub event: u64,
}

/// Such calls, the first one first.
pub type ReadOnlyCalls = Sequence<ReadOnlyCall>;

/// What a run keeps of one stamp of a key.
#[derive(Drop)]
pub struct AtStamp {
    /// The call that began the update of this stamp.
    pub update: Option<CallNo>,
    /// Whether that update is complete, or who covered the stamp so far.
    pub evidence: Evidence,
    /// The calls that found the stamp and changed nothing, in the order of their replies.
    pub read_only: ReadOnlyCalls,
}

/// What a call made of the row of its key at an event: whether it began an update, the row's tag after it, and whether it was answered, and not refused.
#[derive(Clone, Copy, Debug, PartialEq, Eq)]
pub struct CallEffect {
    pub event: u64,
    pub call: CallNo,
    pub began: bool,
    pub tag: u64,
    pub answered: bool,
}

/// What a run keeps of one key: the numbers of its history, and its stamps, by tag.
#[derive(Drop)]
pub struct KeyRun {
    pub(crate) items: Marked,
    pub(crate) stamps: BTreeMap<u64, AtStamp>,
}

impl Model for KeyRun {
    ghost use Rattle.hk_safety.specs.Kept.{KeyState};

    ghost Value = { KeyState };

    ghost view = { λ k. record { items = k.items; stamps = k.stamps.entries } };
}

impl AtStamp {
    fn new(alloc: Global) -> AtStamp
        ensures { result ≡ no_stamp }
    {
        AtStamp {
            update: None,
            evidence: Evidence::new(alloc),
            read_only: ReadOnlyCalls::new(alloc),
        }
    }
}

// A cover of one stamp, which is kept from then on.
fn cover_stamp(
    stamps: &mut BTreeMap<u64, AtStamp>,
    alloc: Global,
    tag: u64,
    view: &View,
    cover: Cover,
) -> Result<(), Memory>
    ensures { OnOk result (IsCoveredAt stamps.old.entries stamps.new.entries tag view.now cover) }
{
    if let Some(at) = stamps.get_mut(&tag) {
        return at.evidence.add(alloc, view, cover);
    }
    let mut at = AtStamp::new(alloc);
    at.evidence.add(alloc, view, cover)?;
    stamps.insert(tag, at)?;
    Ok(())
}

// The call that began the update of a stamp.
fn begin_stamp(
    stamps: &mut BTreeMap<u64, AtStamp>,
    alloc: Global,
    tag: u64,
    call: CallNo,
) -> Result<(), Memory>
    ensures { OnOk result (IsBegunAt stamps.old.entries stamps.new.entries tag call) }
{
    if let Some(at) = stamps.get_mut(&tag) {
        at.update = Some(call);
        return Ok(());
    }
    let mut at = AtStamp::new(alloc);
    at.update = Some(call);
    stamps.insert(tag, at)?;
    Ok(())
}

// A call that found the stamp and changed nothing.
fn look_stamp(
    stamps: &mut BTreeMap<u64, AtStamp>,
    alloc: Global,
    tag: u64,
    look: ReadOnlyCall,
) -> Result<(), Memory>
    ensures { OnOk result (IsLookedAt stamps.old.entries stamps.new.entries tag look) }
{
    if let Some(at) = stamps.get_mut(&tag) {
        return at.read_only.push(look);
    }
    let mut at = AtStamp::new(alloc);
    at.read_only.push(look)?;
    stamps.insert(tag, at)?;
    Ok(())
}

// What a call made of the stamps: it began an update, or was read-only, or was refused.
fn turn_stamps(
    stamps: &mut BTreeMap<u64, AtStamp>,
    alloc: Global,
    turn: CallEffect,
) -> Result<(), Memory>
    ensures { OnOk result (IsTurned turn.began turn.answered stamps.old.entries stamps.new.entries turn.tag turn.call turn.event) }
{
    if turn.began {
        return begin_stamp(stamps, alloc, turn.tag, turn.call);
    }
    if turn.answered {
        let look = ReadOnlyCall {
            call: turn.call,
            event: turn.event,
        };
        return look_stamp(stamps, alloc, turn.tag, look);
    }
    Ok(())
}

impl KeyRun {
    ghost use Rattle.hk_safety.specs.Grown.{IsCovered, IsTaken, with_lines};
    ghost use Rattle.hk_safety.specs.Shows.{reply_line};

    /// A key that no call named.
    pub(crate) fn new(alloc: Global) -> KeyRun
        ensures { result ≡ first_key }
    {
        KeyRun {
            items: Marked::new(alloc),
            stamps: BTreeMap::new(alloc),
        }
    }

    /// A member of this view covers the stamp of this tag. The stamp of no update is passed over.
    pub(crate) fn cover(
        &mut self,
        alloc: Global,
        tag: u64,
        view: &View,
        cover: Cover,
    ) -> Result<(), Memory>
        ensures { OnOk result (IsCovered view.now cover self.old self.new (tag ∷ [])) }
    {
        if tag == 0 {
            return Ok(());
        }
        cover_stamp(&mut self.stamps, alloc, tag, view, cover)
    }

    /// A call on the key.
    pub(crate) fn take(&mut self, alloc: Global, turn: CallEffect, op: &Op) -> Result<(), Memory>
        ensures { OnOk result (IsTaken self.old self.new turn op.now) }
    {
        let op = op.share()?;
        self.items.push(Event::Call { no: turn.call, op })?;
        turn_stamps(&mut self.stamps, alloc, turn)
    }

    /// The reply of a call on the key.
    pub(crate) fn answer(&mut self, reply: &Reply) -> Result<(), Memory>
        ensures { OnOk result (self.new ≡ with_lines self.old (reply_line reply.now ∷ [])) }
    {
        let answer = reply.answer.share()?;
        self.items.push(Event::Reply {
            no: reply.call,
            answer,
        })
    }
}
