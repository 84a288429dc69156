//! What a run keeps beside its events.

ghost use Rattle.std.specs.Prelude.{◌≡◌, ◌++◌, ◌∷◌, [], OnOk};
ghost use Rattle.std.specs.Option.{option_copied};
ghost use Rattle.std.specs.List.{find, AllByRecursion};
ghost use Rattle.hk_base.specs.Range.{IsLetter};
ghost use Rattle.hk_base.specs.Stamp.{tag_of};
ghost use Rattle.hk_node.specs.Rows.{row_at};
ghost use Rattle.hk_node.specs.Sound.{IsNode};
ghost use Rattle.hk_world.specs.World.{numbered};
ghost use Rattle.hk_world.specs.Sound.{IsEvent, IsWorld};
ghost use Rattle.hk_safety.specs.Kept.{called_from};
ghost use Rattle.hk_effects.specs.Projection.{key_node, node_at, is_same_key};
ghost use Rattle.hk_safety.specs.Grown.{IsStepMade, is_answer, IsNamed, AreTold, IsPrior, ArePrior, prior_tag, is_new, IsCallKept, IsKeptAfter};
ghost use Rattle.hk_safety.specs.Shows.{lines_at};

use crate::cover::cover_event;
use crate::key_run::{CallEffect, KeyRun};
use hk_base::{Answer, CallNo, Key, Memory, NodeId, Op, Reply};
use hk_event::{Event, Refused};
use hk_node::{Node, PriorRow};
use hk_world::{Acted, Shown, World, WorldFault};
use std::alloc::Global;
use std::collections::BTreeMap;
use std::marker::Model;

/// The present world, what is kept of each key that a call named, and the key of each call.
#[derive(Drop)]
pub struct Kept {
    pub(crate) world: World,
    pub(crate) keys: BTreeMap<Key, KeyRun>,
    pub(crate) calls: Vec<Key>,
}

impl Model for Kept {
    ghost use Rattle.hk_safety.specs.Kept.{KeptState};

    ghost Value = { KeptState };

    ghost view = { λ k. record { world = k.world; keys = k.keys.entries; calls = k.calls.items } };
}

/// Why an event is not made.
#[derive(Clone, Copy, Debug, PartialEq, Eq)]
pub enum StepError {
    /// An allocation was refused, and nothing has changed.
    Memory,
    /// The world refuses the event, and nothing has changed.
    Refused(Refused),
    /// The world made the event, and then an allocation was refused: what is kept belongs to no run any more.
    Lost,
}

fn step(world: &mut World, alloc: Global, event: &Event) -> Result<Shown, StepError>
    requires { IsEvent event.now }
    ensures { IsStepMade result world.old world.new event.now }
{
    match world.step(alloc, event) {
        Ok(shown) => Ok(shown),
        Err(WorldFault::Memory) => Err(StepError::Memory),
        Err(WorldFault::Refused(refused)) => Err(StepError::Refused(refused)),
    }
}

/// The key of the call of this number.
pub(crate) fn call_key(calls: &[Key], call: CallNo) -> Option<&Key>
    ensures { option_copied result ≡ numbered call.0 calls.now }
{
    if call.0 == 0 {
        return None;
    }
    calls.get((call.0 - 1) as usize)
}

// Whether the first reply did not refuse its call.
fn is_answer(replies: &[Reply]) -> bool
    ensures { result ≡ is_answer replies.now }
{
    match replies.first() {
        Some(reply) => !matches!(reply.answer, Answer::Busy(_) | Answer::Exhausted(_)),
        None => false,
    }
}

// The tag of the key's row at the node, 0 where there is none.
fn row_tag(node: &Node, key: &Key) -> u64
    requires { IsNode node.now }
    ensures { result ≡ tag_of (row_at key.now node.now.rows).stamp }
{
    match node.row(key) {
        Some(row) => row.stamp.tag(),
        None => 0,
    }
}

fn tag_at(world: &World, id: NodeId, key: &Key) -> u64
    requires { IsWorld world.now }
    ensures { result ≡ (key_node key.now (node_at id.0 world.now.processes)).stamp }
{
    match world.node(id) {
        Some(node) => row_tag(node, key),
        None => 0,
    }
}

fn prior_tag(prior: &PriorRow) -> u64
    requires { IsPrior prior.now }
    ensures { result ≡ prior_tag prior.now.row }
{
    match &prior.row {
        Some(row) => row.stamp.tag(),
        None => 0,
    }
}

fn find_prior<'a>(rows: &'a [PriorRow], key: &Key) -> Option<&'a PriorRow>
    ensures { option_copied result ≡ find (λ f. is_same_key key.now f.key) rows.now }
{
    rows.iter().find(|prior| key.cmp(&prior.key).is_eq())
}

// Whether the row of the key had another tag before the event.
fn is_new(acted: &Option<Acted>, key: &Key, tag: u64) -> bool
    requires { ArePrior acted.now }
    ensures { result ≡ is_new acted.now key.now tag }
{
    let Some(acted) = acted else {
        return false;
    };
    match find_prior(acted.report.rows.as_slice(), key) {
        Some(prior) => tag != prior_tag(prior),
        None => false,
    }
}

// The call stands in the items of its key, which is kept from then on.
fn put_call(
    keys: &mut BTreeMap<Key, KeyRun>,
    alloc: Global,
    key: &Key,
    turn: CallEffect,
    op: &Op,
) -> Result<(), Memory>
    ensures { OnOk result (IsNamed keys.old.entries keys.new.entries key.now turn op.now) }
{
    if let Some(run) = keys.get_mut(key) {
        return run.take(alloc, turn, op);
    }
    let mut run = KeyRun::new(alloc);
    run.take(alloc, turn, op)?;
    let name = key.share()?;
    keys.insert(name, run)?;
    Ok(())
}

// A reply stands in the items of its call's key.
fn put_reply(keys: &mut BTreeMap<Key, KeyRun>, calls: &[Key], reply: &Reply) -> Result<(), Memory>
    ensures { OnOk result (AreTold keys.old.entries keys.new.entries (λ key. lines_at key calls.now (reply.now ∷ []))) }
{
    let Some(key) = call_key(calls, reply.call) else {
        return Ok(());
    };
    match keys.get_mut(key) {
        Some(run) => run.answer(reply),
        None => Ok(()),
    }
}

fn put_replies(
    keys: &mut BTreeMap<Key, KeyRun>,
    calls: &[Key],
    replies: &[Reply],
) -> Result<(), Memory>
    ensures { OnOk result (AreTold keys.old.entries keys.new.entries (λ key. lines_at key calls.now replies.now)) }
{
    for reply in replies {
        put_reply(keys, calls, reply)?;
    }
    Ok(())
}

// A call that was made stands in the items of its key, and its key among those of the calls.
fn put_event(
    keys: &mut BTreeMap<Key, KeyRun>,
    calls: &mut Vec<Key>,
    alloc: Global,
    world: &World,
    number: u64,
    event: &Event,
    shown: &Shown,
) -> Result<(), Memory>
    requires sound { IsWorld world.now }
    requires rows { ArePrior shown.now.acted }
    ensures call { OnOk result (IsCallKept number keys.old.entries keys.new.entries world.now event.now shown.now) }
    ensures calls { OnOk result (calls.new.items ≡ calls.old.items ++ called_from (event.now ∷ [])) }
{
    let Event::Call { node, key, op } = event else {
        return Ok(());
    };
    let tag = tag_at(world, *node, key);
    let turn = CallEffect {
        event: number,
        call: CallNo(world.calls()),
        began: is_new(&shown.acted, key, tag),
        tag,
        answered: is_answer(shown.replies.as_slice()),
    };
    put_call(keys, alloc, key, turn, op)?;
    let name = key.share()?;
    calls.push(name)?;
    Ok(())
}

impl Kept {
    ghost use Rattle.hk_safety.specs.Noted.{MayMake, IsMadeBy};

    // What the accepted event of this number showed, by the world behind it.
    fn keep(
        &mut self,
        alloc: Global,
        number: u64,
        event: &Event,
        shown: &Shown,
    ) -> Result<(), Memory>
        requires sound { IsWorld self.old.world }
        requires rows { ArePrior shown.now.acted }
        requires letters { AllByRecursion IsLetter shown.now.letters }
        ensures { OnOk result (IsKeptAfter number self.old self.new event.now shown.now) }
    {
        put_event(
            &mut self.keys,
            &mut self.calls,
            alloc,
            &self.world,
            number,
            event,
            shown,
        )?;
        put_replies(&mut self.keys, &self.calls, shown.replies.as_slice())?;
        cover_event(&mut self.keys, alloc, &self.world, number, shown)
    }

    /// Makes an event, the one of this number, and keeps what it showed.
    pub(crate) fn make(
        &mut self,
        alloc: Global,
        number: u64,
        event: &Event,
    ) -> Result<Shown, StepError>
        requires { MayMake self.old event.now }
        ensures { IsMadeBy number result self.old self.new event.now }
    {
        let shown = match step(&mut self.world, alloc, event) {
            Ok(shown) => shown,
            Err(unmade) => return Err(unmade),
        };
        match self.keep(alloc, number, event, &shown) {
            Ok(()) => Ok(shown),
            Err(Memory) => Err(StepError::Lost),
        }
    }
}
