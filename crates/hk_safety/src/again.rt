//! What the events of a run say of a key, from the run made again.

ghost use Rattle.std.specs.Prelude.{◌≡◌, ◌++◌, ◌∷◌, [], IfOk, OnOk};
ghost use Rattle.hk_world.specs.World.{numbered};
ghost use Rattle.hk_world.specs.Start.{start};
ghost use Rattle.hk_world.specs.Sound.{IsHeader, IsEvent};
ghost use Rattle.hk_effects.specs.Projection.{is_same_key};
ghost use Rattle.hk_safety.specs.Run.{AreAccepted};
ghost use Rattle.hk_safety.specs.Kept.{called_from};
ghost use Rattle.hk_safety.specs.Shows.{call_line, line_at, lines_at, lines_from};
ghost use Rattle.hk_safety.specs.Again.{IsAccepted, IsRemade, IsTakenAgain};

use crate::kept::call_key;
use hk_base::{CallNo, Key, Memory, Op, Reply};
use hk_event::{Event, Header};
use hk_history::{Event as Item, Items};
use hk_world::{Shown, World, WorldFault};
use std::alloc::Global;

fn is_same_key(key: &Key, other: &Key) -> bool
    ensures { result ≡ is_same_key key.now other.now }
{
    key.cmp(other).is_eq()
}

// Makes an event again.
fn remake(world: &mut World, alloc: Global, event: &Event) -> Result<Shown, Memory>
    requires event { IsEvent event.now }
    requires accepted { IsAccepted world.old event.now }
    ensures { IfOk result (λ shown. IsRemade world.old world.new event.now shown) }
{
    match world.step(alloc, event) {
        Ok(shown) => Ok(shown),
        Err(WorldFault::Memory) => Err(Memory),
        Err(WorldFault::Refused(_)) => unreachable!(),
    }
}

// The key of a call stands among those of the calls.
fn note_call(calls: &mut Vec<Key>, event: &Event) -> Result<(), Memory>
    ensures { OnOk result (calls.new.items ≡ calls.old.items ++ called_from (event.now ∷ [])) }
{
    let Event::Call { key, .. } = event else {
        return Ok(());
    };
    let name = key.share()?;
    calls.push(name)?;
    Ok(())
}

fn put_op(items: &mut Items, no: CallNo, op: &Op) -> Result<(), Memory>
    ensures { OnOk result (items.new ≡ items.old ++ Item.Call no op.now ∷ []) }
{
    let op = op.share()?;
    items.push(Item::Call { no, op })
}

// Puts a call that is made behind the rest, if it is on the key.
fn put_call(items: &mut Items, key: &Key, event: &Event, call: Option<CallNo>) -> Result<(), Memory>
    ensures { OnOk result (items.new ≡ items.old ++ call_line key.now event.now call) }
{
    let Event::Call { key: of, op, .. } = event else {
        return Ok(());
    };
    let Some(no) = call else {
        return Ok(());
    };
    if is_same_key(key, of) {
        put_op(items, no, op)
    } else {
        Ok(())
    }
}

fn put_answer(items: &mut Items, reply: &Reply) -> Result<(), Memory>
    ensures { OnOk result (items.new ≡ items.old ++ Item.Reply reply.now.call reply.now.answer ∷ []) }
{
    let answer = reply.answer.share()?;
    items.push(Item::Reply {
        no: reply.call,
        answer,
    })
}

// Puts a reply behind the rest, if its call is on the key.
fn put_reply(items: &mut Items, key: &Key, calls: &[Key], reply: &Reply) -> Result<(), Memory>
    ensures { OnOk result (items.new ≡ items.old ++ line_at key.now (numbered reply.now.call.0 calls.now) reply.now) }
{
    let Some(of) = call_key(calls, reply.call) else {
        return Ok(());
    };
    if is_same_key(key, of) {
        put_answer(items, reply)
    } else {
        Ok(())
    }
}

fn put_replies(items: &mut Items, key: &Key, calls: &[Key], replies: &[Reply]) -> Result<(), Memory>
    ensures { OnOk result (items.new ≡ items.old ++ lines_at key.now calls.now replies.now) }
{
    for reply in replies {
        put_reply(items, key, calls, reply)?;
    }
    Ok(())
}

// Makes an event again, and puts what it says of the key behind the rest.
fn take_again(
    world: &mut World,
    alloc: Global,
    calls: &mut Vec<Key>,
    items: &mut Items,
    key: &Key,
    event: &Event,
) -> Result<(), Memory>
    requires event { IsEvent event.now }
    requires accepted { IsAccepted world.old event.now }
    ensures { OnOk result (IsTakenAgain world.old world.new calls.old.items calls.new.items items.old items.new key.now event.now) }
{
    let shown = remake(world, alloc, event)?;
    note_call(calls, event)?;
    put_call(items, key, event, shown.call)?;
    put_replies(items, key, calls.as_slice(), shown.replies.as_slice())
}

/// What accepted events say of the key.
pub(crate) fn again(
    alloc: Global,
    header: Header,
    events: &[Event],
    key: &Key,
) -> Result<Items, Memory>
    requires header { IsHeader header }
    requires accepted { AreAccepted (start header) events.now }
    ensures { IfOk result (λ items. items ≡ lines_from key.now (start header) [] events.now) }
{
    let mut world = World::new(alloc, header)?;
    let mut calls = Vec::new(alloc);
    let mut items = Items::new(alloc);
    for event in events {
        take_again(&mut world, alloc, &mut calls, &mut items, key, event)?;
    }
    Ok(items)
}
