//! What the words of an event stand for.

ghost use Rattle.std.specs.Prelude.{◌≡◌, map};
ghost use Rattle.hk_event.specs.declared.event.Event.TheVariants.{Take, Crash, Resend, Replay, Copy, Start, Install, Lease, AskLease, Activate};
ghost use Rattle.hk_script.specs.Parts.{Reads, number_64, time_of, some_of, key_of, node_of, manager_of, actor_of, target_of};
ghost use Rattle.hk_script.specs.Lines.{one, two, three, tick, call_of, propose_of, group_event_of, actor_event_of, event_of_words};

use crate::op::{change, op};
use crate::parts::{actor, key, manager, node, some, target, time};
use crate::words::{is, number};
use hk_base::{Actor, Memory};
use hk_event::Event;
use std::alloc::Global;

/// The event that the words of a line are.
#[tactic(auto, unfolding(crate::specs::Lines::event_of_words))]
pub(crate) fn event(alloc: Global, words: &[&[u8]]) -> Result<Option<Event>, Memory>
    ensures { Reads result (event_of_words (map (λ w. w.now) words.now)) }
{
    let Some((name, words)) = words.split_first() else {
        return Ok(None);
    };
    if is(name, b"call") {
        call(alloc, words)
    } else if is(name, b"resend") {
        resend(alloc, words)
    } else if is(name, b"replay") {
        replay(alloc, words)
    } else {
        Ok(actor_event(name, words))
    }
}

#[tactic(auto, unfolding(crate::specs::Lines::call_of))]
fn call(alloc: Global, words: &[&[u8]]) -> Result<Option<Event>, Memory>
    ensures { Reads result (call_of (map (λ w. w.now) words.now)) }
{
    match words {
        [id, name, word, rest @ ..] => {
            let Some(node) = node(id) else {
                return Ok(None);
            };
            let Some(key) = key(alloc, word)? else {
                return Ok(None);
            };
            let Some(op) = op(alloc, name, rest)? else {
                return Ok(None);
            };
            Ok(Some(Event::Call { node, key, op }))
        }
        _ => Ok(None),
    }
}

#[tactic(auto, unfolding(crate::specs::Lines::two))]
fn resend(alloc: Global, words: &[&[u8]]) -> Result<Option<Event>, Memory>
    ensures { Reads result (two node_of key_of Resend (map (λ w. w.now) words.now)) }
{
    match words {
        [id, word] => {
            let Some(node) = node(id) else {
                return Ok(None);
            };
            let Some(key) = key(alloc, word)? else {
                return Ok(None);
            };
            Ok(Some(Event::Resend { node, key }))
        }
        _ => Ok(None),
    }
}

#[tactic(auto, unfolding(crate::specs::Lines::two))]
fn replay(alloc: Global, words: &[&[u8]]) -> Result<Option<Event>, Memory>
    ensures { Reads result (two node_of key_of Replay (map (λ w. w.now) words.now)) }
{
    match words {
        [id, word] => {
            let Some(node) = node(id) else {
                return Ok(None);
            };
            let Some(key) = key(alloc, word)? else {
                return Ok(None);
            };
            Ok(Some(Event::Replay { node, key }))
        }
        _ => Ok(None),
    }
}

#[tactic(auto, unfolding(crate::specs::Lines::actor_event_of))]
fn actor_event(name: &[u8], words: &[&[u8]]) -> Option<Event>
    ensures { result ≡ actor_event_of name.now (map (λ w. w.now) words.now) }
{
    if is(name, b"take") {
        take(words)
    } else if is(name, b"tick") {
        tick(words)
    } else if is(name, b"crash") {
        crash(words)
    } else if is(name, b"copy") {
        copy(words)
    } else if is(name, b"start") {
        start(words)
    } else {
        group_event(name, words)
    }
}

#[tactic(auto, unfolding(crate::specs::Lines::one))]
fn take(words: &[&[u8]]) -> Option<Event>
    ensures { result ≡ one number_64 Take (map (λ w. w.now) words.now) }
{
    match words {
        [letter] => {
            let letter = number(u64::MAX, letter)?;
            Some(Event::Take { letter })
        }
        _ => None,
    }
}

fn tick_of(actor: Option<Actor>, to: u64) -> Event
    ensures { result ≡ tick actor to }
{
    match actor {
        Some(actor) => Event::Tick { actor, to },
        None => Event::TickAll { to },
    }
}

#[tactic(auto, unfolding(crate::specs::Lines::two))]
fn tick(words: &[&[u8]]) -> Option<Event>
    ensures { result ≡ two target_of time_of tick (map (λ w. w.now) words.now) }
{
    match words {
        [actor, to] => {
            let actor = target(actor)?;
            let to = time(to)?;
            Some(tick_of(actor, to))
        }
        _ => None,
    }
}

#[tactic(auto, unfolding(crate::specs::Lines::one))]
fn crash(words: &[&[u8]]) -> Option<Event>
    ensures { result ≡ one actor_of Crash (map (λ w. w.now) words.now) }
{
    match words {
        [word] => {
            let actor = actor(word)?;
            Some(Event::Crash { actor })
        }
        _ => None,
    }
}

#[tactic(auto, unfolding(crate::specs::Lines::three))]
fn copy(words: &[&[u8]]) -> Option<Event>
    ensures { result ≡ three node_of node_of (some_of 64) Copy (map (λ w. w.now) words.now) }
{
    match words {
        [id, from, room] => {
            let id = node(id)?;
            let from = node(from)?;
            let room = some(64, room)?;
            Some(Event::Copy {
                node: id,
                from,
                room,
            })
        }
        _ => None,
    }
}

#[tactic(auto, unfolding(crate::specs::Lines::one))]
fn start(words: &[&[u8]]) -> Option<Event>
    ensures { result ≡ one node_of Start (map (λ w. w.now) words.now) }
{
    match words {
        [id] => {
            let node = node(id)?;
            Some(Event::Start { node })
        }
        _ => None,
    }
}

#[tactic(auto, unfolding(crate::specs::Lines::group_event_of))]
fn group_event(name: &[u8], words: &[&[u8]]) -> Option<Event>
    ensures { result ≡ group_event_of name.now (map (λ w. w.now) words.now) }
{
    if is(name, b"agree") {
        let change = change(words)?;
        Some(Event::Agree { change })
    } else if is(name, b"install") {
        install(words)
    } else if is(name, b"lease") {
        lease(words)
    } else if is(name, b"asklease") {
        ask_lease(words)
    } else if is(name, b"propose") {
        propose(words)
    } else if is(name, b"activate") {
        activate(words)
    } else {
        None
    }
}

#[tactic(auto, unfolding(crate::specs::Lines::two))]
fn install(words: &[&[u8]]) -> Option<Event>
    ensures { result ≡ two node_of number_64 Install (map (λ w. w.now) words.now) }
{
    match words {
        [id, epoch] => {
            let node = node(id)?;
            let epoch = number(u64::MAX, epoch)?;
            Some(Event::Install { node, epoch })
        }
        _ => None,
    }
}

#[tactic(auto, unfolding(crate::specs::Lines::two))]
fn lease(words: &[&[u8]]) -> Option<Event>
    ensures { result ≡ two node_of time_of Lease (map (λ w. w.now) words.now) }
{
    match words {
        [id, end] => {
            let node = node(id)?;
            let end = time(end)?;
            Some(Event::Lease { node, end })
        }
        _ => None,
    }
}

#[tactic(auto, unfolding(crate::specs::Lines::two))]
fn ask_lease(words: &[&[u8]]) -> Option<Event>
    ensures { result ≡ two node_of manager_of AskLease (map (λ w. w.now) words.now) }
{
    match words {
        [id, word] => {
            let node = node(id)?;
            let manager = manager(word)?;
            Some(Event::AskLease { node, manager })
        }
        _ => None,
    }
}

#[tactic(auto, unfolding(crate::specs::Lines::propose_of))]
fn propose(words: &[&[u8]]) -> Option<Event>
    ensures { result ≡ propose_of (map (λ w. w.now) words.now) }
{
    match words {
        [word, base, rest @ ..] => {
            let manager = manager(word)?;
            let base = number(u64::MAX, base)?;
            let change = change(rest)?;
            Some(Event::Propose {
                manager,
                base,
                change,
            })
        }
        _ => None,
    }
}

#[tactic(auto, unfolding(crate::specs::Lines::one))]
fn activate(words: &[&[u8]]) -> Option<Event>
    ensures { result ≡ one manager_of Activate (map (λ w. w.now) words.now) }
{
    match words {
        [word] => {
            let manager = manager(word)?;
            Some(Event::Activate { manager })
        }
        _ => None,
    }
}
