//! What single words stand for.

ghost use Rattle.std.specs.Prelude.{◌≡◌, ◌≤◌, IfSome, is_some, if◌then◌else◌, Some, None};
ghost use Rattle.hk_base.specs.KeyFaults.{key_fault, data_fault};
ghost use Rattle.hk_base.specs.declared.time.TheConstants.{MAX_TIME};
ghost use Rattle.hk_script.specs.Parts.{Reads, key_of, data_of, node_of, manager_of, actor_of, target_of, some_of, flags_of, time_of};

use crate::words::{bytes, is, is_literal, number};
use hk_base::{Actor, Data, DataFault, Key, KeyFault, MAX_TIME, Memory, NodeId};
use std::alloc::Global;

fn key_in(alloc: Global, bytes: &[u8]) -> Result<Option<Key>, Memory>
    ensures { Reads result (if is_some (key_fault bytes.now) then None else Some bytes.now) }
{
    match Key::read(alloc, bytes) {
        Ok(key) => Ok(Some(key)),
        Err(KeyFault::Memory) => Err(Memory),
        Err(_) => Ok(None),
    }
}

/// The key that a word is.
#[tactic(auto, unfolding(crate::specs::Parts::key_of))]
pub(crate) fn key(alloc: Global, word: &[u8]) -> Result<Option<Key>, Memory>
    ensures { Reads result (key_of word.now) }
{
    if is_literal(word) {
        return key_in(alloc, word);
    }
    let Some(bytes) = bytes(alloc, word)? else {
        return Ok(None);
    };
    key_in(alloc, bytes.as_slice())
}

fn data_in(alloc: Global, bytes: &[u8]) -> Result<Option<Data>, Memory>
    ensures { Reads result (if is_some (data_fault bytes.now) then None else Some bytes.now) }
{
    match Data::read(alloc, bytes) {
        Ok(data) => Ok(Some(data)),
        Err(DataFault::Memory) => Err(Memory),
        Err(_) => Ok(None),
    }
}

/// The data that a word is.
#[tactic(auto, unfolding(crate::specs::Parts::data_of))]
pub(crate) fn data(alloc: Global, word: &[u8]) -> Result<Option<Data>, Memory>
    ensures { Reads result (data_of word.now) }
{
    if is_literal(word) {
        return data_in(alloc, word);
    }
    let Some(bytes) = bytes(alloc, word)? else {
        return Ok(None);
    };
    data_in(alloc, bytes.as_slice())
}

/// The node that a word is.
#[tactic(auto, unfolding(crate::specs::Parts::node_of))]
pub(crate) fn node(word: &[u8]) -> Option<NodeId>
    ensures { result ≡ node_of word.now }
{
    let id = number(65_535, word)?;
    Some(NodeId(id as u16))
}

/// The manager that a word is.
#[tactic(auto, unfolding(crate::specs::Parts::manager_of))]
pub(crate) fn manager(word: &[u8]) -> Option<u8>
    ensures { result ≡ manager_of word.now }
{
    let (first, digits) = word.split_first()?;
    if *first == b'm' {
        let id = number(8, digits)?;
        Some(id as u8)
    } else {
        None
    }
}

/// The actor that a word is.
#[tactic(auto, unfolding(crate::specs::Parts::actor_of, crate::specs::Parts::manager_of))]
pub(crate) fn actor(word: &[u8]) -> Option<Actor>
    ensures { result ≡ actor_of word.now }
{
    let (first, _) = word.split_first()?;
    if *first == b'm' {
        let id = manager(word)?;
        Some(Actor::Manager(id))
    } else {
        let id = node(word)?;
        Some(Actor::Node(id))
    }
}

/// The actor that a word is, or none where it is `all`.
#[tactic(auto, unfolding(crate::specs::Parts::target_of))]
pub(crate) fn target(word: &[u8]) -> Option<Option<Actor>>
    ensures { result ≡ target_of word.now }
{
    match actor(word) {
        Some(actor) => Some(Some(actor)),
        None => { if is(word, b"all") { Some(None) } else { None } }
    }
}

/// The flags that a word is.
pub(crate) fn flags(word: &[u8]) -> Option<u32>
    ensures { result ≡ flags_of word.now }
{
    let flags = number(u64::from(u32::MAX), word)?;
    Some(flags as u32)
}

/// The time that a word is.
pub(crate) fn time(word: &[u8]) -> Option<u64>
    ensures exact { result ≡ time_of word.now }
    ensures at_most { IfSome result (λ n. n ≤ MAX_TIME) }
{
    number(MAX_TIME, word)
}

/// The number from 1 on that a word is, up to a limit.
#[tactic(auto, unfolding(crate::specs::Parts::some_of))]
pub(crate) fn some(limit: u8, word: &[u8]) -> Option<u8>
    ensures exact { result ≡ some_of limit word.now }
{
    let n = number(u64::from(limit), word)?;
    if n == 0 { None } else { Some(n as u8) }
}
