//! What the words of an operation, of a change and of a call stand for.

ghost use Rattle.std.specs.Prelude.{◌≡◌, map};
ghost use Rattle.std.specs.Option.{option_map};
ghost use Rattle.hk_base.specs.declared.call.Op.TheVariants.{Read, Write, Cas, Incr, Decr, Replace, Delete};
ghost use Rattle.hk_base.specs.declared.call.Op.TheVariants as operation;
ghost use Rattle.hk_base.specs.declared.view.Change.TheVariants.{Drop, Add};
ghost use Rattle.hk_script.specs.Parts.{Reads, number_64, flags_of, data_of, node_of};
ghost use Rattle.hk_script.specs.Lines.{none, one, two, three, content, content_of, op_of, change_of};

use crate::parts::{data, flags, node};
use crate::words::{is, number};
use hk_base::{Change, Content, Memory, Op};
use std::alloc::Global;

/// The change that words are.
#[tactic(auto, unfolding(crate::specs::Lines::change_of))]
pub(crate) fn change(words: &[&[u8]]) -> Option<Change>
    ensures { result ≡ change_of (map (λ w. w.now) words.now) }
{
    let (name, words) = words.split_first()?;
    if is(name, b"drop") {
        change_drop(words)
    } else if is(name, b"add") {
        change_add(words)
    } else {
        None
    }
}

#[tactic(auto, unfolding(crate::specs::Lines::one))]
fn change_drop(words: &[&[u8]]) -> Option<Change>
    ensures { result ≡ one node_of Drop (map (λ w. w.now) words.now) }
{
    match words {
        [id] => {
            let id = node(id)?;
            Some(Change::Drop(id))
        }
        _ => None,
    }
}

#[tactic(auto, unfolding(crate::specs::Lines::none))]
fn change_add(words: &[&[u8]]) -> Option<Change>
    ensures { result ≡ none Add (map (λ w. w.now) words.now) }
{
    match words {
        [] => Some(Change::Add),
        _ => None,
    }
}

#[tactic(auto, unfolding(crate::specs::Lines::none))]
fn delete(words: &[&[u8]]) -> Option<Op>
    ensures { result ≡ none Delete (map (λ w. w.now) words.now) }
{
    match words {
        [] => Some(Op::Delete),
        _ => None,
    }
}

#[tactic(auto, unfolding(crate::specs::Lines::none))]
fn read(words: &[&[u8]]) -> Option<Op>
    ensures { result ≡ none Read (map (λ w. w.now) words.now) }
{
    match words {
        [] => Some(Op::Read),
        _ => None,
    }
}

#[tactic(auto, unfolding(crate::specs::Lines::one))]
fn incr(words: &[&[u8]]) -> Option<Op>
    ensures { result ≡ one number_64 Incr (map (λ w. w.now) words.now) }
{
    match words {
        [by] => {
            let by = number(u64::MAX, by)?;
            Some(Op::Incr(by))
        }
        _ => None,
    }
}

#[tactic(auto, unfolding(crate::specs::Lines::one))]
fn decr(words: &[&[u8]]) -> Option<Op>
    ensures { result ≡ one number_64 Decr (map (λ w. w.now) words.now) }
{
    match words {
        [by] => {
            let by = number(u64::MAX, by)?;
            Some(Op::Decr(by))
        }
        _ => None,
    }
}

// A content, in two words.
#[tactic(auto, unfolding(crate::specs::Lines::two))]
fn content(alloc: Global, words: &[&[u8]]) -> Result<Option<Content>, Memory>
    ensures { Reads result (content_of (map (λ w. w.now) words.now)) }
{
    match words {
        [word, bytes] => {
            let Some(flags) = flags(word) else {
                return Ok(None);
            };
            let Some(bytes) = data(alloc, bytes)? else {
                return Ok(None);
            };
            Ok(Some(Content { flags, bytes }))
        }
        _ => Ok(None),
    }
}

fn write(alloc: Global, words: &[&[u8]]) -> Result<Option<Op>, Memory>
    ensures { Reads result (option_map Write (content_of (map (λ w. w.now) words.now))) }
{
    let Some(content) = content(alloc, words)? else {
        return Ok(None);
    };
    Ok(Some(Op::Write(content)))
}

fn add(alloc: Global, words: &[&[u8]]) -> Result<Option<Op>, Memory>
    ensures { Reads result (option_map operation.Add (content_of (map (λ w. w.now) words.now))) }
{
    let Some(content) = content(alloc, words)? else {
        return Ok(None);
    };
    Ok(Some(Op::Add(content)))
}

fn replace(alloc: Global, words: &[&[u8]]) -> Result<Option<Op>, Memory>
    ensures { Reads result (option_map Replace (content_of (map (λ w. w.now) words.now))) }
{
    let Some(content) = content(alloc, words)? else {
        return Ok(None);
    };
    Ok(Some(Op::Replace(content)))
}

#[tactic(auto, unfolding(crate::specs::Lines::three))]
fn cas(alloc: Global, words: &[&[u8]]) -> Result<Option<Op>, Memory>
    ensures { Reads result (three flags_of data_of number_64 (λ f b t. Cas t (content f b)) (map (λ w. w.now) words.now)) }
{
    match words {
        [word, bytes, tag] => {
            let Some(flags) = flags(word) else {
                return Ok(None);
            };
            let Some(bytes) = data(alloc, bytes)? else {
                return Ok(None);
            };
            let Some(tag) = number(u64::MAX, tag) else {
                return Ok(None);
            };
            let content = Content { flags, bytes };
            Ok(Some(Op::Cas { tag, content }))
        }
        _ => Ok(None),
    }
}

/// The operation of this name that the words behind its key are.
#[tactic(auto, unfolding(crate::specs::Lines::op_of))]
pub(crate) fn op(alloc: Global, name: &[u8], words: &[&[u8]]) -> Result<Option<Op>, Memory>
    ensures { Reads result (op_of name.now (map (λ w. w.now) words.now)) }
{
    if is(name, b"get") {
        Ok(read(words))
    } else if is(name, b"set") {
        write(alloc, words)
    } else if is(name, b"cas") {
        cas(alloc, words)
    } else if is(name, b"incr") {
        Ok(incr(words))
    } else if is(name, b"decr") {
        Ok(decr(words))
    } else if is(name, b"add") {
        add(alloc, words)
    } else if is(name, b"replace") {
        replace(alloc, words)
    } else if is(name, b"delete") {
        Ok(delete(words))
    } else {
        Ok(None)
    }
}
