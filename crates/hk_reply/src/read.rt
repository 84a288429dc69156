//! Reading replies.

ghost use Rattle.std.specs.Prelude.{◌≡◌, ◌++◌, List, ℕ, ◌+◌, ◌≤◌, length, IfOk, OnErr, Err, ◌∷◌, []};
ghost use Rattle.hk_base.specs.declared.data.TheConstants.{MAX_DATA_LEN};
ghost use Rattle.hk_reply.specs.Scans.{Gives};
ghost use Rattle.hk_reply.specs.Texts.{text_of};
ghost use Rattle.hk_reply.specs.Replies.{IsRead, IsPlain, IsReadAs};
ghost use Rattle.hk_reply.specs.Reading.{tag_at, body_at, item_at, more_at, tail_of, turn_by, turn_at, items_at, with_items, values_at, behind_at, count_at, reply_at};

use crate::opening::{Opening, read_opening};
use crate::reply::{Item, Reply, ValueItems};
use crate::scan::{Stop, Tail, data, key, literal, number};
use hk_base::{Data, Key, MAX_DATA_LEN};
use std::alloc::Global;
use thiserror::Error;

/// Why bytes are no reply.
#[derive(Clone, Copy, Debug, PartialEq, Eq, Error)]
pub enum ReplyFault {
    /// An allocation was refused.
    #[error("no memory")]
    Memory,
    /// The bytes are less than a whole reply, and some reply goes on from them.
    #[error("more bytes are wanted")]
    Need,
    /// No reply goes on with the byte at place `at`, counted from 0; one does up to it.
    #[error("no reply goes on at {at}")]
    Bad { at: usize },
}

/// Reads the reply that begins the bytes, and tells how many bytes it takes. What its text does not tell is read as
/// nothing: a value without a tag has tag 0, and a reply without values has `tags` false.
pub fn read_reply(alloc: Global, bytes: &[u8]) -> Result<(Reply, usize), ReplyFault>
    // The reply whose text begins the bytes; Need exactly in front of a whole one; Bad exactly where none goes on.
    ensures exact { IsRead result bytes.now }
    // A reply whose text begins the bytes is read, whatever follows, unless an allocation is refused.
    ensures only { (reply : Reply) (rest : List ℕ) → IsPlain reply → bytes.now ≡ text_of reply ++ rest → IsReadAs result reply }
{
    match reply(alloc, bytes) {
        Ok((reply, rest)) => Ok((reply, bytes.len() - rest.len())),
        Err(Stop::Memory) => Err(ReplyFault::Memory),
        Err(Stop::Need) => Err(ReplyFault::Need),
        Err(Stop::Bad { left }) => Err(ReplyFault::Bad {
            at: bytes.len() - left,
        }),
    }
}

#[tactic(auto, unfolding(crate::specs::Reading::reply_at))]
fn reply(alloc: Global, bytes: &[u8]) -> Result<(Reply, &[u8]), Stop>
    ensures { Gives (λ x. (x.0, x.1.now)) result (reply_at bytes.now) }
{
    let Some((first, _)) = bytes.split_first() else {
        return Err(Stop::Need);
    };
    if first.is_ascii_digit() {
        return count(bytes);
    }
    let (opening, rest) = read_opening(bytes)?;
    behind(alloc, opening, rest)
}

#[tactic(auto, unfolding(crate::specs::Reading::count_at))]
fn count(bytes: &[u8]) -> Result<(Reply, &[u8]), Stop>
    ensures { Gives (λ x. (x.0, x.1.now)) result (count_at bytes.now) }
{
    let ((n, _), rest) = number(u64::MAX, Tail::Return, bytes)?;
    let (_, rest) = literal(b"\n", rest)?;
    Ok((Reply::Number(n), rest))
}

#[tactic(auto, unfolding(crate::specs::Reading::behind_at))]
fn behind(alloc: Global, opening: Opening, bytes: &[u8]) -> Result<(Reply, &[u8]), Stop>
    ensures { Gives (λ x. (x.0, x.1.now)) result (behind_at opening bytes.now) }
{
    match opening {
        Opening::Value => values(alloc, bytes),
        Opening::End => Ok((
            Reply::Values {
                items: ValueItems::new(alloc),
                tags: false,
            },
            bytes,
        )),
        Opening::Stored => Ok((Reply::Stored, bytes)),
        Opening::Exists => Ok((Reply::Exists, bytes)),
        Opening::NotFound => Ok((Reply::NotFound, bytes)),
        Opening::NotStored => Ok((Reply::NotStored, bytes)),
        Opening::Deleted => Ok((Reply::Deleted, bytes)),
        Opening::Error => Ok((Reply::Error, bytes)),
        Opening::Version => Ok((Reply::Version, bytes)),
        Opening::Client(text) => Ok((Reply::ClientError(text), bytes)),
        Opening::Server(text) => Ok((Reply::ServerError(text), bytes)),
    }
}

// Reads values, of which the first word was read.
#[tactic(auto, unfolding(crate::specs::Reading::values_at))]
fn values(alloc: Global, bytes: &[u8]) -> Result<(Reply, &[u8]), Stop>
    ensures { Gives (λ x. (x.0, x.1.now)) result (values_at bytes.now) }
{
    let ((first, tags), rest) = item(alloc, Tail::Either, bytes)?;
    let (items, rest) = items(alloc, first, tags, rest)?;
    Ok((Reply::Values { items, tags }, rest))
}

// Reads the values behind the first one.
fn items(alloc: Global, first: Item, tags: bool, bytes: &[u8]) -> Result<(ValueItems, &[u8]), Stop>
    ensures { Gives (λ x. (x.0, x.1.now)) result (with_items (first ∷ []) (items_at (length bytes.now + 1) tags bytes.now)) }
{
    let mut items = ValueItems::new(alloc);
    if items.push(first).is_err() {
        return Err(Stop::Memory);
    }
    let mut rest = bytes;
    // Each value takes bytes, so there are fewer values than turns.
    for _turn in 0..bytes.len() + 1 {
        match turn(alloc, tags, rest) {
            Err(stop) => return Err(stop),
            Ok((found, behind)) => match found {
                None => return Ok((items, behind)),
                Some(item) => {
                    if items.push(item).is_err() {
                        return Err(Stop::Memory);
                    }
                    rest = behind;
                }
            },
        }
    }
    Err(Stop::Need)
}

// Reads one more value, or the end of the values.
#[tactic(auto, unfolding(crate::specs::Reading::turn_at))]
fn turn(alloc: Global, tags: bool, bytes: &[u8]) -> Result<(Option<Item>, &[u8]), Stop>
    ensures { Gives (λ x. (x.0, x.1.now)) result (turn_at tags bytes.now) }
{
    let (more, rest) = more(bytes)?;
    if !more {
        return Ok((None, rest));
    }
    let tail = if tags { Tail::Space } else { Tail::Return };
    let ((item, _), rest) = item(alloc, tail, rest)?;
    Ok((Some(item), rest))
}

#[tactic(auto, unfolding(crate::specs::Reading::more_at))]
fn more(bytes: &[u8]) -> Result<(bool, &[u8]), Stop>
    ensures { Gives (λ x. (x.0, x.1.now)) result (more_at bytes.now) }
{
    let Some((first, _)) = bytes.split_first() else {
        return Err(Stop::Need);
    };
    if *first == b'V' {
        let (_, rest) = literal(b"VALUE ", bytes)?;
        return Ok((true, rest));
    }
    let (_, rest) = literal(b"END\r\n", bytes)?;
    Ok((false, rest))
}

// Reads a value of which the first word was read, and tells whether it has a tag.
#[tactic(auto, unfolding(crate::specs::Reading::item_at))]
fn item(alloc: Global, tail: Tail, bytes: &[u8]) -> Result<((Item, bool), &[u8]), Stop>
    ensures { Gives (λ x. (x.0, x.1.now)) result (item_at tail bytes.now) }
{
    let (word, rest) = key(bytes)?;
    let ((flags, _), rest) = number(u64::from(u32::MAX), Tail::Space, rest)?;
    let ((len, end), rest) = number(MAX_DATA_LEN as u64, tail, rest)?;
    let tagged = end == b' ';
    let (tag, rest) = tag(tagged, rest)?;
    let (body, rest) = body(len as usize, rest)?;
    let key = own_key(alloc, word)?;
    let bytes = own_data(alloc, body)?;
    let flags = flags as u32;
    Ok((
        (
            Item {
                key,
                flags,
                bytes,
                tag,
            },
            tagged,
        ),
        rest,
    ))
}

fn own_key(alloc: Global, bytes: &[u8]) -> Result<Key, Stop>
    ensures same { IfOk result (λ key. key ≡ bytes.now) }
    ensures memory { OnErr result (result ≡ Err Stop.Memory) }
{
    match Key::read(alloc, bytes) {
        Ok(key) => Ok(key),
        Err(_) => Err(Stop::Memory),
    }
}

fn own_data(alloc: Global, bytes: &[u8]) -> Result<Data, Stop>
    ensures same { IfOk result (λ d. d ≡ bytes.now) }
    ensures memory { OnErr result (result ≡ Err Stop.Memory) }
{
    match Data::read(alloc, bytes) {
        Ok(data) => Ok(data),
        Err(_) => Err(Stop::Memory),
    }
}

#[tactic(auto, unfolding(crate::specs::Reading::tag_at))]
fn tag(tagged: bool, bytes: &[u8]) -> Result<(u64, &[u8]), Stop>
    ensures { Gives (λ x. (x.0, x.1.now)) result (tag_at tagged bytes.now) }
{
    if !tagged {
        return Ok((0, bytes));
    }
    let ((tag, _), rest) = number(u64::MAX, Tail::Return, bytes)?;
    Ok((tag, rest))
}

#[tactic(auto, unfolding(crate::specs::Reading::body_at))]
fn body(len: usize, bytes: &[u8]) -> Result<(&[u8], &[u8]), Stop>
    ensures { Gives (λ x. (x.0.now, x.1.now)) result (body_at len bytes.now) }
{
    let (_, rest) = literal(b"\n", bytes)?;
    let (front, rest) = data(len, rest)?;
    let (_, rest) = literal(b"\r\n", rest)?;
    Ok((front, rest))
}
