//! The parts of a letter, each read from the front of some bytes.

ghost use Rattle.std.specs.Prelude.{◌≡◌, ◌≤◌, ◌+◌, ◌-◌, length, Ok};
ghost use Rattle.hk_frame.specs.Fields.{Gives, key_of};
ghost use Rattle.hk_frame.specs.Reading.{key_at, after_of, after_at, stamp_at, data_at, some_content_at, update_kind, content_of, flag_at, item_at, items_of, items_at, actor_of, actor_at, ballot_at, members_of, members_at, view_at, vote_of, vote_at, time_at};

use crate::fault::Stop;
use crate::fields::{
    byte_within, number16, number16_within, number32, number32_within, number64, number64_within,
    take_bytes,
};
use hk_base::{
    Actor, Ballot, Content, CopyItem, CopyItems, Data, Key, KeyFault, Kind, MAX_DATA_LEN,
    MAX_KEY_LEN, MAX_TIME, MAX_VERSION, Members, NodeId, Stamp, View, Voted,
};
use std::alloc::Global;

// A key of so many bytes.
fn key_of(alloc: Global, len: u8, bytes: &[u8]) -> Result<(Key, &[u8]), Stop>
    requires some { 1 ≤ len }
    requires short { len ≤ MAX_KEY_LEN }
    ensures { Gives (λ x. (x.0, x.1.now)) result (key_of len bytes.now) }
{
    let (front, rest) = take_bytes(len as usize, bytes)?;
    match Key::read(alloc, front) {
        Ok(key) => Ok((key, rest)),
        Err(KeyFault::BadByte { at }) => Err(Stop::Field {
            left: bytes.len() - at,
        }),
        Err(_) => Err(Stop::Memory),
    }
}

#[tactic(auto, unfolding(crate::specs::Reading::key_at))]
pub fn key(alloc: Global, bytes: &[u8]) -> Result<(Key, &[u8]), Stop>
    ensures { Gives (λ x. (x.0, x.1.now)) result (key_at bytes.now) }
{
    let (len, rest) = byte_within(1, MAX_KEY_LEN as u8, bytes)?;
    key_of(alloc, len, rest)
}

#[tactic(auto, unfolding(crate::specs::Reading::after_of))]
fn after_of(alloc: Global, len: u8, bytes: &[u8]) -> Result<(Option<Key>, &[u8]), Stop>
    requires { len ≤ MAX_KEY_LEN }
    ensures { Gives (λ x. (x.0, x.1.now)) result (after_of len bytes.now) }
{
    if len == 0 {
        return Ok((None, bytes));
    }
    let (key, rest) = key_of(alloc, len, bytes)?;
    Ok((Some(key), rest))
}

#[tactic(auto, unfolding(crate::specs::Reading::after_at))]
pub fn after(alloc: Global, bytes: &[u8]) -> Result<(Option<Key>, &[u8]), Stop>
    ensures { Gives (λ x. (x.0, x.1.now)) result (after_at bytes.now) }
{
    let (len, rest) = byte_within(0, MAX_KEY_LEN as u8, bytes)?;
    after_of(alloc, len, rest)
}

#[tactic(auto, unfolding(crate::specs::Reading::stamp_at))]
pub fn stamp(bytes: &[u8]) -> Result<(Stamp, &[u8]), Stop>
    ensures { Gives (λ x. (x.0, x.1.now)) result (stamp_at bytes.now) }
{
    let (version, rest) = number64_within(MAX_VERSION, bytes)?;
    let (node, rest) = number16(rest)?;
    Ok((Stamp { version, node }, rest))
}

fn own_data(alloc: Global, bytes: &[u8]) -> Result<Data, Stop>
    requires { length bytes.now ≤ MAX_DATA_LEN }
    ensures { Gives (λ x. x) result (Ok bytes.now) }
{
    match Data::read(alloc, bytes) {
        Ok(data) => Ok(data),
        Err(_) => Err(Stop::Memory),
    }
}

#[tactic(auto, unfolding(crate::specs::Reading::data_at))]
fn read_data(alloc: Global, bytes: &[u8]) -> Result<(Data, &[u8]), Stop>
    ensures { Gives (λ x. (x.0, x.1.now)) result (data_at bytes.now) }
{
    let (len, rest) = number32_within(0, MAX_DATA_LEN as u32, bytes)?;
    let (front, rest) = take_bytes(len as usize, rest)?;
    let data = own_data(alloc, front)?;
    Ok((data, rest))
}

#[tactic(auto, unfolding(crate::specs::Reading::some_content_at))]
fn some_content(alloc: Global, bytes: &[u8]) -> Result<(Content, &[u8]), Stop>
    ensures { Gives (λ x. (x.0, x.1.now)) result (some_content_at bytes.now) }
{
    let (flags, rest) = number32(bytes)?;
    let (bytes, rest) = read_data(alloc, rest)?;
    Ok((Content { flags, bytes }, rest))
}

// The kind of an update, by its byte.
pub fn update_kind(update: u8) -> Kind
    ensures { result ≡ update_kind update }
{
    if update == 0 { Kind::Write } else { Kind::Rmw }
}

// The content behind that byte: none behind a 2.
#[tactic(auto, unfolding(crate::specs::Reading::content_of))]
pub fn content_of(alloc: Global, update: u8, bytes: &[u8]) -> Result<(Option<Content>, &[u8]), Stop>
    ensures { Gives (λ x. (x.0, x.1.now)) result (content_of update bytes.now) }
{
    if update == 2 {
        return Ok((None, bytes));
    }
    let (content, rest) = some_content(alloc, bytes)?;
    Ok((Some(content), rest))
}

#[tactic(auto, unfolding(crate::specs::Reading::flag_at))]
pub fn flag(bytes: &[u8]) -> Result<(bool, &[u8]), Stop>
    ensures { Gives (λ x. (x.0, x.1.now)) result (flag_at bytes.now) }
{
    let (value, rest) = byte_within(0, 1, bytes)?;
    Ok((value == 1, rest))
}

#[tactic(auto, unfolding(crate::specs::Reading::item_at))]
fn item(alloc: Global, bytes: &[u8]) -> Result<(CopyItem, &[u8]), Stop>
    ensures { Gives (λ x. (x.0, x.1.now)) result (item_at bytes.now) }
{
    let (key, rest) = key(alloc, bytes)?;
    let (stamp, rest) = stamp(rest)?;
    let (update, rest) = byte_within(0, 2, rest)?;
    let (valid, rest) = flag(rest)?;
    let (content, rest) = content_of(alloc, update, rest)?;
    let kind = update_kind(update);
    Ok((
        CopyItem {
            key,
            stamp,
            kind,
            valid,
            content,
        },
        rest,
    ))
}

fn items_of(alloc: Global, count: u8, bytes: &[u8]) -> Result<(CopyItems, &[u8]), Stop>
    ensures { Gives (λ x. (x.0, x.1.now)) result (items_of count bytes.now) }
{
    let mut items = CopyItems::new(alloc);
    let mut rest = bytes;
    for _ in 0..count {
        let (item, after) = item(alloc, rest)?;
        if items.push(item).is_err() {
            return Err(Stop::Memory);
        }
        rest = after;
    }
    Ok((items, rest))
}

#[tactic(auto, unfolding(crate::specs::Reading::items_at))]
pub fn items(alloc: Global, bytes: &[u8]) -> Result<(CopyItems, &[u8]), Stop>
    ensures { Gives (λ x. (x.0, x.1.now)) result (items_at bytes.now) }
{
    let (count, rest) = byte_within(0, 64, bytes)?;
    items_of(alloc, count, rest)
}

#[tactic(auto, unfolding(crate::specs::Reading::actor_of))]
fn actor_of(class: u8, bytes: &[u8]) -> Result<(Actor, &[u8]), Stop>
    ensures { Gives (λ x. (x.0, x.1.now)) result (actor_of class bytes.now) }
{
    if class == 0 {
        let (node, rest) = number16(bytes)?;
        return Ok((Actor::Node(NodeId(node)), rest));
    }
    let (manager, rest) = number16_within(0, 8, bytes)?;
    Ok((Actor::Manager(manager as u8), rest))
}

#[tactic(auto, unfolding(crate::specs::Reading::actor_at))]
pub fn actor(bytes: &[u8]) -> Result<(Actor, &[u8]), Stop>
    ensures { Gives (λ x. (x.0, x.1.now)) result (actor_at bytes.now) }
{
    let (class, rest) = byte_within(0, 1, bytes)?;
    actor_of(class, rest)
}

#[tactic(auto, unfolding(crate::specs::Reading::ballot_at))]
pub fn ballot(bytes: &[u8]) -> Result<(Ballot, &[u8]), Stop>
    ensures { Gives (λ x. (x.0, x.1.now)) result (ballot_at bytes.now) }
{
    let (round, rest) = number32(bytes)?;
    let (manager, rest) = byte_within(0, 8, rest)?;
    Ok((Ballot { round, manager }, rest))
}

fn members_of(alloc: Global, next: u32, count: u8, bytes: &[u8]) -> Result<(Members, &[u8]), Stop>
    requires { 1 ≤ next }
    ensures { Gives (λ x. (x.0, x.1.now)) result (members_of next 0 count bytes.now) }
{
    let mut members = Members::new(alloc);
    let mut least = 0;
    let mut rest = bytes;
    for _ in 0..count {
        let (member, after) = number16_within(least, next - 1, rest)?;
        if members.push(NodeId(member)).is_err() {
            return Err(Stop::Memory);
        }
        least = u32::from(member) + 1;
        rest = after;
    }
    Ok((members, rest))
}

#[tactic(auto, unfolding(crate::specs::Reading::members_at))]
fn members(alloc: Global, next: u32, bytes: &[u8]) -> Result<(Members, &[u8]), Stop>
    requires { 1 ≤ next }
    ensures { Gives (λ x. (x.0, x.1.now)) result (members_at next bytes.now) }
{
    let (count, rest) = byte_within(1, 16, bytes)?;
    members_of(alloc, next, count, rest)
}

#[tactic(auto, unfolding(crate::specs::Reading::view_at))]
pub fn view(alloc: Global, bytes: &[u8]) -> Result<(View, &[u8]), Stop>
    ensures { Gives (λ x. (x.0, x.1.now)) result (view_at bytes.now) }
{
    let (epoch, rest) = number64(bytes)?;
    let (next, rest) = number32_within(1, 65_536, rest)?;
    let (members, rest) = members(alloc, next, rest)?;
    Ok((
        View {
            epoch,
            members,
            next,
        },
        rest,
    ))
}

#[tactic(auto, unfolding(crate::specs::Reading::vote_of))]
fn vote_of(alloc: Global, flag: u8, bytes: &[u8]) -> Result<(Option<Voted>, &[u8]), Stop>
    ensures { Gives (λ x. (x.0, x.1.now)) result (vote_of flag bytes.now) }
{
    if flag == 0 {
        return Ok((None, bytes));
    }
    let (ballot, rest) = ballot(bytes)?;
    let (view, rest) = view(alloc, rest)?;
    Ok((Some(Voted { ballot, view }), rest))
}

#[tactic(auto, unfolding(crate::specs::Reading::vote_at))]
pub fn vote(alloc: Global, bytes: &[u8]) -> Result<(Option<Voted>, &[u8]), Stop>
    ensures { Gives (λ x. (x.0, x.1.now)) result (vote_at bytes.now) }
{
    let (flag, rest) = byte_within(0, 1, bytes)?;
    vote_of(alloc, flag, rest)
}

#[tactic(auto, unfolding(crate::specs::Reading::time_at))]
pub fn time(bytes: &[u8]) -> Result<(u64, &[u8]), Stop>
    ensures { Gives (λ x. (x.0, x.1.now)) result (time_at bytes.now) }
{
    number64_within(MAX_TIME, bytes)
}
