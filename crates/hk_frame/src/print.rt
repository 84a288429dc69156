//! Printing frames.

ghost use Rattle.std.specs.Prelude.{◌≡◌, ◌++◌, ◌∷◌, [], ◌≤◌, ◌<◌, take, length, OnOk, OnErr, IfSome};
ghost use Rattle.std.specs.Int.{w16, w32, w64, to_be_bytes};
ghost use Rattle.std.specs.List.{flat_map};
ghost use Rattle.hk_base.specs.Range.{IsLetter, IsBody, IsVote};
ghost use Rattle.hk_base.specs.View.{IsView};
ghost use Rattle.hk_frame.specs.Frames.{key_bytes, after_bytes, stamp_bytes, update_byte, content_bytes, some_content_bytes, data_bytes, flag_byte, item_bytes, items_bytes, actor_bytes, ballot_bytes, members_bytes, member_bytes, view_bytes, vote_bytes, body_bytes, field_bytes, frame};
ghost use Rattle.hk_frame.specs.Kept.{IsKept};
ghost use Rattle.hk_base.specs.Lengths.{FitsFrame};
ghost use Rattle.hk_frame.specs.Sendable.{IsSendable};

use crate::kind::{kind_byte, kind_of};
use crate::values::letter_is_value;
use hk_base::{
    Actor, Ballot, Body, Content, CopyItem, Data, Key, Kind, Letter, Memory, NodeId, Stamp, View,
    Voted, frame_length,
};

fn put(out: &mut Vec<u8>, bytes: &[u8]) -> Result<(), Memory>
    ensures printed { OnOk result (out.new.items ≡ out.old.items ++ bytes.now) }
    ensures unchanged { OnErr result (out.new.items ≡ out.old.items) }
{
    out.extend_from_slice(bytes)?;
    Ok(())
}

fn put_byte(out: &mut Vec<u8>, byte: u8) -> Result<(), Memory>
    ensures printed { OnOk result (out.new.items ≡ out.old.items ++ byte ∷ []) }
    ensures unchanged { OnErr result (out.new.items ≡ out.old.items) }
{
    out.push(byte)?;
    Ok(())
}

fn put_number16(out: &mut Vec<u8>, number: u16) -> Result<(), Memory>
    ensures printed { OnOk result (out.new.items ≡ out.old.items ++ to_be_bytes w16 number) }
    ensures unchanged { OnErr result (out.new.items ≡ out.old.items) }
{
    put(out, &number.to_be_bytes())
}

fn put_number32(out: &mut Vec<u8>, number: u32) -> Result<(), Memory>
    ensures printed { OnOk result (out.new.items ≡ out.old.items ++ to_be_bytes w32 number) }
    ensures unchanged { OnErr result (out.new.items ≡ out.old.items) }
{
    put(out, &number.to_be_bytes())
}

fn put_number64(out: &mut Vec<u8>, number: u64) -> Result<(), Memory>
    ensures printed { OnOk result (out.new.items ≡ out.old.items ++ to_be_bytes w64 number) }
    ensures unchanged { OnErr result (out.new.items ≡ out.old.items) }
{
    put(out, &number.to_be_bytes())
}

fn put_key(out: &mut Vec<u8>, key: &Key) -> Result<(), Memory>
    ensures printed { OnOk result (out.new.items ≡ out.old.items ++ key_bytes key.now) }
    ensures kept { OnErr result (IsKept out.old.items out.new.items) }
{
    let bytes = key.bytes();
    put_byte(out, bytes.len() as u8)?;
    put(out, bytes)
}

fn put_after(out: &mut Vec<u8>, after: &Option<Key>) -> Result<(), Memory>
    ensures printed { OnOk result (out.new.items ≡ out.old.items ++ after_bytes after.now) }
    ensures kept { OnErr result (IsKept out.old.items out.new.items) }
{
    match after {
        Some(key) => put_key(out, key),
        None => put_byte(out, 0),
    }
}

fn put_stamp(out: &mut Vec<u8>, stamp: Stamp) -> Result<(), Memory>
    ensures printed { OnOk result (out.new.items ≡ out.old.items ++ stamp_bytes stamp) }
    ensures kept { OnErr result (IsKept out.old.items out.new.items) }
{
    put_number64(out, stamp.version)?;
    put_number16(out, stamp.node)
}

// The byte of an update's kind, which tells whether it leaves a content.
fn update_byte(kind: Kind, content: &Option<Content>) -> u8
    ensures { result ≡ update_byte kind content.now }
{
    match kind {
        Kind::Write => 0,
        Kind::Rmw => match content {
            Some(_) => 1,
            None => 2,
        },
    }
}

fn put_data(out: &mut Vec<u8>, bytes: &Data) -> Result<(), Memory>
    ensures printed { OnOk result (out.new.items ≡ out.old.items ++ data_bytes bytes.now) }
    ensures kept { OnErr result (IsKept out.old.items out.new.items) }
{
    let bytes = bytes.bytes();
    put_number32(out, bytes.len() as u32)?;
    put(out, bytes)
}

fn put_some_content(out: &mut Vec<u8>, content: &Content) -> Result<(), Memory>
    ensures printed { OnOk result (out.new.items ≡ out.old.items ++ some_content_bytes content.now) }
    ensures kept { OnErr result (IsKept out.old.items out.new.items) }
{
    put_number32(out, content.flags)?;
    put_data(out, &content.bytes)
}

fn put_content(out: &mut Vec<u8>, content: &Option<Content>) -> Result<(), Memory>
    ensures printed { OnOk result (out.new.items ≡ out.old.items ++ content_bytes content.now) }
    ensures kept { OnErr result (IsKept out.old.items out.new.items) }
{
    match content {
        Some(content) => put_some_content(out, content),
        None => Ok(()),
    }
}

fn put_flag(out: &mut Vec<u8>, flag: bool) -> Result<(), Memory>
    ensures printed { OnOk result (out.new.items ≡ out.old.items ++ flag_byte flag ∷ []) }
    ensures unchanged { OnErr result (out.new.items ≡ out.old.items) }
{
    let byte = if flag { 1 } else { 0 };
    put_byte(out, byte)
}

// What follows the stamp of an item.
fn put_state(out: &mut Vec<u8>, item: &CopyItem) -> Result<(), Memory>
    ensures printed { OnOk result (out.new.items ≡ out.old.items ++ (update_byte item.now.kind item.now.content ∷ flag_byte item.now.valid ∷ content_bytes item.now.content)) }
    ensures kept { OnErr result (IsKept out.old.items out.new.items) }
{
    put_byte(out, update_byte(item.kind, &item.content))?;
    put_flag(out, item.valid)?;
    put_content(out, &item.content)
}

fn put_item(out: &mut Vec<u8>, item: &CopyItem) -> Result<(), Memory>
    ensures printed { OnOk result (out.new.items ≡ out.old.items ++ item_bytes item.now) }
    ensures kept { OnErr result (IsKept out.old.items out.new.items) }
{
    put_key(out, &item.key)?;
    put_stamp(out, item.stamp)?;
    put_state(out, item)
}

fn put_each_item(out: &mut Vec<u8>, items: &[CopyItem]) -> Result<(), Memory>
    ensures printed { OnOk result (out.new.items ≡ out.old.items ++ flat_map item_bytes items.now) }
    ensures kept { OnErr result (IsKept out.old.items out.new.items) }
{
    for item in items {
        put_item(out, item)?;
    }
    Ok(())
}

fn put_items(out: &mut Vec<u8>, items: &[CopyItem]) -> Result<(), Memory>
    requires { length items.now ≤ 64 }
    ensures printed { OnOk result (out.new.items ≡ out.old.items ++ items_bytes items.now) }
    ensures kept { OnErr result (IsKept out.old.items out.new.items) }
{
    put_byte(out, items.len() as u8)?;
    put_each_item(out, items)
}

fn put_actor(out: &mut Vec<u8>, actor: Actor) -> Result<(), Memory>
    ensures printed { OnOk result (out.new.items ≡ out.old.items ++ actor_bytes actor) }
    ensures kept { OnErr result (IsKept out.old.items out.new.items) }
{
    match actor {
        Actor::Node(node) => {
            put_byte(out, 0)?;
            put_number16(out, node.0)
        }
        Actor::Manager(manager) => {
            put_byte(out, 1)?;
            put_number16(out, u16::from(manager))
        }
    }
}

fn put_ballot(out: &mut Vec<u8>, ballot: Ballot) -> Result<(), Memory>
    ensures printed { OnOk result (out.new.items ≡ out.old.items ++ ballot_bytes ballot) }
    ensures kept { OnErr result (IsKept out.old.items out.new.items) }
{
    put_number32(out, ballot.round)?;
    put_byte(out, ballot.manager)
}

fn put_each_member(out: &mut Vec<u8>, members: &[NodeId]) -> Result<(), Memory>
    ensures printed { OnOk result (out.new.items ≡ out.old.items ++ flat_map member_bytes members.now) }
    ensures kept { OnErr result (IsKept out.old.items out.new.items) }
{
    for member in members {
        put_number16(out, member.0)?;
    }
    Ok(())
}

fn put_members(out: &mut Vec<u8>, members: &[NodeId]) -> Result<(), Memory>
    requires { length members.now ≤ 16 }
    ensures printed { OnOk result (out.new.items ≡ out.old.items ++ members_bytes members.now) }
    ensures kept { OnErr result (IsKept out.old.items out.new.items) }
{
    put_byte(out, members.len() as u8)?;
    put_each_member(out, members)
}

fn put_view(out: &mut Vec<u8>, view: &View) -> Result<(), Memory>
    requires { IsView view.now }
    ensures printed { OnOk result (out.new.items ≡ out.old.items ++ view_bytes view.now) }
    ensures kept { OnErr result (IsKept out.old.items out.new.items) }
{
    put_number64(out, view.epoch)?;
    put_number32(out, view.next)?;
    put_members(out, view.members.as_slice())
}

fn put_vote(out: &mut Vec<u8>, vote: &Option<Voted>) -> Result<(), Memory>
    requires { IfSome vote.now IsVote }
    ensures printed { OnOk result (out.new.items ≡ out.old.items ++ vote_bytes vote.now) }
    ensures kept { OnErr result (IsKept out.old.items out.new.items) }
{
    match vote {
        Some(vote) => {
            put_byte(out, 1)?;
            put_ballot(out, vote.ballot)?;
            put_view(out, &vote.view)
        }
        None => put_byte(out, 0),
    }
}

fn put_update(out: &mut Vec<u8>, kind: Kind, content: &Option<Content>) -> Result<(), Memory>
    ensures printed { OnOk result (out.new.items ≡ out.old.items ++ (update_byte kind content.now ∷ content_bytes content.now)) }
    ensures kept { OnErr result (IsKept out.old.items out.new.items) }
{
    put_byte(out, update_byte(kind, content))?;
    put_content(out, content)
}

// The end of a batch: whether it is the last one, and its items.
fn put_batch(out: &mut Vec<u8>, done: bool, items: &[CopyItem]) -> Result<(), Memory>
    requires { length items.now ≤ 64 }
    ensures printed { OnOk result (out.new.items ≡ out.old.items ++ (flag_byte done ∷ items_bytes items.now)) }
    ensures kept { OnErr result (IsKept out.old.items out.new.items) }
{
    put_flag(out, done)?;
    put_items(out, items)
}

fn put_inv(
    out: &mut Vec<u8>,
    key: &Key,
    stamp: Stamp,
    kind: Kind,
    content: &Option<Content>,
) -> Result<(), Memory>
    ensures printed { OnOk result (out.new.items ≡ out.old.items ++ (key_bytes key.now ++ (stamp_bytes stamp ++ (update_byte kind content.now ∷ content_bytes content.now)))) }
    ensures kept { OnErr result (IsKept out.old.items out.new.items) }
{
    put_key(out, key)?;
    put_stamp(out, stamp)?;
    put_update(out, kind, content)
}

fn put_ack(out: &mut Vec<u8>, key: &Key, stamp: Stamp, top: Stamp) -> Result<(), Memory>
    ensures printed { OnOk result (out.new.items ≡ out.old.items ++ (key_bytes key.now ++ (stamp_bytes stamp ++ stamp_bytes top))) }
    ensures kept { OnErr result (IsKept out.old.items out.new.items) }
{
    put_key(out, key)?;
    put_stamp(out, stamp)?;
    put_stamp(out, top)
}

#[tactic(auto, unfolding(crate::specs::Frames::body_bytes))]
fn put_body(out: &mut Vec<u8>, body: &Body) -> Result<(), Memory>
    requires { IsBody body.now }
    ensures printed { OnOk result (out.new.items ≡ out.old.items ++ body_bytes body.now) }
    ensures kept { OnErr result (IsKept out.old.items out.new.items) }
{
    match body {
        Body::Inv {
            key,
            stamp,
            kind,
            content,
        } => put_inv(out, key, *stamp, *kind, content),
        Body::Ack { key, stamp, top } => put_ack(out, key, *stamp, *top),
        Body::Val { key, stamp } => {
            put_key(out, key)?;
            put_stamp(out, *stamp)
        }
        Body::CopyAsk { after, room } => {
            put_after(out, after)?;
            put_byte(out, *room)
        }
        Body::CopyGive { after, done, items } => {
            put_after(out, after)?;
            put_batch(out, *done, items.as_slice())
        }
        Body::LeaseAsk { asked } => put_number64(out, *asked),
        Body::LeaseGive { end } => put_number64(out, *end),
        Body::Prepare(ballot) => put_ballot(out, *ballot),
        Body::Promise { ballot, accepted } => {
            put_ballot(out, *ballot)?;
            put_vote(out, accepted)
        }
        Body::Accept { ballot, view } => {
            put_ballot(out, *ballot)?;
            put_view(out, view)
        }
        Body::Accepted(ballot) => put_ballot(out, *ballot),
        Body::Chosen(view) => put_view(out, view),
        Body::Activate(view) => put_view(out, view),
    }
}

// The epoch, the two actors and the body.
fn put_letter(out: &mut Vec<u8>, letter: &Letter) -> Result<(), Memory>
    requires { IsBody letter.now.body }
    ensures printed { OnOk result (out.new.items ≡ out.old.items ++ (to_be_bytes w64 letter.now.epoch ++ (actor_bytes letter.now.from ++ (actor_bytes letter.now.to ++ body_bytes letter.now.body)))) }
    ensures kept { OnErr result (IsKept out.old.items out.new.items) }
{
    put_number64(out, letter.epoch)?;
    put_actor(out, letter.from)?;
    put_actor(out, letter.to)?;
    put_body(out, &letter.body)
}

fn put_fields(out: &mut Vec<u8>, shard: u8, letter: &Letter) -> Result<(), Memory>
    requires { IsBody letter.now.body }
    ensures printed { OnOk result (out.new.items ≡ out.old.items ++ field_bytes shard letter.now) }
    ensures kept { OnErr result (IsKept out.old.items out.new.items) }
{
    put_byte(out, kind_byte(kind_of(&letter.body)))?;
    put_byte(out, shard)?;
    put_letter(out, letter)
}

fn put_frame(out: &mut Vec<u8>, length: u32, shard: u8, letter: &Letter) -> Result<(), Memory>
    requires { IsBody letter.now.body }
    ensures printed { OnOk result (out.new.items ≡ out.old.items ++ (to_be_bytes w32 length ++ field_bytes shard letter.now)) }
    ensures kept { OnErr result (IsKept out.old.items out.new.items) }
{
    put_number32(out, length)?;
    put_fields(out, shard, letter)
}

/// Appends the frame of a letter of this shard. Where an allocation is refused, the output is as it was. Memory for the
/// whole frame is taken once, before anything is written.
pub fn print_letter(shard: u8, letter: &Letter, out: &mut Vec<u8>) -> Result<(), Memory>
    requires shard { shard < 8 }
    requires range { IsLetter letter.now }
    requires fits { FitsFrame letter.now }
    ensures printed { OnOk result (out.new.items ≡ out.old.items ++ frame shard letter.now) }
    ensures unchanged { OnErr result (out.new.items ≡ out.old.items) }
    // So the frame is read again, and no other letter has it: this is the premise of `read_letter` and of the laws.
    ensures sendable { IsSendable shard letter.now }
{
    letter_is_value(letter);
    let before = out.len();
    let length = frame_length(letter);
    out.reserve(length)?;
    let printed = put_frame(out, (length - 4) as u32, shard, letter);
    if printed.is_err() {
        out.truncate(before);
    }
    printed
}
