//! What the types of a letter's parts keep. The laws of frames speak of all numbers, so they have it as a premise; each
//! letter that there is meets it, as these functions say. They do nothing.

ghost use Rattle.std.specs.Prelude.{All, IfSome, ◌<◌, ◌^◌};
ghost use Rattle.hk_base.specs.Key.{IsKey};
ghost use Rattle.hk_frame.specs.Sendable.{IsStampValue, IsContentValue, IsItemValue, IsBallotValue, IsViewValue, IsVoteValue, IsActorValue, IsBodyValue, IsLetterValue};

use hk_base::{Actor, Ballot, Body, Content, CopyItem, Key, Letter, NodeId, Stamp, View, Voted};

fn key_is_value(key: &Key)
    ensures { IsKey key.now }
{
    let _bytes = key.bytes();
}

fn after_is_value(after: &Option<Key>)
    ensures { IfSome after.now IsKey }
{
    if let Some(key) = after {
        key_is_value(key);
    }
}

fn stamp_is_value(stamp: Stamp)
    ensures { IsStampValue stamp }
{
    let _version = stamp.version;
    let _node = stamp.node;
}

fn some_content_is_value(content: &Content)
    ensures { IsContentValue content.now }
{
    let _flags = content.flags;
    let _bytes = content.bytes.bytes();
}

fn content_is_value(content: &Option<Content>)
    ensures { IfSome content.now IsContentValue }
{
    if let Some(content) = content {
        some_content_is_value(content);
    }
}

fn item_is_value(item: &CopyItem)
    ensures { IsItemValue item.now }
{
    key_is_value(&item.key);
    stamp_is_value(item.stamp);
    content_is_value(&item.content);
}

fn items_are_values(items: &[CopyItem])
    ensures { All IsItemValue items.now }
{
    for item in items {
        item_is_value(item);
    }
}

fn actor_is_value(actor: Actor)
    ensures { IsActorValue actor }
{
    match actor {
        Actor::Node(node) => {
            let _number = node.0;
        }
        Actor::Manager(manager) => {
            let _number = manager;
        }
    }
}

fn ballot_is_value(ballot: Ballot)
    ensures { IsBallotValue ballot }
{
    let _round = ballot.round;
    let _manager = ballot.manager;
}

fn member_is_value(member: NodeId)
    ensures { member.0 < 2 ^ 16 }
{
    let _number = member.0;
}

fn members_are_values(members: &[NodeId])
    ensures { All (λ member. member.0 < 2 ^ 16) members.now }
{
    for member in members {
        member_is_value(*member);
    }
}

fn view_is_value(view: &View)
    ensures { IsViewValue view.now }
{
    let _epoch = view.epoch;
    members_are_values(view.members.as_slice());
    let _next = view.next;
}

fn vote_is_value(vote: &Option<Voted>)
    ensures { IfSome vote.now IsVoteValue }
{
    if let Some(vote) = vote {
        ballot_is_value(vote.ballot);
        view_is_value(&vote.view);
    }
}

fn time_is_value(time: u64)
    ensures { time < 2 ^ 64 }
{
    let _time = time;
}

// What an update and its acknowledgement speak of.
fn update_is_value(key: &Key, stamp: Stamp)
    ensures key { IsKey key.now }
    ensures stamp { IsStampValue stamp }
{
    key_is_value(key);
    stamp_is_value(stamp);
}

fn body_is_value(body: &Body)
    ensures { IsBodyValue body.now }
{
    match body {
        Body::Inv {
            key,
            stamp,
            content,
            ..
        } => {
            update_is_value(key, *stamp);
            content_is_value(content);
        }
        Body::Ack { key, stamp, top } => {
            update_is_value(key, *stamp);
            stamp_is_value(*top);
        }
        Body::Val { key, stamp } => update_is_value(key, *stamp),
        Body::CopyAsk { after, room } => {
            after_is_value(after);
            let _room = *room;
        }
        Body::CopyGive { after, items, .. } => {
            after_is_value(after);
            items_are_values(items.as_slice());
        }
        Body::LeaseAsk { asked } => time_is_value(*asked),
        Body::LeaseGive { end } => time_is_value(*end),
        Body::Prepare(ballot) => ballot_is_value(*ballot),
        Body::Promise { ballot, accepted } => {
            ballot_is_value(*ballot);
            vote_is_value(accepted);
        }
        Body::Accept { ballot, view } => {
            ballot_is_value(*ballot);
            view_is_value(view);
        }
        Body::Accepted(ballot) => ballot_is_value(*ballot),
        Body::Chosen(view) => view_is_value(view),
        Body::Activate(view) => view_is_value(view),
    }
}

/// Says what the type of a letter keeps, which the laws of frames ask for.
pub fn letter_is_value(letter: &Letter)
    ensures { IsLetterValue letter.now }
{
    let _epoch = letter.epoch;
    actor_is_value(letter.from);
    actor_is_value(letter.to);
    body_is_value(&letter.body);
}
