//! What a step gives: its letters, the replies that it tells, and what it did to the node.

ghost use Rattle.std.specs.Prelude.{◌≡◌, ◌↔◌, ◌++◌, ◌∷◌, [], map, length, slice_get, IsTrue, IfOk, OnOk};
ghost use Rattle.std.specs.List.{filter};
ghost use Rattle.std.specs.Option.{option_copied};
ghost use Rattle.hk_key.specs.Notes.{is_noted};
ghost use Rattle.hk_node.specs.Sends.{at_view, letters_to, body_of, pending_body, notes_in, is_aimed, sent};
ghost use Rattle.hk_node.specs.Stepped.{told_of};

use crate::report::{Report, Undo};
use hk_base::{
    Actor, Body, Key, Letter, Letters, Memory, NodeId, Replies, Reply, View, share_content,
};
use hk_key::{Aim, Row, Sending, What};
use std::marker::Model;
use std::slice;

/// What a step gives to whoever makes it.
#[derive(Drop)]
pub struct NodeOut {
    /// The letters to send, in the order of their keys, and for one key in rising order of the addressees.
    pub letters: Letters,
    /// The calls that are answered, in key order.
    pub replies: StepReplies,
    /// The epoch of the view that was installed, if one was.
    pub installed: Option<u64>,
    /// What the step did to its node.
    pub report: Report,
    /// What it replaced beside rows. With the report it undoes the step: [`crate::Node::undo`].
    pub undo: Undo,
}

/// Replies, the first one first. None and one take no memory.
#[derive(Drop)]
pub enum ReplyList {
    Nothing,
    One(Reply),
    Many(Replies),
}

ghost use Rattle.hk_node.specs.ReplyLists.{listed};

/// The calls that a step answers, in key order: mostly none or one. Contracts see the list of their replies.
#[derive(Drop)]
pub struct StepReplies {
    list: ReplyList,
}

impl Model for StepReplies {
    ghost use Rattle.std.specs.Prelude.{List};
    ghost use Rattle.hk_base.specs.declared.call.Reply.{Reply};

    ghost Value = { List Reply };

    ghost use Rattle.hk_node.specs.ReplyLists.{listed};

    ghost view = { λ s. listed s.list };
}

impl StepReplies {
    /// No call is answered.
    pub fn nothing() -> StepReplies
        ensures { result ≡ [] }
    {
        StepReplies {
            list: ReplyList::Nothing,
        }
    }

    /// One call is answered.
    pub fn one(reply: Reply) -> StepReplies
        ensures { result ≡ reply ∷ [] }
    {
        StepReplies {
            list: ReplyList::One(reply),
        }
    }

    /// So many are.
    pub fn many(replies: Replies) -> StepReplies
        ensures { result ≡ replies }
    {
        StepReplies {
            list: ReplyList::Many(replies),
        }
    }

    /// The replies as they are kept. They are moved and not copied.
    pub fn into_list(self) -> ReplyList
        ensures { listed result ≡ self }
    {
        let StepReplies { list } = self;
        list
    }

    pub fn as_slice(&self) -> &[Reply]
        ensures { result.now ≡ self.now }
    {
        match &self.list {
            ReplyList::Nothing => &[],
            ReplyList::One(reply) => slice::from_ref(reply),
            ReplyList::Many(replies) => replies.as_slice(),
        }
    }

    pub fn len(&self) -> usize
        ensures { result ≡ length self.now }
    {
        self.as_slice().len()
    }

    pub fn is_empty(&self) -> bool
        ensures { IsTrue result ↔ (self.now ≡ []) }
    {
        self.as_slice().is_empty()
    }

    /// The reply at an index, counted from 0.
    pub fn get(&self, index: usize) -> Option<&Reply>
        ensures { option_copied result ≡ slice_get self.now index }
    {
        self.as_slice().get(index)
    }
}

// INV of the pending update.
fn pending_body(key: &Key, row: &Row) -> Result<Body, Memory>
    ensures { IfOk result (λ body. body ≡ pending_body key.now row.now row.now.pending) }
{
    let key = key.share()?;
    match &row.pending {
        Some(pending) => {
            let pending = pending.get();
            let content = share_content(&pending.content)?;
            Ok(Body::Inv {
                key,
                stamp: pending.stamp,
                kind: pending.kind,
                content,
            })
        }
        None => {
            let content = share_content(&row.content)?;
            Ok(Body::Inv {
                key,
                stamp: row.stamp,
                kind: row.kind,
                content,
            })
        }
    }
}

fn body(key: &Key, row: &Row, what: What) -> Result<Body, Memory>
    ensures { IfOk result (λ body. body ≡ body_of key.now row.now what) }
{
    match what {
        What::InvRow => {
            let key = key.share()?;
            let content = share_content(&row.content)?;
            Ok(Body::Inv {
                key,
                stamp: row.stamp,
                kind: row.kind,
                content,
            })
        }
        What::InvPending => pending_body(key, row),
        What::Ack { stamp, top } => {
            let key = key.share()?;
            Ok(Body::Ack { key, stamp, top })
        }
        What::Val { stamp } => {
            let key = key.share()?;
            Ok(Body::Val { key, stamp })
        }
    }
}

/// Adds one letter.
pub(crate) fn post(
    letters: &mut Letters,
    id: NodeId,
    view: &View,
    to: NodeId,
    body: Body,
) -> Result<(), Memory>
    ensures { OnOk result (letters.new ≡ letters.old ++ letters_to (at_view id view.now) body (to ∷ [])) }
{
    letters.push(Letter {
        epoch: view.epoch,
        from: Actor::Node(id),
        to: Actor::Node(to),
        body,
    })
}

// Whether the pending update's acknowledgement by the member is noted.
fn is_noted(row: &Row, member: NodeId) -> bool
    ensures { result ≡ is_noted member (notes_in row.now.pending) }
{
    match &row.pending {
        Some(pending) => pending.get().acks.has(member),
        None => false,
    }
}

// Whether a letter goes to the member: to another one, and where not all are aimed at, to one that is not noted.
fn is_aimed(all: bool, me: NodeId, row: &Row, member: NodeId) -> bool
    ensures { result ≡ is_aimed all me row.now member }
{
    member.0 != me.0 && (all || !is_noted(row, member))
}

// Adds a letter to each that is aimed at.
fn post_aimed(
    letters: &mut Letters,
    id: NodeId,
    view: &View,
    key: &Key,
    row: &Row,
    what: What,
    all: bool,
) -> Result<(), Memory>
    ensures { OnOk result (letters.new ≡ letters.old ++ letters_to (at_view id view.now) (body_of key.now row.now what) (filter (is_aimed all id row.now) view.now.members)) }
{
    for member in view.members.as_slice() {
        if is_aimed(all, id, row, *member) {
            let body = body(key, row, what)?;
            post(letters, id, view, *member, body)?;
        }
    }
    Ok(())
}

/// Adds what a step of a row sends, of the row as it is after the step.
#[tactic(auto, using(crate::proofs::Sent::aimed_all, crate::proofs::Sent::aimed_left))]
pub(crate) fn post_sent(
    letters: &mut Letters,
    id: NodeId,
    view: &View,
    key: &Key,
    row: &Row,
    send: &Option<Sending>,
) -> Result<(), Memory>
    ensures { OnOk result (letters.new ≡ letters.old ++ sent (at_view id view.now) key.now row.now send.now) }
{
    let Some(sending) = send else {
        return Ok(());
    };
    match sending.aim {
        Aim::One(to) => {
            let body = body(key, row, sending.what)?;
            post(letters, id, view, to, body)
        }
        Aim::Others => post_aimed(letters, id, view, key, row, sending.what, true),
        Aim::NotAcked => post_aimed(letters, id, view, key, row, sending.what, false),
    }
}

/// The reply of one step, if there is one.
pub(crate) fn replies(key: &Key, reply: Option<Reply>) -> StepReplies
    ensures { result ≡ map (λ t. t.1) (told_of key.now reply) }
{
    match reply {
        Some(reply) => StepReplies::one(reply),
        None => StepReplies::nothing(),
    }
}
