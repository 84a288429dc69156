//! The letters that nodes and managers send each other.

ghost use Rattle.std.specs.Prelude.{◌≡◌, ◌++◌, ◌∷◌, [], IfOk, OnOk, take};
ghost use Rattle.hk_base.specs.declared.letter.Body.TheVariants.{Inv, CopyGive, Promise};

use crate::call::{Content, share_content};
use crate::key::{Key, share_key};
use crate::memory::Memory;
use crate::sequence::Sequence;
use crate::stamp::{Kind, NodeId, Stamp};
use crate::view::{Ballot, View, Voted};
use std::alloc::Global;

/// How many shards a node has.
pub const SHARDS: u8 = 8;

/// Whoever sends and takes letters.
#[derive(Clone, Copy, Debug, PartialEq, Eq, PartialOrd, Ord)]
pub enum Actor {
    Node(NodeId),
    /// A manager by its number, 0 to 8.
    Manager(u8),
}

/// A row as a member copies it to a joiner. Only a read-modify-write leaves no content: it took the content away.
#[derive(Drop)]
pub struct CopyItem {
    pub key: Key,
    pub stamp: Stamp,
    pub kind: Kind,
    /// Whether the row was Valid at its giver.
    pub valid: bool,
    pub content: Option<Content>,
}

impl CopyItem {
    /// The same item, which shares the key and the content.
    pub fn share(&self) -> Result<CopyItem, Memory>
        ensures { IfOk result (λ item. item ≡ self.now) }
    {
        let key = self.key.share()?;
        let content = share_content(&self.content)?;
        Ok(CopyItem {
            key,
            stamp: self.stamp,
            kind: self.kind,
            valid: self.valid,
            content,
        })
    }
}

/// The rows of one copy, in key order.
pub type CopyItems = Sequence<CopyItem>;

fn share_items(alloc: Global, items: &CopyItems) -> Result<CopyItems, Memory>
    ensures { IfOk result (λ same. same ≡ items.now) }
{
    let mut same = CopyItems::new(alloc);
    for item in items.as_slice() {
        let item = item.share()?;
        same.push(item)?;
    }
    Ok(same)
}

fn share_vote(alloc: Global, vote: &Option<Voted>) -> Result<Option<Voted>, Memory>
    ensures { IfOk result (λ same. same ≡ vote.now) }
{
    match vote {
        Some(vote) => {
            let view = vote.view.copy(alloc)?;
            let same = Voted {
                ballot: vote.ballot,
                view,
            };
            Ok(Some(same))
        }
        None => Ok(None),
    }
}

/// What a letter says.
#[derive(Drop)]
pub enum Body {
    /// An update is announced: the key is invalid until it is known to be complete. Only a read-modify-write leaves no content.
    Inv {
        key: Key,
        stamp: Stamp,
        kind: Kind,
        content: Option<Content>,
    },
    /// The update of this stamp is acknowledged; `top` is the sender's own stamp afterwards.
    Ack {
        key: Key,
        stamp: Stamp,
        top: Stamp,
    },
    /// The row of every member had this stamp.
    Val {
        key: Key,
        stamp: Stamp,
    },
    /// A joiner asks for its next rows, `room` of them at most (1 to 64), after a key or from the start.
    CopyAsk {
        after: Option<Key>,
        room: u8,
    },
    /// The next rows after that key. `done`: there are none behind them.
    CopyGive {
        after: Option<Key>,
        done: bool,
        items: CopyItems,
    },
    /// A node asks a manager for a lease, at `asked` milliseconds by its own clock.
    LeaseAsk {
        asked: u64,
    },
    /// A manager grants one that ends at `end` milliseconds by the asker's clock.
    LeaseGive {
        end: u64,
    },
    /// Phase 1a of Paxos.
    Prepare(Ballot),
    /// Phase 1b: what the acceptor accepted last.
    Promise {
        ballot: Ballot,
        accepted: Option<Voted>,
    },
    /// Phase 2a.
    Accept {
        ballot: Ballot,
        view: View,
    },
    /// Phase 2b.
    Accepted(Ballot),
    /// The view of an epoch is chosen.
    Chosen(View),
    /// A view may be installed.
    Activate(View),
}

fn share_update(
    key: &Key,
    stamp: Stamp,
    kind: Kind,
    content: &Option<Content>,
) -> Result<Body, Memory>
    ensures { IfOk result (λ same. same ≡ Inv key.now stamp kind content.now) }
{
    let key = key.share()?;
    let content = share_content(content)?;
    Ok(Body::Inv {
        key,
        stamp,
        kind,
        content,
    })
}

fn share_batch(
    alloc: Global,
    after: &Option<Key>,
    done: bool,
    items: &CopyItems,
) -> Result<Body, Memory>
    ensures { IfOk result (λ same. same ≡ CopyGive after.now done items.now) }
{
    let after = share_key(after)?;
    let items = share_items(alloc, items)?;
    Ok(Body::CopyGive { after, done, items })
}

fn share_promise(alloc: Global, ballot: Ballot, accepted: &Option<Voted>) -> Result<Body, Memory>
    ensures { IfOk result (λ same. same ≡ Promise ballot accepted.now) }
{
    let accepted = share_vote(alloc, accepted)?;
    Ok(Body::Promise { ballot, accepted })
}

impl Body {
    /// The same body, which shares keys and contents.
    pub fn share(&self, alloc: Global) -> Result<Body, Memory>
        ensures { IfOk result (λ body. body ≡ self.now) }
    {
        match self {
            Body::Inv {
                key,
                stamp,
                kind,
                content,
            } => share_update(key, *stamp, *kind, content),
            Body::Ack { key, stamp, top } => Ok(Body::Ack {
                key: key.share()?,
                stamp: *stamp,
                top: *top,
            }),
            Body::Val { key, stamp } => Ok(Body::Val {
                key: key.share()?,
                stamp: *stamp,
            }),
            Body::CopyAsk { after, room } => Ok(Body::CopyAsk {
                after: share_key(after)?,
                room: *room,
            }),
            Body::CopyGive { after, done, items } => share_batch(alloc, after, *done, items),
            Body::LeaseAsk { asked } => Ok(Body::LeaseAsk { asked: *asked }),
            Body::LeaseGive { end } => Ok(Body::LeaseGive { end: *end }),
            Body::Prepare(ballot) => Ok(Body::Prepare(*ballot)),
            Body::Promise { ballot, accepted } => share_promise(alloc, *ballot, accepted),
            Body::Accept { ballot, view } => Ok(Body::Accept {
                ballot: *ballot,
                view: view.copy(alloc)?,
            }),
            Body::Accepted(ballot) => Ok(Body::Accepted(*ballot)),
            Body::Chosen(view) => Ok(Body::Chosen(view.copy(alloc)?)),
            Body::Activate(view) => Ok(Body::Activate(view.copy(alloc)?)),
        }
    }
}

/// A letter. Its epoch is the one that its sender is in; of Paxos the instance, of Chosen and Activate the view's.
#[derive(Drop)]
pub struct Letter {
    pub epoch: u64,
    pub from: Actor,
    pub to: Actor,
    pub body: Body,
}

impl Letter {
    /// The same letter, which shares keys and contents.
    pub fn share(&self, alloc: Global) -> Result<Letter, Memory>
        ensures { IfOk result (λ letter. letter ≡ self.now) }
    {
        let body = self.body.share(alloc)?;
        Ok(Letter {
            epoch: self.epoch,
            from: self.from,
            to: self.to,
            body,
        })
    }
}

/// Letters, the first one first.
pub type Letters = Sequence<Letter>;
