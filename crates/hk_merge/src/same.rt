//! Whether two letters are one.

ghost use Rattle.std.specs.Prelude.{◌≡◌};
ghost use Rattle.std.specs.Option.{option_eq};
ghost use Rattle.std.specs.Cmp.Lexicographic.{pointwise};
ghost use Rattle.hk_merge.specs.Same.{same_bytes, same_stamp, same_kind, same_content, same_item, same_ballot, same_member, same_view, same_vote, same_actor, same_council, same_copy, same_body, same_letter, same_answer, same_reply};

use hk_base::{
    Actor, Answer, Ballot, Body, Content, CopyItem, Key, Kind, Letter, NodeId, Reply, Stamp, View,
    Voted,
};

fn same_bytes(a: &[u8], b: &[u8]) -> bool
    ensures { result ≡ same_bytes a.now b.now }
{
    a == b
}

fn same_key(a: &Key, b: &Key) -> bool
    ensures { result ≡ same_bytes a.now b.now }
{
    same_bytes(a.bytes(), b.bytes())
}

fn same_stamp(a: Stamp, b: Stamp) -> bool
    ensures { result ≡ same_stamp a b }
{
    a == b
}

fn same_kind(a: Kind, b: Kind) -> bool
    ensures { result ≡ same_kind a b }
{
    a == b
}

fn same_content(a: &Content, b: &Content) -> bool
    ensures { result ≡ same_content a.now b.now }
{
    a.flags == b.flags && same_bytes(a.bytes.bytes(), b.bytes.bytes())
}

fn same_left(a: &Option<Content>, b: &Option<Content>) -> bool
    ensures { result ≡ option_eq same_content a.now b.now }
{
    match (a, b) {
        (Some(a), Some(b)) => same_content(a, b),
        (None, None) => true,
        (Some(_), None) | (None, Some(_)) => false,
    }
}

fn same_after(a: &Option<Key>, b: &Option<Key>) -> bool
    ensures { result ≡ option_eq same_bytes a.now b.now }
{
    match (a, b) {
        (Some(a), Some(b)) => same_key(a, b),
        (None, None) => true,
        (Some(_), None) | (None, Some(_)) => false,
    }
}

fn same_item(a: &CopyItem, b: &CopyItem) -> bool
    ensures { result ≡ same_item a.now b.now }
{
    same_key(&a.key, &b.key)
        && (same_stamp(a.stamp, b.stamp)
            && (same_kind(a.kind, b.kind)
                && (a.valid == b.valid && same_left(&a.content, &b.content))))
}

fn same_items(a: &[CopyItem], b: &[CopyItem]) -> bool
    ensures { result ≡ pointwise same_item a.now b.now }
{
    if a.len() != b.len() {
        return false;
    }
    for (place, item) in a.iter().enumerate() {
        if !same_item(item, &b[place]) {
            return false;
        }
    }
    true
}

fn same_ballot(a: Ballot, b: Ballot) -> bool
    ensures { result ≡ same_ballot a b }
{
    a == b
}

fn same_members(a: &[NodeId], b: &[NodeId]) -> bool
    ensures { result ≡ pointwise same_member a.now b.now }
{
    a == b
}

fn same_view(a: &View, b: &View) -> bool
    ensures { result ≡ same_view a.now b.now }
{
    a.epoch == b.epoch
        && (same_members(a.members.as_slice(), b.members.as_slice()) && a.next == b.next)
}

fn same_vote(a: &Option<Voted>, b: &Option<Voted>) -> bool
    ensures { result ≡ option_eq same_vote a.now b.now }
{
    match (a, b) {
        (Some(a), Some(b)) => same_ballot(a.ballot, b.ballot) && same_view(&a.view, &b.view),
        (None, None) => true,
        (Some(_), None) | (None, Some(_)) => false,
    }
}

fn same_actor(a: Actor, b: Actor) -> bool
    ensures { result ≡ same_actor a b }
{
    a == b
}

// Bodies of letters about leases and views.
#[tactic(auto, unfolding(crate::specs::Same::same_council))]
fn same_council(a: &Body, b: &Body) -> bool
    ensures { result ≡ same_council a.now b.now }
{
    match (a, b) {
        (Body::LeaseAsk { asked }, Body::LeaseAsk { asked: b }) => *asked == *b,
        (Body::LeaseGive { end }, Body::LeaseGive { end: b }) => *end == *b,
        (Body::Prepare(a), Body::Prepare(b)) => same_ballot(*a, *b),
        (
            Body::Promise { ballot, accepted },
            Body::Promise {
                ballot: b,
                accepted: v,
            },
        ) => same_ballot(*ballot, *b) && same_vote(accepted, v),
        (Body::Accept { ballot, view }, Body::Accept { ballot: b, view: v }) => {
            same_ballot(*ballot, *b) && same_view(view, v)
        }
        (Body::Accepted(a), Body::Accepted(b)) => same_ballot(*a, *b),
        (Body::Chosen(a), Body::Chosen(b)) => same_view(a, b),
        (Body::Activate(a), Body::Activate(b)) => same_view(a, b),
        _ => false,
    }
}

// These, and bodies of letters that copy rows.
#[tactic(auto, unfolding(crate::specs::Same::same_copy))]
fn same_copy(a: &Body, b: &Body) -> bool
    ensures { result ≡ same_copy a.now b.now }
{
    match (a, b) {
        (Body::CopyAsk { after, room }, Body::CopyAsk { after: b, room: r }) => {
            same_after(after, b) && *room == *r
        }
        (
            Body::CopyGive { after, done, items },
            Body::CopyGive {
                after: b,
                done: d,
                items: more,
            },
        ) => {
            same_after(after, b) && (*done == *d && same_items(items.as_slice(), more.as_slice()))
        }
        _ => same_council(a, b),
    }
}

// Bodies of all letters.
#[tactic(auto, unfolding(crate::specs::Same::same_body))]
fn same_body(a: &Body, b: &Body) -> bool
    ensures { result ≡ same_body a.now b.now }
{
    match (a, b) {
        (
            Body::Inv {
                key,
                stamp,
                kind,
                content,
            },
            Body::Inv {
                key: k,
                stamp: s,
                kind: d,
                content: c,
            },
        ) => {
            same_key(key, k)
                && (same_stamp(*stamp, *s) && (same_kind(*kind, *d) && same_left(content, c)))
        }
        (
            Body::Ack { key, stamp, top },
            Body::Ack {
                key: k,
                stamp: s,
                top: t,
            },
        ) => same_key(key, k) && (same_stamp(*stamp, *s) && same_stamp(*top, *t)),
        (Body::Val { key, stamp }, Body::Val { key: k, stamp: s }) => {
            same_key(key, k) && same_stamp(*stamp, *s)
        }
        _ => same_copy(a, b),
    }
}

/// Whether the letters are equal.
pub fn same_letter(a: &Letter, b: &Letter) -> bool
    ensures { result ≡ same_letter a.now b.now }
{
    a.epoch == b.epoch
        && (same_actor(a.from, b.from) && (same_actor(a.to, b.to) && same_body(&a.body, &b.body)))
}

/// Whether the letters are equal, each to the one in its place.
pub fn same_letters(a: &[Letter], b: &[Letter]) -> bool
    ensures { result ≡ pointwise same_letter a.now b.now }
{
    if a.len() != b.len() {
        return false;
    }
    for (place, letter) in a.iter().enumerate() {
        if !same_letter(letter, &b[place]) {
            return false;
        }
    }
    true
}

/// Whether the answers are equal.
pub fn same_answer(a: &Answer, b: &Answer) -> bool
    ensures { result ≡ same_answer a.now b.now }
{
    *a == *b
}

/// Whether the replies have equal answers, each as the one in its place. The numbers of their calls are aside.
pub fn same_replies(a: &[Reply], b: &[Reply]) -> bool
    ensures { result ≡ pointwise same_reply a.now b.now }
{
    if a.len() != b.len() {
        return false;
    }
    for (place, reply) in a.iter().enumerate() {
        if !same_answer(&reply.answer, &b[place].answer) {
            return false;
        }
    }
    true
}
