//! The lines of letters.

ghost use Rattle.std.specs.Prelude.{◌≡◌, ◌++◌, OnOk, codes};
ghost use Rattle.hk_base.specs.declared.letter.Body.TheVariants.{Inv, Ack, CopyAsk, CopyGive, Promise, Accept};
ghost use Rattle.hk_script.specs.Words.{word_of};
ghost use Rattle.hk_transcript.specs.Text.{stamp_text, view_text, ballot_text, after_text, valid_text, done_text};
ghost use Rattle.hk_transcript.specs.Text.{copy_item_text, copy_items_text, body_text, send_text, sends_text};

use crate::parts::{put_content, put_kind, put_named, put_stamp};
use crate::views::{put_ballot, put_view, put_vote};
use hk_base::{Ballot, Body, Content, CopyItem, Key, Kind, Letter, Memory, Stamp, View, Voted};
use hk_script::{put_actor, put_number, put_text, put_word};

// The key behind which a batch begins.
fn put_after(out: &mut Vec<u8>, after: &Option<Key>) -> Result<(), Memory>
    ensures { OnOk result (out.new.items ≡ out.old.items ++ after_text after.now) }
{
    match after {
        None => put_text(out, b"-"),
        Some(key) => put_word(out, key.bytes()),
    }
}

fn put_valid(out: &mut Vec<u8>, valid: bool) -> Result<(), Memory>
    ensures { OnOk result (out.new.items ≡ out.old.items ++ valid_text valid) }
{
    if valid {
        put_text(out, b"valid")
    } else {
        put_text(out, b"open")
    }
}

fn put_done(out: &mut Vec<u8>, done: bool) -> Result<(), Memory>
    ensures { OnOk result (out.new.items ≡ out.old.items ++ done_text done) }
{
    if done {
        put_text(out, b"done")
    } else {
        put_text(out, b"more")
    }
}

fn put_stamped(out: &mut Vec<u8>, name: &[u8], key: &Key, stamp: Stamp) -> Result<(), Memory>
    ensures { OnOk result (out.new.items ≡ out.old.items ++ (name.now ++ word_of key.now ++ codes " " ++ stamp_text stamp)) }
{
    put_text(out, name)?;
    put_word(out, key.bytes())?;
    put_text(out, b" ")?;
    put_stamp(out, stamp)
}

fn put_copy_item(out: &mut Vec<u8>, item: &CopyItem) -> Result<(), Memory>
    ensures { OnOk result (out.new.items ≡ out.old.items ++ copy_item_text item.now) }
{
    put_stamped(out, b" ", &item.key, item.stamp)?;
    put_text(out, b" ")?;
    put_kind(out, item.kind)?;
    put_text(out, b" ")?;
    put_valid(out, item.valid)?;
    put_text(out, b" ")?;
    put_content(out, &item.content)
}

fn put_copy_items(out: &mut Vec<u8>, items: &[CopyItem]) -> Result<(), Memory>
    ensures { OnOk result (out.new.items ≡ out.old.items ++ copy_items_text items.now) }
{
    for item in items {
        put_copy_item(out, item)?;
    }
    Ok(())
}

#[tactic(auto, unfolding(crate::specs::Text::body_text))]
fn put_update(
    out: &mut Vec<u8>,
    key: &Key,
    stamp: Stamp,
    kind: Kind,
    content: &Option<Content>,
) -> Result<(), Memory>
    ensures { OnOk result (out.new.items ≡ out.old.items ++ body_text (Inv key.now stamp kind content.now)) }
{
    put_stamped(out, b"inv ", key, stamp)?;
    put_text(out, b" ")?;
    put_kind(out, kind)?;
    put_text(out, b" ")?;
    put_content(out, content)
}

#[tactic(auto, unfolding(crate::specs::Text::body_text))]
fn put_ack(out: &mut Vec<u8>, key: &Key, stamp: Stamp, top: Stamp) -> Result<(), Memory>
    ensures { OnOk result (out.new.items ≡ out.old.items ++ body_text (Ack key.now stamp top)) }
{
    put_stamped(out, b"ack ", key, stamp)?;
    put_text(out, b" ")?;
    put_stamp(out, top)
}

#[tactic(auto, unfolding(crate::specs::Text::body_text))]
fn put_copy_ask(out: &mut Vec<u8>, after: &Option<Key>, room: u8) -> Result<(), Memory>
    ensures { OnOk result (out.new.items ≡ out.old.items ++ body_text (CopyAsk after.now room)) }
{
    put_text(out, b"copyask ")?;
    put_after(out, after)?;
    put_named(out, b" ", u64::from(room))
}

#[tactic(auto, unfolding(crate::specs::Text::body_text))]
fn put_batch(
    out: &mut Vec<u8>,
    after: &Option<Key>,
    done: bool,
    items: &[CopyItem],
) -> Result<(), Memory>
    ensures { OnOk result (out.new.items ≡ out.old.items ++ body_text (CopyGive after.now done items.now)) }
{
    put_text(out, b"copygive ")?;
    put_after(out, after)?;
    put_text(out, b" ")?;
    put_done(out, done)?;
    put_copy_items(out, items)
}

fn put_balloted(out: &mut Vec<u8>, name: &[u8], ballot: Ballot) -> Result<(), Memory>
    ensures { OnOk result (out.new.items ≡ out.old.items ++ (name.now ++ ballot_text ballot)) }
{
    put_text(out, name)?;
    put_ballot(out, ballot)
}

#[tactic(auto, unfolding(crate::specs::Text::body_text))]
fn put_promise(out: &mut Vec<u8>, ballot: Ballot, vote: &Option<Voted>) -> Result<(), Memory>
    ensures { OnOk result (out.new.items ≡ out.old.items ++ body_text (Promise ballot vote.now)) }
{
    put_balloted(out, b"promise ", ballot)?;
    put_text(out, b" ")?;
    put_vote(out, vote)
}

fn put_viewed(out: &mut Vec<u8>, name: &[u8], view: &View) -> Result<(), Memory>
    ensures { OnOk result (out.new.items ≡ out.old.items ++ (name.now ++ view_text view.now)) }
{
    put_text(out, name)?;
    put_view(out, view)
}

#[tactic(auto, unfolding(crate::specs::Text::body_text))]
fn put_accept(out: &mut Vec<u8>, ballot: Ballot, view: &View) -> Result<(), Memory>
    ensures { OnOk result (out.new.items ≡ out.old.items ++ body_text (Accept ballot view.now)) }
{
    put_balloted(out, b"accept ", ballot)?;
    put_viewed(out, b" ", view)
}

#[tactic(auto, unfolding(crate::specs::Text::body_text))]
fn put_body(out: &mut Vec<u8>, body: &Body) -> Result<(), Memory>
    ensures { OnOk result (out.new.items ≡ out.old.items ++ body_text body.now) }
{
    match body {
        Body::Inv {
            key,
            stamp,
            kind,
            content,
        } => put_update(out, key, *stamp, *kind, content),
        Body::Ack { key, stamp, top } => put_ack(out, key, *stamp, *top),
        Body::Val { key, stamp } => put_stamped(out, b"val ", key, *stamp),
        Body::CopyAsk { after, room } => put_copy_ask(out, after, *room),
        Body::CopyGive { after, done, items } => put_batch(out, after, *done, items.as_slice()),
        Body::LeaseAsk { .. } => put_text(out, b"leaseask"),
        Body::LeaseGive { end } => put_named(out, b"leasegive ", *end),
        Body::Prepare(ballot) => put_balloted(out, b"prepare ", *ballot),
        Body::Promise { ballot, accepted } => put_promise(out, *ballot, accepted),
        Body::Accept { ballot, view } => put_accept(out, *ballot, view),
        Body::Accepted(ballot) => put_balloted(out, b"accepted ", *ballot),
        Body::Chosen(view) => put_viewed(out, b"chosen ", view),
        Body::Activate(view) => put_viewed(out, b"activate ", view),
    }
}

#[tactic(auto, unfolding(crate::specs::Text::send_text))]
fn put_letter(out: &mut Vec<u8>, event: u64, number: u64, letter: &Letter) -> Result<(), Memory>
    ensures { OnOk result (out.new.items ≡ out.old.items ++ send_text event number letter.now) }
{
    put_number(out, event)?;
    put_named(out, b" send ", number)?;
    put_text(out, b" ")?;
    put_actor(out, letter.from)?;
    put_text(out, b">")?;
    put_actor(out, letter.to)?;
    put_named(out, b" ", letter.epoch)?;
    put_text(out, b" ")?;
    put_body(out, &letter.body)?;
    put_text(out, b"\n")
}

/// The letters that an event sends, numbered from `first`. It is `Memory` too where a number passes 2^64 - 1.
pub fn put_letters(
    out: &mut Vec<u8>,
    event: u64,
    first: u64,
    letters: &[Letter],
) -> Result<(), Memory>
    ensures { OnOk result (out.new.items ≡ out.old.items ++ sends_text event first letters.now) }
{
    for (place, letter) in letters.iter().enumerate() {
        let number = first.checked_add(place as u64).ok_or(Memory)?;
        put_letter(out, event, number, letter)?;
    }
    Ok(())
}
