//! The words of a snapshot, both ways.

ghost use Rattle.std.specs.Prelude.{◌≡◌, ◌+◌, ◌≤◌, ◌++◌, length, take, drop, slice_index, Option, None, IfOk};
ghost use mathlib.Core.List.{IsPrefix};
ghost use Rattle.std.specs.Str.{bytes_eq};
ghost use Rattle.hk_base.specs.declared.call.CallNo.{CallNo};
ghost use Rattle.hk_snap.specs.Packed.{packed, words_for, AreBytes};
ghost use Rattle.hk_base.specs.Range.{IsWithin};
ghost use Rattle.hk_snap.specs.Snapshots.{snapshot_of, published, shape_of, is_large, glance_of, shown_content};
ghost use Rattle.hk_snap.specs.Layout.{no_words, words_of, state_number, state_numbered, shape_number, shape_numbered, flags_in, data_in, key_in, small_in, shown_in, AreFront, AreWords};
ghost use Rattle.hk_snap.specs.Rule.{IsInRange};

use crate::pack::{bytes_in, pack, words_for};
use crate::rule::{CELL_WORDS, Words};
use crate::snapshot::{Glance, MAX_SMALL_LEN, Shape, Snapshot};
use hk_base::{Content, Data, Key, Memory, Stamp, State};
use hk_key::Row;
use std::alloc::Global;

// How many words the head has, and how many it has with the longest key.
pub(crate) const HEAD: usize = 9;

pub(crate) const FRONT_WORDS: usize = 41;

fn state_number(state: State) -> u64
    ensures { result ≡ state_number state }
{
    match state {
        State::Valid => 0,
        State::Invalid => 1,
        State::Write => 2,
        State::Replay => 3,
        State::Trans => 4,
    }
}

fn state_numbered(number: u64) -> State
    ensures { result ≡ state_numbered number }
{
    if number == 0 {
        return State::Valid;
    }
    if number == 1 {
        return State::Invalid;
    }
    if number == 2 {
        return State::Write;
    }
    if number == 3 {
        return State::Replay;
    }
    State::Trans
}

// The number of the shape, the flags and the data that are shown.
fn shape(content: &Option<Content>) -> (u64, u32, &[u8])
    ensures number { result.0 ≡ shape_number (shape_of content.now) }
    ensures flags { result.1 ≡ flags_in (shape_of content.now) }
    ensures small { result.2.now ≡ data_in (shape_of content.now) }
    ensures bytes { AreBytes (data_in (shape_of content.now)) }
{
    let Some(content) = content else {
        return (3, 0, &[]);
    };
    let small = content.bytes.bytes();
    if small.len() > MAX_SMALL_LEN {
        return (2, 0, &[]);
    }
    (1, content.flags, small)
}

// A cell's words with nothing published.
pub(crate) fn no_words() -> Words
    ensures { IsPrefix no_words result }
{
    let mut words = [0; CELL_WORDS];
    words[0] = HEAD as u64;
    words
}

// Begins the words with the head.
fn put_head(words: &mut Words, head: &[u64])
    requires { length head.now ≡ 9 }
    ensures { words.new ≡ head.now ++ drop 9 words.old }
{
    words[..HEAD].copy_from_slice(head);
}

// Puts bytes into so many words, from a place on.
fn put_bytes(words: &mut Words, from: usize, count: usize, bytes: &[u8])
    requires { from + count ≤ 166 }
    ensures { words.new ≡ take from words.old ++ packed count bytes.now ++ drop (from + count) words.old }
{
    pack(bytes, &mut words[from..from + count]);
}

// Begins the words with a head, a key and data. Those behind stay.
fn assemble(words: &mut Words, head: &[u64], key: &[u8], small: &[u8])
    requires head { length head.now ≡ 9 }
    requires few { (length key.now ≤ 250) × (length small.now ≤ 1000) }
    ensures { IsPrefix (head.now ++ packed (words_for (length key.now)) key.now ++ packed (words_for (length small.now)) small.now) words.new }
{
    let key_words = words_for(key.len());
    let small_words = words_for(small.len());
    put_head(words, head);
    put_bytes(words, HEAD, key_words, key);
    put_bytes(words, HEAD + key_words, small_words, small);
}

// Begins the words with those that show the row.
#[tactic(auto, unfolding(crate::specs::Layout::words_of))]
pub(crate) fn show_row(words: &mut Words, key: &Key, row: &Row, ticket: u64)
    requires { IsWithin row.now.stamp }
    ensures words { (call : Option CallNo) → IsPrefix (words_of (snapshot_of (published key.now row.now ticket call))) words.new }
    ensures range { (call : Option CallNo) → IsInRange (published key.now row.now ticket call) }
{
    let (number, flags, small) = shape(&row.content);
    let key = key.bytes();
    let used = HEAD + words_for(key.len()) + words_for(small.len());
    let head = [
        used as u64,
        number,
        state_number(row.state),
        row.stamp.version,
        u64::from(row.stamp.node),
        ticket,
        u64::from(flags),
        key.len() as u64,
        small.len() as u64,
    ];
    assemble(words, &head, key, small);
}

// The bytes of the key that the words show, put into the room.
fn key_bytes<'a>(words: &[u64], room: &'a mut [u8; 256]) -> &'a [u8]
    requires { AreFront words.now }
    ensures { result.now ≡ key_in words.now }
{
    bytes_in(&words[HEAD..], words[7] as usize, room)
}

// The bytes of the data that the words show, put into the room.
fn small_bytes<'a>(words: &[u64], room: &'a mut [u8; 1_000]) -> &'a [u8]
    requires { AreWords words.now }
    ensures { result.now ≡ small_in words.now }
{
    let from = HEAD + words_for(words[7] as usize);
    bytes_in(&words[from..], words[8] as usize, room)
}

// Whether the words show this key.
pub(crate) fn shows_key(words: &[u64], key: &[u8]) -> bool
    requires { AreFront words.now }
    ensures { result ≡ bytes_eq (key_in words.now) key.now }
{
    let mut room = [0; 256];
    let shown = key_bytes(words, &mut room);
    shown == key
}

fn key_in(alloc: Global, words: &[u64]) -> Result<Key, Memory>
    requires { AreFront words.now }
    ensures { IfOk result (λ key. key ≡ key_in words.now) }
{
    let mut room = [0; 256];
    // They are those of a key, so only memory can be wanting.
    match Key::read(alloc, key_bytes(words, &mut room)) {
        Ok(key) => Ok(key),
        Err(_) => Err(Memory),
    }
}

// The content that the words show, of a shape that is shown whole.
pub(crate) fn content_in(alloc: Global, words: &[u64]) -> Result<Content, Memory>
    requires { AreWords words.now }
    ensures { IfOk result (λ content. content ≡ record { flags = slice_index words.now 6; bytes = small_in words.now }) }
{
    let mut room = [0; 1_000];
    // They are no more than data may have, so only memory can be wanting.
    match Data::read(alloc, small_bytes(words, &mut room)) {
        Ok(bytes) => Ok(Content {
            flags: words[6] as u32,
            bytes,
        }),
        Err(_) => Err(Memory),
    }
}

fn shape_in(alloc: Global, words: &[u64]) -> Result<Shape, Memory>
    requires { AreWords words.now }
    ensures { IfOk result (λ shape. shape ≡ shape_numbered (slice_index words.now 1) (slice_index words.now 6) (small_in words.now)) }
{
    if words[1] == 1 {
        let content = content_in(alloc, words)?;
        return Ok(Shape::Small(content));
    }
    if words[1] == 2 {
        return Ok(Shape::Large);
    }
    Ok(Shape::Missing)
}

pub(crate) fn state_in(words: &[u64]) -> State
    requires { AreFront words.now }
    ensures { result ≡ state_numbered (slice_index words.now 2) }
{
    state_numbered(words[2])
}

pub(crate) fn stamp_in(words: &[u64]) -> Stamp
    requires { AreFront words.now }
    ensures stamp { result ≡ record { version = slice_index words.now 3; node = slice_index words.now 4 } }
    ensures within { IsWithin result }
{
    Stamp {
        version: words[3],
        node: words[4] as u16,
    }
}

// What the words show.
#[tactic(auto, unfolding(crate::specs::Layout::shown_in))]
pub(crate) fn shown(alloc: Global, words: &[u64]) -> Result<Option<Snapshot>, Memory>
    requires { AreWords words.now }
    ensures { IfOk result (λ shown. shown ≡ shown_in words.now) }
{
    if words[1] == 0 {
        return Ok(None);
    }
    let key = key_in(alloc, words)?;
    let shape = shape_in(alloc, words)?;
    Ok(Some(Snapshot {
        key,
        state: state_in(words),
        stamp: stamp_in(words),
        ticket: words[5],
        shape,
    }))
}

fn is_large(words: &[u64]) -> bool
    requires { AreFront words.now }
    ensures { result ≡ is_large (shape_numbered (slice_index words.now 1) (slice_index words.now 6) (small_in words.now)) }
{
    if words[1] == 1 {
        return false;
    }
    words[1] == 2
}

// What the words show of the key beside its content.
#[tactic(auto, unfolding(crate::specs::Layout::shown_in))]
pub(crate) fn glance(words: &[u64], key: &[u8]) -> Option<Glance>
    requires { AreFront words.now }
    ensures { result ≡ glance_of (shown_in words.now) key.now }
{
    if words[1] == 0 {
        return None;
    }
    if !shows_key(words, key) {
        return None;
    }
    Some(Glance {
        state: state_in(words),
        stamp: stamp_in(words),
        is_large: is_large(words),
    })
}

// The content that the words show, if they show one.
#[tactic(auto, unfolding(crate::specs::Layout::shown_in))]
pub(crate) fn shown_content(alloc: Global, words: &[u64]) -> Result<Option<Content>, Memory>
    requires { AreWords words.now }
    ensures { IfOk result (λ content. content ≡ shown_content (shown_in words.now)) }
{
    if words[1] == 1 {
        let content = content_in(alloc, words)?;
        return Ok(Some(content));
    }
    Ok(None)
}
