//! The line of a request, and the block behind that of a store.

ghost use Rattle.std.specs.Prelude.{◌≡◌, ◌∷◌, ◌+◌, ◌<◌, ◌≤◌, ◌^◌, [], false, length, map, is_some, Ok, IfOk, IfSome};
ghost use Rattle.std.specs.Option.{option_map};
ghost use Rattle.hk_base.specs.declared.data.TheConstants.{MAX_DATA_LEN};
ghost use Rattle.hk_request.specs.Blocks.{IsFinished, op_of};
ghost use Rattle.hk_request.specs.Fields.{Gives};
ghost use Rattle.hk_request.specs.Words.{words_of};
ghost use Rattle.hk_request.specs.Grammar.{IsHead, IsReadAs};
ghost use Rattle.hk_request.specs.Heads.{HasItsTag, HasItsTagIfStore, is_cas};
ghost use Rattle.hk_request.specs.Reading.{ReadsHead, IsWithin, IsWithinHead, head_of, head_of_words, asked_of, get_of, store_of, untagged_of, cas_of, change_of, step_of, delete_of, deletion_of, alone_of, skip_of};

use crate::keys::{Keys, read_keys};
use crate::request::{BlockFault, Head, Request, RequestCause, RequestFault, StoreHead, Verb};
use crate::words::{
    Command, Words, find_command, has_block, is, number, number_at, read_expiry, read_flags,
    read_key, read_noreply, read_size, read_tag, split, split_word,
};
use hk_base::{Content, Data, Key, Op};
use std::alloc::Global;

/// Reads a line, which is given without the two bytes that end it. The answer is what the grammar makes of its words,
/// or the first fault of them in the order of the tests, with the length of the block that comes behind a refused store.
pub fn read_request(alloc: Global, line: &[u8]) -> Result<Head, RequestFault>
    // What is read is in the grammar.
    ensures found { IfOk result (λ head. IsHead (words_of line.now) head) }
    // What is in the grammar is read, unless an allocation is refused.
    ensures only { (head : Head) → IsHead (words_of line.now) head → IsReadAs result head }
    // Which fault it is, and how much is to be skipped.
    ensures exact { ReadsHead result (head_of line.now) }
    ensures within { IsWithin result }
    ensures its_tag { IfOk result HasItsTagIfStore }
{
    read_line(alloc, line)
}

fn read_line(alloc: Global, line: &[u8]) -> Result<Head, RequestFault>
    ensures exact { ReadsHead result (head_of line.now) }
    ensures within { IsWithin result }
{
    if let Some(head) = read_lone_get(alloc, line) {
        return Ok(head);
    }
    if let Some(head) = read_plain_set(alloc, line) {
        return Ok(head);
    }
    read_listed(alloc, line)
}

// The same by a list of the line's words. It stands by itself, so that most lines need no room for that.
#[inline(never)]
#[tactic(auto, unfolding(crate::specs::Reading::head_of))]
fn read_listed(alloc: Global, line: &[u8]) -> Result<Head, RequestFault>
    ensures exact { ReadsHead result (head_of line.now) }
    ensures within { IsWithin result }
{
    let mut words = Words::new(alloc);
    if split(&mut words, line).is_err() {
        return Err(RequestFault {
            cause: RequestCause::Memory,
            skip: 0,
        });
    }
    match read_words(alloc, words.as_slice()) {
        Ok(head) => Ok(head),
        Err(cause) => Err(RequestFault {
            cause,
            skip: skip(words.as_slice()),
        }),
    }
}

// What a line is that gets one key, with one space before it: most lines are such ones, and need no list of words. None says nothing.
fn read_lone_get(alloc: Global, line: &[u8]) -> Option<Head>
    ensures exact { IfSome result (λ head. head_of line.now ≡ Ok head) }
    ensures within { IfSome result IsWithinHead }
{
    let [b'g', b'e', b't', b' ', word @ ..] = line else {
        return None;
    };
    let Ok(key) = Key::read(alloc, word) else {
        return None;
    };
    Some(Head::Whole(Request::Get {
        keys: Keys::one(key),
        tags: false,
    }))
}

// What a line is that sets a key, with no tag and one space before each word: most stores are such ones, and need no list of words. None says nothing.
fn read_plain_set(alloc: Global, line: &[u8]) -> Option<Head>
    ensures exact { IfSome result (λ head. head_of line.now ≡ Ok head) }
    ensures within { IfSome result IsWithinHead }
{
    let [b's', b'e', b't', b' ', words @ ..] = line else {
        return None;
    };
    let (key, words) = split_word(words)?;
    let (flags, words) = split_word(words)?;
    let (expiry, bytes) = split_word(words)?;
    match read_store(alloc, Verb::Set, key, flags, expiry, bytes, None, false) {
        Ok(head) => Some(head),
        Err(_) => None,
    }
}

// How long the block of a refused store is, with its end, where the fifth word tells it; else 0.
#[tactic(auto, unfolding(crate::specs::Reading::skip_of))]
fn skip(words: &[&[u8]]) -> u64
    ensures exact { result ≡ skip_of (map (λ w. w.now) words.now) }
    ensures below { result < 2 ^ 33 }
{
    let [command, _, _, _, bytes, ..] = words else {
        return 0;
    };
    if !has_block(command) {
        return 0;
    }
    match number(u64::from(u32::MAX), bytes) {
        Some(n) => n + 2,
        None => 0,
    }
}

#[tactic(auto, unfolding(crate::specs::Reading::head_of_words))]
fn read_words(alloc: Global, words: &[&[u8]]) -> Result<Head, RequestCause>
    ensures exact { Gives result (head_of_words (map (λ w. w.now) words.now)) }
    ensures within { IfOk result IsWithinHead }
{
    let Some((first, others)) = words.split_first() else {
        return Err(RequestCause::Unknown);
    };
    match find_command(first) {
        Some(command) => read_asked(alloc, command, others),
        None => Err(RequestCause::Unknown),
    }
}

#[tactic(auto, unfolding(crate::specs::Reading::asked_of))]
fn read_asked(alloc: Global, command: Command, others: &[&[u8]]) -> Result<Head, RequestCause>
    ensures exact { Gives result (asked_of command (map (λ w. w.now) others.now)) }
    ensures within { IfOk result IsWithinHead }
{
    match command {
        Command::Get => read_get(alloc, others, false),
        Command::Gets => read_get(alloc, others, true),
        Command::Set => read_untagged(alloc, Verb::Set, others),
        Command::Cas => read_cas(alloc, others),
        Command::Add => read_untagged(alloc, Verb::Add, others),
        Command::Replace => read_untagged(alloc, Verb::Replace, others),
        Command::Incr => {
            let change = read_change(alloc, others)?;
            Ok(update(change.key, Op::Incr(change.by), change.noreply))
        }
        Command::Decr => {
            let change = read_change(alloc, others)?;
            Ok(update(change.key, Op::Decr(change.by), change.noreply))
        }
        Command::Delete => read_delete(alloc, others),
        Command::Quit => alone(others, Request::Quit),
        Command::Version => alone(others, Request::Version),
    }
}

fn alone(others: &[&[u8]], request: Request) -> Result<Head, RequestCause>
    ensures exact { Gives result (alone_of (map (λ w. w.now) others.now) request) }
    ensures within { IfOk result IsWithinHead }
{
    if others.is_empty() {
        Ok(Head::Whole(request))
    } else {
        Err(RequestCause::WrongCount)
    }
}

fn update(key: Key, op: Op, noreply: bool) -> Head
    ensures { result ≡ Head.Whole (Request.Update key op noreply) }
{
    Head::Whole(Request::Update { key, op, noreply })
}

#[tactic(auto, unfolding(crate::specs::Reading::get_of))]
fn read_get(alloc: Global, others: &[&[u8]], tags: bool) -> Result<Head, RequestCause>
    ensures exact { Gives result (get_of tags (map (λ w. w.now) others.now)) }
    ensures within { IfOk result IsWithinHead }
{
    if others.is_empty() {
        return Err(RequestCause::WrongCount);
    }
    let keys = read_keys(alloc, others)?;
    Ok(Head::Whole(Request::Get { keys, tags }))
}

// A store without a tag.
#[tactic(auto, unfolding(crate::specs::Reading::untagged_of))]
fn read_untagged(alloc: Global, verb: Verb, others: &[&[u8]]) -> Result<Head, RequestCause>
    ensures exact { Gives result (untagged_of verb (map (λ w. w.now) others.now)) }
    ensures within { IfOk result IsWithinHead }
{
    match others {
        [key, flags, expiry, bytes] => {
            read_store(alloc, verb, key, flags, expiry, bytes, None, false)
        }
        [key, flags, expiry, bytes, last] => {
            let noreply = read_noreply(last)?;
            read_store(alloc, verb, key, flags, expiry, bytes, None, noreply)
        }
        _ => Err(RequestCause::WrongCount),
    }
}

#[tactic(auto, unfolding(crate::specs::Reading::cas_of))]
fn read_cas(alloc: Global, others: &[&[u8]]) -> Result<Head, RequestCause>
    ensures exact { Gives result (cas_of (map (λ w. w.now) others.now)) }
    ensures within { IfOk result IsWithinHead }
{
    match others {
        [key, flags, expiry, bytes, tag] => {
            read_store(
                alloc,
                Verb::Cas,
                key,
                flags,
                expiry,
                bytes,
                Some(tag),
                false,
            )
        }
        [key, flags, expiry, bytes, tag, last] => {
            let noreply = read_noreply(last)?;
            read_store(
                alloc,
                Verb::Cas,
                key,
                flags,
                expiry,
                bytes,
                Some(tag),
                noreply,
            )
        }
        _ => Err(RequestCause::WrongCount),
    }
}

#[tactic(auto, unfolding(crate::specs::Reading::store_of))]
fn read_store(
    alloc: Global,
    verb: Verb,
    key: &[u8],
    flags: &[u8],
    expiry: &[u8],
    bytes: &[u8],
    tag: Option<&[u8]>,
    noreply: bool,
) -> Result<Head, RequestCause>
    ensures exact { Gives result (store_of verb key.now flags.now expiry.now bytes.now (option_map (λ w. w.now) tag.entry) noreply) }
    ensures within { IfOk result IsWithinHead }
{
    let key = read_key(alloc, key)?;
    let flags = read_flags(flags)?;
    read_expiry(expiry)?;
    let bytes = read_size(bytes)?;
    let tag = read_tag(tag)?;
    Ok(Head::Store(StoreHead {
        verb,
        key,
        flags,
        tag,
        bytes,
        noreply,
    }))
}

// What an incr and a decr tell.
#[derive(Drop)]
struct Change {
    key: Key,
    by: u64,
    noreply: bool,
}

#[tactic(auto, unfolding(crate::specs::Reading::change_of))]
fn read_change(alloc: Global, others: &[&[u8]]) -> Result<Change, RequestCause>
    ensures { Gives result (change_of (map (λ w. w.now) others.now)) }
{
    match others {
        [key, by] => read_step(alloc, key, by, false),
        [key, by, last] => {
            let noreply = read_noreply(last)?;
            read_step(alloc, key, by, noreply)
        }
        _ => Err(RequestCause::WrongCount),
    }
}

#[tactic(auto, unfolding(crate::specs::Reading::step_of))]
fn read_step(alloc: Global, key: &[u8], by: &[u8], noreply: bool) -> Result<Change, RequestCause>
    ensures { Gives result (step_of key.now by.now noreply) }
{
    let key = read_key(alloc, key)?;
    let by = number_at(3, u64::MAX, by)?;
    Ok(Change { key, by, noreply })
}

#[tactic(auto, unfolding(crate::specs::Reading::delete_of))]
fn read_delete(alloc: Global, others: &[&[u8]]) -> Result<Head, RequestCause>
    ensures exact { Gives result (delete_of (map (λ w. w.now) others.now)) }
    ensures within { IfOk result IsWithinHead }
{
    match others {
        [key] => read_deletion(alloc, key, false),
        [key, last] => read_deletion(alloc, key, read_noreply(last)?),
        _ => Err(RequestCause::WrongCount),
    }
}

#[tactic(auto, unfolding(crate::specs::Reading::deletion_of))]
fn read_deletion(alloc: Global, key: &[u8], noreply: bool) -> Result<Head, RequestCause>
    ensures exact { Gives result (deletion_of key.now noreply) }
    ensures within { IfOk result IsWithinHead }
{
    let key = read_key(alloc, key)?;
    Ok(update(key, Op::Delete, noreply))
}

/// The request of a head and its block, which has two bytes more than the head says. `BadEnd` comes exactly where
/// these two are no carriage return and line feed.
pub fn finish(alloc: Global, head: StoreHead, block: &[u8]) -> Result<Request, BlockFault>
    requires within { head.bytes ≤ MAX_DATA_LEN }
    requires whole { length block.now ≡ head.bytes + 2 }
    requires its_tag { HasItsTag head }
    ensures { IsFinished result head block.now }
{
    let StoreHead {
        verb,
        key,
        flags,
        tag,
        bytes,
        noreply,
    } = head;
    let (front, end) = block.split_at(bytes as usize);
    if !is(end, b"\r\n") {
        return Err(BlockFault::BadEnd);
    }
    let bytes = match Data::read(alloc, front) {
        Ok(bytes) => bytes,
        Err(_) => return Err(BlockFault::Memory),
    };
    Ok(Request::Update {
        key,
        op: op_of(verb, tag, Content { flags, bytes }),
        noreply,
    })
}

// The operation of a store. A cas has a tag.
fn op_of(verb: Verb, tag: Option<u64>, content: Content) -> Op
    requires { is_some tag ≡ is_cas verb }
    ensures { result ≡ op_of verb tag content }
{
    match verb {
        Verb::Set => Op::Write(content),
        Verb::Cas => match tag {
            Some(tag) => Op::Cas { tag, content },
            None => unreachable!(),
        },
        Verb::Add => Op::Add(content),
        Verb::Replace => Op::Replace(content),
    }
}
