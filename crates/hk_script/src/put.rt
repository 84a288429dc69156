//! The printer of words.

ghost use Rattle.std.specs.Prelude.{◌≡◌, ◌<◌, ◌++◌, ◌∷◌, [], OnOk, codes, decimal};
ghost use Rattle.std.specs.List.{flat_map, join_with_byte};
ghost use Rattle.hk_script.specs.Words.{spelled, hexadecimal, word_of, actor_word};
ghost use Rattle.hk_script.specs.Grammar.{op_words, change_words};

use crate::words::{all_plain, is_plain};
use hk_base::{Actor, Change, Content, Memory, NodeId, Op};
use itoa::Buffer;

/// Puts a text behind what is there. After `Memory` a front of it may stand there.
pub fn put(out: &mut Vec<u8>, text: &[u8]) -> Result<(), Memory>
    ensures { OnOk result (out.new.items ≡ out.old.items ++ text.now) }
{
    out.extend_from_slice(text)?;
    Ok(())
}

// Puts a byte behind what is there.
fn put_one(out: &mut Vec<u8>, byte: u8) -> Result<(), Memory>
    ensures { OnOk result (out.new.items ≡ out.old.items ++ byte ∷ []) }
{
    out.push(byte)?;
    Ok(())
}

/// Puts a decimal number behind what is there. After `Memory` a front of it may stand there.
pub fn put_number(out: &mut Vec<u8>, number: u64) -> Result<(), Memory>
    ensures { OnOk result (out.new.items ≡ out.old.items ++ decimal number) }
{
    if number < 10 {
        return put_one(out, 48 + number as u8);
    }
    let mut buffer = Buffer::new();
    put(out, buffer.format(number).as_bytes())
}

/// Puts the word of a node.
pub(crate) fn put_node(out: &mut Vec<u8>, node: NodeId) -> Result<(), Memory>
    ensures { OnOk result (out.new.items ≡ out.old.items ++ decimal node.0) }
{
    put_number(out, u64::from(node.0))
}

fn digit(value: u8) -> u8
    requires { value < 16 }
    ensures { result ≡ hexadecimal value }
{
    if value < 10 { 48 + value } else { 55 + value }
}

fn put_byte(out: &mut Vec<u8>, byte: u8) -> Result<(), Memory>
    ensures { OnOk result (out.new.items ≡ out.old.items ++ spelled byte) }
{
    if is_plain(byte) {
        put_one(out, byte)
    } else {
        put(out, &[b'%', digit(byte / 16), digit(byte % 16)])
    }
}

#[tactic(auto, using(crate::proofs::Literal::plain_word))]
fn put_bytes(out: &mut Vec<u8>, bytes: &[u8]) -> Result<(), Memory>
    ensures { OnOk result (out.new.items ≡ out.old.items ++ flat_map spelled bytes.now) }
{
    if all_plain(bytes) {
        return put(out, bytes);
    }
    for byte in bytes {
        put_byte(out, *byte)?;
    }
    Ok(())
}

/// Puts the word of some bytes behind what is there. After `Memory` a front of it may stand there.
pub fn put_word(out: &mut Vec<u8>, bytes: &[u8]) -> Result<(), Memory>
    ensures { OnOk result (out.new.items ≡ out.old.items ++ word_of bytes.now) }
{
    match bytes {
        [] => put(out, b"-"),
        [byte] => {
            if *byte == b'-' {
                put(out, b"%2D")
            } else {
                put_byte(out, *byte)
            }
        }
        _ => put_bytes(out, bytes),
    }
}

/// Puts the word of an actor behind what is there: its number, with `m` before a manager's. After `Memory` a front of it may stand there.
pub fn put_actor(out: &mut Vec<u8>, actor: Actor) -> Result<(), Memory>
    ensures { OnOk result (out.new.items ≡ out.old.items ++ actor_word actor) }
{
    match actor {
        Actor::Node(id) => put_node(out, id),
        Actor::Manager(id) => {
            put(out, b"m")?;
            put_number(out, u64::from(id))
        }
    }
}

/// Puts the words of a change.
pub(crate) fn put_change(out: &mut Vec<u8>, change: Change) -> Result<(), Memory>
    ensures { OnOk result (out.new.items ≡ out.old.items ++ join_with_byte 32 (change_words change)) }
{
    match change {
        Change::Drop(id) => {
            put(out, b"drop ")?;
            put_node(out, id)
        }
        Change::Add => put(out, b"add"),
    }
}

fn put_content(out: &mut Vec<u8>, content: &Content) -> Result<(), Memory>
    ensures { OnOk result (out.new.items ≡ out.old.items ++ decimal content.now.flags ++ codes " " ++ word_of content.now.bytes) }
{
    put_number(out, u64::from(content.flags))?;
    put(out, b" ")?;
    put_word(out, content.bytes.bytes())
}

fn put_keyed(out: &mut Vec<u8>, name: &[u8], key: &[u8]) -> Result<(), Memory>
    ensures { OnOk result (out.new.items ≡ out.old.items ++ (name.now ++ codes " " ++ word_of key.now)) }
{
    put(out, name)?;
    put(out, b" ")?;
    put_word(out, key)
}

fn put_stored(out: &mut Vec<u8>, name: &[u8], key: &[u8], content: &Content) -> Result<(), Memory>
    ensures { OnOk result (out.new.items ≡ out.old.items ++ (name.now ++ codes " " ++ word_of key.now ++ codes " " ++ decimal content.now.flags ++ codes " " ++ word_of content.now.bytes)) }
{
    put_keyed(out, name, key)?;
    put(out, b" ")?;
    put_content(out, content)
}

fn put_counted(out: &mut Vec<u8>, name: &[u8], key: &[u8], number: u64) -> Result<(), Memory>
    ensures { OnOk result (out.new.items ≡ out.old.items ++ (name.now ++ codes " " ++ word_of key.now ++ codes " " ++ decimal number)) }
{
    put_keyed(out, name, key)?;
    put(out, b" ")?;
    put_number(out, number)
}

/// Puts the words of an operation on a key.
pub(crate) fn put_op(out: &mut Vec<u8>, key: &[u8], op: &Op) -> Result<(), Memory>
    ensures { OnOk result (out.new.items ≡ out.old.items ++ join_with_byte 32 (op_words key.now op.now)) }
{
    match op {
        Op::Read => put_keyed(out, b"get", key),
        Op::Write(content) => put_stored(out, b"set", key, content),
        Op::Cas { tag, content } => {
            put_stored(out, b"cas", key, content)?;
            put(out, b" ")?;
            put_number(out, *tag)
        }
        Op::Incr(by) => put_counted(out, b"incr", key, *by),
        Op::Decr(by) => put_counted(out, b"decr", key, *by),
        Op::Add(content) => put_stored(out, b"add", key, content),
        Op::Replace(content) => put_stored(out, b"replace", key, content),
        Op::Delete => put_keyed(out, b"delete", key),
    }
}
