//! The text of replies.

ghost use Rattle.std.specs.Prelude.{◌≡◌, ◌<◌, ◌++◌, OnOk, OnErr, decimal, codes};
ghost use Rattle.hk_reply.specs.Texts.{IsKept, text_of, value_text, values_text, server_text, spaced_text, tag_text, head_text};

use crate::opening::{client_text, server_text};
use crate::reply::{Item, Reply, ServerText};
use hk_base::Memory;
use itoa::Buffer;

fn put(out: &mut Vec<u8>, text: &[u8]) -> Result<(), Memory>
    ensures printed { OnOk result (out.new.items ≡ out.old.items ++ text.now) }
    ensures unchanged { OnErr result (out.new.items ≡ out.old.items) }
{
    out.extend_from_slice(text)?;
    Ok(())
}

// The number, which is below 10.
fn put_digit(out: &mut Vec<u8>, n: u64) -> Result<(), Memory>
    requires { n < 10 }
    ensures printed { OnOk result (out.new.items ≡ out.old.items ++ decimal n) }
    ensures unchanged { OnErr result (out.new.items ≡ out.old.items) }
{
    out.push(b'0' + n as u8)?;
    Ok(())
}

fn put_number(out: &mut Vec<u8>, n: u64) -> Result<(), Memory>
    ensures printed { OnOk result (out.new.items ≡ out.old.items ++ decimal n) }
    ensures unchanged { OnErr result (out.new.items ≡ out.old.items) }
{
    if n < 10 {
        return put_digit(out, n);
    }
    let mut buffer = Buffer::new();
    put(out, buffer.format(n).as_bytes())
}

/// Appends the text of the reply. Where an allocation is refused, the output is as it was.
pub fn print_reply(reply: &Reply, out: &mut Vec<u8>) -> Result<(), Memory>
    ensures printed { OnOk result (out.new.items ≡ out.old.items ++ text_of reply.now) }
    ensures unchanged { OnErr result (out.new.items ≡ out.old.items) }
{
    let before = out.len();
    let printed = put_reply(out, reply);
    if printed.is_err() {
        out.truncate(before);
    }
    printed
}

#[tactic(auto, unfolding(crate::specs::Texts::text_of))]
fn put_reply(out: &mut Vec<u8>, reply: &Reply) -> Result<(), Memory>
    ensures printed { OnOk result (out.new.items ≡ out.old.items ++ text_of reply.now) }
    ensures kept { OnErr result (IsKept out.old.items out.new.items) }
{
    match reply {
        Reply::Values { items, tags } => {
            put_items(out, items.as_slice(), *tags)?;
            put(out, b"END\r\n")
        }
        Reply::Stored => put(out, b"STORED\r\n"),
        Reply::Exists => put(out, b"EXISTS\r\n"),
        Reply::NotFound => put(out, b"NOT_FOUND\r\n"),
        Reply::NotStored => put(out, b"NOT_STORED\r\n"),
        Reply::Deleted => put(out, b"DELETED\r\n"),
        Reply::Number(n) => {
            put_number(out, *n)?;
            put(out, b"\r\n")
        }
        Reply::Error => put(out, b"ERROR\r\n"),
        Reply::ClientError(text) => put(out, client_text(*text)),
        Reply::ServerError(text) => put(out, server_text(*text)),
        Reply::Version => put(out, b"VERSION hermes-1\r\n"),
    }
}

fn put_items(out: &mut Vec<u8>, items: &[Item], tags: bool) -> Result<(), Memory>
    ensures printed { OnOk result (out.new.items ≡ out.old.items ++ values_text tags items.now) }
    ensures kept { OnErr result (IsKept out.old.items out.new.items) }
{
    for item in items {
        put_item(out, item, tags)?;
    }
    Ok(())
}

fn put_item(out: &mut Vec<u8>, item: &Item, tags: bool) -> Result<(), Memory>
    ensures printed { OnOk result (out.new.items ≡ out.old.items ++ value_text tags item.now) }
    ensures unchanged { OnErr result (out.new.items ≡ out.old.items) }
{
    put_value(
        out,
        item.key.bytes(),
        item.flags,
        item.bytes.bytes(),
        item.tag,
        tags,
    )
}

/// Appends the text of a value that is given in its parts, so that none has to be made an `Item` for it. Where an
/// allocation is refused, the output is as it was.
pub fn put_value(
    out: &mut Vec<u8>,
    key: &[u8],
    flags: u32,
    bytes: &[u8],
    tag: u64,
    tags: bool,
) -> Result<(), Memory>
    ensures printed { OnOk result (out.new.items ≡ out.old.items ++ value_text tags (record { key = key.now; flags = flags; bytes = bytes.now; tag = tag })) }
    ensures unchanged { OnErr result (out.new.items ≡ out.old.items) }
{
    let before = out.len();
    let printed = put_parts(out, key, flags, bytes, tag, tags);
    if printed.is_err() {
        out.truncate(before);
    }
    printed
}

fn put_parts(
    out: &mut Vec<u8>,
    key: &[u8],
    flags: u32,
    bytes: &[u8],
    tag: u64,
    tags: bool,
) -> Result<(), Memory>
    ensures printed { OnOk result (out.new.items ≡ out.old.items ++ value_text tags (record { key = key.now; flags = flags; bytes = bytes.now; tag = tag })) }
    ensures kept { OnErr result (IsKept out.old.items out.new.items) }
{
    put_head(out, key, flags, bytes, tag, tags)?;
    put(out, bytes)?;
    put(out, b"\r\n")
}

#[tactic(auto, unfolding(crate::specs::Texts::head_text))]
fn put_head(
    out: &mut Vec<u8>,
    key: &[u8],
    flags: u32,
    bytes: &[u8],
    tag: u64,
    tags: bool,
) -> Result<(), Memory>
    ensures printed { OnOk result (out.new.items ≡ out.old.items ++ head_text tags (record { key = key.now; flags = flags; bytes = bytes.now; tag = tag })) }
    ensures kept { OnErr result (IsKept out.old.items out.new.items) }
{
    put(out, b"VALUE ")?;
    put(out, key)?;
    put_spaced(out, u64::from(flags))?;
    put_spaced(out, bytes.len() as u64)?;
    put_tag(out, tag, tags)?;
    put(out, b"\r\n")
}

// A space, and the number.
fn put_spaced(out: &mut Vec<u8>, n: u64) -> Result<(), Memory>
    ensures printed { OnOk result (out.new.items ≡ out.old.items ++ spaced_text n) }
    ensures kept { OnErr result (IsKept out.old.items out.new.items) }
{
    put(out, b" ")?;
    put_number(out, n)
}

fn put_tag(out: &mut Vec<u8>, tag: u64, tags: bool) -> Result<(), Memory>
    ensures printed { OnOk result (out.new.items ≡ out.old.items ++ tag_text tags tag) }
    ensures kept { OnErr result (IsKept out.old.items out.new.items) }
{
    if tags {
        put_spaced(out, tag)?;
    }
    Ok(())
}

/// Appends the text of an error of the server. Where an allocation is refused, the output is as it was.
pub fn put_server_error(out: &mut Vec<u8>, text: ServerText) -> Result<(), Memory>
    ensures printed { OnOk result (out.new.items ≡ out.old.items ++ server_text text) }
    ensures unchanged { OnErr result (out.new.items ≡ out.old.items) }
{
    put(out, server_text(text))
}

/// Appends what ends the values of a get. Where an allocation is refused, the output is as it was.
pub fn put_end(out: &mut Vec<u8>) -> Result<(), Memory>
    ensures printed { OnOk result (out.new.items ≡ out.old.items ++ codes "END\r\n") }
    ensures unchanged { OnErr result (out.new.items ≡ out.old.items) }
{
    put(out, b"END\r\n")
}
