//! What a server's reply is.

use bytes_told::{put, put_bytes, put_flag, put_number};
use hk_base::Memory;
use hk_reply::{ClientText, Item, Reply, ReplyFault, ServerText, read_reply};
use std::alloc::Global;

fn put_item(out: &mut Vec<u8>, item: &Item) -> Result<(), Memory> {
    put_bytes(out, item.key.bytes())?;
    put(out, b" ")?;
    put_number(out, u64::from(item.flags))?;
    put_bytes(out, item.bytes.bytes())?;
    put(out, b" ")?;
    put_number(out, item.tag)
}

fn client_text(text: ClientText) -> &'static [u8] {
    match text {
        ClientText::BadKey => b"bad-key",
        ClientText::BadNumber => b"bad-number",
        ClientText::BadChunk => b"bad-chunk",
        ClientText::NotNumber => b"not-number",
        ClientText::TooLong => b"line-too-long",
    }
}

fn server_text(text: ServerText) -> &'static [u8] {
    match text {
        ServerText::TooLarge => b"too-large",
        ServerText::Expiry => b"expiry",
        ServerText::Busy => b"busy",
        ServerText::Aborted => b"aborted",
        ServerText::Unknown => b"unknown",
        ServerText::Spent => b"spent",
        ServerText::VersionLimit => b"version-limit",
        ServerText::Memory => b"memory",
    }
}

fn put_reply(out: &mut Vec<u8>, reply: &Reply) -> Result<(), Memory> {
    match reply {
        Reply::Values { items, tags } => {
            put(out, b"values")?;
            put_flag(out, *tags)?;
            for item in items.as_slice() {
                put_item(out, item)?;
            }
            Ok(())
        }
        Reply::Stored => put(out, b"stored"),
        Reply::Exists => put(out, b"exists"),
        Reply::NotFound => put(out, b"not-found"),
        Reply::NotStored => put(out, b"not-stored"),
        Reply::Deleted => put(out, b"deleted"),
        Reply::Number(number) => {
            put(out, b"number ")?;
            put_number(out, *number)
        }
        Reply::Error => put(out, b"error"),
        Reply::ClientError(text) => put(out, client_text(*text)),
        Reply::ServerError(text) => put(out, server_text(*text)),
        Reply::Version => put(out, b"version"),
    }
}

/// Tells which reply begins the bytes and how long it is, or why none does.
pub fn tell(alloc: Global, bytes: &[u8], out: &mut Vec<u8>) -> Result<(), Memory> {
    match read_reply(alloc, bytes) {
        Ok((reply, len)) => {
            put_number(out, len as u64)?;
            put(out, b" ")?;
            put_reply(out, &reply)
        }
        Err(ReplyFault::Need) => put(out, b"need"),
        Err(ReplyFault::Bad { at }) => {
            put(out, b"bad ")?;
            put_number(out, at as u64)
        }
        Err(ReplyFault::Memory) => Err(Memory),
    }
}
