//! Answers what a client says, by a desk.

ghost use Rattle.std.specs.Prelude.{◌≡◌, ◌≤◌, ◌-◌, ◌++◌, OnOk, length};
ghost use Rattle.hk_conn.specs.Asking.{told};
ghost use Rattle.hk_conn.specs.Served.{refusal, reply_to, bad_end, update_text, found_text};
ghost use Rattle.hk_conn.specs.Answering.{Answers, KeyAnswers, KeysAnswer, Finds, plain_text};

use crate::hear::hear;
use crate::said::Said;
use hk_base::{Answer, Key, Memory, Op};
use hk_outside::{Desk, DeskReply};
use hk_reply::{ClientText, Reply, ServerText, print_reply, put_end, put_server_error, put_value};
use hk_request::{Request, RequestCause};

// The longest text of the values of one get: 64 MiB, with the end behind them.
const VALUES_ROOM: usize = 67_108_859;

/// Appends the reply to what asks no desk.
pub fn put_plain(out: &mut Vec<u8>, said: &Said) -> Result<(), Memory>
    ensures { OnOk result (out.new.items ≡ out.old.items ++ plain_text said.now) }
{
    match said {
        Said::Asked(Request::Version) => print_reply(&Reply::Version, out),
        Said::Asked(_) => Ok(()),
        Said::Refused(cause) => print_reply(&refusal(*cause), out),
        Said::BadEnd { noreply } => put_bad_end(out, *noreply),
        Said::LongLine => print_reply(&Reply::ClientError(ClientText::TooLong), out),
        Said::Left => Ok(()),
    }
}

fn refusal(cause: RequestCause) -> Reply
    ensures { result ≡ refusal cause }
{
    match cause {
        RequestCause::Memory => Reply::ServerError(ServerText::Memory),
        RequestCause::Unknown | RequestCause::WrongCount => Reply::Error,
        RequestCause::BadKey => Reply::ClientError(ClientText::BadKey),
        RequestCause::BadNumber { .. } => Reply::ClientError(ClientText::BadNumber),
        RequestCause::TooLarge { .. } => Reply::ServerError(ServerText::TooLarge),
        RequestCause::Expiry => Reply::ServerError(ServerText::Expiry),
    }
}

fn put_bad_end(out: &mut Vec<u8>, noreply: bool) -> Result<(), Memory>
    ensures { OnOk result (out.new.items ≡ out.old.items ++ bad_end noreply) }
{
    if noreply {
        return Ok(());
    }
    print_reply(&Reply::ClientError(ClientText::BadChunk), out)
}

/// Appends the reply to an update that was told this.
pub fn put_told(
    out: &mut Vec<u8>,
    heard: Result<DeskReply, Memory>,
    noreply: bool,
) -> Result<(), Memory>
    ensures { OnOk result (out.new.items ≡ out.old.items ++ update_text noreply (told heard)) }
{
    if noreply {
        return Ok(());
    }
    print_reply(&reply_to(heard), out)
}

fn reply_to(heard: Result<DeskReply, Memory>) -> Reply
    ensures { result ≡ reply_to (told heard) }
{
    match heard {
        Err(_) => Reply::ServerError(ServerText::Memory),
        Ok(DeskReply::Unknown { .. }) => Reply::ServerError(ServerText::Unknown),
        Ok(DeskReply::Spent { .. }) => Reply::ServerError(ServerText::Spent),
        Ok(DeskReply::Told(answer)) => match answer {
            Answer::Stored => Reply::Stored,
            Answer::NotStored => Reply::NotStored,
            Answer::Deleted => Reply::Deleted,
            Answer::Exists => Reply::Exists,
            Answer::Number(n) => Reply::Number(n),
            Answer::NotNumber => Reply::ClientError(ClientText::NotNumber),
            Answer::Busy(_) => Reply::ServerError(ServerText::Busy),
            Answer::Aborted(_) => Reply::ServerError(ServerText::Aborted),
            Answer::Exhausted(_) => Reply::ServerError(ServerText::VersionLimit),
            Answer::Found { .. } | Answer::Missing | Answer::NotFound => Reply::NotFound,
        },
    }
}

/// Appends the reply to a get.
pub fn put_values<D: Desk>(
    desk: &mut D,
    patience: u32,
    keys: &[Key],
    tags: bool,
    out: &mut Vec<u8>,
) -> Result<(), Memory>
    requires { 1 ≤ patience }
    ensures { Answers result (patience - 1) (D.asks desk.old) (D.asks desk.new) out.old.items out.new.items (Said.Asked (Request.Get keys.now tags)) }
{
    let start = out.len();
    match put_keys(desk, patience, keys, tags, out) {
        Ok(None) => put_end(out),
        Ok(Some(error)) => {
            out.truncate(start);
            put_server_error(out, error)
        }
        Err(memory) => Err(memory),
    }
}

// The values of the keys, or the error that the whole reply is.
fn put_keys<D: Desk>(
    desk: &mut D,
    patience: u32,
    keys: &[Key],
    tags: bool,
    out: &mut Vec<u8>,
) -> Result<Option<ServerText>, Memory>
    requires { 1 ≤ patience }
    ensures { KeysAnswer result (patience - 1) tags VALUES_ROOM (D.asks desk.old) (D.asks desk.new) out.old.items out.new.items keys.now }
{
    let start = out.len();
    for key in keys {
        let room = VALUES_ROOM - (out.len() - start);
        match put_key(desk, patience, key, tags, room, out) {
            Ok(None) => {}
            Ok(Some(error)) => return Ok(Some(error)),
            Err(memory) => return Err(memory),
        }
    }
    Ok(None)
}

fn put_key<D: Desk>(
    desk: &mut D,
    patience: u32,
    key: &Key,
    tags: bool,
    room: usize,
    out: &mut Vec<u8>,
) -> Result<Option<ServerText>, Memory>
    requires { 1 ≤ patience }
    ensures { KeyAnswers result (patience - 1) tags room (D.asks desk.old) (D.asks desk.new) out.old.items out.new.items key.now }
{
    let heard = hear(desk, key, &Op::Read, patience);
    put_found(out, key, tags, room, heard)
}

// What one key gives, or the error that the whole reply then is.
fn put_found(
    out: &mut Vec<u8>,
    key: &Key,
    tags: bool,
    room: usize,
    heard: Result<DeskReply, Memory>,
) -> Result<Option<ServerText>, Memory>
    ensures { Finds result out.old.items out.new.items (found_text tags key.now room (told heard)) }
{
    match heard {
        Err(_) => Ok(Some(ServerText::Memory)),
        Ok(DeskReply::Unknown { .. }) => Ok(None),
        Ok(DeskReply::Spent { .. }) => Ok(Some(ServerText::Spent)),
        Ok(DeskReply::Told(answer)) => match answer {
            Answer::Busy(_) => Ok(Some(ServerText::Busy)),
            Answer::Found { content, tag } => {
                let start = out.len();
                put_value(
                    out,
                    key.bytes(),
                    content.flags,
                    content.bytes.bytes(),
                    tag,
                    tags,
                )?;
                if out.len() - start > room {
                    return Ok(Some(ServerText::Memory));
                }
                Ok(None)
            }
            _ => Ok(None),
        },
    }
}
