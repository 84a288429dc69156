//! The first texts of replies.

ghost use Rattle.std.specs.Prelude.{◌≡◌, length};
ghost use Rattle.std.specs.Prelude.{◌+◌};
ghost use Rattle.hk_reply.specs.Scans.{Gives};
ghost use Rattle.hk_reply.specs.Texts.{client_text, server_text};
ghost use Rattle.hk_reply.specs.Openings.{opening_text, opening_at, opening_in};

use crate::reply::{ClientText, ServerText};
use crate::scan::{Stop, literal};

/// What a reply begins with, if it is no number: its whole text, or the word before a value.
#[derive(Clone, Copy, Debug, PartialEq, Eq)]
pub enum Opening {
    Value,
    End,
    Stored,
    Exists,
    NotFound,
    NotStored,
    Deleted,
    Error,
    Version,
    Client(ClientText),
    Server(ServerText),
}

const OPENINGS: [Opening; 22] = [
    Opening::Value,
    Opening::End,
    Opening::Stored,
    Opening::Exists,
    Opening::NotFound,
    Opening::NotStored,
    Opening::Deleted,
    Opening::Error,
    Opening::Version,
    Opening::Client(ClientText::BadKey),
    Opening::Client(ClientText::BadNumber),
    Opening::Client(ClientText::BadChunk),
    Opening::Client(ClientText::NotNumber),
    Opening::Client(ClientText::TooLong),
    Opening::Server(ServerText::TooLarge),
    Opening::Server(ServerText::Expiry),
    Opening::Server(ServerText::Busy),
    Opening::Server(ServerText::Aborted),
    Opening::Server(ServerText::Unknown),
    Opening::Server(ServerText::Spent),
    Opening::Server(ServerText::VersionLimit),
    Opening::Server(ServerText::Memory),
];

pub fn client_text(text: ClientText) -> &'static [u8]
    ensures { result.now ≡ client_text text }
{
    match text {
        ClientText::BadKey => b"CLIENT_ERROR bad key\r\n",
        ClientText::BadNumber => b"CLIENT_ERROR bad number\r\n",
        ClientText::BadChunk => b"CLIENT_ERROR bad data chunk\r\n",
        ClientText::NotNumber => b"CLIENT_ERROR not a number\r\n",
        ClientText::TooLong => b"CLIENT_ERROR line too long\r\n",
    }
}

pub fn server_text(text: ServerText) -> &'static [u8]
    ensures { result.now ≡ server_text text }
{
    match text {
        ServerText::TooLarge => b"SERVER_ERROR object too large\r\n",
        ServerText::Expiry => b"SERVER_ERROR expiry not kept\r\n",
        ServerText::Busy => b"SERVER_ERROR busy\r\n",
        ServerText::Aborted => b"SERVER_ERROR aborted\r\n",
        ServerText::Unknown => b"SERVER_ERROR outcome unknown\r\n",
        ServerText::Spent => b"SERVER_ERROR calls spent\r\n",
        ServerText::VersionLimit => b"SERVER_ERROR version limit\r\n",
        ServerText::Memory => b"SERVER_ERROR out of memory\r\n",
    }
}

fn opening_text(opening: Opening) -> &'static [u8]
    ensures { result.now ≡ opening_text opening }
{
    match opening {
        Opening::Value => b"VALUE ",
        Opening::End => b"END\r\n",
        Opening::Stored => b"STORED\r\n",
        Opening::Exists => b"EXISTS\r\n",
        Opening::NotFound => b"NOT_FOUND\r\n",
        Opening::NotStored => b"NOT_STORED\r\n",
        Opening::Deleted => b"DELETED\r\n",
        Opening::Error => b"ERROR\r\n",
        Opening::Version => b"VERSION hermes-1\r\n",
        Opening::Client(text) => client_text(text),
        Opening::Server(text) => server_text(text),
    }
}

// Reads the text that the bytes begin with. Where there is none, the bad byte is the first that differs from the text
// that they follow longest.
#[tactic(auto, unfolding(crate::specs::Openings::opening_at))]
pub fn read_opening(bytes: &[u8]) -> Result<(Opening, &[u8]), Stop>
    ensures { Gives (λ x. (x.0, x.1.now)) result (opening_at bytes.now) }
{
    opening_in(&OPENINGS, bytes)
}

fn opening_in<'a>(openings: &[Opening], bytes: &'a [u8]) -> Result<(Opening, &'a [u8]), Stop>
    ensures { Gives (λ x. (x.0, x.1.now)) result (opening_in openings.now (length bytes.now + 1) bytes.now) }
{
    let mut least = bytes.len() + 1;
    for opening in openings {
        match literal(opening_text(*opening), bytes) {
            Ok((_, rest)) => return Ok((*opening, rest)),
            Err(Stop::Bad { left }) => {
                if left < least {
                    least = left;
                }
            }
            Err(stop) => return Err(stop),
        }
    }
    Err(Stop::Bad { left: least })
}
