//! Challenges.

ghost use Rattle.std.specs.Prelude.{◌≡◌, ◌++◌, ◌<◌, length, OnOk, Err};
ghost use Rattle.hk_hello.specs.Hellos.{challenge_bytes};
ghost use Rattle.hk_hello.specs.Told.{IsChallengeRead};

use crate::fault::HelloFault;
use hk_base::Memory;
use hk_fields::put;

/// How many bytes of a challenge are drawn.
pub const CHALLENGE_LEN: usize = 16;

// What stands before them.
pub const HEADER: [u8; 4] = *b"hk01";

/// What an acceptor asks a proof of: 16 bytes, drawn at random for one connection.
#[derive(Clone, Copy, Debug, PartialEq, Eq)]
pub struct Challenge(pub [u8; CHALLENGE_LEN]);

/// Puts a challenge behind other bytes. Where an allocation is refused, what stands there is of no use.
pub fn print_challenge(out: &mut Vec<u8>, challenge: Challenge) -> Result<(), Memory>
    ensures { OnOk result (out.new.items ≡ out.old.items ++ challenge_bytes challenge) }
{
    put(out, &HEADER)?;
    put(out, &challenge.0)
}

// What bytes that are no whole header come to.
fn short_header(bytes: &[u8]) -> HelloFault
    requires { length bytes.now < 4 }
    ensures { IsChallengeRead (Err result) bytes.now }
{
    if HEADER.starts_with(bytes) {
        HelloFault::NeedMore
    } else {
        HelloFault::Malformed
    }
}

/// The challenge that begins the bytes, and its length of 20 bytes.
pub fn read_challenge(bytes: &[u8]) -> Result<(Challenge, usize), HelloFault>
    ensures { IsChallengeRead result bytes.now }
{
    if bytes.len() < 4 {
        return Err(short_header(bytes));
    }
    let (header, rest) = bytes.split_at(4);
    if header != HEADER.as_slice() {
        return Err(HelloFault::Malformed);
    }
    match rest.split_first_chunk::<16>() {
        Some((drawn, _)) => Ok((Challenge(*drawn), 4 + CHALLENGE_LEN)),
        None => Err(HelloFault::NeedMore),
    }
}
