//! Reading hellos.

ghost use Rattle.std.specs.Prelude.{◌≡◌, ◌≤◌, length};
ghost use Rattle.hk_hello.specs.Told.{told_length, IsBodyRead, IsHelloRead};

use crate::fault::HelloFault;
use crate::fields::signed;
use crate::hello::SignedHello;
use hk_fields::FieldFault;
use std::alloc::Global;

/// The least length of what follows the length of a hello, in bytes.
pub const MIN_LENGTH: usize = 81;

/// The greatest one.
pub const MAX_LENGTH: usize = 112;

fn told_length(bytes: &[u8]) -> usize
    requires { 2 ≤ length bytes.now }
    ensures { result ≡ told_length bytes.now }
{
    let (front, _) = bytes.split_at(2);
    u16::from_be_bytes([front[0], front[1]]) as usize
}

// The hello with just these fields and this proof.
fn read_body(alloc: Global, body: &[u8]) -> Result<SignedHello, FieldFault>
    ensures { IsBodyRead result body.now }
{
    let (signed, rest) = signed(alloc, body)?;
    if !rest.is_empty() {
        return Err(FieldFault::Malformed);
    }
    Ok(signed)
}

/// The hello that begins the bytes, and its length in bytes. Nothing but the length is looked at before all is there.
pub fn read_hello(alloc: Global, bytes: &[u8]) -> Result<(SignedHello, usize), HelloFault>
    ensures { IsHelloRead result bytes.now }
{
    if bytes.len() < 2 {
        return Err(HelloFault::NeedMore);
    }
    let len = told_length(bytes);
    if len < MIN_LENGTH {
        return Err(HelloFault::Malformed);
    }
    if MAX_LENGTH < len {
        return Err(HelloFault::Malformed);
    }
    if bytes.len() < 2 + len {
        return Err(HelloFault::NeedMore);
    }
    let (_, rest) = bytes.split_at(2);
    let (body, _) = rest.split_at(len);
    match read_body(alloc, body) {
        Ok(signed) => Ok((signed, 2 + len)),
        Err(FieldFault::Memory) => Err(HelloFault::Memory),
        Err(FieldFault::Malformed) => Err(HelloFault::Malformed),
    }
}
