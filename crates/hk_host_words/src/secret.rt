//! The secret of a group.

ghost use Rattle.std.specs.Prelude.{◌≡◌, ◌==◌, position};
ghost use Rattle.hk_host_words.specs.Secrets.{first_line, IsSecretRead};

use hk_base::Sequence;
use std::alloc::Global;
use thiserror::Error;

/// The least length of a secret, in bytes.
pub const MIN_SECRET_LEN: usize = 16;

/// The greatest length of a secret, in bytes.
pub const MAX_SECRET_LEN: usize = 128;

/// Why a file holds no secret.
#[derive(Clone, Copy, Debug, PartialEq, Eq, Error)]
pub enum SecretFault {
    /// An allocation was refused.
    #[error("no memory")]
    Memory,
    /// Its first line has fewer than 16 bytes.
    #[error("its first line is too short")]
    Short,
    /// Its first line has more than 128 bytes.
    #[error("its first line is too long")]
    Long,
}

// Where the first line ends, if anything stands behind it.
fn line_feed(bytes: &[u8]) -> Option<usize>
    ensures { result ≡ position (λ b. b == 10) bytes.now }
{
    bytes.iter().position(|byte| *byte == b'\n')
}

fn first_line(bytes: &[u8]) -> &[u8]
    ensures { result.now ≡ first_line bytes.now }
{
    match line_feed(bytes) {
        Some(at) => {
            let (line, _) = bytes.split_at(at);
            line
        }
        None => bytes,
    }
}

/// The secret that a file of these bytes holds: its first line, up to the first line feed, of 16 to 128 bytes.
pub fn read_secret(alloc: Global, bytes: &[u8]) -> Result<Sequence<u8>, SecretFault>
    ensures { IsSecretRead result bytes.now }
{
    let line = first_line(bytes);
    if line.len() < MIN_SECRET_LEN {
        return Err(SecretFault::Short);
    }
    if line.len() > MAX_SECRET_LEN {
        return Err(SecretFault::Long);
    }
    match line.to_vec(alloc) {
        Ok(secret) => Ok(Sequence::from_vec(secret)),
        Err(_) => Err(SecretFault::Memory),
    }
}
