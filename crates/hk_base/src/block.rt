//! Few bytes in a place of a fixed length.

ghost use Rattle.std.specs.Prelude.{◌≡◌, ◌≤◌, length};

use crate::padded::padded;
use std::marker::Model;

/// At most `N` bytes, and `N` at most 255, in a place of one length. Contracts see the bytes.
// The length stands first, so that it and the bytes are found without `N`.
#[derive(Drop)]
pub struct Block<const N: usize> {
    len: u8,
    bytes: [u8; N],
}

impl<const N: usize> Model for Block<N> {
    ghost use Rattle.std.specs.Prelude.{◌≤◌, List, ℕ, length, take};

    ghost Value = { List ℕ };

    ghost view = { λ b. take b.len b.bytes };

    ghost invariant = { λ b. b.len ≤ length b.bytes };
}

impl<const N: usize> Block<N> {
    /// A copy of the bytes.
    pub fn new(bytes: &[u8]) -> Block<N>
        requires room { length bytes.now ≤ N }
        requires short { N ≤ 255 }
        ensures { result ≡ bytes.now }
    {
        Block {
            len: bytes.len() as u8,
            bytes: padded(bytes),
        }
    }

    /// The bytes.
    pub fn as_slice(&self) -> &[u8]
        ensures { result.now ≡ self.now }
    {
        &self.bytes[..self.len as usize]
    }
}
