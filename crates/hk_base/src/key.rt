//! The keys of the store.

ghost use Rattle.std.specs.Prelude.{◌≡◌, ◌≤◌, length, sum, position, IfOk};
ghost use Rattle.hk_base.specs.KeyBytes.{is_bad_byte};

use crate::memory::Memory;
use crate::padded::padded;
use std::alloc::Global;
use std::marker::Model;
use std::sync::ArcSlice;
use thiserror::Error;

mod order;

/// The greatest length of a key, in bytes.
pub const MAX_KEY_LEN: usize = 250;

/// Why bytes are no key: the first test that they fail.
#[derive(Clone, Copy, Debug, PartialEq, Eq, Error)]
pub enum KeyFault {
    /// An allocation was refused.
    #[error("no memory")]
    Memory,
    /// There is no byte.
    #[error("a key has no bytes")]
    Empty,
    /// There are more than 250 bytes, namely `len`.
    #[error("a key has {len} bytes, more than 250")]
    TooLong { len: usize },
    /// The byte at place `at`, counted from 0, is below `0x21` or is `0x7f`; it is the first such byte.
    #[error("a key has a byte at {at} that no key has")]
    BadByte { at: usize },
}

// The place of the first byte that no key has.
fn first_bad_byte(bytes: &[u8]) -> Option<usize>
    ensures { result ≡ position is_bad_byte bytes.now }
{
    bytes.iter().position(|byte| *byte < 0x21 || *byte == 0x7f)
}

// How many bytes a key has room for.
const SHORT_LEN: usize = 22;

// How many of them stand in a key that has more.
const FRONT_LEN: usize = 15;

// Where the bytes of a key stand: in the key itself, with zeros behind the last, or elsewhere, with the first of them in the
// key too. Both forms begin with those at the same place, so most keys are told apart with no test of the form.
#[derive(Drop)]
enum Form {
    Short {
        bytes: [u8; SHORT_LEN],
        len: u8,
    },
    Long {
        front: [u8; FRONT_LEN],
        bytes: ArcSlice<u8>,
    },
}

/// A key: 1 to 250 bytes, none below `0x21` and none `0x7f`, as memcached's `protocol.txt` has it.
/// Contracts see its bytes. Keys are ordered as their bytes are, from the first on.
#[derive(Drop)]
pub struct Key {
    form: Form,
}

impl Model for Key {
    ghost use Rattle.std.specs.Prelude.{List, ℕ};

    ghost Value = { List ℕ };

    ghost use Rattle.hk_base.specs.KeyForm.{shown, IsKept};

    ghost view = { λ k. shown k.form };

    ghost invariant = { λ k. IsKept k.form };
}

ghost use Rattle.hk_base.specs.KeyForm.{shown, in_key, IsFront, IsKept, HasRoom};

// The bytes in the form that their number asks for.
fn form_of(alloc: Global, bytes: &[u8]) -> Result<Form, Memory>
    ensures shown { IfOk result (λ form. shown form ≡ bytes.now) }
    ensures front { IfOk result (λ form. IsFront (in_key form) (shown form)) }
    ensures room { IfOk result (λ form. HasRoom form) }
{
    if bytes.len() <= SHORT_LEN {
        return Ok(Form::Short {
            bytes: padded(bytes),
            len: bytes.len() as u8,
        });
    }
    let front = padded(&bytes[..FRONT_LEN]);
    let bytes = ArcSlice::from_slice(alloc, bytes)?;
    Ok(Form::Long { front, bytes })
}

// The sum of bytes.
fn byte_sum(bytes: &[u8]) -> u64
    requires { length bytes.now ≤ 250 }
    ensures { result ≡ sum bytes.now }
{
    let mut sum = 0u64;
    for byte in bytes {
        sum += u64::from(*byte);
    }
    sum
}

impl Form {
    // The sum of the bytes. The zeros behind those of a short key add nothing: 22 places are always summed, and a loop of a
    // fixed length is unrolled.
    fn byte_sum(&self) -> u64
        requires { IsKept self.now }
        ensures { result ≡ sum (shown self.now) }
    {
        match self {
            Form::Short { bytes, .. } => byte_sum(bytes),
            Form::Long { bytes, .. } => byte_sum(bytes.as_slice()),
        }
    }
}

impl Key {
    ghost use Rattle.hk_base.specs.Key.{IsKey};
    ghost use Rattle.hk_base.specs.KeyFaults.{IsKeyRead};

    /// Makes a key of the bytes. They are tested in the order of the faults.
    pub fn read(alloc: Global, bytes: &[u8]) -> Result<Key, KeyFault>
        ensures exact { IsKeyRead result bytes.now }
    {
        if bytes.is_empty() {
            return Err(KeyFault::Empty);
        }
        if bytes.len() > MAX_KEY_LEN {
            return Err(KeyFault::TooLong { len: bytes.len() });
        }
        if let Some(at) = first_bad_byte(bytes) {
            return Err(KeyFault::BadByte { at });
        }
        match form_of(alloc, bytes) {
            Ok(form) => Ok(Key { form }),
            Err(_) => Err(KeyFault::Memory),
        }
    }

    /// The key's bytes.
    pub fn bytes(&self) -> &[u8]
        ensures same { result.now ≡ self.now }
        ensures key { IsKey self.now }
    {
        match &self.form {
            Form::Short { bytes, len } => &bytes[..*len as usize],
            Form::Long { bytes, .. } => bytes.as_slice(),
        }
    }

    /// The sum of the key's bytes, from which its shard and its cell come.
    pub fn byte_sum(&self) -> u64
        ensures { result ≡ sum self.now }
    {
        self.form.byte_sum()
    }

    /// The same key. A short one is copied, and a long one shares its bytes.
    pub fn share(&self) -> Result<Key, Memory>
        ensures { IfOk result (λ key. key ≡ self.now) }
    {
        let form = match &self.form {
            Form::Short { bytes, len } => Form::Short {
                bytes: *bytes,
                len: *len,
            },
            Form::Long { front, bytes } => Form::Long {
                front: *front,
                bytes: bytes.clone()?,
            },
        };
        Ok(Key { form })
    }
}

/// The same key, if there is one.
pub fn share_key(key: &Option<Key>) -> Result<Option<Key>, Memory>
    ensures { IfOk result (λ same. same ≡ key.now) }
{
    match key {
        Some(key) => {
            let same = key.share()?;
            Ok(Some(same))
        }
        None => Ok(None),
    }
}
