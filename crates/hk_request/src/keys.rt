//! The keys of a get.

ghost use Rattle.std.specs.Prelude.{◌≡◌, ◌∷◌, [], length, map};
ghost use Rattle.hk_request.specs.Fields.{Gives};
ghost use Rattle.hk_request.specs.Reading.{keys_of};

use crate::request::RequestCause;
use crate::words::read_key;
use hk_base::Key;
use std::alloc::Global;
use std::marker::Model;

// Where the keys stand: a list of one is in the value.
#[derive(Drop)]
enum Listed {
    One([Key; 1]),
    Many(Vec<Key>),
}

/// The keys of a get, in the order of its line. Most gets have one, which takes no memory. Contracts see the list.
#[derive(Drop)]
pub struct Keys {
    keys: Listed,
}

impl Model for Keys {
    ghost use Rattle.std.specs.Prelude.{List};
    ghost use Rattle.hk_base.specs.declared.key.Key.{Key};
    ghost use Rattle.hk_request.specs.Listed.{listed};

    ghost Value = { List Key };

    ghost view = { λ k. listed k.keys };
}

impl Keys {
    /// One key alone.
    pub fn one(key: Key) -> Keys
        ensures { result ≡ key ∷ [] }
    {
        Keys {
            keys: Listed::One([key]),
        }
    }

    /// The keys of a vector, which are moved and not copied.
    pub fn from_vec(keys: Vec<Key>) -> Keys
        ensures { result ≡ keys.items }
    {
        Keys {
            keys: Listed::Many(keys),
        }
    }

    pub fn len(&self) -> usize
        ensures { result ≡ length self.now }
    {
        self.as_slice().len()
    }

    pub fn as_slice(&self) -> &[Key]
        ensures { result.now ≡ self.now }
    {
        match &self.keys {
            Listed::One(keys) => keys,
            Listed::Many(keys) => keys.as_slice(),
        }
    }
}

// The keys that words are, or the first fault.
pub(crate) fn read_keys(alloc: Global, others: &[&[u8]]) -> Result<Keys, RequestCause>
    ensures { Gives result (keys_of (map (λ w. w.now) others.now)) }
{
    let Ok(mut keys) = Vec::with_capacity(alloc, others.len()) else {
        return Err(RequestCause::Memory);
    };
    for word in others {
        let key = read_key(alloc, word)?;
        if keys.push(key).is_err() {
            return Err(RequestCause::Memory);
        }
    }
    Ok(Keys::from_vec(keys))
}
