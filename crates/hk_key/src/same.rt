//! Whether a step changed a row.

ghost use Rattle.std.specs.Prelude.{◌≡◌};
ghost use Rattle.hk_key.specs.Same.{is_same_state, is_same_stamp, is_same_wait, is_same_row};
ghost use Rattle.std.specs.Option.{option_eq};

use crate::boxed::BoxedPending;
use crate::row::Row;
use hk_base::{Stamp, State};

fn is_same_state(a: State, b: State) -> bool
    ensures { result ≡ is_same_state a b }
{
    a == b
}

fn is_same_stamp(a: Stamp, b: Stamp) -> bool
    ensures { result ≡ is_same_stamp a b }
{
    a == b
}

fn is_same_pending(a: &Option<BoxedPending>, b: &Option<BoxedPending>) -> bool
    ensures { result ≡ option_eq is_same_wait a.now b.now }
{
    match (a, b) {
        (Some(a), Some(b)) => a.get().acks.is_same(&b.get().acks),
        (None, None) => true,
        (Some(_), None) | (None, Some(_)) => false,
    }
}

impl Row {
    /// Whether the other row has the same state, stamp and kept VAL, and a pending update with the same notes where this
    /// one has a pending update. Where the other is what a step made of this row, the two are equal in just this case,
    /// though no content is read: [`crate::same_rows_are_unchanged`].
    pub fn is_same(&self, other: &Row) -> bool
        ensures { result ≡ is_same_row self.now other.now }
    {
        is_same_state(self.state, other.state)
            && is_same_stamp(self.stamp, other.stamp)
            && self.kept_val == other.kept_val
            && is_same_pending(&self.pending, &other.pending)
    }
}
