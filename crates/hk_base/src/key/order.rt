//! The order of keys: as their bytes are, from the first on.

ghost use Rattle.std.specs.Prelude.{◌≡◌, ◌+◌, ◌≤◌, refl, Some, length, drop};
ghost use Rattle.std.specs.Ordering.{nat_cmp};
ghost use Rattle.std.specs.Cmp.Lexicographic.{pointwise, slice_cmp, nat_list_eq_equiv, nat_list_cmp_total, texts_ties, texts_po};
ghost use Rattle.std.specs.Cmp.{partial_equiv_from_equiv};
ghost use Rattle.std.specs.Prelude.{nat_eq};
ghost use Rattle.hk_base.specs.KeyForm.{shown, IsKept, word_at};
ghost use Rattle.hk_base.specs.declared.key.TheConstants.{FRONT_LEN};

use super::{FRONT_LEN, Form, Key, SHORT_LEN};
use std::cmp::Ordering;

// The eight bytes from a place on as one number, the first of them the most significant.
fn word(bytes: &[u8], place: usize) -> u64
    requires { place + 8 ≤ length bytes.now }
    ensures { result ≡ word_at place bytes.now }
{
    u64::from_be_bytes([
        bytes[place],
        bytes[place + 1],
        bytes[place + 2],
        bytes[place + 3],
        bytes[place + 4],
        bytes[place + 5],
        bytes[place + 6],
        bytes[place + 7],
    ])
}

// The bytes behind those that each form of a key has in front.
fn behind_front(bytes: &[u8]) -> &[u8]
    ensures { result.now ≡ drop FRONT_LEN bytes.now }
{
    match bytes.get(FRONT_LEN..) {
        Some(rest) => rest,
        None => &[],
    }
}

// How two keys are ordered by what stands behind the front. It is apart from their comparison, so that this stays small.
#[inline(never)]
fn cmp_behind_front(bytes: &[u8], other_bytes: &[u8]) -> Ordering
    ensures { result ≡ slice_cmp nat_cmp (drop FRONT_LEN bytes.now) (drop FRONT_LEN other_bytes.now) }
{
    behind_front(bytes).cmp(behind_front(other_bytes))
}

impl Form {
    // The first eight bytes.
    fn first(&self) -> u64
        requires { IsKept self.now }
        ensures { result ≡ word_at 0 (shown self.now) }
    {
        match self {
            Form::Short { bytes, .. } => word(bytes, 0),
            Form::Long { front, .. } => word(front, 0),
        }
    }

    // The last eight of those that each form has in front, so the eighth byte again and the seven behind it.
    fn second(&self) -> u64
        requires { IsKept self.now }
        ensures { result ≡ word_at 7 (shown self.now) }
    {
        match self {
            Form::Short { bytes, .. } => word(bytes, FRONT_LEN - 8),
            Form::Long { front, .. } => word(front, FRONT_LEN - 8),
        }
    }
}

impl PartialEq for Key {
    ghost eq = { pointwise nat_eq };

    ghost laws = { partial_equiv_from_equiv nat_list_eq_equiv };

    fn eq(&self, other: &Key) -> bool {
        self.cmp(other).is_eq()
    }
}

impl Eq for Key {
    ghost laws = { nat_list_eq_equiv };
}

impl PartialOrd for Key {
    ghost partial_cmp = { λ x y. Some (slice_cmp nat_cmp x y) };

    ghost laws = { texts_po };

    fn partial_cmp(&self, other: &Key) -> Option<Ordering> {
        Some(self.cmp(other))
    }
}

impl Ord for Key {
    ghost cmp = { slice_cmp nat_cmp };

    ghost total = { nat_list_cmp_total };

    ghost matches_partial_cmp = { λ x y. refl };

    ghost matches_eq = { texts_ties };

    // The first words that differ decide. Each word begins with the last byte of the one before, which is the same in both
    // keys then. What they hold of short keys are all bytes, since no key has a byte 0.
    fn cmp(&self, other: &Key) -> Ordering {
        let (form, others) = (&self.form, &other.form);
        let (mine, theirs) = (form.first(), others.first());
        if mine != theirs {
            return mine.cmp(&theirs);
        }
        let (mine, theirs) = (form.second(), others.second());
        if mine != theirs {
            return mine.cmp(&theirs);
        }
        match (form, others) {
            (
                Form::Short { bytes, .. },
                Form::Short {
                    bytes: other_bytes,
                    ..
                },
            ) => { word(bytes, SHORT_LEN - 8).cmp(&word(other_bytes, SHORT_LEN - 8)) }
            _ => cmp_behind_front(self.bytes(), other.bytes()),
        }
    }
}
