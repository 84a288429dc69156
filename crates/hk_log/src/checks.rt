//! Checks of records, and the limits of their length.

ghost use Rattle.std.specs.Prelude.{◌≡◌};
ghost use Rattle.hk_log.specs.Records.{check_of};

use sha2::{Digest, Sha256};

/// What a log begins with. It is the check before its first record too.
pub const HEADER: [u8; 8] = *b"hklog001";

/// The greatest length of a record's body, in bytes; the least is 1.
pub const MAX_BODY_LEN: usize = 1_048_576;

/// The check of a record. Who appends to a log keeps the last one.
#[derive(Clone, Copy, Debug, PartialEq, Eq)]
pub struct Check(pub [u8; 8]);

// The check of a body behind another check.
pub fn check_of(before: &[u8], body: &[u8]) -> Check
    ensures { result.0 ≡ check_of before.now body.now }
{
    let mut hasher = Sha256::new();
    hasher.update(before);
    hasher.update(body);
    let digest = hasher.finalize();
    match digest.split_first_chunk::<8>() {
        Some((check, _)) => Check(*check),
        None => unreachable!(),
    }
}
