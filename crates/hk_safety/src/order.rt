//! The order that is printed of a key.

ghost use Rattle.std.specs.Prelude.{◌≡◌, IfOk};
ghost use Rattle.hk_history.specs.Legal.{Legal};
ghost use Rattle.hk_safety.specs.Run.{printed, history};

use crate::run::Run;
use hk_base::{Key, Memory};
use hk_history::Entries;
use std::alloc::Global;

/// The order of the key: its complete updates by stamp, and each answered call that changed nothing behind the update that it found.
pub fn order_of(alloc: Global, run: &Run, key: &Key) -> Result<Entries, Memory>
    ensures exact { IfOk result (λ order. order ≡ printed run.now key.now) }
    ensures legal { Legal (history run.now key.now) (printed run.now key.now) }
{
    run.live().order(alloc, key)
}
