//! What waits at a desk in memory.

ghost use Rattle.std.specs.Prelude.{◌≡◌, true, false};
ghost use Rattle.hk_outside.specs.Desk.{is_busy, suits};

use crate::desk::DeskReply;
use hk_base::Op;

/// An ask that waits at a [`crate::FakeDesk`], with what it will be told.
#[derive(Drop)]
pub struct FakeWait {
    pub(crate) op: Op,
    pub(crate) reply: DeskReply,
    ghost suited: { suits op reply ≡ true },
    ghost settled: { is_busy reply ≡ false },
}
