//! The invariant of a replicated group, in three parts that can be read one by one, and that every run keeps all of it.
//!
//! Nothing runs here: the crate is definitions and laws about them. Each part is a record of facts about one key at a moment
//! of a run of a world, and each field says in plain words what it means.
//!
//! - *Moments*: a run, its moments, and how a letter was sent.
//! - *Facts*: who covered which stamp in which epoch, what is complete and what is settled. *Meaning* says of the first two what
//!   moments of the run they stand for.
//! - *UpdatePart*: rows, pending updates and the letters INV, ACK and VAL. *RmwPart*: read-modify-writes. *ViewPart*:
//!   epochs, leases and copies of rows.
//! - *Held*: that all parts hold of every key at every moment, and what it is to keep one.
//!
//! What is proved. Every run of a world keeps all parts (`runs_hold`), and to cover a stamp is what moments of the run
//! show (`marks_mean_moments`). That each kind of event keeps each part is a law of `hk_inv_fix`, `hk_inv_rmw` and
//! `hk_inv_view` (`keeps_call`, `keeps_take` and so on).
#![tactic(auto)]

ghost use Rattle.hk_parts.specs.Held.{RunsHold};
ghost use Rattle.hk_parts.specs.Meaning.{ExactMeans, CoversMean};

use hk_effects::runs_keep_parts;

/// In every run of a world all parts hold of every key, at every moment.
pub fn runs_hold()
    ensures { RunsHold }
{
    runs_keep_parts();
}

/// Who covered a stamp in an epoch, and who was exact for it, is just what moments of the run show.
pub fn marks_mean_moments()
    ensures exact { ExactMeans }
    ensures covers { CoversMean }
{
    runs_keep_parts();
}
