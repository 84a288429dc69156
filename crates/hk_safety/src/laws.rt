//! What holds of every run.

ghost use Rattle.hk_safety.specs.Run.{RunsAreLegal};
ghost use Rattle.hk_safety.specs.Shows.{HistoriesAreHistories};

use hk_effects::{orders_are_legal, runs_keep_parts};

/// After every run the printed order of each key is legal for the key's history.
pub fn runs_are_legal()
    ensures { RunsAreLegal }
{
    orders_are_legal();
}

/// After every run the history of each key is one, and is just the calls and replies that the events show, in their order.
pub fn histories_are_histories()
    ensures { HistoriesAreHistories }
{
    runs_keep_parts();
}
