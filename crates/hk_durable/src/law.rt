//! The law of batches.

ghost use Rattle.hk_durable.specs.Laws.{BatchesAreBatches};
ghost use Rattle.hk_durable.specs.Replays.{ReplayIsReturn};

/// What a turn makes is to each shard a batch of steps of a manager that keeps a log: of `hk_return`, whose laws say what becomes of managers that stop and return.
pub fn turns_make_batches()
    ensures { BatchesAreBatches }
{}

/// Managers that took up the entries of their log, and noted the untils behind the last one, are those that return, of `hk_return`.
pub fn replay_is_return()
    ensures { ReplayIsReturn }
{}
