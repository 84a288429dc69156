//! What batches promise together.

ghost use Rattle.hk_copy.specs.Laws.{IsWhole, TakesFirst, GoesOnBehind};

/// Asked again behind the last row that it was given, a joiner is given all rows, once and in order: the rows of a batch
/// and those that it leaves are the whole, the first row always fits into a batch, so that a batch with room is empty only
/// where no row is left, and what a batch leaves is what is behind its last row.
pub fn batches_give_all()
    ensures whole { IsWhole }
    ensures first { TakesFirst }
    ensures behind { GoesOnBehind }
{}
