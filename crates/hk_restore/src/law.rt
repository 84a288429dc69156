//! The law of managers that were restored.

ghost use Rattle.hk_restore.specs.Laws.{RestoredManagersReturn};

/// What a log gives are the managers that return, of `hk_return`, by the steps that it tells behind the last founding.
pub fn restored_managers_return()
    ensures { RestoredManagersReturn }
{}
