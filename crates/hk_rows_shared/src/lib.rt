//! What the tests of rows share.
#![tactic(auto)]

/// Lets go of a value. Where a value is dropped in place, all its parts are looked at there, and at each way out.
pub fn let_go<T: Drop>(_value: T) {}
