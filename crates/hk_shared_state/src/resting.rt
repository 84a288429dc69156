//! Waits.

use std::sync::Wait;
use std::thread::Parker;
use std::time::Duration;

/// Waits for so many milliseconds.
pub fn rest<R: Wait>(rt: &R, millis: u64) {
    Parker::new().park_timeout(rt, Duration::from_millis(millis));
}
