//! Desks of the threads of a loop.

ghost use Rattle.std.specs.Prelude.{◌≡◌, ◌<◌, length};

use crate::event_loop::EventLoop;
use hk_hosts::PromptConnection;
use hk_outside::Desk;
use std::sync::Wait;

/// A desk that can be asked so often and no more.
pub trait WornDesk: Desk {
    /// Whether another one is to be made in its place: long before it can be asked no more.
    fn is_worn(&self) -> bool;
}

/// Makes a desk for each thread of a loop.
pub trait LoopDesks {
    /// What waits at its desks.
    type Waits: Send + Drop + 'static;

    /// Serves connections of the loop at a desk of this number, until that is worn. Where there is no memory for the desk it returns at once.
    fn serve_turns<R: Wait, N: PromptConnection + Drop>(
        &self,
        rt: &R,
        event_loop: &EventLoop<N, Self::Waits>,
        room: &mut [u8],
        number: u32,
    )
        requires { 0 < length room.old }
        ensures { length room.new ≡ length room.old };
}
