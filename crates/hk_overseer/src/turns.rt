//! The loop over managers.

ghost use Rattle.std.specs.Prelude.{◌≡◌, ◌⊎◌, ◌<◌, ◌≤◌, true};
ghost use Rattle.hk_base.specs.declared.time.TheConstants.{MAX_TIME};
ghost use Rattle.hk_overseer.specs.Turns.{with_clocks, IsReceived, IsLetGo, IsTurn, AreTurns};

use crate::gate::Gate;
use crate::outlets::{ring_all, send_all};
use crate::post::{ManagerPost, step_at, tick_all};
use hk_base::MAX_TIME;
use hk_link::Parcel;
use hk_manager::steps_keep_managers;
use hk_outside::Clock;
use std::alloc::Global;
use std::sync::Wait;
use std::thread;

impl ManagerPost {
    // The clocks rise to a reading.
    fn tick(&mut self, alloc: Global, now: u64)
        requires { now ≤ MAX_TIME }
        ensures { self.new ≡ with_clocks now self.old }
    {
        steps_keep_managers();
        tick_all(&mut self.managers, alloc, now);
    }

    // The manager of the parcel's shard takes its letter.
    fn feed<R: Wait>(&mut self, rt: &R, alloc: Global, parcel: Parcel)
        ensures { IsReceived parcel.shard parcel.letter self.old self.new ⊎ IsLetGo self.old self.new }
    {
        let Parcel { shard, letter, .. } = parcel;
        let Ok(letters) = step_at(alloc, &mut self.managers, shard, &letter) else {
            return;
        };
        send_all(rt, &mut self.outlets, shard, letters);
        ring_all(rt, self.outlets.as_slice());
    }

    // One turn.
    fn turn<C: Clock, R: Wait>(&mut self, rt: &R, alloc: Global, clock: &C)
        ensures { IsTurn (C.reading clock.now) self.old self.new }
    {
        self.tick(alloc, clock.now().min(MAX_TIME));
        match self.inlet.take(rt) {
            Some(parcel) => self.feed(rt, alloc, parcel),
            None => thread::yield_now(),
        }
    }
}

/// Makes so many turns, and fewer only where `pass` answered false. It gives the turns made.
pub fn oversee<C: Clock, G: Gate, R: Wait>(
    rt: &R,
    alloc: Global,
    post: &mut ManagerPost,
    clock: &C,
    gate: &mut G,
    turns: u64,
) -> u64
    ensures made { AreTurns (C.reading clock.now) result post.old post.new }
    ensures most { result ≤ turns }
    ensures fewer { result < turns → G.closed gate.new ≡ true }
{
    for turn in 0..turns {
        if !gate.pass(turn) {
            return turn;
        }
        post.turn(rt, alloc, clock);
    }
    turns
}
