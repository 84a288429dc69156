//! What reads the keys together.

ghost use Rattle.std.specs.Prelude.{◌≡◌, ◌+◌, ℕ, IfOk, OnOk};
ghost use Rattle.hk_joint_storm.specs.Keys.{storm_keys};
ghost use Rattle.hk_joint_storm.specs.Concluded.{AreFounds};
ghost use Rattle.hk_joint_storm.specs.Kept.{IsOfStorm};

use crate::gaps::JointFounds;
use hk_base::{Key, Memory};
use hk_joint_reads::{Joint, read_joint};
use hk_outside::Clock;
use hk_snap::{LeaseCell, SnapReader};
use std::alloc::Global;
use std::sync::Wait;
use std::thread;

/// A reader of a shard's cells and of its lease cell.
#[derive(Drop)]
pub(crate) struct JointReader {
    pub(crate) cells: SnapReader,
    pub(crate) lease: LeaseCell,
}

// Keeps what one more read found.
fn keep(joint: Joint, founds: &mut JointFounds) -> Result<(), Memory>
    requires { IsOfStorm joint }
    ensures { OnOk result ((reads : ℕ) → AreFounds reads founds.old → AreFounds (reads + 1) founds.new) }
{
    match joint {
        Joint::Found(found) => founds.push(found),
        _ => Ok(()),
    }
}

impl JointReader {
    // What one read of the keys is told.
    fn ask<C: Clock, R: Wait>(
        &mut self,
        rt: &R,
        alloc: Global,
        clock: &C,
        keys: &[Key],
    ) -> Result<Joint, Memory>
        requires { keys.now ≡ storm_keys }
        ensures { IfOk result (λ joint. IsOfStorm joint) }
    {
        read_joint(rt, alloc, &mut self.cells, &mut self.lease, clock, 0, keys)
    }

    /// Reads the keys together once, and keeps what it found.
    pub(crate) fn read<C: Clock, R: Wait>(
        &mut self,
        rt: &R,
        alloc: Global,
        clock: &C,
        keys: &[Key],
        founds: &mut JointFounds,
    ) -> Result<(), Memory>
        requires { keys.now ≡ storm_keys }
        ensures { OnOk result ((reads : ℕ) → AreFounds reads founds.old → AreFounds (reads + 1) founds.new) }
    {
        let joint = self.ask(rt, alloc, clock, keys)?;
        keep(joint, founds)
    }

    /// What so many reads of them found. It gives way after each read.
    pub(crate) fn read_often<C: Clock, R: Wait>(
        &mut self,
        rt: &R,
        alloc: Global,
        clock: &C,
        keys: &[Key],
        reads: u32,
    ) -> Result<JointFounds, Memory>
        requires { keys.now ≡ storm_keys }
        ensures { IfOk result (λ founds. AreFounds reads founds) }
    {
        let mut founds = JointFounds::new(alloc);
        for _read in 0..reads {
            self.read(rt, alloc, clock, keys, &mut founds)?;
            thread::yield_now();
        }
        Ok(founds)
    }
}
