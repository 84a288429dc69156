//! Random bytes.

ghost use Rattle.std.specs.Prelude.{◌≡◌, ◌≤◌, ◌<◌, ◌+◌, List, ℕ, Option, None, Some, length, drop, OnOk, OnErr, IfOk};
ghost use Rattle.std.specs.Io.KnownBytes.{Consumes};
ghost use Rattle.hk_outside.specs.Causes.{HasCause};

use hk_outside::Failed;
use std::random::RandomSource;

/// Gives bytes that nobody can guess.
pub trait Random {
    /// The bytes that it will give, where it tells them.
    ghost left: { Self → Option (List ℕ) };

    /// How often it failed.
    ghost faults: { Self → ℕ };

    /// Fills the room. After `Failed` what stands there is of no use.
    fn fill(&mut self, room: &mut [u8]) -> Result<(), Failed>
        ensures bytes { OnOk result (Consumes (left self.old) (left self.new) room.new) }
        ensures cause { HasCause (faults self.old) (faults self.new) result };

    /// So many random bytes.
    final fn drawn<const N: usize>(&mut self) -> Result<[u8; N], Failed>
        ensures bytes { IfOk result (λ bytes. Consumes (left self.old) (left self.new) bytes) }
        ensures cause { HasCause (faults self.old) (faults self.new) result }
    {
        let mut bytes = [0; N];
        self.fill(&mut bytes)?;
        Ok(bytes)
    }
}

/// The system's random bytes.
#[derive(Drop)]
pub struct SystemRandom<R: RandomSource + Drop> {
    rt: R,
    faults: u64,
}

impl<R: RandomSource + Drop> SystemRandom<R> {
    pub fn new(rt: R) -> SystemRandom<R> {
        SystemRandom { rt, faults: 0 }
    }
}

impl<R: RandomSource + Drop> Random for SystemRandom<R> {
    ghost left = { λ random. None };

    ghost faults = { λ random. random.faults };

    fn fill(&mut self, room: &mut [u8]) -> Result<(), Failed> {
        match self.rt.fill_bytes(room) {
            Ok(()) => Ok(()),
            Err(_) => {
                self.faults = self.faults.saturating_add(1);
                Err(Failed)
            }
        }
    }
}

/// Gives these bytes, one after the other, and fails where fewer are left than are asked for.
#[derive(Drop)]
pub struct FakeRandom {
    pub bytes: Vec<u8>,
    /// How many of them it has given.
    pub at: usize,
    pub faults: u64,
    ghost within: { at ≤ length bytes.items },
}

impl FakeRandom {
    pub fn new(bytes: Vec<u8>) -> FakeRandom
        ensures bytes { result.bytes ≡ bytes }
        ensures at { result.at ≡ 0 }
        ensures faults { result.faults ≡ 0 }
    {
        FakeRandom {
            bytes,
            at: 0,
            faults: 0,
        }
    }
}

impl Random for FakeRandom {
    ghost left = { λ random. Some (drop random.at random.bytes.items) };

    ghost faults = { λ random. random.faults };

    fn fill(&mut self, room: &mut [u8]) -> Result<(), Failed>
        ensures bytes { OnOk result (Consumes (Some (drop self.old.at self.old.bytes.items)) (Some (drop self.new.at self.new.bytes.items)) room.new) }
        ensures cause { HasCause self.old.faults self.new.faults result }
        ensures lack { OnErr result (length self.old.bytes.items < self.old.at + length room.old) }
    {
        let len = room.len();
        if self.bytes.len() - self.at < len {
            self.faults = self.faults.saturating_add(1);
            return Err(Failed);
        }
        let (_, left) = self.bytes.as_slice().split_at(self.at);
        let (bytes, _) = left.split_at(len);
        room.copy_from_slice(bytes);
        self.at += len;
        Ok(())
    }
}
