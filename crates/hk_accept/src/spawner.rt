//! What starts jobs that end by themselves.

ghost use Rattle.std.specs.Prelude.{◌≡◌, Some};

use crate::notices::tell_refusal;
use hk_base::Memory;
use hk_outside::{Refusal, Spawner};
use std::io::Eprint;
use std::thread::{JoinHandle, Threads};

/// Starts a thread for each job, and keeps none: what a thread has is given back when its job ends. Whoever has to know that a job has ended learns it from
/// the job. That a job was refused is written on standard error, for the person who started the program.
#[derive(Drop)]
pub struct LooseSpawner<R: Threads + Eprint + Drop> {
    rt: R,
    pub taken: u64,
    pub faults: u64,
    // Whether the last job was refused.
    is_refusing: bool,
}

impl<R: Threads + Eprint + Drop> LooseSpawner<R> {
    pub fn new(rt: R) -> LooseSpawner<R>
        ensures taken { result.taken ≡ 0 }
        ensures faults { result.faults ≡ 0 }
    {
        LooseSpawner {
            rt,
            taken: 0,
            faults: 0,
            is_refusing: false,
        }
    }
}

impl<R: Threads + Eprint + Drop> Spawner for LooseSpawner<R> {
    ghost use Rattle.std.specs.Prelude.{Some};

    type Handle = R;

    ghost taken = { λ s. Some s.taken };

    ghost faults = { λ s. s.faults };

    fn make_room(&mut self) -> Result<(), Memory> {
        Ok(())
    }

    fn handle(&self) -> Option<&R> {
        Some(&self.rt)
    }

    fn took(&mut self, _thread: JoinHandle<()>) {
        self.taken = self.taken.saturating_add(1);
        self.is_refusing = false;
    }

    fn refused(&mut self, _refusal: Refusal) {
        self.faults = self.faults.saturating_add(1);
        // told once, since the next are refused for as long as the cause lasts
        if !self.is_refusing {
            tell_refusal(&self.rt);
        }
        self.is_refusing = true;
    }
}
