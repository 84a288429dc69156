//! What starts jobs beside the present one.

ghost use Rattle.std.specs.Prelude.{◌≡◌, ◌≤◌, ℕ, Option, Some, None};
ghost use Rattle.hk_outside.specs.Causes.{HasCause, Rose};
ghost use Rattle.hk_outside.specs.Counts.{TakesJob, IsOneMore};

use crate::stream::Failed;
use hk_base::Memory;
use std::alloc::Global;
use std::marker::PhantomData;
use std::thread::{Builder, JoinHandle, Threads};

// The size of a thread's stack, in bytes. A job's deepest call takes a small part of it; what a thread of the system has by default, 8 MB of addresses, is what many
// connections would lack.
const STACK: usize = 256 * 1_024;

/// Work that is done once, in a thread of its own.
pub trait Job: Send + Drop + 'static {
    fn run(self);
}

/// Shows that a job could not be started. `Spawner::start` and `Spawner::start_made` alone make one, so that no other call can
/// raise a spawner's count of faults.
#[derive(Drop)]
pub struct Refusal {
    shown: (),
}

/// Starts jobs.
pub trait Spawner {
    /// What threads are started with.
    type Handle: Threads + Drop;

    /// How many jobs it took, where it tells that.
    ghost taken: { Self → Option ℕ };

    /// How often it failed.
    ghost faults: { Self → ℕ };

    /// Makes room to keep one more thread.
    fn make_room(&mut self) -> Result<(), Memory>
        ensures taken { taken self.new ≡ taken self.old }
        ensures faults { faults self.new ≡ faults self.old };

    /// What threads are started with, if any may be.
    fn handle(&self) -> Option<&Self::Handle>;

    /// Keeps a thread that was started.
    fn took(&mut self, thread: JoinHandle<()>)
        ensures one_more { IsOneMore (taken self.old) (taken self.new) }
        ensures faults { faults self.new ≡ faults self.old };

    /// Notes that a thread was refused.
    fn refused(&mut self, refusal: Refusal)
        ensures same { taken self.new ≡ taken self.old }
        ensures later { faults self.old ≤ faults self.new }
        ensures rose { Rose (faults self.old) (faults self.new) };

    /// Starts the job. One that is refused is dropped.
    final fn start<J: Job>(&mut self, job: J) -> Result<(), Failed>
        ensures taken { TakesJob (taken self.old) (taken self.new) result }
        ensures cause { HasCause (faults self.old) (faults self.new) result }
    {
        if self.make_room().is_err() {
            self.refused(Refusal { shown: () });
            return Err(Failed);
        }
        let Some(rt) = self.handle() else {
            self.refused(Refusal { shown: () });
            return Err(Failed);
        };
        match Builder::new()
            .stack_size(STACK)
            .spawn(rt, move || job.run())
        {
            Ok(thread) => {
                self.took(thread);
                Ok(())
            }
            Err(_) => {
                self.refused(Refusal { shown: () });
                Err(Failed)
            }
        }
    }

    /// Starts a job that was made. One for which there was no memory is refused as well.
    final fn start_made<J: Job>(&mut self, made: Result<J, Memory>) -> Result<(), Failed>
        ensures taken { TakesJob (taken self.old) (taken self.new) result }
        ensures cause { HasCause (faults self.old) (faults self.new) result }
    {
        let Ok(job) = made else {
            self.refused(Refusal { shown: () });
            return Err(Failed);
        };
        self.start(job)
    }
}

/// Refuses each job.
#[derive(Drop)]
pub struct NoSpawner<R: Threads + Drop> {
    pub faults: u64,
    of: PhantomData<R>,
}

impl<R: Threads + Drop> NoSpawner<R> {
    pub fn new() -> NoSpawner<R>
        ensures { result.faults ≡ 0 }
    {
        NoSpawner {
            faults: 0,
            of: PhantomData,
        }
    }
}

impl<R: Threads + Drop> Spawner for NoSpawner<R> {
    type Handle = R;

    ghost taken = { λ s. None };

    ghost faults = { λ s. s.faults };

    fn make_room(&mut self) -> Result<(), Memory> {
        Ok(())
    }

    fn handle(&self) -> Option<&R> {
        None
    }

    fn took(&mut self, _thread: JoinHandle<()>) {}

    fn refused(&mut self, _refusal: Refusal) {
        self.faults = self.faults.saturating_add(1);
    }
}

/// Starts a thread for each job.
#[derive(Drop)]
pub struct ThreadSpawner<R: Threads + Drop> {
    rt: R,
    threads: Vec<JoinHandle<()>>,
    pub taken: u64,
    pub faults: u64,
}

impl<R: Threads + Drop> ThreadSpawner<R> {
    pub fn new(rt: R, alloc: Global) -> ThreadSpawner<R>
        ensures taken { result.taken ≡ 0 }
        ensures faults { result.faults ≡ 0 }
    {
        ThreadSpawner {
            rt,
            threads: Vec::new(alloc),
            taken: 0,
            faults: 0,
        }
    }

    /// Waits until each job has ended.
    pub fn join_all(self) {
        let ThreadSpawner { rt, threads, .. } = self;
        for thread in threads {
            thread.join(&rt);
        }
    }
}

impl<R: Threads + Drop> Spawner for ThreadSpawner<R> {
    type Handle = R;

    ghost taken = { λ s. Some s.taken };

    ghost faults = { λ s. s.faults };

    fn make_room(&mut self) -> Result<(), Memory> {
        self.threads.reserve(1)?;
        Ok(())
    }

    fn handle(&self) -> Option<&R> {
        Some(&self.rt)
    }

    fn took(&mut self, thread: JoinHandle<()>) {
        let _ = self.threads.push(thread);
        self.taken = self.taken.saturating_add(1);
    }

    fn refused(&mut self, _refusal: Refusal) {
        self.faults = self.faults.saturating_add(1);
    }
}
