//! What comes to a manager's loop from other threads of its process.

ghost use Rattle.std.specs.Prelude.{◌≡◌, ◌≤◌, ◌++◌, ◌∷◌, [], length, OnOk, OnErr};
ghost use Rattle.std.specs.Option.{option_to_list};

use hk_base::Memory;
use hk_inside::{Inquiry, Response};
use hk_link::Bell;
use std::alloc::Global;
use std::collections::VecDeque;
use std::mem;
use std::sync::atomic::{AtomicU64, Ordering};
use std::sync::{Arc, Mutex, Wait};
use std::time::Duration;

// So many wait at most. What comes beside them is not answered.
const MOST_WAITING: usize = 1_024;

/// Where the answer to an inquiry is left for the thread that waits for it.
#[derive(Drop)]
pub struct Slot {
    response: Mutex<Option<Response>>,
    // 1 once it was left.
    left: AtomicU64,
}

impl Slot {
    /// Nothing was left yet.
    pub fn new() -> Slot {
        Slot {
            response: Mutex::new(None),
            left: AtomicU64::new(0),
        }
    }

    fn put<R: Wait>(&self, rt: &R, response: Response) {
        let mut guard = self.response.lock(rt);
        *guard = Some(response);
    }

    fn take<R: Wait>(&self, rt: &R) -> Option<Response> {
        let mut guard = self.response.lock(rt);
        mem::replace(&mut *guard, None)
    }

    /// Leaves the answer, and wakes who waits for it.
    pub fn leave<R: Wait>(&self, rt: &R, response: Response) {
        self.put(rt, response);
        self.left.store(1, Ordering::SeqCst);
        self.left.wake_all();
    }

    /// The answer, once it is left. It is none where that takes so many milliseconds, or the system wakes the thread for no
    /// reason.
    pub fn wait<R: Wait>(&self, rt: &R, millis: u64) -> Option<Response> {
        if self.left.load(Ordering::SeqCst) == 0 {
            self.left.park_timeout(rt, 0, Duration::from_millis(millis));
        }
        self.take(rt)
    }
}

/// What comes to a manager's loop.
#[derive(Drop)]
pub enum Coming {
    /// A process asks, and waits for the answer.
    Asked { inquiry: Inquiry, slot: Arc<Slot> },
    /// The manager of this place told its board.
    Told { place: u8 },
}

// What waits, in its order.
#[derive(Drop)]
struct Waiting {
    queue: VecDeque<Coming>,
    ghost few: { length queue.items ≤ 1024 },
}

impl Waiting {
    // Puts it behind the others, where fewer wait than may.
    fn push(&mut self, coming: Coming) -> Result<(), Memory>
        ensures ok { OnOk result (self.new.queue.items ≡ self.old.queue.items ++ coming ∷ []) }
        ensures err { OnErr result (self.new.queue.items ≡ self.old.queue.items) }
    {
        if self.queue.len() >= MOST_WAITING {
            return Err(Memory);
        }
        self.queue.push_back(coming)?;
        Ok(())
    }

    // Takes what has waited longest.
    fn pop(&mut self) -> Option<Coming>
        ensures { self.old.queue.items ≡ option_to_list result ++ self.new.queue.items }
    {
        self.queue.pop_front()
    }
}

/// What waits for a manager's loop, in its order: 1,024 at most.
#[derive(Drop)]
pub struct Mailbox {
    waiting: Mutex<Waiting>,
    /// Rung for each; letters to the manager ring it too.
    pub bell: Arc<Bell>,
}

impl Mailbox {
    /// Nothing waits.
    pub fn new(alloc: Global) -> Result<Mailbox, Memory> {
        let bell = Arc::new(alloc, Bell::new())?;
        let queue = VecDeque::new(alloc);
        Ok(Mailbox {
            waiting: Mutex::new(Waiting { queue }),
            bell,
        })
    }

    fn add<R: Wait>(&self, rt: &R, coming: Coming) -> Result<(), Memory> {
        let mut guard = self.waiting.lock(rt);
        let waiting = &mut *guard;
        waiting.push(coming)
    }

    /// Puts it behind the others, and rings. It is lost where so many wait as may, or there is no memory for it.
    pub fn put<R: Wait>(&self, rt: &R, coming: Coming) {
        if self.add(rt, coming).is_ok() {
            self.bell.ring(rt, 1);
        }
    }

    /// Takes what has waited longest.
    pub fn take<R: Wait>(&self, rt: &R) -> Option<Coming> {
        let mut guard = self.waiting.lock(rt);
        let waiting = &mut *guard;
        waiting.pop()
    }
}
