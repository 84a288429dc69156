//! Who waits for whom at a node, and until when.
//!
//! | Who waits | for what | looks | and goes on |
//! |---|---|---|---|
//! | an ask whose update other nodes have to acknowledge | what it is told | under the shard's lock, behind each answer to an ask of its post | behind 100,000 looks, and not before 2 s since it began ([`Waits`]), of which 0.2 are its own: its outcome is unknown then. The looks that are left then are made at once, a thousand under one lock |
//! | a desk that is to make a call | the key's row to be Valid | under the lock, behind each step of a worker at the shard | after 32 ms ([`Waits`]): the call is made then, and told Busy of the row |
//! | a read | the same | at the key's cell, with no lock, behind each step | after 32 ms: it is told Busy of the row then |
//! | a desk whose node's lease has run out (`hk_group`) | one that serves | at the lease's cell, behind each step at the key's shard | after two lengths of a lease, and not before 1 s; until there is one again it waits no more |
//! | a worker, a manager's loop | a ring of its bell (`hk_link`) | at its inlets | when it is rung |
//!
//! Whoever waits may wait for what it sent itself, so each wait of an ask rings for the post's letters first ([`wait_for`]), and a desk without a lease does too.
//!
//! All but the last look again also where nothing has changed for a millisecond, and once they waited for long, for ten: a wake-up that is lost costs that, and
//! no answer. A connection asks again what was told Busy, 64 times in all (`hk_conn`): so `busy` of a row comes after 2 s.
//!
//! A node may be given other times ([`crate::Founded::with_waits`]): these are those that it has where nobody gives it any.
//!
//! What got lost on its way is sent again for who waits: after 3 milliseconds, after 9, 27, and then at each 64th it has its key noted
//! ([`crate::Shards::want`]) and rings, and a worker sends what is open of that key, however many others are.
//!
//! Time is counted by the sleeps that no change ended, each of which lasts its milliseconds by the system's steady clock: so no clock has to be handed in, and
//! what was counted has passed. A thread that is woken again and again does not run out of looks before its time: behind 50,000 of them it sleeps where nobody
//! can wake it.

ghost use Rattle.std.specs.Prelude.{◌≡◌, ◌≤◌, ℕ, None, IfOk, OnErr};
ghost use Rattle.hk_locked.specs.Steps.{IsGrown, IsLeft, LooksOften, LooksOftenFor};
ghost use Rattle.hk_worker.specs.Opening.{FinishesAt};

use crate::changes::Changes;
use crate::shards::Shards;
use hk_base::{Actor, Answer, CallNo, Key, Memory};
use hk_callback::Completion;
use hk_link::Outlet;
use hk_locked::{LockedShard, Places, ShardReader};
use hk_outside::DeskReply;
use hk_overseer::ring_all;
use hk_told::AskState;
use std::sync::Wait;
use std::sync::atomic::AtomicU64;
use std::time::Duration;

/// After so many looks the outcome of an update is told as unknown.
pub const TURNS: u64 = 100_000;

// Once the patience is over, so many looks follow under one lock.
const BURST: u64 = 1_000;

// So long, in milliseconds, an ask waits for what it is told at least, before its outcome is unknown, where nobody said for how long.
const ANSWER: u64 = 2_000;

// So long, in milliseconds, each is waited for at least: the looks that are left behind that follow at once, a thousand under one lock.
const STILL: u64 = 200;

// So long, in milliseconds, whoever finds a row that is not Valid waits for it to become so, where nobody said for how long.
const SETTLE: u64 = 32;

// For so many milliseconds a look follows each; then it follows each ten.
const SOON: u64 = 32;

const LATE_SLEEP: u64 = 10;

// Behind so many milliseconds what got lost is sent again, then behind three times as many, but so many later at most.
const FIRST_RING: u64 = 3;

const BETWEEN_RINGS: u64 = 64;

// So many changes may end a sleep.
const WAKES: u64 = 50_000;

/// How long who asks at a node waits for other nodes, in milliseconds.
#[derive(Clone, Copy, Debug, PartialEq, Eq)]
pub struct Waits {
    /// For the key's row to be Valid. Then a call is made, or a read told Busy.
    pub settle: u64,
    /// For what an update that began is told. Then its outcome is unknown.
    pub answer: u64,
}

impl Waits {
    /// 32 ms for a row, and 2 s for an answer.
    pub fn usual() -> Waits {
        Waits {
            settle: SETTLE,
            answer: ANSWER,
        }
    }

    /// For a row, and for an answer, each once.
    pub(crate) fn for_row(self) -> Patience {
        Patience::new(self.settle)
    }

    pub(crate) fn for_answer(self) -> Patience {
        Patience::new(self.answer)
    }

    /// For the answer to an update that has waited for so many milliseconds while others were waited for.
    pub(crate) fn for_answer_behind(self, passed: u64) -> Patience {
        Patience::new(self.answer.saturating_sub(passed).max(STILL))
    }
}

/// How long someone goes on waiting.
#[derive(Drop)]
pub struct Patience {
    limit: u64,
    // So many milliseconds were slept.
    slept: u64,
    // So many waits ended by a change.
    woken: u64,
    next_ring: u64,
}

// Sleeps for so many milliseconds. Nobody wakes it.
fn sleep<R: Wait>(rt: &R, millis: u64) {
    let word = AtomicU64::new(0);
    word.park_timeout(rt, 0, Duration::from_millis(millis));
}

impl Patience {
    /// For so many milliseconds.
    pub fn new(limit: u64) -> Patience {
        Patience {
            limit,
            slept: 0,
            woken: 0,
            next_ring: FIRST_RING,
        }
    }

    /// So many milliseconds at least someone waited.
    pub(crate) fn slept(&self) -> u64 {
        self.slept
    }

    /// Whether so many milliseconds have passed.
    pub fn is_over(&self) -> bool {
        self.slept >= self.limit
    }

    // Whether a change ended a sleep of so many milliseconds.
    fn is_woken<R: Wait>(&self, rt: &R, changes: &Changes, seen: u64, millis: u64) -> bool {
        if self.woken < WAKES {
            return changes.wait(rt, seen, millis);
        }
        sleep(rt, millis);
        false
    }

    /// Waits between two looks: until there was a change since `seen`, for a few milliseconds at most. Once it is over it waits no more.
    pub fn wait<R: Wait>(&mut self, rt: &R, changes: &Changes, seen: u64) {
        if self.is_over() {
            return;
        }
        let millis = if self.slept < SOON { 1 } else { LATE_SLEEP };
        if self.is_woken(rt, changes, seen, millis) {
            self.woken = self.woken.saturating_add(1);
        } else {
            self.slept = self.slept.saturating_add(millis);
        }
    }

    /// Whether what is waited for is to be asked for again now. It is told once for each time.
    pub fn is_to_ask(&mut self) -> bool {
        if self.slept < self.next_ring {
            return false;
        }
        let later = self.slept.saturating_mul(2).min(BETWEEN_RINGS);
        self.next_ring = self.slept.saturating_add(later);
        true
    }
}

/// What is done between two looks at the row of a key. Whoever waits may wait for what it sent itself, so it rings for that first.
pub(crate) fn wait_for<F: Completion + Copy + Drop, P: Places, R: Wait>(
    rt: &R,
    shards: &Shards<F, P>,
    outlets: &[(Actor, Outlet)],
    key: &Key,
    changes: &Changes,
    seen: u64,
    patience: &mut Patience,
) {
    ring_all(rt, outlets);
    patience.wait(rt, changes, seen);
    if patience.is_to_ask() {
        shards.want(rt, key);
    }
}

// So many looks at the ask. Where no memory was found, nobody waits for what it is told.
fn look<F: Completion + Copy + Drop, P: Places>(
    held: &mut LockedShard<F, P>,
    reader: &mut ShardReader<P>,
    key: &Key,
    call: CallNo,
    ticket: u64,
    looks: u64,
) -> Result<AskState, Memory>
    requires { 1 ≤ looks }
    ensures looks { IfOk result (λ look. LooksOftenFor looks key.now ticket reader.old reader.new look) }
    ensures grown { IsGrown key.now reader.old reader.new }
    ensures left { OnErr result (IsLeft call held.new) }
{
    let Ok(look) = held.look_on(reader, key, call, ticket, looks) else {
        held.give_up(call);
        return Err(Memory);
    };
    Ok(look)
}

// So many looks, under the shard's lock.
fn turn<F: Completion + Copy + Drop, P: Places, R: Wait>(
    rt: &R,
    shards: &Shards<F, P>,
    reader: &mut ShardReader<P>,
    key: &Key,
    call: CallNo,
    ticket: u64,
    looks: u64,
) -> Result<AskState, Memory>
    requires { 1 ≤ looks }
    ensures looks { IfOk result (λ look. LooksOftenFor looks key.now ticket reader.old reader.new look) }
    ensures grown { IsGrown key.now reader.old reader.new }
{
    let mut held = shards.lock_of(reader.number()).lock(rt);
    look(&mut *held, reader, key, call, ticket, looks)
}

// How many of the looks that are left are made now.
fn looks_now(patience: &Patience, left: u64) -> u64
    requires { 1 ≤ left }
    ensures some { 1 ≤ result }
    ensures most { result ≤ left }
{
    if patience.is_over() {
        return BURST.min(left);
    }
    1
}

/// Looks until the ask of the call was told something, 100,000 times at most. Those that are left once its patience is over follow at once.
pub(crate) fn wait<F: Completion + Copy + Drop, P: Places, R: Wait>(
    rt: &R,
    shards: &Shards<F, P>,
    reader: &mut ShardReader<P>,
    outlets: &[(Actor, Outlet)],
    key: &Key,
    call: CallNo,
    ticket: u64,
    patience: &mut Patience,
) -> Result<Option<Answer>, Memory>
    ensures waits { IfOk result (λ told. (turns : ℕ) × (told ≡ None → turns ≡ 100000) × LooksOften turns key.now ticket reader.old reader.new told) }
    ensures grown { IsGrown key.now reader.old reader.new }
{
    let told = shards.told_to(call);
    let mut looked = 0;
    while looked < TURNS {
        let seen = told.seen();
        let looks = looks_now(patience, TURNS - looked);
        match turn(rt, shards, reader, key, call, ticket, looks)? {
            AskState::Told(answer) => return Ok(Some(answer)),
            AskState::Waits => wait_for(rt, shards, outlets, key, told, seen, patience),
            AskState::Gone => return Err(Memory),
        }
        looked += looks;
    }
    Ok(None)
}

/// Nobody waits any more for what the call is told.
pub(crate) fn give_up<F: Completion + Copy + Drop, P: Places, R: Wait>(
    rt: &R,
    shards: &Shards<F, P>,
    shard: u8,
    call: CallNo,
) {
    let mut held = shards.lock_of(shard).lock(rt);
    held.give_up(call);
}

/// Rings for what was sent, and looks until an update that waits was told, or the patience is over.
pub(crate) fn finish_ask<F: Completion + Copy + Drop, P: Places, R: Wait>(
    rt: &R,
    shards: &Shards<F, P>,
    reader: &mut ShardReader<P>,
    outlets: &[(Actor, Outlet)],
    key: &Key,
    call: CallNo,
    ticket: u64,
    patience: &mut Patience,
) -> Result<DeskReply, Memory>
    ensures finishes { IfOk result (λ reply. FinishesAt key.now ticket reader.old reader.new reply) }
    ensures grown { IsGrown key.now reader.old reader.new }
{
    ring_all(rt, outlets);
    let shard = reader.number();
    if let Some(answer) = wait(rt, shards, reader, outlets, key, call, ticket, patience)? {
        return Ok(DeskReply::Told(answer));
    }
    give_up(rt, shards, shard, call);
    Ok(DeskReply::Unknown { turns: TURNS })
}
