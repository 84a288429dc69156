//! What became of the calls of runs.

ghost use Rattle.std.specs.Prelude.{◌≡◌, ◌∷◌, ◌++◌, [], List, length, IfOk, OnOk};
ghost use Rattle.std.specs.Ordering.{nat_cmp};
ghost use Rattle.std.specs.BTreeMap.{is_at};
ghost use Rattle.std.specs.Map.{lookup};
ghost use Rattle.hk_base.specs.declared.call.Reply.{Reply};
ghost use Rattle.hk_world.specs.Sound.{IsEvent};
ghost use Rattle.hk_world.specs.Steps.{world_step};
ghost use Rattle.hk_safety.specs.Run.{IsRun, world_with};
ghost use Rattle.hk_storm.specs.Calls.{calls_of};
ghost use Rattle.hk_storm.specs.Concluded.{EachRun};
ghost use Rattle.hk_storm.specs.Outcomes.{outcome_of, with_outcome, with_calls, with_run, outcomes_of, shown_replies, replies_of, IsTold};

use crate::calls::put_calls;
use crate::tally::one_more;
use hk_base::{Answer, Memory, Reply};
use hk_event::Event;
use hk_safety::Run;
use hk_world::{World, WorldFault};
use std::alloc::Global;
use std::collections::BTreeMap;

/// What became of a call that was replied to.
#[derive(Clone, Copy)]
pub enum Outcome {
    Answered,
    Busy,
    Aborted,
}

/// How many calls were answered, busy and aborted, and how many have no reply.
#[derive(Clone, Copy)]
pub struct Outcomes {
    pub answered: u64,
    pub busy: u64,
    pub aborted: u64,
    pub unanswered: u64,
}

fn outcome_of(answer: &Answer) -> Outcome
    ensures { result ≡ outcome_of answer.now }
{
    match answer {
        Answer::Busy(_) => Outcome::Busy,
        Answer::Aborted(_) => Outcome::Aborted,
        _ => Outcome::Answered,
    }
}

// What became of calls, by their numbers.
type Kept = BTreeMap<u64, Outcome>;

// What became of the call of this number.
fn outcome_at(kept: &Kept, call: u64) -> Option<Outcome>
    ensures { result ≡ lookup (is_at (nat_cmp call)) kept.now.entries }
{
    kept.get(&call).copied()
}

// Only the first reply to a call is kept.
fn note(kept: &mut Kept, reply: &Reply) -> Result<(), Memory>
    ensures { (replies : List Reply) → IsTold kept.old.entries replies → OnOk result (IsTold kept.new.entries (replies ++ reply.now ∷ [])) }
{
    if kept.contains_key(&reply.call.0) {
        return Ok(());
    }
    kept.insert(reply.call.0, outcome_of(&reply.answer))?;
    Ok(())
}

fn note_all(kept: &mut Kept, replies: &[Reply]) -> Result<(), Memory>
    ensures { (before : List Reply) → IsTold kept.old.entries before → OnOk result (IsTold kept.new.entries (before ++ replies.now)) }
{
    for reply in replies {
        note(kept, reply)?;
    }
    Ok(())
}

// Makes an event of the run again.
fn remake(world: &mut World, alloc: Global, kept: &mut Kept, event: &Event) -> Result<(), Memory>
    requires { IsEvent event.now }
    ensures world { OnOk result (world.new ≡ world_with world.old (world_step world.old event.now)) }
    ensures kept { (before : List Reply) → IsTold kept.old.entries before → OnOk result (IsTold kept.new.entries (before ++ shown_replies (world_step world.old event.now))) }
{
    match world.step(alloc, event) {
        Ok(shown) => note_all(kept, shown.replies.as_slice()),
        Err(WorldFault::Refused(_)) => Ok(()),
        Err(WorldFault::Memory) => Err(Memory),
    }
}

// What became of the calls of the run, which is made again.
fn kept_of(alloc: Global, run: &Run) -> Result<Kept, Memory>
    requires { IsRun run.now }
    ensures { IfOk result (λ kept. IsTold kept.entries (replies_of run.now)) }
{
    let mut world = World::new(alloc, *run.header())?;
    let mut kept = BTreeMap::new(alloc);
    for before in 0..run.len() {
        let Some(event) = run.event(before + 1) else {
            return Err(Memory);
        };
        remake(&mut world, alloc, &mut kept, event)?;
    }
    Ok(kept)
}

// How many calls the run has.
fn count_calls(alloc: Global, run: &Run) -> Result<u64, Memory>
    ensures { IfOk result (λ n. n ≡ length (calls_of run.now)) }
{
    let mut calls = Vec::new(alloc);
    put_calls(&mut calls, run)?;
    Ok(calls.len() as u64)
}

impl Outcomes {
    // With one call more.
    fn with(self, outcome: Option<Outcome>) -> Result<Outcomes, Memory>
        ensures { IfOk result (λ o. o ≡ with_outcome self outcome) }
    {
        match outcome {
            None => Ok(Outcomes {
                unanswered: one_more(self.unanswered)?,
                ..self
            }),
            Some(Outcome::Answered) => Ok(Outcomes {
                answered: one_more(self.answered)?,
                ..self
            }),
            Some(Outcome::Busy) => Ok(Outcomes {
                busy: one_more(self.busy)?,
                ..self
            }),
            Some(Outcome::Aborted) => Ok(Outcomes {
                aborted: one_more(self.aborted)?,
                ..self
            }),
        }
    }

    // With so many calls, numbered from 1.
    fn with_calls(self, kept: &Kept, calls: u64) -> Result<Outcomes, Memory>
        ensures { (replies : List Reply) → IsTold kept.now.entries replies → IfOk result (λ o. o ≡ with_calls self replies 1 calls) }
    {
        let mut outcomes = self;
        for before in 0..calls {
            let next = outcomes.with(outcome_at(kept, before + 1))?;
            outcomes = next;
        }
        Ok(outcomes)
    }

    // With the calls of a run.
    fn with_run(self, alloc: Global, run: &Run) -> Result<Outcomes, Memory>
        requires { IsRun run.now }
        ensures { IfOk result (λ o. o ≡ with_run self run.now) }
    {
        let kept = kept_of(alloc, run)?;
        let calls = count_calls(alloc, run)?;
        self.with_calls(&kept, calls)
    }
}

/// The calls of all runs, by what became of them.
pub(crate) fn count_outcomes(alloc: Global, runs: &[Run]) -> Result<Outcomes, Memory>
    requires { EachRun runs.now }
    ensures { IfOk result (λ o. o ≡ outcomes_of runs.now) }
{
    let mut outcomes = Outcomes {
        answered: 0,
        busy: 0,
        aborted: 0,
        unanswered: 0,
    };
    for run in runs {
        outcomes = outcomes.with_run(alloc, run)?;
    }
    Ok(outcomes)
}
