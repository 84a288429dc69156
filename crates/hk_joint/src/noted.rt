//! A run whose batches are noted as its events come.

ghost use Rattle.std.specs.Prelude.{◌≡◌, [], map, IfOk, IfSome, MatchOption};
ghost use Rattle.hk_joint.specs.Batch.{reading_in, noted};

use crate::batch::{Batches, Batching};
use crate::laws::batches_are_found;
use hk_base::Memory;
use hk_event::{Event, Header};
use hk_safety::LiveRun;
use hk_world::{Shown, WorldFault};
use std::alloc::Global;
use std::marker::Model;

/// A run whose events are not kept, with its batches where they are asked for. The first event that finds no memory for them ends that; the run goes on.
#[derive(Drop)]
pub struct NotedRun {
    run: LiveRun,
    batching: Option<Batching>,
}

impl Model for NotedRun {
    ghost use Rattle.std.specs.Prelude.{◌≡◌, IfSome};
    ghost use Rattle.hk_safety.specs.Run.{RunState};
    ghost use Rattle.hk_joint.specs.Batch.{noted_run};

    ghost Value = { RunState };

    ghost view = { λ r. r.run };

    ghost invariant = { λ r. IfSome r.batching (λ b. b ≡ noted_run r.run) };
}

// Notes what an event showed. None are noted any more where memory is wanting.
fn note_in(batching: &mut Option<Batching>, alloc: Global, event: &Event, shown: &Shown)
    ensures { IfSome batching.new (λ new. MatchOption batching.old ⊥ (λ old. new ≡ noted old (reading_in event.now shown.now.replies))) }
{
    let Some(open) = batching else {
        return;
    };
    if open.note(alloc, event, shown).is_err() {
        *batching = None;
    }
}

impl NotedRun {
    ghost use Rattle.hk_world.specs.Sound.{IsHeader, IsEvent};
    ghost use Rattle.hk_safety.specs.Push.{IsPushed};
    ghost use Rattle.hk_joint.specs.Batch.{batches, calls_of};

    /// The run of no event, which notes its batches if that is asked for.
    pub fn new(alloc: Global, header: Header, notes: bool) -> Result<NotedRun, Memory>
        requires { IsHeader header }
        ensures { IfOk result (λ run. run ≡ record { header = header; events = [] }) }
    {
        let run = LiveRun::new(alloc, header)?;
        let batching = if notes {
            Some(Batching::new(alloc))
        } else {
            None
        };
        Ok(NotedRun { run, batching })
    }

    /// The run alone.
    pub fn live(&self) -> &LiveRun
        ensures { result.now ≡ self.now }
    {
        &self.run
    }

    /// Makes an event, or tells why it is refused. After a refusal, and after want of memory, the run is as it was.
    pub fn push(&mut self, alloc: Global, event: &Event) -> Result<Shown, WorldFault>
        requires { IsEvent event.now }
        ensures { IsPushed result self.old self.new event.now }
    {
        match self.run.push(alloc, event) {
            Ok(shown) => {
                note_in(&mut self.batching, alloc, event, &shown);
                Ok(shown)
            }
            Err(fault) => Err(fault),
        }
    }

    /// Takes the calls of the batches of the events so far, where they were noted. None are noted behind that.
    pub fn take_batches(&mut self, alloc: Global) -> Result<Batches, Memory>
        ensures same { self.new ≡ self.old }
        ensures batches { IfOk result (λ calls. calls ≡ map calls_of (batches self.old)) }
    {
        batches_are_found();
        let Some(batching) = self.batching.take() else {
            return Err(Memory);
        };
        batching.finish(alloc)
    }
}
