//! How far a script has come behind its header.

use crate::line::is_skipped;
use crate::shown::put_shown;
use crate::stop::Stop;
use hk_base::Memory;
use hk_event::{Event, Header, Refused};
use hk_joint::NotedRun;
use hk_script::{LineFault, read_event};
use hk_transcript::put_refused;
use hk_world::{Shown, WorldFault};
use std::alloc::Global;
use std::marker::Model;

/// How many letters a run may send.
pub const MAX_LETTERS: u64 = 4_000_000;

/// How far a script has come: the run of the events that were accepted, and how many event lines there were.
#[derive(Drop)]
pub(crate) struct DrillState {
    pub(crate) run: NotedRun,
    pub(crate) count: u64,
}

impl Model for DrillState {
    ghost use Rattle.hk_drill.specs.Transcript.{DrillState as DrillModel};

    ghost Value = { DrillModel };

    ghost view = { λ c. record { run = c.run; count = c.count } };
}

impl DrillState {
    ghost use Rattle.std.specs.Prelude.{◌≡◌, ◌+◌, ◌++◌, ◌≤◌, ◌<◌, ◌^◌, Some, None, IfOk, OnOk};
    ghost use Rattle.hk_world.specs.Sound.{IsHeader, IsEvent};
    ghost use Rattle.hk_transcript.specs.Text.{refused_text};
    ghost use Rattle.hk_drill.specs.Transcript.{first_state, event_at, read_at};
    ghost use Rattle.hk_drill.specs.Taken.{IsTaken, state_shown};

    /// The state before the first line behind this header. If it is `batched`, the batches of its run are noted.
    pub(crate) fn new(alloc: Global, header: Header, batched: bool) -> Result<DrillState, Memory>
        requires { IsHeader header }
        ensures { IfOk result (λ state. state ≡ first_state header) }
    {
        let run = NotedRun::new(alloc, header, batched)?;
        Ok(DrillState { run, count: 0 })
    }

    // Tells an event that the run has made, unless it sent a letter too many.
    fn show(&mut self, shown: &Shown, text: &mut Vec<u8>) -> Result<Option<Stop>, Memory>
        requires { self.old.count + 1 < 2 ^ 64 }
        ensures { IfOk result (λ stop. IsTaken stop self.new text.old.items text.new.items (state_shown self.old shown.now)) }
    {
        if self.run.live().world()?.letters() > MAX_LETTERS {
            return Ok(Some(Stop::Letters));
        }
        self.count += 1;
        put_shown(text, self.count, shown)?;
        Ok(None)
    }

    // Tells an event that the world refused.
    fn refuse(&mut self, refused: Refused, text: &mut Vec<u8>) -> Result<(), Memory>
        requires { self.old.count + 1 < 2 ^ 64 }
        ensures state { OnOk result (self.new ≡ record self.old { count = self.old.count + 1 }) }
        ensures text { OnOk result (text.new.items ≡ text.old.items ++ refused_text (self.old.count + 1) refused) }
    {
        self.count += 1;
        put_refused(text, self.count, refused)
    }

    // Makes an event, and tells it.
    fn make(
        &mut self,
        alloc: Global,
        event: Event,
        text: &mut Vec<u8>,
    ) -> Result<Option<Stop>, Memory>
        requires event { IsEvent event }
        requires room { self.old.count + 1 < 2 ^ 64 }
        ensures { IfOk result (λ stop. IsTaken stop self.new text.old.items text.new.items (event_at self.old (Some event))) }
    {
        let event = self.run.live().shared(event)?;
        match self.run.push(alloc, &event) {
            Ok(shown) => self.show(&shown, text),
            Err(WorldFault::Refused(refused)) => {
                self.refuse(refused, text)?;
                Ok(None)
            }
            Err(WorldFault::Memory) => Err(Memory),
        }
    }

    /// Takes a line that is within the limits and puts what it tells behind the text, or tells why the script stops there.
    pub(crate) fn take_line(
        &mut self,
        alloc: Global,
        line: &[u8],
        text: &mut Vec<u8>,
    ) -> Result<Option<Stop>, Memory>
        requires { self.old.count + 1 < 2 ^ 64 }
        ensures { IfOk result (λ stop. IsTaken stop self.new text.old.items text.new.items (read_at self.old None line.now)) }
    {
        if is_skipped(line) {
            return Ok(None);
        }
        match read_event(alloc, line) {
            Ok(event) => self.make(alloc, event, text),
            Err(LineFault::Bad) => Ok(Some(Stop::Bad)),
            Err(LineFault::Memory) => Err(Memory),
        }
    }
}
