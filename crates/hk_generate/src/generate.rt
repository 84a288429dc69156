//! A run that is drawn from a number, and its summary.

ghost use Rattle.std.specs.Prelude.{◌≡◌, ◌≤◌, ◌+◌, ◌++◌, ℕ, take, IfOk, OnOk};
ghost use Rattle.std.specs.Io.KnownBytes.{Appends};
ghost use Rattle.hk_outside.specs.Causes.{Rose};
ghost use Rattle.hk_generate.specs.Generated.{Counts, Drawing as DrawingState, with_answer, with_replies, first_drawing, next_drawing, generated, drawing_text, request_text, calls_text, letters_text, summary, EndsGenerate};
ghost use Rattle.hk_safety.specs.Run.{AllLegal};

use hk_base::{Answer, Memory, Reply};
use hk_event::Header;
use hk_outside::{Sink, Status, write_all};
use hk_safety::{LiveRun, runs_are_legal};
use hk_script::{Generator, put_number, put_text};
use hk_world::WorldFault;
use std::alloc::Global;
use std::marker::Model;

/// How many replies were answers, Busy and Aborted.
#[derive(Clone, Copy, Debug, PartialEq, Eq)]
struct Replies {
    answered: u64,
    busy: u64,
    aborted: u64,
}

impl Model for Replies {
    ghost use Rattle.hk_generate.specs.Generated.{Counts};

    ghost Value = { Counts };

    ghost view = { λ r. record { answered = r.answered; busy = r.busy; aborted = r.aborted } };

    ghost inverse = { λ c. record { answered = c.answered; busy = c.busy; aborted = c.aborted } };
}

// One more; a number beyond 64 bits is want of memory.
fn one_more(count: u64) -> Result<u64, Memory>
    ensures { IfOk result (λ n. n ≡ count + 1) }
{
    match count.checked_add(1) {
        Some(count) => Ok(count),
        None => Err(Memory),
    }
}

impl Replies {
    // With one more.
    fn with(self, answer: &Answer) -> Result<Replies, Memory>
        ensures { IfOk result (λ r. r ≡ with_answer self answer.now) }
    {
        let Replies {
            answered,
            busy,
            aborted,
        } = self;
        match answer {
            Answer::Busy(_) => {
                let busy = one_more(busy)?;
                Ok(Replies {
                    answered,
                    busy,
                    aborted,
                })
            }
            Answer::Aborted(_) => {
                let aborted = one_more(aborted)?;
                Ok(Replies {
                    answered,
                    busy,
                    aborted,
                })
            }
            _ => {
                let answered = one_more(answered)?;
                Ok(Replies {
                    answered,
                    busy,
                    aborted,
                })
            }
        }
    }

    // With all of these.
    #[tactic(auto, unfolding(crate::specs::Generated::with_replies))]
    fn with_all(self, replies: &[Reply]) -> Result<Replies, Memory>
        ensures { IfOk result (λ r. r ≡ with_replies self replies.now) }
    {
        let mut counts = self;
        for reply in replies {
            counts = counts.with(&reply.answer)?;
        }
        Ok(counts)
    }
}

/// A run that is being drawn.
#[derive(Drop)]
struct Drawing {
    run: LiveRun,
    generator: Generator,
    replies: Replies,
}

impl Model for Drawing {
    ghost use Rattle.hk_generate.specs.Generated.{Drawing as DrawingState};

    ghost Value = { DrawingState };

    ghost view = { λ d. record { run = d.run; generator = d.generator; counts = d.replies } };
}

impl Drawing {
    // The run of a group of so many nodes before its first event.
    fn new(alloc: Global, start: u64, nodes: u8) -> Result<Drawing, Memory>
        requires some { 1 ≤ nodes }
        requires few { nodes ≤ 16 }
        ensures { IfOk result (λ d. d ≡ first_drawing start nodes) }
    {
        let header = Header {
            nodes,
            managers: 0,
            lease: 1_000_000_000_000,
            skew: 0,
        };
        let run = LiveRun::new(alloc, header)?;
        Ok(Drawing {
            run,
            generator: Generator::new(start, nodes),
            replies: Replies {
                answered: 0,
                busy: 0,
                aborted: 0,
            },
        })
    }

    // Makes the next event.
    fn step(&mut self, alloc: Global) -> Result<(), Memory>
        ensures { OnOk result (self.new ≡ next_drawing self.old) }
    {
        let letters = self.run.world()?.letters();
        let event = self.generator.next(alloc, letters)?;
        match self.run.push(alloc, &event) {
            Ok(shown) => {
                self.replies = self.replies.with_all(shown.replies.as_slice())?;
                Ok(())
            }
            Err(WorldFault::Refused(_)) => Ok(()),
            Err(WorldFault::Memory) => Err(Memory),
        }
    }
}

// The run of so many events.
fn draw(alloc: Global, start: u64, count: u32, nodes: u8) -> Result<Drawing, Memory>
    requires some { 1 ≤ nodes }
    requires few { nodes ≤ 16 }
    ensures { IfOk result (λ d. d ≡ generated start count nodes) }
{
    let mut drawing = Drawing::new(alloc, start, nodes)?;
    for _turn in 0..count {
        drawing.step(alloc)?;
    }
    Ok(drawing)
}

// What was asked for.
fn put_request(out: &mut Vec<u8>, start: u64, count: u32, nodes: u8) -> Result<(), Memory>
    ensures { OnOk result (out.new.items ≡ out.old.items ++ request_text start count nodes) }
{
    put_text(out, b"generated ")?;
    put_number(out, start)?;
    put_text(out, b" ")?;
    put_number(out, u64::from(count))?;
    put_text(out, b" ")?;
    put_number(out, u64::from(nodes))?;
    put_text(out, b"\n")
}

// The calls, by their replies.
#[tactic(auto, unfolding(crate::specs::Generated::calls_text))]
fn put_calls(out: &mut Vec<u8>, calls: u64, replies: Replies) -> Result<(), Memory>
    ensures { OnOk result (out.new.items ≡ out.old.items ++ calls_text calls replies) }
{
    let Replies {
        answered,
        busy,
        aborted,
    } = replies;
    let open = calls
        .saturating_sub(answered)
        .saturating_sub(busy)
        .saturating_sub(aborted);
    put_text(out, b"calls ")?;
    put_number(out, calls)?;
    put_text(out, b" answered ")?;
    put_number(out, answered)?;
    put_text(out, b" busy ")?;
    put_number(out, busy)?;
    put_text(out, b" aborted ")?;
    put_number(out, aborted)?;
    put_text(out, b" open ")?;
    put_number(out, open)?;
    put_text(out, b"\n")
}

fn put_letters(out: &mut Vec<u8>, letters: u64) -> Result<(), Memory>
    ensures { OnOk result (out.new.items ≡ out.old.items ++ letters_text letters) }
{
    put_text(out, b"letters ")?;
    put_number(out, letters)?;
    put_text(out, b" legal\n")
}

// What the run came to.
#[tactic(auto, unfolding(crate::specs::Generated::drawing_text))]
fn put_drawing(out: &mut Vec<u8>, drawing: &Drawing) -> Result<(), Memory>
    ensures { OnOk result (out.new.items ≡ out.old.items ++ drawing_text drawing.now) }
{
    let world = drawing.run.world()?;
    put_calls(out, world.calls(), drawing.replies)?;
    put_letters(out, world.letters())
}

// The summary of the run that is drawn so.
fn summarize(alloc: Global, start: u64, count: u32, nodes: u8) -> Result<Vec<u8>, Memory>
    requires some { 1 ≤ nodes }
    requires few { nodes ≤ 16 }
    ensures { IfOk result (λ text. text.items ≡ summary start count nodes) }
{
    let drawing = draw(alloc, start, count, nodes)?;
    let mut text = Vec::new(alloc);
    put_request(&mut text, start, count, nodes)?;
    put_drawing(&mut text, &drawing)?;
    Ok(text)
}

/// Makes the run of so many events of a group of so many nodes that is drawn from a number, and writes its summary: how many calls
/// there were, how many of them were answered, busy, aborted and are open, and how many letters were sent. It holds the run and its
/// world. The status is Done, Memory or WriteFault.
pub fn generate<K: Sink>(alloc: Global, start: u64, count: u32, nodes: u8, sink: &mut K) -> Status
    requires some { 1 ≤ nodes }
    requires few { nodes ≤ 16 }
    ensures done { result ≡ Status.Done → Appends (K.held sink.old) (K.held sink.new) (summary start count nodes) }

    // The order of each key of that run is legal.
    ensures legal { AllLegal (generated start count nodes).run }

    // Whatever the status, what was written is a front of the summary.
    ensures front { (n : ℕ) × Appends (K.held sink.old) (K.held sink.new) (take n (summary start count nodes)) }
    ensures write_fault { result ≡ Status.WriteFault → Rose (K.faults sink.old) (K.faults sink.new) }
    ensures later { K.faults sink.old ≤ K.faults sink.new }
    ensures statuses { EndsGenerate result }
{
    runs_are_legal();
    let Ok(text) = summarize(alloc, start, count, nodes) else {
        return Status::Memory;
    };
    match write_all(sink, text.as_slice()) {
        Ok(()) => Status::Done,
        Err(_) => Status::WriteFault,
    }
}
