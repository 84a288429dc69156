//! Steps of the run, and what they show.

ghost use Rattle.std.specs.Prelude.{◌≡◌, ◌+◌, length, IfOk};
ghost use Rattle.hk_world.specs.Sound.{IsEvent};
ghost use Rattle.hk_safety.specs.Run.{world_of};
ghost use Rattle.hk_assemble.specs.Stepping.{IsCompared, IsStepMade, IsLooked};

use crate::gap::{Gap, Given};
use hk_base::{Answer, Key, Letters, Memory, NodeId, Op};
use hk_event::Event;
use hk_journal::JournalEntry;
use hk_merge::{same_letters, same_replies, sameness_is_equality};
use hk_node::{ReplyList, StepReplies};
use hk_safety::Run;
use hk_world::WorldFault;
use std::alloc::Global;

// Whether the step gave what the entry has, the numbers of the calls aside.
fn compare(
    letters: Letters,
    replies: StepReplies,
    node: NodeId,
    entry: &JournalEntry,
) -> Result<(), Gap>
    ensures { IsCompared result letters replies node entry.now }
{
    sameness_is_equality();
    if same_letters(letters.as_slice(), entry.letters.as_slice())
        && same_replies(replies.as_slice(), entry.replies.as_slice())
    {
        return Ok(());
    }
    Err(Gap::Entry {
        node,
        ticket: entry.ticket,
        given: Some(Given { letters, replies }),
    })
}

/// Makes the event of an entry, and compares what it shows. It is never refused, as nodes of such a run serve.
pub fn make_step(
    run: &mut Run,
    alloc: Global,
    event: Event,
    node: NodeId,
    entry: &JournalEntry,
) -> Result<(), Gap>
    requires { IsEvent event }
    ensures { IsStepMade result run.old run.new event node entry.now }
{
    match run.push(alloc, event) {
        Ok(shown) => compare(shown.letters, shown.replies, node, entry),
        Err(WorldFault::Refused(_)) => Err(Gap::Memory),
        Err(WorldFault::Memory) => Err(Gap::Memory),
    }
}

/// The number of the next letter.
pub fn next_letter(run: &Run) -> Result<u64, Memory>
    ensures { IfOk result (λ number. number ≡ length (world_of run.now).letters + 1) }
{
    let world = run.world()?;
    match world.letters().checked_add(1) {
        Some(number) => Ok(number),
        None => Err(Memory),
    }
}

/// Makes a Read, and tells what it is answered. It is never refused.
pub fn look(run: &mut Run, alloc: Global, node: NodeId, key: &Key) -> Result<Answer, Memory>
    ensures { IfOk result (λ answer. IsLooked answer run.old run.new node key.now) }
{
    let key = key.share()?;
    let event = Event::Call {
        node,
        key,
        op: Op::Read,
    };
    match run.push(alloc, event) {
        Ok(shown) => match shown.replies.into_list() {
            ReplyList::One(reply) => Ok(reply.answer),
            // A Read is answered once and alone, so neither comes.
            ReplyList::Nothing => Err(Memory),
            ReplyList::Many(_) => Err(Memory),
        },
        Err(WorldFault::Refused(_)) => Err(Memory),
        Err(WorldFault::Memory) => Err(Memory),
    }
}
