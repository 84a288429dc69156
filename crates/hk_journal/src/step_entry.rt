//! Entries of a journal, and copies of it, which share its keys and contents.

ghost use Rattle.std.specs.Prelude.{◌≡◌, IfOk};
ghost use Rattle.hk_journal.specs.Journal.{entry_of};

use hk_base::{Letter, Letters, Memory, Replies, Reply, Sequence};
use hk_node::{NodeEvent, NodeOut, StepReplies};
use std::alloc::Global;

/// One step of a node.
#[derive(Drop)]
pub struct JournalEntry {
    /// The number of the step. In one journal tickets rise.
    pub ticket: u64,
    /// What happened.
    pub event: NodeEvent,
    /// The letters that the step gave.
    pub letters: Letters,
    /// The replies that the step gave.
    pub replies: StepReplies,
}

/// The steps of one node, in their order.
pub type Journal = Sequence<JournalEntry>;

/// The entry of a step that gave this. Keys and contents are shared.
pub fn entry(
    alloc: Global,
    ticket: u64,
    event: NodeEvent,
    out: &NodeOut,
) -> Result<JournalEntry, Memory>
    ensures { IfOk result (λ entry. entry ≡ entry_of ticket event out.now) }
{
    let letters = share_letters(alloc, out.letters.as_slice())?;
    let replies = share_replies(alloc, &out.replies)?;
    Ok(JournalEntry {
        ticket,
        event,
        letters,
        replies,
    })
}

fn share_event(alloc: Global, event: &NodeEvent) -> Result<NodeEvent, Memory>
    ensures { IfOk result (λ same. same ≡ event.now) }
{
    match event {
        NodeEvent::Call { call, key, op } => {
            let key = key.share()?;
            let op = op.share()?;
            Ok(NodeEvent::Call {
                call: *call,
                key,
                op,
            })
        }
        NodeEvent::Receive(letter) => Ok(NodeEvent::Receive(letter.share(alloc)?)),
        NodeEvent::Resend(key) => Ok(NodeEvent::Resend(key.share()?)),
        NodeEvent::Replay(key) => Ok(NodeEvent::Replay(key.share()?)),
        NodeEvent::AskLease { manager } => Ok(NodeEvent::AskLease { manager: *manager }),
        NodeEvent::AskCopy { from, room } => Ok(NodeEvent::AskCopy {
            from: *from,
            room: *room,
        }),
        NodeEvent::Tick { now } => Ok(NodeEvent::Tick { now: *now }),
        NodeEvent::Grant { end } => Ok(NodeEvent::Grant { end: *end }),
        NodeEvent::Install(view) => Ok(NodeEvent::Install(view.copy(alloc)?)),
    }
}

fn share_letters(alloc: Global, letters: &[Letter]) -> Result<Letters, Memory>
    ensures { IfOk result (λ same. same ≡ letters.now) }
{
    let mut same = Vec::with_capacity(alloc, letters.len())?;
    for letter in letters {
        let letter = letter.share(alloc)?;
        same.push(letter)?;
    }
    Ok(Sequence::from_vec(same))
}

fn share_reply(reply: &Reply) -> Result<Reply, Memory>
    ensures { IfOk result (λ same. same ≡ reply.now) }
{
    let answer = reply.answer.share()?;
    Ok(Reply {
        call: reply.call,
        answer,
    })
}

fn share_several(alloc: Global, replies: &[Reply]) -> Result<Replies, Memory>
    ensures { IfOk result (λ same. same ≡ replies.now) }
{
    let mut same = Sequence::new(alloc);
    for reply in replies {
        same.push(share_reply(reply)?)?;
    }
    Ok(same)
}

fn share_replies(alloc: Global, replies: &StepReplies) -> Result<StepReplies, Memory>
    ensures { IfOk result (λ same. same ≡ replies.now) }
{
    match replies.as_slice() {
        [] => Ok(StepReplies::nothing()),
        [reply] => {
            let reply = share_reply(reply)?;
            Ok(StepReplies::one(reply))
        }
        several => {
            let several = share_several(alloc, several)?;
            Ok(StepReplies::many(several))
        }
    }
}

fn share_entry(alloc: Global, entry: &JournalEntry) -> Result<JournalEntry, Memory>
    ensures { IfOk result (λ same. same ≡ entry.now) }
{
    let event = share_event(alloc, &entry.event)?;
    let letters = share_letters(alloc, entry.letters.as_slice())?;
    let replies = share_replies(alloc, &entry.replies)?;
    Ok(JournalEntry {
        ticket: entry.ticket,
        event,
        letters,
        replies,
    })
}

/// A copy of a journal, which shares its keys and contents.
pub fn share_journal(alloc: Global, journal: &[JournalEntry]) -> Result<Journal, Memory>
    ensures { IfOk result (λ same. same ≡ journal.now) }
{
    let mut same = Sequence::new(alloc);
    for entry in journal {
        same.push(share_entry(alloc, entry)?)?;
    }
    Ok(same)
}
