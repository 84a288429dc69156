//! The assembly over the merged list.

ghost use Rattle.std.specs.Prelude.{◌≡◌, [], List, None, map, IfOk, OnOk};
ghost use Rattle.std.specs.Ordering.{nat_cmp};
ghost use Rattle.std.specs.BTreeMap.{insert_entry};
ghost use Rattle.hk_event.specs.declared.event.Header.{Header};
ghost use Rattle.hk_world.specs.Sound.{IsHeader};
ghost use Rattle.hk_merge.specs.Merged.{Item, Step, LocalRead};
ghost use Rattle.hk_merge.specs.Placed.{item_of};
ghost use Rattle.hk_assemble.specs.Assembly.{kept_at};
ghost use Rattle.hk_assemble.specs.Assemblies.{IsOn, IsLookTaken, IsNext, IsFollowed};

use crate::gap::Gap;
use crate::laws::letters_stay_known;
use crate::sent::{SentLetters, note_letters};
use crate::stepping::{look, make_step, next_letter};
use crate::taking::event_of;
use hk_base::{Answer, Memory, NodeId};
use hk_event::Header;
use hk_journal::JournalEntry;
use hk_merge::{Note, Slot, reads_leave};
use hk_safety::Run;
use std::alloc::Global;
use std::collections::BTreeMap;

/// What notes' Reads were answered, by the notes' places in their list.
pub type Kept = BTreeMap<u64, Answer>;

/// The run so far, the letters that it sent, and what the Reads of notes were answered.
#[derive(Drop)]
pub struct Assembly {
    pub run: Run,
    pub sent: SentLetters,
    pub kept: Kept,
}

// Keeps what a note's Read was answered. No note comes twice.
fn keep(kept: &mut Kept, listed: u64, answer: Answer) -> Result<(), Memory>
    ensures absent { OnOk result (kept_at listed kept.old.entries ≡ None) }
    ensures kept { OnOk result (kept.new.entries ≡ insert_entry nat_cmp kept.old.entries listed answer) }
{
    if kept.contains_key(&listed) {
        return Err(Memory);
    }
    kept.insert(listed, answer)?;
    Ok(())
}

impl Assembly {
    fn new(alloc: Global, header: Header) -> Result<Assembly, Memory>
        requires { IsHeader header }
        ensures { IfOk result (λ c. IsOn header c []) }
    {
        let run = Run::new(alloc, header)?;
        Ok(Assembly {
            run,
            sent: BTreeMap::new(alloc),
            kept: BTreeMap::new(alloc),
        })
    }

    // Makes the step of an entry.
    fn step(
        &mut self,
        alloc: Global,
        slots: &[Slot<'_>],
        node: NodeId,
        entry: &JournalEntry,
    ) -> Result<(), Gap>
        ensures { (header : Header) (front : List Item) → IsOn header self.old front → IsNext result self.old self.new header (map item_of slots.now) front (Step node entry.now) }
    {
        letters_stay_known();
        let event = event_of(slots, &self.sent, node, entry)?;
        let first = next_letter(&self.run)?;
        make_step(&mut self.run, alloc, event, node, entry)?;
        note_letters(
            &mut self.sent,
            alloc,
            first,
            entry.ticket,
            entry.letters.as_slice(),
        )?;
        Ok(())
    }

    // Makes the Read of a note.
    fn look(&mut self, alloc: Global, listed: u64, note: &Note) -> Result<(), Memory>
        ensures { (header : Header) (front : List Item) → IsOn header self.old front → IsLookTaken result self.new header front (LocalRead listed note.now) }
    {
        reads_leave();
        let answer = look(&mut self.run, alloc, note.node, &note.key)?;
        keep(&mut self.kept, listed, answer)?;
        Ok(())
    }

    fn follow(&mut self, alloc: Global, slots: &[Slot<'_>], slot: &Slot<'_>) -> Result<(), Gap>
        ensures { (header : Header) (front : List Item) → IsOn header self.old front → IsNext result self.old self.new header (map item_of slots.now) front (item_of slot.now) }
    {
        match slot {
            Slot::Step { node, entry } => self.step(alloc, slots, *node, entry),
            Slot::LocalRead { listed, note } => {
                self.look(alloc, *listed, note)?;
                Ok(())
            }
        }
    }
}

/// Follows the whole list.
pub fn follow(alloc: Global, header: Header, slots: &[Slot<'_>]) -> Result<Assembly, Gap>
    requires { IsHeader header }
    ensures { IsFollowed result header (map item_of slots.now) }
{
    let mut assembly = Assembly::new(alloc, header)?;
    for slot in slots {
        assembly.follow(alloc, slots, slot)?;
    }
    Ok(assembly)
}
