//! What a reader keeps of its last load.

ghost use Rattle.std.specs.Prelude.{◌≡◌, ◌≤◌, ◌++◌, length, take, drop, min, slice_index, None, IfOk};
ghost use Rattle.std.specs.List.{AllByRecursion};
ghost use mathlib.Core.List.{IsPrefix};
ghost use Rattle.crossbeam_utils.specs.Seq.{cell_view};
ghost use Rattle.hk_snap.specs.Snapshots.{last_shown, glance_of, shown_content};
ghost use Rattle.hk_snap.specs.Locals.{local_of};
ghost use Rattle.hk_snap.specs.Layout.{words_at, shown_in, AreWords};
ghost use Rattle.hk_snap.specs.Rule.{IsInRange};

use crate::local::{Local, local_of};
use crate::rule::{CELL_WORDS, CellPass, Words};
use crate::snapshot::{Glance, Snapshot};
use crate::words::{FRONT_WORDS, HEAD, glance, shown, shown_content};
use hk_base::{Content, Key, Memory};
use std::alloc::Global;
use std::marker::Model;

/// The words in use that the last load found: always those of the head and the key, and those of the data where there was memory for them. It takes as much
/// memory as the widest row needed that it kept. Contracts see what the words show; where those of the data are wanting, whoever asks for it is told Memory.
#[derive(Drop)]
pub(crate) struct Room {
    words: Vec<u64>,
    // A pass that has seen what the last load has, if there was one. It has no bytes of its own.
    last: Option<CellPass>,
}

impl Model for Room {
    ghost use Rattle.std.specs.Prelude.{Option};
    ghost use Rattle.hk_snap.specs.declared.snapshot.Snapshot.{Snapshot};
    ghost use Rattle.hk_snap.specs.Layout.{Keeps};
    ghost use Rattle.hk_snap.specs.Ends.{shown_by};

    ghost Value = { Option Snapshot };

    ghost view = { λ r. shown_by r.last };

    ghost invariant = { λ r. Keeps r.words.items (shown_by r.last) };
}

// Makes the words as many as these, where there is memory for that.
fn widen(words: &mut Vec<u64>, count: usize)
    ensures { length words.old.items ≤ length words.new.items }
{
    if count <= words.len() {
        return;
    }
    let _is_wide = words.resize(count, 0).is_ok();
}

// Puts the first so many words in place of those that are there, as far as they have place.
fn put_front(words: &mut [u64], new: &Words, count: usize)
    requires { count ≤ 166 }
    ensures { words.new ≡ take (min count (length words.old)) new.now ++ drop (min count (length words.old)) words.old }
{
    let fits = count.min(words.len());
    words[..fits].copy_from_slice(&new[..fits]);
}

impl Room {
    /// A room in which nothing was loaded.
    pub(crate) fn new(alloc: Global) -> Result<Room, Memory>
        ensures { IfOk result (λ room. room ≡ None) }
    {
        let mut front = [0; FRONT_WORDS];
        front[0] = HEAD as u64;
        let words = Vec::from_array(alloc, front)?;
        Ok(Room { words, last: None })
    }

    /// Keeps the words in use of a load, by a pass that has seen what it has seen.
    pub(crate) fn keep(&mut self, words: &Words, last: CellPass)
        requires shown { IsPrefix (words_at (last_shown (cell_view last).seen)) words.now }
        requires range { AllByRecursion IsInRange (cell_view last).seen }
        ensures { self.new ≡ last_shown (cell_view last).seen }
    {
        let used = words[0].min(CELL_WORDS as u64) as usize;
        widen(&mut self.words, used);
        put_front(self.words.as_mut_slice(), words, used);
        self.last = Some(last);
    }

    // The words, where all that are in use are there.
    fn whole(&self) -> Result<&[u64], Memory>
        ensures { IfOk result (λ words. AreWords words.now × (shown_in words.now ≡ self.now)) }
    {
        let words = self.words.as_slice();
        if words[0] > words.len() as u64 {
            return Err(Memory);
        }
        Ok(words)
    }

    pub(crate) fn shown(&self, alloc: Global) -> Result<Option<Snapshot>, Memory>
        ensures { IfOk result (λ shown. shown ≡ self.now) }
    {
        let words = self.whole()?;
        shown(alloc, words)
    }

    pub(crate) fn glance(&self, key: &Key) -> Option<Glance>
        ensures { result ≡ glance_of self.now key.now }
    {
        glance(self.words.as_slice(), key.bytes())
    }

    pub(crate) fn content(&self, alloc: Global) -> Result<Option<Content>, Memory>
        ensures { IfOk result (λ content. content ≡ shown_content self.now) }
    {
        let words = self.whole()?;
        shown_content(alloc, words)
    }

    pub(crate) fn local(
        &self,
        alloc: Global,
        key: &Key,
        end: u64,
        now: u64,
        skew: u64,
    ) -> Result<Local, Memory>
        ensures { IfOk result (λ local. local ≡ local_of self.now key.now end now skew) }
    {
        let words = self.whole()?;
        local_of(alloc, words, key.bytes(), end, now, skew)
    }
}
