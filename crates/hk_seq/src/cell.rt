//! The cell and its steps.

ghost use Rattle.std.specs.Prelude.{◌≡◌, ℕ, ◌+◌, ◌%◌, ◌^◌, ◌<◌, ◌≤◌, List, [], ◌∷◌, length, IfOk};
ghost use Rattle.crossbeam_utils.specs.Register.{Turns, TurnsAt, Forks, Merges};
ghost use Rattle.crossbeam_utils.specs.Seq.{Gathered, Stays, IsSamePass, cell_view};
ghost use Rattle.crossbeam_utils.specs.declared.atomic.seq_cell.Stage.TheVariants.{Writing};
ghost use Rattle.hk_seq.specs.Steps.{in_use, over, HasInUse, IsGathered, IsWriting};

use crate::plays::{Check, Cut, Glue, Lock, Look, Match, Note, Peek, Publish, Put};
use atomic_table::{Join, Split, Table, TableRule};
use crossbeam_utils::Backoff;
use crossbeam_utils::atomic::seq_cell::{Doing, Pass, Versions};
use crossbeam_utils::rule::{Outcome, Protocol};
use std::alloc::{AllocError, Allocator, Global};
use std::sync::Wait;

/// A cell of `N` words under a rule of the caller's.
pub type WordCell<V, P, const N: usize, A = Global> = Wide<
    [u64; N],
    Doing<[u64; N], V>,
    Versions<P, N>,
    N,
    A,
>;

/// The version and the words of a cell, in a table.
#[derive(Drop)]
pub struct Wide<S, D, Q: TableRule<S, D, ()>, const N: usize, A: Allocator> {
    table: Table<S, D, (), Q, A>,
    ghost wide: { (table.shared.table_id.words ≡ N + 1) × (N < 2 ^ 32) × (0 < N) },
}

// How many words of the value are in use.
fn in_use<const N: usize>(words: &[u64; N]) -> usize
    requires { (0 < N) × (N < 2 ^ 32) }
    ensures { result ≡ in_use N words.now }
{
    words[0].min(N as u64) as usize
}

impl<V, P: Protocol<[u64; N], V>, const N: usize, A: Allocator> WordCell<V, P, N, A> {
    /// A cell with this value, and the pass that begins.
    pub fn ruled(
        alloc: A,
        val: &[u64; N],
    ) -> Result<(WordCell<V, P, N, A>, Pass<[u64; N], V>), AllocError>
    where
        A: Clone,
        requires { P.holds val.now (P.first ∷ []) }
        ensures { IfOk result (λ c. (c.1.table_id ≡ c.0.table.shared.table_id) × (cell_view c.1 ≡ P.first)) }
    {
        if N == 0 || N >= 1 << 32 {
            return Err(AllocError);
        }
        let mut words = Vec::new(alloc.clone()?);
        words.push(0)?;
        words.extend_from_slice(val)?;
        let (table, pass) = Table::of_words(alloc, words.as_slice(), &())?;
        Ok((Wide { table }, pass))
    }

    /// Cuts a view in two, so that a part of it can go to another thread.
    pub fn split_pass<M: Split<V>>(&self, pass: &mut Pass<[u64; N], V>) -> Pass<[u64; N], V>
        requires own { pass.old.table_id ≡ self.now.table.shared.table_id }
        requires rule { Forks P.holds pass.old.id (cell_view pass.old) (M.left (cell_view pass.old)) (M.right (cell_view pass.old)) }
        ensures kept { IsSamePass pass.old pass.new × (cell_view pass.new ≡ M.left (cell_view pass.old)) }
        ensures given { (result.table_id ≡ pass.old.table_id) × (cell_view result ≡ M.right (cell_view pass.old)) × (result.me.1 ≡ []) }
    {
        self.table.shared.split_seat::<Cut<M>>(pass)
    }

    /// Takes in the view of a pass that `split_pass` gave.
    pub fn join_pass<M: Join<V>>(&self, pass: &mut Pass<[u64; N], V>, other: Pass<[u64; N], V>)
        requires own { (pass.old.table_id ≡ self.now.table.shared.table_id) × (other.table_id ≡ pass.old.table_id) × (other.me.1 ≡ []) }
        requires rule { Merges P.holds pass.old.id (cell_view pass.old) other.id (cell_view other) (M.both (cell_view pass.old) (cell_view other)) M.spent }
        ensures { IsSamePass pass.old pass.new × (cell_view pass.new ≡ M.both (cell_view pass.old) (cell_view other)) }
    {
        self.table.shared.join_seat::<Glue<M>>(pass, other);
    }

    // Reads the words in use into their places.
    fn gather(&self, pass: &mut Pass<[u64; N], V>, room: &mut [u64; N])
        requires { pass.old.table_id ≡ self.now.table.shared.table_id }
        ensures { Stays pass.old pass.new × IsGathered N room.new pass.old.me.0.stage pass.new.me.0.stage }
    {
        room[0] = self.table.shared.load::<Peek<N>>(pass, 1);
        let count = in_use(room);
        for i in 1..count {
            room[i] = self.table.shared.load::<Peek<N>>(pass, i + 1);
        }
    }

    /// Reads the words in use into `room`, as one step of the caller's rule at the value that the cell has then. What stands in the room behind them
    /// is of no value.
    pub fn load_as<M: Outcome<[u64; N], V>, R: Wait>(
        &self,
        rt: &R,
        pass: &mut Pass<[u64; N], V>,
        room: &mut [u64; N],
    )
        requires cell { pass.old.table_id ≡ self.now.table.shared.table_id }
        requires rule { Turns P.holds pass.old.id (cell_view pass.old) (λ x. x) M.then }
        ensures cell { IsSamePass pass.old pass.new }
        ensures rule { (x : List ℕ) × M.then (cell_view pass.old) x x (cell_view pass.new) × HasInUse N room.new x }
    {
        let backoff = Backoff::new();
        for _ in rt.forever() {
            let version = self.table.shared.load::<Look>(pass, 0);
            if version % 2 == 0 {
                self.gather(pass, room);
                if self.table.shared.load::<Check<M, N>>(pass, 0) == version {
                    return;
                }
            }
            backoff.snooze();
        }
        unreachable!()
    }

    /// Makes one step of the caller's rule at the value that the cell has then, with no word of it read: by one load of the version.
    pub fn note_as<M: Outcome<[u64; N], V>>(&self, pass: &mut Pass<[u64; N], V>)
        requires cell { pass.old.table_id ≡ self.now.table.shared.table_id }
        requires rule { Turns P.holds pass.old.id (cell_view pass.old) (λ x. x) M.then }
        ensures cell { IsSamePass pass.old pass.new }
        ensures rule { (x : List ℕ) × M.then (cell_view pass.old) x x (cell_view pass.new) }
    {
        self.table.shared.load::<Note<M>>(pass, 0);
    }

    // Takes the cell for a writer of this value, and gives the version, which is odd now. After 2^63 writes it waits for ever.
    fn lock<R: Wait>(&self, rt: &R, pass: &mut Pass<[u64; N], V>, new: &[u64; N]) -> u64
        requires { pass.old.table_id ≡ self.now.table.shared.table_id }
        ensures { Stays pass.old pass.new × IsWriting result new.now 0 pass.new.me.0.stage × (result + 1 < 2 ^ 64) }
    {
        let backoff = Backoff::new();
        for _ in rt.forever() {
            let version = self.table.shared.load::<Look>(pass, 0);
            if version % 2 == 0 && version < u64::MAX - 1 {
                let odd = version + 1;
                let shared = &self.table.shared;
                let found = shared.compare_exchange_with::<Lock<N>>(pass, 0, version, odd, new);
                if found == version {
                    return odd;
                }
            }
            backoff.snooze();
        }
        unreachable!()
    }

    // Writes the word of this place, unless it stands there already.
    fn put_word(&self, pass: &mut Pass<[u64; N], V>, i: usize, new: &[u64; N])
        requires cell { pass.old.table_id ≡ self.now.table.shared.table_id }
        requires inside { i < N }
        requires writing { (at : ℕ) × IsWriting at new.now i pass.old.me.0.stage }
        ensures stays { Stays pass.old pass.new }
        ensures writing { (at : ℕ) → IsWriting at new.now i pass.old.me.0.stage → IsWriting at new.now (i + 1) pass.new.me.0.stage }
    {
        if self.table.shared.load::<Match<N>>(pass, i + 1) == new[i] {
            return;
        }
        self.table.shared.store::<Put>(pass, i + 1, new[i]);
    }

    /// Puts the words in use of this value over those of the one that is there, as one step of the caller's rule. The words behind them stay as they are,
    /// and only words that differ are written.
    pub fn store_as<M: Outcome<[u64; N], V>, R: Wait>(
        &self,
        rt: &R,
        pass: &mut Pass<[u64; N], V>,
        new: &[u64; N],
    )
        requires cell { pass.old.table_id ≡ self.now.table.shared.table_id }
        requires rule { Turns P.holds pass.old.id (cell_view pass.old) (over N new.now) M.then }
        ensures cell { IsSamePass pass.old pass.new }
        ensures rule { (x : List ℕ) × M.then (cell_view pass.old) x (over N new.now x) (cell_view pass.new) }
    {
        let version = self.lock(rt, pass, new);
        let count = in_use(new);
        for i in 0..count {
            self.put_word(pass, i, new);
        }
        self.table
            .shared
            .store::<Publish<M, N>>(pass, 0, version + 1);
    }
}
