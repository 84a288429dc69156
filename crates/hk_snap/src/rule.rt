//! A cell: what is published in it, what each pass knows of that, and the kinds of its steps.

use atomic_table::{Join, Split};
use crossbeam_utils::atomic::seq_cell::Pass;
use crossbeam_utils::rule::{Outcome, Protocol};
use hk_base::{CallNo, Key};
use hk_key::Row;
use hk_seq::WordCell;
use std::collections::LinkedList;
use std::marker::{Brand, PhantomData};

/// A published row, whole. Contracts alone know of it: no code makes a value.
pub struct Publication {
    pub key: Key,
    pub row: Row,
    /// The number of the step that changed the row.
    pub ticket: u64,
    /// The call that the step was for, where it was for one.
    pub call: Option<CallNo>,
}

/// What a pass knows. No code makes a value.
pub struct Knowledge {
    /// It may publish, and has seen all.
    pub publishes: bool,
    /// What it has seen of the cell's list, which is a beginning of it.
    pub seen: LinkedList<Publication>,
    /// How often it has loaded.
    pub loads: u64,
    /// What another pass has seen, which a load is to compare with the cell's list.
    pub claim: LinkedList<Publication>,
}

/// How many words a cell has: nine about a row, and then its key in at most 32 and its data in at most 125, eight bytes to a word. The first tells how many are
/// in use, and what stands behind those shows nothing.
pub const CELL_WORDS: usize = 166;

pub type Words = [u64; CELL_WORDS];

/// There is one list of all that was published. The words in use show its last, and each pass has seen a beginning.
pub struct OneList;

impl Protocol<Words, Knowledge> for OneList {
    ghost use Rattle.hk_snap.specs.Rule.{Kept, opening};

    ghost holds = { Kept };

    ghost first = { opening };
}

/// The row that a step publishes, which its caller picks.
pub trait Picked {
    ghost use Rattle.hk_snap.specs.declared.rule.Publication.{Publication};

    ghost publication: { Publication };
}

impl Picked for Brand {
    ghost use Rattle.hk_snap.specs.Rule.{no_publication};

    ghost publication = { no_publication };
}

/// A store: the picked row is published.
pub struct Publishes<P: Picked> {
    of: PhantomData<P>,
}

impl<P: Picked> Outcome<Words, Knowledge> for Publishes<P> {
    ghost use Rattle.hk_snap.specs.Rule.{Adds};

    ghost then = { Adds P.publication };
}

/// A load.
pub struct Loads;

impl Outcome<Words, Knowledge> for Loads {
    ghost use Rattle.hk_snap.specs.Rule.{Loaded};

    ghost then = { Loaded };
}

/// A load by which the writer compares a claim with the list.
pub struct Compares;

impl Outcome<Words, Knowledge> for Compares {
    ghost use Rattle.hk_snap.specs.Rule.{Compared};

    ghost then = { Compared };
}

/// A split: a reader's pass that has seen as much.
pub struct Reads;

impl Split<Knowledge> for Reads {
    ghost use Rattle.hk_snap.specs.Rule.{reader};

    ghost left = { λ v. v };

    ghost right = { λ v. reader v.seen 0 };
}

/// A split: all that the pass knows goes over.
pub struct Whole;

impl Split<Knowledge> for Whole {
    ghost use Rattle.std.specs.Prelude.{[]};
    ghost use Rattle.hk_snap.specs.Rule.{reader};

    ghost left = { λ v. reader [] 0 };

    ghost right = { λ v. v };
}

/// A join: the longer list stays.
pub struct Longer;

impl Join<Knowledge> for Longer {
    ghost use Rattle.std.specs.Prelude.{[]};
    ghost use Rattle.hk_snap.specs.Rule.{reader, joined};

    ghost both = { joined };

    ghost spent = { reader [] 0 };
}

/// A join: the other's list is a claim.
pub struct Claims;

impl Join<Knowledge> for Claims {
    ghost use Rattle.std.specs.Prelude.{[]};
    ghost use Rattle.hk_snap.specs.Rule.{reader, claimed};

    ghost both = { claimed };

    ghost spent = { reader [] 0 };
}

/// A join: the other's list stays, and a load is counted.
pub struct Meets;

impl Join<Knowledge> for Meets {
    ghost use Rattle.std.specs.Prelude.{[]};
    ghost use Rattle.hk_snap.specs.Rule.{reader, met};

    ghost both = { met };

    ghost spent = { reader [] 0 };
}

pub type Cell = WordCell<Knowledge, OneList, CELL_WORDS>;

pub type CellPass = Pass<Words, Knowledge>;
