//! A lease cell: what each pass knows of it, and the kinds of its steps.

use atomic_table::{Join, Split};
use crossbeam_utils::atomic::seq_cell::{Pass, RuledSeqCell};
use crossbeam_utils::rule::{Outcome, Protocol};

/// What a pass knows. No code makes a value.
pub struct Known {
    /// It may raise, and knows what the cell shows.
    pub keeps: bool,
    /// The greatest end that it has seen.
    pub end: u64,
    /// The greatest clock that it has seen.
    pub now: u64,
    /// How often it has loaded.
    pub loads: u64,
    /// An end and a clock that another pass has seen, which a load is to compare with the cell's.
    pub claim_end: u64,
    pub claim_now: u64,
}

/// What a lease cell shows: the end and the clock.
pub type LeaseWords = [u64; 2];

/// Neither falls: each pass has seen an end and a clock that the cell's are not below.
pub struct NeverFalls;

impl Protocol<LeaseWords, Known> for NeverFalls {
    ghost use Rattle.hk_snap.specs.LeaseRule.{Kept, keeper};

    ghost holds = { Kept };

    ghost first = { keeper 0 0 0 };
}

/// A store by the keeper.
pub struct Raises;

impl Outcome<LeaseWords, Known> for Raises {
    ghost use Rattle.hk_snap.specs.LeaseRule.{Raised};

    ghost then = { Raised };
}

/// A load.
pub struct LooksAt;

impl Outcome<LeaseWords, Known> for LooksAt {
    ghost use Rattle.hk_snap.specs.LeaseRule.{LookedAt};

    ghost then = { LookedAt };
}

/// A load by which the keeper compares a claim with the cell.
pub struct Weighs;

impl Outcome<LeaseWords, Known> for Weighs {
    ghost use Rattle.hk_snap.specs.LeaseRule.{Weighed};

    ghost then = { Weighed };
}

/// A split: a pass that has seen as much.
pub struct Sees;

impl Split<Known> for Sees {
    ghost use Rattle.hk_snap.specs.LeaseRule.{looker};

    ghost left = { λ v. v };

    ghost right = { λ v. looker v.end v.now 0 };
}

/// A split: all that the pass knows goes over.
pub struct WholeLease;

impl Split<Known> for WholeLease {
    ghost use Rattle.hk_snap.specs.LeaseRule.{looker};

    ghost left = { λ v. looker 0 0 0 };

    ghost right = { λ v. v };
}

/// A join: the greater of each stays.
pub struct Greater;

impl Join<Known> for Greater {
    ghost use Rattle.hk_snap.specs.LeaseRule.{looker, greater};

    ghost both = { greater };

    ghost spent = { looker 0 0 0 };
}

/// A join: what the other has seen is a claim.
pub struct ClaimsLease;

impl Join<Known> for ClaimsLease {
    ghost use Rattle.hk_snap.specs.LeaseRule.{looker, claimed};

    ghost both = { claimed };

    ghost spent = { looker 0 0 0 };
}

/// A join: what the other has seen stays, and a load is counted.
pub struct MeetsLease;

impl Join<Known> for MeetsLease {
    ghost use Rattle.hk_snap.specs.LeaseRule.{looker, met};

    ghost both = { met };

    ghost spent = { looker 0 0 0 };
}

pub type LeaseSeqCell = RuledSeqCell<LeaseWords, Known, NeverFalls, 2>;

pub type LeasePass = Pass<LeaseWords, Known>;
