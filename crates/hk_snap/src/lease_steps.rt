//! The steps of a lease cell, on the bare cell and its passes.

ghost use Rattle.std.specs.Prelude.{◌≡◌, ◌+◌, ◌≤◌, true, false, IfOk};
ghost use Rattle.crossbeam_utils.specs.Seq.{cell_view};
ghost use Rattle.hk_snap.specs.LeaseRule.{looker, keeper, greater, met};

use crate::lease_rule::{
    ClaimsLease, Greater, LeasePass, LeaseSeqCell, LooksAt, MeetsLease, Raises, Sees, Weighs,
    WholeLease,
};
use hk_base::Memory;
use std::alloc::Global;
use std::sync::Wait;

// A lease cell with the end 0 and the clock 0.
pub(crate) fn new_cell(alloc: Global) -> Result<(LeaseSeqCell, LeasePass), Memory>
    ensures { IfOk result (λ c. (c.1.table_id ≡ c.0.table.shared.table_id) × (cell_view c.1 ≡ keeper 0 0 0)) }
{
    let made = LeaseSeqCell::ruled(alloc, [0; 2])?;
    Ok(made)
}

// One store. Neither falls.
pub(crate) fn raise<R: Wait>(rt: &R, cell: &LeaseSeqCell, pass: &mut LeasePass, end: u64, now: u64)
    requires cell { pass.old.table_id ≡ cell.now.table.shared.table_id }
    requires keeps { cell_view pass.old ≡ keeper (cell_view pass.old).end (cell_view pass.old).now (cell_view pass.old).loads }
    requires up { ((cell_view pass.old).end ≤ end) × ((cell_view pass.old).now ≤ now) }
    ensures cell { pass.new.table_id ≡ pass.old.table_id }
    ensures raised { cell_view pass.new ≡ keeper end now (cell_view pass.old).loads }
{
    cell.swap_as::<Raises, R>(rt, pass, [end, now]);
}

// A pass that has seen as much.
pub(crate) fn look(cell: &LeaseSeqCell, pass: &mut LeasePass) -> LeasePass
    requires cell { pass.old.table_id ≡ cell.now.table.shared.table_id }
    ensures same { (pass.new.table_id ≡ pass.old.table_id) × (cell_view pass.new ≡ cell_view pass.old) }
    ensures new { (result.table_id ≡ pass.old.table_id) × (cell_view result ≡ looker (cell_view pass.old).end (cell_view pass.old).now 0) }
{
    cell.split_pass::<Sees>(pass)
}

// One load.
pub(crate) fn load<R: Wait>(rt: &R, cell: &LeaseSeqCell, pass: &mut LeasePass) -> u64
    requires cell { pass.old.table_id ≡ cell.now.table.shared.table_id }
    ensures cell { pass.new.table_id ≡ pass.old.table_id }
    ensures end { result ≡ (cell_view pass.new).end }
    ensures later { ((cell_view pass.old).end ≤ (cell_view pass.new).end) × ((cell_view pass.old).now ≤ (cell_view pass.new).now) }
    ensures one { ((cell_view pass.new).loads ≡ (cell_view pass.old).loads + 1) × ((cell_view pass.new).keeps ≡ (cell_view pass.old).keeps) }
{
    cell.load_as::<LooksAt, R>(rt, pass)[0]
}

// Of what two passes have seen the greater stays.
pub(crate) fn join(cell: &LeaseSeqCell, pass: &mut LeasePass, mut other: LeasePass)
    requires cell { (pass.old.table_id ≡ cell.now.table.shared.table_id) × (other.table_id ≡ pass.old.table_id) }
    requires looks { ((cell_view pass.old).keeps ≡ false) × ((cell_view other).keeps ≡ false) }
    ensures cell { pass.new.table_id ≡ pass.old.table_id }
    ensures joined { cell_view pass.new ≡ greater (cell_view pass.old) (cell_view other) }
{
    let whole = cell.split_pass::<WholeLease>(&mut other);
    cell.join_pass::<Greater>(pass, whole);
}

// The other pass has seen what the keeper's has. What it had seen goes to the keeper's pass as a claim, and the load tells that
// it is not above.
pub(crate) fn meet<R: Wait>(
    rt: &R,
    cell: &LeaseSeqCell,
    held: &mut LeasePass,
    other: &mut LeasePass,
)
    requires cell { (held.old.table_id ≡ cell.now.table.shared.table_id) × (other.old.table_id ≡ held.old.table_id) }
    requires keeps { ((cell_view held.old).keeps ≡ true) × ((cell_view other.old).keeps ≡ false) }
    ensures cell { (held.new.table_id ≡ held.old.table_id) × (other.new.table_id ≡ other.old.table_id) }
    ensures same { cell_view held.new ≡ keeper (cell_view held.old).end (cell_view held.old).now ((cell_view held.old).loads + 1) }
    ensures met { cell_view other.new ≡ met (cell_view other.old) (cell_view held.old) }
    ensures later { ((cell_view other.old).end ≤ (cell_view held.old).end) × ((cell_view other.old).now ≤ (cell_view held.old).now) }
{
    let claim = cell.split_pass::<Sees>(other);
    cell.join_pass::<ClaimsLease>(held, claim);
    let _shown = cell.load_as::<Weighs, R>(rt, held);
    let seen = cell.split_pass::<Sees>(held);
    cell.join_pass::<MeetsLease>(other, seen);
}
