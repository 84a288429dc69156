//! The two ends of a lease cell.

ghost use Rattle.std.specs.Prelude.{◌≡◌, ◌+◌, ◌≤◌, ◌<◌, max, IfOk, OnErr};
ghost use Rattle.hk_snap.specs.Leases.{kept_lease, raised, Looks};

use crate::lease_rule::{LeasePass, LeaseSeqCell};
use crate::lease_steps::{join, load, look, meet, new_cell, raise};
use hk_base::Memory;
use std::alloc::Global;
use std::marker::Model;
use std::sync::{Arc, Wait};

/// The one that raises the end and the clock which the cell shows.
#[derive(Drop)]
pub struct LeaseKeeper {
    cell: Arc<LeaseSeqCell>,
    pass: LeasePass,
    end: u64,
    now: u64,
}

impl Model for LeaseKeeper {
    ghost use Rattle.std.specs.Prelude.{◌≡◌};
    ghost use Rattle.std.specs.Arc.{arc_value};
    ghost use Rattle.crossbeam_utils.specs.Seq.{cell_view};
    ghost use Rattle.hk_snap.specs.LeaseRule.{keeper};
    ghost use Rattle.hk_snap.specs.Leases.{Lease, kept_lease};

    ghost Value = { Lease };

    ghost view = { λ k. kept_lease (arc_value k.cell).table.shared.table_id k.end k.now };

    ghost invariant = { λ k. (k.pass.table_id ≡ (arc_value k.cell).table.shared.table_id) × (cell_view k.pass ≡ keeper k.end k.now (cell_view k.pass).loads) };
}

/// One that looks at the end and the clock. Contracts see the greatest that it has seen.
#[derive(Drop)]
pub struct LeaseCell {
    cell: Arc<LeaseSeqCell>,
    pass: LeasePass,
}

impl Model for LeaseCell {
    ghost use Rattle.std.specs.Prelude.{◌≡◌, false};
    ghost use Rattle.std.specs.Arc.{arc_value};
    ghost use Rattle.crossbeam_utils.specs.Seq.{cell_view};
    ghost use Rattle.hk_snap.specs.Leases.{Lease, seen_lease};

    ghost Value = { Lease };

    ghost view = { λ c. seen_lease (arc_value c.cell).table.shared.table_id (cell_view c.pass) };

    ghost invariant = { λ c. (c.pass.table_id ≡ (arc_value c.cell).table.shared.table_id) × ((cell_view c.pass).keeps ≡ false) };
}

/// A lease cell that shows this end and this clock, in milliseconds: its one keeper, and one that looks.
pub fn lease_cell<R: Wait>(
    rt: &R,
    alloc: Global,
    end: u64,
    now: u64,
) -> Result<(LeaseKeeper, LeaseCell), Memory>
    ensures keeper { IfOk result (λ made. made.0 ≡ kept_lease made.0.name end now) }
    ensures cell { IfOk result (λ made. made.1 ≡ made.0) }
{
    let (cell, mut pass) = new_cell(alloc)?;
    raise(rt, &cell, &mut pass, end, now);
    let cell = Arc::new(alloc, cell)?;
    let mut keeper = LeaseKeeper {
        cell,
        pass,
        end,
        now,
    };
    let looker = keeper.looker()?;
    Ok((keeper, looker))
}

impl LeaseKeeper {
    /// Shows the greater of this end and the present one, and of this clock and the present one, by one store. Where neither is greater, nothing is stored.
    pub fn raise<R: Wait>(&mut self, rt: &R, end: u64, now: u64)
        ensures { self.new ≡ raised self.old end now }
    {
        if end <= self.end && now <= self.now {
            return;
        }
        self.end = self.end.max(end);
        self.now = self.now.max(now);
        raise(rt, &self.cell, &mut self.pass, self.end, self.now);
    }

    // One that has seen what the cell shows.
    fn looker(&mut self) -> Result<LeaseCell, Memory>
        ensures same { self.new ≡ self.old }
        ensures looker { IfOk result (λ cell. cell ≡ self.old) }
    {
        let cell = Arc::try_clone(&self.cell)?;
        let pass = look(&cell, &mut self.pass);
        Ok(LeaseCell { cell, pass })
    }

    /// By one load the other has seen the end and the clock that stand. It is of the same lease cell.
    pub fn meet<R: Wait>(&mut self, rt: &R, cell: &mut LeaseCell) -> Result<(), Memory>
        requires { cell.old.name ≡ self.old.name }
        ensures same { self.new ≡ self.old }
        ensures met { IfOk result (λ _. (cell.new.end ≡ self.old.end) × (cell.new.now ≡ self.old.now)) }
        ensures looked { IfOk result (λ _. Looks cell.old cell.new) }
        ensures err { OnErr result (cell.new ≡ cell.old) }
    {
        meet(rt, &self.cell, &mut self.pass, &mut cell.pass);
        Ok(())
    }
}

impl LeaseCell {
    /// The end, in milliseconds, by one load, which sees the clock too.
    pub fn end<R: Wait>(&mut self, rt: &R) -> u64
        ensures end { result ≡ self.new.end }
        ensures looked { Looks self.old self.new }
    {
        load(rt, &self.cell, &mut self.pass)
    }

    /// Another that looks at the same cell and has seen what this one has. It has loaded nothing.
    pub fn split<R: Wait>(&mut self, _rt: &R) -> Result<LeaseCell, Memory>
        ensures same { self.new ≡ self.old }
        ensures cell { IfOk result (λ cell. cell ≡ kept_lease self.old.name self.old.end self.old.now) }
    {
        let cell = Arc::try_clone(&self.cell)?;
        let pass = look(&cell, &mut self.pass);
        Ok(LeaseCell { cell, pass })
    }

    /// Takes in another that looks at the same cell: the greater end and the greater clock stay.
    pub fn join<R: Wait>(&mut self, _rt: &R, other: LeaseCell)
        requires { other.name ≡ self.old.name }
        ensures { self.new ≡ record { name = self.old.name; end = max self.old.end other.end; now = max self.old.now other.now; loads = self.old.loads } }
    {
        let LeaseCell { cell: _, pass } = other;
        join(&self.cell, &mut self.pass, pass);
    }
}
