//! The runs of all groups.

ghost use Rattle.std.specs.Prelude.{◌≡◌, ◌∷◌, ◌++◌, [], IfOk, IfErr, OnOk};
ghost use Rattle.hk_world.specs.Sound.{IsHeader};
ghost use Rattle.hk_storm.specs.Storm.{AreGroups};
ghost use Rattle.hk_storm.specs.Concluded.{AreAssembled, IsFirstUnfit};

use crate::groups::StormGroup;
use hk_assemble::{Gap, assemble};
use hk_base::Memory;
use hk_event::Header;
use hk_safety::Run;
use std::alloc::Global;

fn put_run(runs: &mut Vec<Run>, run: Run) -> Result<(), Memory>
    ensures { OnOk result (runs.new.items ≡ runs.old.items ++ run ∷ []) }
{
    runs.push(run)?;
    Ok(())
}

/// The run of each group, or the first that comes to none.
pub(crate) fn follow_all(
    alloc: Global,
    header: Header,
    groups: &[StormGroup],
) -> Result<Vec<Run>, Gap>
    requires header { IsHeader header }
    requires alone { header.managers ≡ 0 }
    requires groups { AreGroups header.nodes groups.now }
    ensures came { IfOk result (λ runs. AreAssembled header groups.now runs.items) }
    ensures unfit { IfErr result (λ gap. IsFirstUnfit header groups.now gap) }
{
    let mut runs = Vec::new(alloc);
    for group in groups {
        let run = assemble(alloc, header, &group.journals, &group.notes)?;
        put_run(&mut runs, run)?;
    }
    Ok(runs)
}
