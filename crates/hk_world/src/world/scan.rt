//! What is read of all actors, or done to all, in rising order of their numbers.

ghost use Rattle.std.specs.Prelude.{◌≡◌, ◌+◌, ◌≤◌, map, nat_le};
ghost use Rattle.std.specs.List.{find};
ghost use Rattle.std.specs.Option.{option_map};
ghost use Rattle.hk_base.specs.declared.time.TheConstants.{MAX_TIME};
ghost use Rattle.hk_event.specs.declared.refused.Refused.TheVariants.{LeaseRuns};
ghost use Rattle.hk_world.specs.Steps.{process_ticked, manager_ticked};
ghost use Rattle.hk_world.specs.Allowed.{may_run_by};

use crate::process::{ManagerProcess, Process};
use hk_base::{NodeId, View};
use hk_event::Refused;
use std::alloc::Global;
use std::collections::BTreeMap;

// Whether the lease may not be over yet on every clock.
fn may_last(clock: u64, skew: u64, granted: u64) -> bool
    ensures { result ≡ nat_le (clock + skew) granted }
{
    clock <= granted && skew <= granted - clock
}

fn may_run(skew: u64, given: u32, view: &View, id: NodeId, process: &Process) -> bool
    ensures { result ≡ may_run_by skew given view.now (id, process.now) }
{
    !process.crashed
        && u32::from(id.0) < given
        && !view.has_member(id)
        && may_last(process.node.now(), skew, process.node.granted())
}

/// The first live node whose number was given before, that the view leaves out, and whose lease may still run.
pub(super) fn first_running(
    processes: &BTreeMap<NodeId, Process>,
    skew: u64,
    given: u32,
    view: &View,
) -> Option<Refused>
    ensures { result ≡ option_map (λ p. LeaseRuns p.0 p.1.node.granted) (find (may_run_by skew given view.now) processes.now.entries) }
{
    for (id, process) in processes.iter() {
        if may_run(skew, given, view, *id, process) {
            let end = process.node.granted();
            return Some(Refused::LeaseRuns { node: *id, end });
        }
    }
    None
}

/// The clocks of all live nodes rise. It takes no memory, and every process is kept.
pub(super) fn tick_live(processes: &mut BTreeMap<NodeId, Process>, alloc: Global, to: u64)
    requires { to ≤ MAX_TIME }
    ensures { processes.new.entries ≡ map (process_ticked to) processes.old.entries }
{
    processes.retain(|_id, process| {
        process.tick(alloc, to);
        true
    });
}

/// The clocks of all live managers rise. It takes no memory.
pub(super) fn tick_managers(managers: &mut Vec<ManagerProcess>, alloc: Global, to: u64)
    requires { to ≤ MAX_TIME }
    ensures { managers.new.items ≡ map (manager_ticked to) managers.old.items }
{
    for process in managers.iter_mut() {
        process.tick(alloc, to);
    }
}
