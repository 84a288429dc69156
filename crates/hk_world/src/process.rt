//! The nodes and managers in their world.

ghost use Rattle.std.specs.Prelude.{◌≡◌, ◌≤◌, not};
ghost use Rattle.hk_base.specs.declared.time.TheConstants.{MAX_TIME};
ghost use Rattle.hk_world.specs.Allowed.{ticked};
ghost use Rattle.hk_world.specs.Steps.{manager_ticked};

use hk_manager::Manager;
use hk_node::{Node, NodeEvent};
use std::alloc::Global;

/// A node that runs, or one that has crashed and stands still for ever.
#[derive(Drop)]
pub struct Process {
    pub node: Node,
    pub crashed: bool,
}

impl Process {
    /// Whether the node runs.
    pub(crate) fn is_live(&self) -> bool
        ensures { result ≡ not self.now.crashed }
    {
        !self.crashed
    }

    /// The clock reads `to`, unless the node has crashed. It takes no memory.
    pub(crate) fn tick(&mut self, alloc: Global, to: u64)
        requires { to ≤ MAX_TIME }
        ensures { self.new ≡ ticked to self.old }
    {
        if self.is_live() {
            let Ok(_) = self.node.step(alloc, &NodeEvent::Tick { now: to }) else {
                unreachable!()
            };
        }
    }
}

/// A manager that runs, or one that has crashed and stands still for ever.
#[derive(Drop)]
pub struct ManagerProcess {
    pub manager: Manager,
    pub crashed: bool,
}

impl ManagerProcess {
    /// The clock reads `to`, unless the manager has crashed. It takes no memory.
    pub(crate) fn tick(&mut self, alloc: Global, to: u64)
        requires { to ≤ MAX_TIME }
        ensures { self.new ≡ manager_ticked to self.old }
    {
        if !self.crashed {
            self.manager.tick(alloc, to);
        }
    }
}
