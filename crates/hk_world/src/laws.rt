//! What holds of every world.

ghost use Rattle.hk_world.specs.Laws.{StartIsSound, StepKeepsSound};

use hk_manager::steps_keep_managers;
use hk_node::steps_keep_nodes;

/// A world of founders is sound, and every step that is accepted keeps it so.
pub fn worlds_stay_sound()
    ensures start { StartIsSound }
    ensures step { StepKeepsSound }
{
    steps_keep_nodes();
    steps_keep_managers();
}
