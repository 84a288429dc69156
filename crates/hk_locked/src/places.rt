//! Which cells the shards of each node have.

use std::marker::Brand;

/// Names the cells of all shards of a program, and the skew of each node. Contracts alone see the list: a program founds the shards of all its nodes, and then
/// calls what is generic in the list, once.
pub trait Places {
    ghost use Rattle.std.specs.Prelude.{List};
    ghost use Rattle.hk_locked.specs.Places.{NodeNames};

    /// Of each node, node 0 first.
    ghost places: { List NodeNames };
}

impl Places for Brand {
    ghost use Rattle.std.specs.Prelude.{[]};

    ghost places = { [] };
}
