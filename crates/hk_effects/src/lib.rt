//! Every event of a world is, for each key, effects of the replicated register.
//!
//! Nothing runs here: the crate is definitions and laws about them. `specs/Projection.antt` says what one key has of a world: the nodes'
//! rows, the letters that tell of the key, and what grows with the run, its marks, updates and history. Whatever event a world
//! accepts, with managers or without, the key sees one effect of `hk_register`, or two. So the laws of the register hold of every run
//! of a world, and the order that is printed of a key is legal. No premise is left: without managers the world refuses what would
//! break one, and with managers they agree on the views and let one begin only where leases have ended (`hk_managed`).
//! `specs/Worked.antt` has worlds worked by hand, in which each effect is seen.
//!
//! What is proved. `event_is_effects`; the world's own invariant and the register's hold after every run
//! (`event_keeps_own`, `runs_keep_parts`); and the order of each key is legal for its history after every run, with no
//! premise but that the header and the events are within their limits (`orders_are_legal`). `each_effect_shows` has
//! those worked worlds.
#![tactic(auto)]

ghost use Rattle.hk_effects.specs.Laws.{EventIsEffects, EventKeepsOwn};
ghost use Rattle.hk_effects.specs.Orders.{OrdersAreLegal};
ghost use Rattle.hk_effects.specs.Runs.{RunsKeepParts};

mod worked;

use hk_managed::{managers_of_worlds_agree, views_that_begin_have_ended};
use hk_register::printed_is_legal;
use hk_world::worlds_stay_sound;
pub use worked::each_effect_shows;

/// Each accepted event is, for each key, one effect or two.
pub fn event_is_effects()
    ensures { EventIsEffects }
{}

/// Each accepted event keeps the world's own invariant.
pub fn event_keeps_own()
    ensures { EventKeepsOwn }
{
    worlds_stay_sound();
}

/// After every run of a world the register's invariant holds of each key.
pub fn runs_keep_parts()
    ensures { RunsKeepParts }
{
    event_is_effects();
    worlds_stay_sound();
    managers_of_worlds_agree();
    views_that_begin_have_ended();
}

/// After every run of a world the order that is printed of a key is legal for the key's history.
pub fn orders_are_legal()
    ensures { OrdersAreLegal }
{
    runs_keep_parts();
    printed_is_legal();
}
