//! One key of a replicated group, as the Hermes protocol keeps it, and what holds in every run of it.
//!
//! Nothing runs here: the crate is definitions (in `specs/`) and laws about them. Each law is the contract of a public
//! function with an empty body. What runs, a shard of a node or a world of nodes, is shown elsewhere to do to each of
//! its keys just these effects; so it inherits the laws.
//!
//! - *Machine*: what a node has of the key, the letters INV, ACK, VAL and copies of rows, and the marks: who covered
//!   which stamp in which epoch. Nothing is ever forgotten: a letter may be taken late, twice or never.
//! - *Effects*: the 22 things that may happen to the key, each with when it may and what it makes. A run is a start
//!   state and a list of effects.
//! - *Facts*: an update is *complete* where every member of one view covered its stamp, *settled* where the row of every
//!   member had it. Complete is enough to answer a call; only settled allows Valid.
//! - *Parts*, *Calls*: the invariant, part by part. *Laws*: what follows from it.
//! - *Printed*: the order of the key's calls, which is legal in the sense of `hk_history`.
//! - *Worked*: runs worked by hand, and each effect in some run.
//!
//! What is proved, of every state that some run comes to (`Reached`): the invariant is kept (`keeps_parts`); a Valid
//! row is settled, or no update at all (`valid_is_settled`); an answered update is complete (`answered_is_complete`);
//! of each update that was covered, in each view up to then some member passes over what lies between it and its base
//! (`member_passes_over`); an update above a settled one, covered no earlier, has a base not below it
//! (`base_not_below`); of two read-modify-writes of one base one at most is complete (`not_both_complete`), and between
//! a complete one and its base nothing is (`nothing_between`); an update that leaves nothing is a read-modify-write
//! (`only_a_read_modify_write_leaves_nothing`); where a call is served the row is not below anything complete
//! (`served_is_fresh`); and the printed order of the key is legal (`printed_is_legal`). `tags_order_stamps` lets stamps
//! be numbers. `worked_runs` and `each_effect_happens` show runs, so that each kind of effect is seen. That a world
//! runs this machine, one for each key, is the law of `hk_effects`.
#![tactic(auto)]

ghost use Rattle.hk_register.specs.Laws.{KeepsParts, KeepsCalls, EffectKeepsParts, EffectKeepsCalls, ValidIsSettled, AnsweredIsComplete, MemberPassesOver, BaseNotBelow, NotBothComplete, NothingBetween, ServedIsFresh, OnlyRmwLeavesNothing};
ghost use Rattle.hk_register.specs.Tags.{TagsOrderStamps, TagsTellStamps, NextIsAfter};
ghost use Rattle.hk_register.specs.Worked.{SettledRule, TwoIncrements, AbortedInEffect, ValKeptInTrans, Joiner, DeletedAndAdded, EachHappens};
ghost use Rattle.hk_register.specs.Printed.{PrintedIsPrinted, SlotsAreLegal, PrintedIsLegal};

/// Every run of effects keeps both parts of the invariant: that on rows, letters, marks and updates, and that on calls
/// and replies. So does one effect, from any state where they hold.
pub fn keeps_parts()
    ensures parts { KeepsParts }
    ensures calls { KeepsCalls }
    ensures effect_parts { EffectKeepsParts }
    ensures effect_calls { EffectKeepsCalls }
{}

/// Tags are ordered as stamps are, by version, then by node; they tell stamps apart; and the tag of the next stamp is
/// the next tag. So stamps may stand as numbers here.
pub fn tags_order_stamps()
    ensures order { TagsOrderStamps }
    ensures apart { TagsTellStamps }
    ensures next { NextIsAfter }
{}

/// A Valid row is settled: the row of every member of one view had its stamp. Or it is a row that no update made yet.
pub fn valid_is_settled()
    ensures { ValidIsSettled }
{}

/// An answered update is complete: every member of one view covered its stamp.
pub fn answered_is_complete()
    ensures { AnsweredIsComplete }
{}

/// Some member of each view passes over what lies between an update and its base: its row was in that view never
/// strictly between the two, and never will be.
pub fn member_passes_over()
    ensures { MemberPassesOver }
{}

/// An update above a settled one, covered no earlier, was begun on a row not below it.
pub fn base_not_below()
    ensures { BaseNotBelow }
{}

/// Of two read-modify-writes of one base, one at most is ever complete.
pub fn not_both_complete()
    ensures { NotBothComplete }
{}

/// Nothing is ever complete between a complete read-modify-write and its base: it found what it changed.
pub fn nothing_between()
    ensures { NothingBetween }
{}

/// An update that leaves nothing is a read-modify-write. It has its stamp like any other, which a row that holds nothing
/// keeps.
pub fn only_a_read_modify_write_leaves_nothing()
    ensures { OnlyRmwLeavesNothing }
{}

/// Wherever a call is served, be it begun or answered at once, the node's row is not below anything complete so far.
pub fn served_is_fresh()
    ensures { ServedIsFresh }
{}

/// The printed order of a key, its complete updates by stamp and each call that changed nothing behind the update that
/// it found, is legal for the key's history after every run. It is computed from the state, and any list that has just
/// these slots, in order, is legal where the invariant holds.
pub fn printed_is_legal()
    ensures printed { PrintedIsPrinted }
    ensures slots { SlotsAreLegal }
    ensures runs { PrintedIsLegal }
{}

/// Runs that are worked by hand: what each node may do, what the clients see, and the order that is printed.
pub fn worked_runs()
    ensures settled_rule { SettledRule }
    ensures two_increments { TwoIncrements }
    ensures aborted_in_effect { AbortedInEffect }
    ensures val_kept_in_trans { ValKeptInTrans }
    ensures joiner { Joiner }
    ensures deleted_and_added { DeletedAndAdded }
{}

/// Every kind of effect happens in some run.
pub fn each_effect_happens()
    ensures { EachHappens }
{}
