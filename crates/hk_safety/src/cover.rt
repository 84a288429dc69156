//! Who covers which stamp after an event: all is read from what the event showed and from the present world.

ghost use Rattle.std.specs.Prelude.{◌≡◌, ◌∷◌, [], List, ℕ, true, IfSome, OnOk};
ghost use Rattle.std.specs.List.{flat_map, AllByRecursion};
ghost use Rattle.hk_base.specs.Range.{IsLetter, IsWithin};
ghost use Rattle.hk_node.specs.Sound.{IsNode};
ghost use Rattle.hk_world.specs.Sound.{IsWorld};
ghost use Rattle.hk_safety.specs.Grown.{AreCovered, wait_touches, touches_now, changed_touches, IsPrior, ArePrior, AreOpenCovered, letter_touches};
ghost use Rattle.hk_safety.specs.Grown.{AreTouchedIn, AreTouchedAt};

use crate::evidence::Cover;
use crate::key_run::KeyRun;
use hk_base::{Body, Key, Letter, Memory, View};
use hk_key::BoxedPending;
use hk_node::{Node, PriorRow};
use hk_world::{Acted, Shown, World};
use std::alloc::Global;
use std::collections::BTreeMap;

// The stamp of this tag is covered.
fn cover_tag(
    keys: &mut BTreeMap<Key, KeyRun>,
    alloc: Global,
    view: &View,
    cover: Cover,
    key: &Key,
    tag: u64,
) -> Result<(), Memory>
    ensures { OnOk result (AreCovered view.now cover keys.old.entries keys.new.entries ((key.now, tag) ∷ [])) }
{
    match keys.get_mut(key) {
        Some(run) => run.cover(alloc, tag, view, cover),
        None => Ok(()),
    }
}

// What waits is covered.
fn cover_pending(
    keys: &mut BTreeMap<Key, KeyRun>,
    alloc: Global,
    view: &View,
    cover: Cover,
    key: &Key,
    pending: &Option<BoxedPending>,
) -> Result<(), Memory>
    requires { IfSome pending.now (λ p. IsWithin p.stamp) }
    ensures { OnOk result (AreCovered view.now cover keys.old.entries keys.new.entries (wait_touches key.now pending.now)) }
{
    match pending {
        Some(pending) => cover_tag(keys, alloc, view, cover, key, pending.get().stamp.tag()),
        None => Ok(()),
    }
}

// Whether what waits has this tag.
fn waits_at(pending: &Option<BoxedPending>, tag: u64) -> bool
    requires { IfSome pending.now (λ p. IsWithin p.stamp) }
    ensures { result ≡ true → (key : List ℕ) → wait_touches key pending.now ≡ (key, tag) ∷ [] }
{
    match pending {
        Some(pending) => pending.get().stamp.tag() == tag,
        None => false,
    }
}

// The node covers what its row has, and what waits there, which is mostly the same.
fn cover_row(
    keys: &mut BTreeMap<Key, KeyRun>,
    alloc: Global,
    view: &View,
    cover: Cover,
    node: &Node,
    key: &Key,
) -> Result<(), Memory>
    requires { IsNode node.now }
    ensures { OnOk result (AreCovered view.now cover keys.old.entries keys.new.entries (touches_now node.now key.now)) }
{
    let Some(row) = node.row(key) else {
        return Ok(());
    };
    let tag = row.stamp.tag();
    cover_tag(keys, alloc, view, cover, key, tag)?;
    if waits_at(&row.pending, tag) {
        return Ok(());
    }
    cover_pending(keys, alloc, view, cover, key, &row.pending)
}

// What waited in a prior row may be complete at once where a view was installed, so that no later moment shows it.
fn cover_prior(
    keys: &mut BTreeMap<Key, KeyRun>,
    alloc: Global,
    view: &View,
    cover: Cover,
    node: &Node,
    rose: bool,
    prior: &PriorRow,
) -> Result<(), Memory>
    requires node { IsNode node.now }
    requires prior { IsPrior prior.now }
    ensures { OnOk result (AreCovered view.now cover keys.old.entries keys.new.entries (changed_touches node.now rose prior.now)) }
{
    cover_row(keys, alloc, view, cover, node, &prior.key)?;
    if !rose {
        return Ok(());
    }
    match &prior.row {
        Some(row) => cover_pending(keys, alloc, view, cover, &prior.key, &row.pending),
        None => Ok(()),
    }
}

fn cover_changed(
    keys: &mut BTreeMap<Key, KeyRun>,
    alloc: Global,
    view: &View,
    cover: Cover,
    node: &Node,
    rose: bool,
    rows: &[PriorRow],
) -> Result<(), Memory>
    requires node { IsNode node.now }
    requires rows { AllByRecursion IsPrior rows.now }
    ensures { OnOk result (AreCovered view.now cover keys.old.entries keys.new.entries (flat_map (changed_touches node.now rose) rows.now)) }
{
    for prior in rows {
        cover_prior(keys, alloc, view, cover, node, rose, prior)?;
    }
    Ok(())
}

// The open rows, where the node has moved: installed a view or become ready. The stamp of a Valid row is complete already.
fn cover_open(
    keys: &mut BTreeMap<Key, KeyRun>,
    alloc: Global,
    view: &View,
    cover: Cover,
    node: &Node,
    moved: bool,
) -> Result<(), Memory>
    requires { IsNode node.now }
    ensures { OnOk result (AreOpenCovered view.now cover keys.old.entries keys.new.entries node.now moved) }
{
    if !moved {
        return Ok(());
    }
    let mut after = None;
    for _turn in 0..u64::MAX {
        let Some(key) = node.open(after) else {
            return Ok(());
        };
        cover_row(keys, alloc, view, cover, node, key)?;
        after = Some(key);
    }
    // It never comes to this: there are fewer keys.
    Err(Memory)
}

// The stamp that a letter acknowledges.
fn cover_ack(
    keys: &mut BTreeMap<Key, KeyRun>,
    alloc: Global,
    view: &View,
    cover: Cover,
    letter: &Letter,
) -> Result<(), Memory>
    requires { IsLetter letter.now }
    ensures { OnOk result (AreCovered view.now cover keys.old.entries keys.new.entries (letter_touches letter.now)) }
{
    match &letter.body {
        Body::Ack { key, stamp, .. } => cover_tag(keys, alloc, view, cover, key, stamp.tag()),
        _ => Ok(()),
    }
}

fn cover_acks(
    keys: &mut BTreeMap<Key, KeyRun>,
    alloc: Global,
    view: &View,
    cover: Cover,
    letters: &[Letter],
) -> Result<(), Memory>
    requires { AllByRecursion IsLetter letters.now }
    ensures { OnOk result (AreCovered view.now cover keys.old.entries keys.new.entries (flat_map letter_touches letters.now)) }
{
    for letter in letters {
        cover_ack(keys, alloc, view, cover, letter)?;
    }
    Ok(())
}

// All that the node covers. With no view it covers nothing.
fn cover_acted(
    keys: &mut BTreeMap<Key, KeyRun>,
    alloc: Global,
    number: u64,
    node: &Node,
    acted: &Acted,
    letters: &[Letter],
) -> Result<(), Memory>
    requires node { IsNode node.now }
    requires rows { AllByRecursion IsPrior acted.now.report.rows }
    requires letters { AllByRecursion IsLetter letters.now }
    ensures { OnOk result (AreTouchedIn number node.now.view keys.old.entries keys.new.entries node.now acted.now letters.now) }
{
    let Some(view) = node.view() else {
        return Ok(());
    };
    let cover = Cover {
        node: acted.node,
        ready: node.ready(),
        event: number,
    };
    let rose = acted.report.epoch < view.epoch;
    let moved = rose || acted.report.readied;
    cover_changed(
        keys,
        alloc,
        view,
        cover,
        node,
        rose,
        acted.report.rows.as_slice(),
    )?;
    cover_open(keys, alloc, view, cover, node, moved)?;
    cover_acks(keys, alloc, view, cover, letters)
}

/// All covers of the accepted event of this number, by the world behind it.
pub(crate) fn cover_event(
    keys: &mut BTreeMap<Key, KeyRun>,
    alloc: Global,
    world: &World,
    number: u64,
    shown: &Shown,
) -> Result<(), Memory>
    requires sound { IsWorld world.now }
    requires rows { ArePrior shown.now.acted }
    requires letters { AllByRecursion IsLetter shown.now.letters }
    ensures { OnOk result (AreTouchedAt number shown.now.acted keys.old.entries keys.new.entries world.now shown.now.letters) }
{
    let Some(acted) = &shown.acted else {
        return Ok(());
    };
    match world.node(acted.node) {
        Some(node) => cover_acted(keys, alloc, number, node, acted, shown.letters.as_slice()),
        None => Ok(()),
    }
}
