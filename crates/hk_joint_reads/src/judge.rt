//! The checks of a read of several keys, in their order.

ghost use Rattle.std.specs.Prelude.{◌≡◌, IfOk};
ghost use Rattle.hk_joint_reads.specs.Reads.{elsewhere, moved, busy, shown_busy, large, large_by, first_told, snapshots, unfound, joint_of};
ghost use Rattle.hk_joint_reads.specs.Checks.{told_by};
ghost use Rattle.hk_snap.specs.Snapshots.{is_large};

use crate::look::KeyLoads;
use crate::read::{Joint, Snapshots};
use hk_base::{Memory, State, Why};
use hk_snap::{Shape, Snapshot, is_past};
use std::alloc::Global;

/// What is looked for in the loads of each key.
#[derive(Clone, Copy, Debug, PartialEq, Eq)]
pub(crate) enum Check {
    Elsewhere,
    Moved,
    Busy { end: u64, now: u64, skew: u64 },
    Large,
}

fn elsewhere(look: &KeyLoads) -> Result<Option<Joint>, Memory>
    ensures { IfOk result (λ told. told ≡ elsewhere look.now) }
{
    if look.first.is_some() && look.second.is_some() {
        return Ok(None);
    }
    let key = look.key.share()?;
    Ok(Some(Joint::Elsewhere { key }))
}

fn moved(look: &KeyLoads) -> Result<Option<Joint>, Memory>
    ensures { IfOk result (λ told. told ≡ moved look.now) }
{
    let Some(first) = look.first else {
        return Ok(None);
    };
    let Some(shown) = &look.second else {
        return Ok(None);
    };
    if first == shown.ticket {
        return Ok(None);
    }
    let key = look.key.share()?;
    Ok(Some(Joint::Moved {
        key,
        first,
        second: shown.ticket,
    }))
}

fn shown_busy(shown: &Option<Snapshot>) -> Option<Joint>
    ensures { result ≡ shown_busy shown.now }
{
    let Some(shown) = shown else {
        return None;
    };
    match shown.state {
        State::Valid => None,
        state => Some(Joint::Busy(Why::Row {
            state,
            stamp: shown.stamp,
        })),
    }
}

fn busy(end: u64, now: u64, skew: u64, look: &KeyLoads) -> Option<Joint>
    ensures { result ≡ busy end now skew look.now }
{
    if is_past(end, now, skew) {
        return Some(Joint::Busy(Why::Lease { end, now }));
    }
    shown_busy(&look.second)
}

fn is_large(shape: &Shape) -> bool
    ensures { result ≡ is_large shape.now }
{
    matches!(shape, Shape::Large)
}

fn large(look: &KeyLoads) -> Result<Option<Joint>, Memory>
    ensures { IfOk result (λ told. told ≡ large look.now) }
{
    let Some(shown) = &look.second else {
        return Ok(None);
    };
    if !is_large(&shown.shape) {
        return Ok(None);
    }
    let key = look.key.share()?;
    Ok(Some(Joint::Large { key }))
}

impl Check {
    // What the check tells of a key.
    fn tell(self, look: &KeyLoads) -> Result<Option<Joint>, Memory>
        ensures { IfOk result (λ told. told ≡ told_by self look.now) }
    {
        match self {
            Check::Elsewhere => elsewhere(look),
            Check::Moved => moved(look),
            Check::Busy { end, now, skew } => Ok(busy(end, now, skew, look)),
            Check::Large => large(look),
        }
    }

    // What the check tells of the first key of which it tells something.
    fn tell_first(self, looks: &[KeyLoads]) -> Result<Option<Joint>, Memory>
        ensures { IfOk result (λ told. told ≡ first_told (told_by self) looks.now) }
    {
        for look in looks {
            let told = self.tell(look)?;
            if told.is_some() {
                return Ok(told);
            }
        }
        Ok(None)
    }
}

// What the first check tells that tells something.
fn unfound(looks: &[KeyLoads], end: u64, now: u64, skew: u64) -> Result<Option<Joint>, Memory>
    ensures { IfOk result (λ told. told ≡ unfound looks.now end now skew) }
{
    let told = Check::Elsewhere.tell_first(looks)?;
    if told.is_some() {
        return Ok(told);
    }
    let told = Check::Moved.tell_first(looks)?;
    if told.is_some() {
        return Ok(told);
    }
    let told = Check::Busy { end, now, skew }.tell_first(looks)?;
    if told.is_some() {
        return Ok(told);
    }
    Check::Large.tell_first(looks)
}

fn same_shape(shape: &Shape) -> Result<Shape, Memory>
    ensures { IfOk result (λ same. same ≡ shape.now) }
{
    match shape {
        Shape::Small(content) => {
            let content = content.share()?;
            Ok(Shape::Small(content))
        }
        Shape::Large => Ok(Shape::Large),
        Shape::Missing => Ok(Shape::Missing),
    }
}

// The same snapshot, which shares its key and its content.
fn same(snapshot: &Snapshot) -> Result<Snapshot, Memory>
    ensures { IfOk result (λ same. same ≡ snapshot.now) }
{
    let key = snapshot.key.share()?;
    let shape = same_shape(&snapshot.shape)?;
    Ok(Snapshot {
        key,
        state: snapshot.state,
        stamp: snapshot.stamp,
        ticket: snapshot.ticket,
        shape,
    })
}

// The snapshots that the second loads showed.
fn snapshots(alloc: Global, looks: &[KeyLoads]) -> Result<Snapshots, Memory>
    ensures { IfOk result (λ found. found ≡ snapshots looks.now) }
{
    let mut found = Snapshots::new(alloc);
    for look in looks {
        if let Some(shown) = &look.second {
            found.push(same(shown)?)?;
        }
    }
    Ok(found)
}

/// What the loads of all keys tell.
pub(crate) fn judge(
    alloc: Global,
    looks: &[KeyLoads],
    end: u64,
    now: u64,
    skew: u64,
) -> Result<Joint, Memory>
    ensures { IfOk result (λ joint. joint ≡ joint_of looks.now end now skew) }
{
    match unfound(looks, end, now, skew)? {
        Some(told) => Ok(told),
        None => {
            let found = snapshots(alloc, looks)?;
            Ok(Joint::Found(found))
        }
    }
}
