//! What is kept of each manager: a number, that of manager 0 first.

ghost use Rattle.std.specs.Prelude.{◌≡◌, ◌<◌, ◌≤◌, ◌==◌, count_by, length, replicate, IfOk};
ghost use Rattle.hk_node.specs.Heard.{raised, is_greatest, has_majority};

use hk_base::{Memory, Sequence};
use std::alloc::Global;

/// The same number of each manager.
pub(crate) fn of_each(alloc: Global, managers: u8, value: u64) -> Result<Sequence<u64>, Memory>
    ensures { IfOk result (λ kept. kept ≡ replicate managers value) }
{
    let kept = vec![in alloc; value; usize::from(managers)]?;
    Ok(Sequence::from_vec(kept))
}

/// The same numbers.
pub(crate) fn share(alloc: Global, kept: &Sequence<u64>) -> Result<Sequence<u64>, Memory>
    ensures { IfOk result (λ same. same ≡ kept.now) }
{
    let same = kept.as_slice().to_vec(alloc)?;
    Ok(Sequence::from_vec(same))
}

/// The numbers, with that of one manager risen to the value, if it was less.
pub(crate) fn raised(
    alloc: Global,
    kept: &Sequence<u64>,
    manager: u8,
    value: u64,
) -> Result<Sequence<u64>, Memory>
    requires { manager < length kept.now }
    ensures { IfOk result (λ numbers. numbers ≡ raised manager value kept.now) }
{
    let mut numbers = kept.as_slice().to_vec(alloc)?;
    let place = usize::from(manager);
    let greater = numbers[place].max(value);
    numbers[place] = greater;
    Ok(Sequence::from_vec(numbers))
}

/// Whether no manager's number is greater.
pub(crate) fn is_greatest(value: u64, kept: &Sequence<u64>) -> bool
    ensures { result ≡ is_greatest value kept.now }
{
    kept.as_slice().iter().all(|heard| *heard <= value)
}

// How many managers have just this number.
fn count(value: u64, kept: &[u64]) -> usize
    ensures count { result ≡ count_by (λ heard. heard == value) kept.now }
    ensures few { result ≤ length kept.now }
{
    kept.iter().filter(|heard| **heard == value).count()
}

/// Whether more than half of the managers have just this number.
pub(crate) fn has_majority(value: u64, kept: &Sequence<u64>) -> bool
    requires { length kept.now ≤ 9 }
    ensures { result ≡ has_majority value kept.now }
{
    kept.len() < 2 * count(value, kept.as_slice())
}
