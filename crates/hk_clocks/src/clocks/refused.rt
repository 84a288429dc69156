//! Why clocks do not rise.

ghost use Rattle.std.specs.Prelude.{◌≡◌, ◌≤◌, ◌-◌};
ghost use Rattle.std.specs.List.{AllByRecursion, find, list_any};
ghost use Rattle.std.specs.Option.{option_map};
ghost use Rattle.hk_base.specs.declared.time.TheConstants.{MAX_TIME};
ghost use Rattle.hk_clocks.specs.Steps.{runs_apart, greatest_clock};
ghost use Rattle.hk_clocks.specs.declared.rise.Rise.TheVariants.{All};
ghost use Rattle.hk_clocks.specs.Sound.{AreBounded, AreClocks, IsRise};

use crate::pace::Pace;
use crate::rise::Rise;
use hk_base::Actor;
use std::collections::BTreeMap;

// Whether the first clock would run ahead of the other one by more than the skew.
fn runs_apart(skew: u64, rise: Rise, actor: Actor, pace: &Pace, other: Actor, theirs: &Pace) -> bool
    requires skew { skew ≤ MAX_TIME }
    requires rise { IsRise rise }
    requires bounded { AreBounded (actor, pace.now) }
    ensures { result ≡ runs_apart skew rise (actor, pace.now) (other, theirs.now) }
{
    let ahead = rise.elapsed(actor, pace.clock);
    let behind = rise.elapsed(other, theirs.clock);
    1100 * behind + 1000 * skew < pace.leads.over(other) + 1000 * ahead
}

/// The clock of the first live actor that this one would leave too far behind.
pub(super) fn first_behind(
    skew: u64,
    rise: Rise,
    paces: &BTreeMap<Actor, Pace>,
    actor: Actor,
    pace: &Pace,
) -> Option<u64>
    requires skew { skew ≤ MAX_TIME }
    requires rise { IsRise rise }
    requires bounded { AreBounded (actor, pace.now) }
    ensures { result ≡ option_map (λ q. q.1.clock) (find (runs_apart skew rise (actor, pace.now)) paces.now.entries) }
{
    for (other, theirs) in paces.iter() {
        if runs_apart(skew, rise, actor, pace, *other, theirs) {
            return Some(theirs.clock);
        }
    }
    None
}

// Whether some live actor would leave this one too far behind.
fn is_left(
    skew: u64,
    rise: Rise,
    paces: &BTreeMap<Actor, Pace>,
    other: Actor,
    theirs: &Pace,
) -> bool
    requires skew { skew ≤ MAX_TIME }
    requires rise { IsRise rise }
    requires bounded { AllByRecursion AreBounded paces.now.entries }
    ensures { result ≡ list_any (λ p. runs_apart skew rise p (other, theirs.now)) paces.now.entries }
{
    for (actor, pace) in paces.iter() {
        if runs_apart(skew, rise, *actor, pace, other, theirs) {
            return true;
        }
    }
    false
}

// The clock of the first that some live one would leave too far behind, looked for among all pairs.
fn first_of_all(skew: u64, rise: Rise, paces: &BTreeMap<Actor, Pace>) -> Option<u64>
    requires skew { skew ≤ MAX_TIME }
    requires rise { IsRise rise }
    requires bounded { AllByRecursion AreBounded paces.now.entries }
    ensures { result ≡ option_map (λ q. q.1.clock) (find (λ q. list_any (λ p. runs_apart skew rise p q) paces.now.entries) paces.now.entries) }
{
    for (other, left) in paces.iter() {
        if is_left(skew, rise, paces, *other, left) {
            return Some(left.clock);
        }
    }
    None
}

/// The clock of the first live actor that some live one would leave too far behind where all clocks came to `to`. No clock rises by
/// less than `slowest`. Where none rises by more than eleven tenths of that, all leads fall, and pairs are not looked at.
pub(super) fn first_left(
    skew: u64,
    to: u64,
    slowest: u64,
    paces: &BTreeMap<Actor, Pace>,
) -> Option<u64>
    requires to { to ≤ MAX_TIME }
    requires slowest { slowest ≤ MAX_TIME }
    requires clocks { AreClocks (record { skew = skew; paces = paces.now.entries }) }
    requires rising { AllByRecursion (λ q. slowest ≤ to - q.1.clock) paces.now.entries }
    ensures { result ≡ option_map (λ q. q.1.clock) (find (λ q. list_any (λ p. runs_apart skew (All to) p q) paces.now.entries) paces.now.entries) }
{
    let fastest = to.saturating_sub(least_clock(to, paces));
    if 1000 * fastest <= 1100 * slowest {
        return None;
    }
    first_of_all(skew, Rise::All { to }, paces)
}

// The least clock of a live actor, but at most `high`.
fn least_clock(high: u64, paces: &BTreeMap<Actor, Pace>) -> u64
    ensures bound { result ≤ high }
    ensures least { AllByRecursion (λ p. result ≤ p.1.clock) paces.now.entries }
{
    let mut least = high;
    for (_actor, pace) in paces.iter() {
        least = least.min(pace.clock);
    }
    least
}

/// The greatest clock of a live actor, but at least `low`.
pub(super) fn greatest_clock(low: u64, paces: &BTreeMap<Actor, Pace>) -> u64
    ensures { result ≡ greatest_clock low paces.now.entries }
{
    let mut greatest = low;
    for (_actor, pace) in paces.iter() {
        greatest = greatest.max(pace.clock);
    }
    greatest
}
