//! A map by the numbers of calls, with its newest entry beside it.

ghost use Rattle.std.specs.Prelude.{◌≡◌, [], Some, None, OnOk, OnErr, IfErr};
ghost use Rattle.std.specs.Borrow.{sem};
ghost use Rattle.std.specs.List.Sorted.{IsStrictlySortedBy};
ghost use Rattle.std.specs.Map.{keys_of};
ghost use Rattle.std.specs.Option.{option_copied, option_copied_mut};
ghost use Rattle.hk_by_call.specs.Kept.{by_number, kept_for, kept_with, kept_without, all_kept, is_newest, newest_value, AreOthersSame};
ghost use Rattle.hk_by_call.specs.Lending.{lends_value};

use hk_base::{CallNo, Memory};
use std::alloc::Global;
use std::collections::BTreeMap;
use std::marker::Model;

/// What is kept for calls, by their numbers. Contracts see each call with its own, in rising order of the numbers.
#[derive(Drop)]
pub struct ByCall<V> {
    /// The newest stands beside the map until another one comes: most calls are answered at once, and theirs never come
    /// to the map.
    newest: Option<(CallNo, V)>,
    kept: BTreeMap<CallNo, V>,
}

impl<V> Model for ByCall<V> {
    ghost use Rattle.std.specs.Prelude.{List};
    ghost use Rattle.hk_base.specs.declared.call.CallNo.{CallNo};

    ghost Value = { List (CallNo × V) };

    ghost use Rattle.hk_by_call.specs.Kept.{all_kept, AreApart};

    ghost view = { λ b. all_kept b.newest b.kept.entries };

    ghost invariant = { λ b. AreApart b.newest b.kept.entries };
}

// Whether this is the newest call.
fn is_newest<V>(newest: &Option<(CallNo, V)>, call: CallNo) -> bool
    ensures { result ≡ is_newest newest.now call }
{
    match newest {
        Some(entry) => entry.0 == call,
        None => false,
    }
}

// What is kept for the newest.
fn newest_value<V>(newest: &Option<(CallNo, V)>) -> Option<&V>
    ensures { option_copied result ≡ newest_value newest.now }
{
    match newest {
        Some(entry) => Some(&entry.1),
        None => None,
    }
}

// Takes the newest out.
fn take_newest<V: Drop>(newest: &mut Option<(CallNo, V)>) -> Option<V>
    ensures value { result ≡ newest_value newest.old }
    ensures gone { newest.new ≡ None }
{
    match newest.take() {
        Some(entry) => Some(entry.1),
        None => None,
    }
}

// Puts the newest into the map, if there is one.
fn settle<V: Drop>(
    newest: &mut Option<(CallNo, V)>,
    kept: &mut BTreeMap<CallNo, V>,
) -> Result<(), Memory>
    requires { IsStrictlySortedBy by_number (keys_of kept.old.entries) }
    ensures free { OnOk result (newest.new ≡ None) }
    ensures put { OnOk result (kept.new.entries ≡ all_kept newest.old kept.old.entries) }
    ensures rises { OnOk result (IsStrictlySortedBy by_number (keys_of kept.new.entries)) }
    ensures same { OnErr result (newest.new ≡ newest.old) }
    ensures err { OnErr result (kept.new.entries ≡ kept.old.entries) }
{
    let Some(entry) = newest.take() else {
        return Ok(());
    };
    match kept.insert(entry.0, entry.1) {
        Ok(_) => Ok(()),
        Err(refused) => {
            *newest = Some(refused.value);
            Err(Memory)
        }
    }
}

impl<V: Drop> ByCall<V> {
    /// Nothing is kept. It takes no memory.
    pub fn new(alloc: Global) -> ByCall<V>
        ensures { result ≡ [] }
    {
        ByCall {
            newest: None,
            kept: BTreeMap::new(alloc),
        }
    }

    /// What is kept for the call, if anything is.
    pub fn get(&self, call: CallNo) -> Option<&V>
        ensures { option_copied result ≡ kept_for self.now call }
    {
        if is_newest(&self.newest, call) {
            return newest_value(&self.newest);
        }
        self.kept.get(&call)
    }

    /// What is kept for the call, for a change in place.
    pub fn get_mut(&mut self, call: CallNo) -> Option<&mut V>
        ensures* writes_back { sem 𝓛 (lends_value V.row self.entry call result) }
        ensures value { option_copied_mut result ≡ kept_for self.old call }
    {
        if !is_newest(&self.newest, call) {
            return self.kept.get_mut(&call);
        }
        match &mut self.newest {
            Some(entry) => Some(&mut entry.1),
            None => None,
        }
    }

    /// Keeps this for a call that has nothing. Where that finds no memory it comes back.
    pub fn insert(&mut self, call: CallNo, value: V) -> Result<(), V>
        requires { kept_for self.old call ≡ None }
        ensures exact { OnOk result (self.new ≡ kept_with self.old call value) }
        ensures kept { OnOk result (kept_for self.new call ≡ Some value) }
        ensures others { AreOthersSame call (kept_for self.old) (kept_for self.new) }
        ensures err { OnErr result (self.new ≡ self.old) }
        ensures back { IfErr result (λ back. back ≡ value) }
    {
        match settle(&mut self.newest, &mut self.kept) {
            Ok(()) => {
                self.newest = Some((call, value));
                Ok(())
            }
            Err(_) => Err(value),
        }
    }

    /// Takes out what is kept for the call, and gives it. It takes no memory.
    pub fn remove(&mut self, call: CallNo) -> Option<V>
        ensures value { result ≡ kept_for self.old call }
        ensures exact { self.new ≡ kept_without self.old call }
        ensures gone { kept_for self.new call ≡ None }
        ensures others { AreOthersSame call (kept_for self.old) (kept_for self.new) }
    {
        if is_newest(&self.newest, call) {
            return take_newest(&mut self.newest);
        }
        self.kept.remove(&call)
    }
}
