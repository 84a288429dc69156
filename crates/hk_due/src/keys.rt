//! The keys of open rows.

ghost use Rattle.std.specs.Prelude.{◌≡◌, ◌⊎◌, [], true, Some, None, IsTrue, IfOk, OnOk, OnErr};
ghost use Rattle.std.specs.List.{find, filter};
ghost use Rattle.std.specs.Option.{option_map, option_copied};
ghost use Rattle.hk_node.specs.Index.{is_open_at};
ghost use Rattle.hk_due.specs.Due.{due_key, due_of};
ghost use Rattle.hk_due.specs.Keys.{since_of, AreOthersSame, IsKept, IsMissed, IsLetGo, IsNoted, AreOpen, is_later, is_due, next_due};

use crate::due::{Due, due_at, is_open};
use hk_base::{Key, Memory};
use hk_node::Node;
use std::alloc::Global;
use std::collections::BTreeMap;
use std::marker::Model;
use std::ops::Bound;

/// The keys whose rows are open, which are those that are not Valid. Contracts see each with the ticket of the step since which it is open, in the order of
/// the keys, and whether none is missing.
#[derive(Drop)]
pub struct OpenKeys {
    since: BTreeMap<Key, u64>,
    whole: bool,
}

impl Model for OpenKeys {
    ghost use Rattle.hk_due.specs.Keys.{OpenState};

    ghost Value = { OpenState };

    ghost view = { λ o. record { since = o.since.entries; whole = o.whole } };
}

// The first key that is open since a step up to `before`.
fn first_due(since: &BTreeMap<Key, u64>, before: u64) -> Option<&Key>
    ensures { option_copied result ≡ option_map (λ e. e.0) (find (is_due before) since.now.entries) }
{
    for (key, ticket) in since.iter() {
        if *ticket <= before {
            return Some(key);
        }
    }
    None
}

// The first one behind a key.
fn due_behind<'a>(since: &'a BTreeMap<Key, u64>, after: &Key, before: u64) -> Option<&'a Key>
    ensures { option_copied result ≡ option_map (λ e. e.0) (find (is_due before) (filter (is_later (Some after.now)) since.now.entries)) }
{
    for (key, ticket) in since.range((Bound::Excluded(after), Bound::Unbounded)) {
        if *ticket <= before {
            return Some(key);
        }
    }
    None
}

impl OpenKeys {
    /// No key, as of a node that has no rows yet. It takes no memory.
    pub fn new(alloc: Global) -> OpenKeys
        ensures { result ≡ record { since = []; whole = true } }
    {
        OpenKeys {
            since: BTreeMap::new(alloc),
            whole: true,
        }
    }

    // The key is open: it keeps its ticket, or gets this one.
    fn keep(&mut self, key: &Key, ticket: u64) -> Result<(), Memory>
        ensures kept { OnOk result (IsKept key.now ticket self.old self.new × AreOthersSame key.now self.old self.new) }
        ensures err { OnErr result (self.new ≡ self.old) }
        ensures absent { OnErr result (since_of key.now self.old ≡ None) }
    {
        if self.since.contains_key(key) {
            return Ok(());
        }
        let key = key.share()?;
        self.since.insert(key, ticket)?;
        Ok(())
    }

    // The same, but where memory is wanting the key is missing.
    fn keep_or_miss(&mut self, key: &Key, ticket: u64)
        ensures here { IsKept key.now ticket self.old self.new ⊎ IsMissed key.now self.old self.new }
        ensures others { AreOthersSame key.now self.old self.new }
    {
        if let Err(Memory) = self.keep(key, ticket) {
            self.whole = false;
        }
    }

    // The key is open no longer.
    fn let_go(&mut self, key: &Key)
        ensures here { IsLetGo key.now self.old self.new }
        ensures others { AreOthersSame key.now self.old self.new }
    {
        self.since.remove(key);
    }

    /// A step of this ticket changed the key's row, which was found open behind it, or was not. Where memory is wanting for an open one, it is missing from then
    /// on. It looks at no row.
    pub fn note(&mut self, key: &Key, found_open: bool, ticket: u64)
        ensures { IsNoted key.now found_open ticket self.old self.new }
    {
        if found_open {
            self.keep_or_miss(key, ticket);
        } else {
            self.let_go(key);
        }
    }

    /// Whether the key's row is open at the node `part`, of whose open rows these are the keys. It looks at no row, unless keys are missing.
    pub fn is_open(&self, part: &Node, key: &Key) -> bool
        requires { AreOpen self.now part.now.rows }
        ensures { result ≡ is_open_at part.now.rows key.now }
    {
        if self.whole {
            self.since.contains_key(key)
        } else {
            is_open(part, key)
        }
    }

    /// The least key behind this one, or of all, that is open since a step of a ticket up to `before`. It looks at no row.
    pub fn next_due(&self, after: Option<&Key>, before: u64) -> Option<&Key>
        ensures { option_copied result ≡ next_due (option_copied after.entry) before self.now }
    {
        match after {
            Some(after) => due_behind(&self.since, after, before),
            None => first_due(&self.since, before),
        }
    }

    // The same. Where keys are missing, it is the least one whose row is open.
    fn due_key<'a>(&'a self, part: &'a Node, after: Option<&Key>, before: u64) -> Option<&'a Key>
        ensures { option_copied result ≡ due_key (option_copied after.entry) before self.now part.now.rows }
    {
        if self.whole {
            self.next_due(after, before)
        } else {
            part.open(after)
        }
    }

    /// What is to be sent again of the least key behind this one, or of all, that is open at the node since a step of a ticket up to `before`. It looks at no row
    /// but that key's, unless keys are missing.
    pub fn due(&self, part: &Node, after: Option<&Key>, before: u64) -> Result<Option<Due>, Memory>
        ensures { IfOk result (λ due. due ≡ due_of (option_copied after.entry) before self.now part.now.rows) }
    {
        match self.due_key(part, after, before) {
            Some(key) => {
                let due = due_at(part, key)?;
                Ok(Some(due))
            }
            None => Ok(None),
        }
    }

    /// Whether no row is open: no key is here, and none is missing.
    pub fn is_empty(&self) -> bool
        ensures { IsTrue result → (self.now.since ≡ []) × (self.now.whole ≡ true) }
    {
        self.whole && self.since.is_empty()
    }

    /// Whether no key is missing.
    pub fn is_whole(&self) -> bool
        ensures { result ≡ self.now.whole }
    {
        self.whole
    }
}
