//! Acknowledgements of a pending update.

ghost use Rattle.std.specs.Prelude.{◌≡◌, ◌<◌, ◌++◌, ◌∷◌, [], false, length, position, slice_get, IfOk};
ghost use Rattle.std.specs.Option.{option_copied};

use hk_base::{Memory, NodeId, View};
use std::alloc::Global;
use std::marker::Model;

/// How many acknowledgements are noted at most. A view has 16 members, and a coordinator does not acknowledge itself.
pub const MAX_ACKS: usize = 16;

/// An acknowledgement that was noted.
#[derive(Clone, Copy, Debug, PartialEq, Eq)]
pub struct Ack {
    /// Who acknowledged.
    pub node: NodeId,
    /// Whether an acknowledgement of this node said that its row had the update's own stamp.
    pub exact: bool,
}

/// The acknowledgements of one update in one epoch, in the order in which their nodes first came. There is room for
/// all of them from the start, so that to note one takes no memory.
#[derive(Drop)]
pub struct Acks {
    items: Vec<Ack>,
}

impl Model for Acks {
    ghost use Rattle.std.specs.Prelude.{List, ◌≤◌, vec_len, vec_capacity};
    ghost use Rattle.hk_key.specs.declared.acks.Ack.{Ack};
    ghost use Rattle.hk_key.specs.declared.acks.TheConstants.{MAX_ACKS};

    ghost Value = { List Ack };

    ghost view = { λ a. a.items.items };

    ghost invariant = { λ a. (vec_len a.items ≤ MAX_ACKS) × (MAX_ACKS ≤ vec_capacity a.items) };
}

impl Acks {
    ghost use Rattle.hk_key.specs.Notes.{is_of, is_noted, all_noted, all_exact, note_in};
    ghost use Rattle.hk_key.specs.Same.{is_same_note};
    ghost use Rattle.std.specs.Cmp.Lexicographic.{pointwise};
    ghost use Rattle.hk_key.specs.declared.acks.TheConstants.{MAX_ACKS};

    /// No acknowledgements, and room for all.
    pub fn new(alloc: Global) -> Result<Acks, Memory>
        ensures { IfOk result (λ acks. acks ≡ []) }
    {
        let items = Vec::with_capacity(alloc, MAX_ACKS)?;
        Ok(Acks { items })
    }

    /// An equal list of acknowledgements, with room for all.
    pub fn copy(&self, alloc: Global) -> Result<Acks, Memory>
        ensures { IfOk result (λ acks. acks ≡ self.now) }
    {
        let mut acks = Acks::new(alloc)?;
        for ack in self.items.as_slice() {
            acks.add(ack.node, ack.exact);
        }
        Ok(acks)
    }

    pub fn len(&self) -> usize
        ensures { result ≡ length self.now }
    {
        self.items.len()
    }

    /// The acknowledgement at an index, counted from 0.
    pub fn get(&self, index: usize) -> Option<&Ack>
        ensures { option_copied result ≡ slice_get self.now index }
    {
        self.items.get(index)
    }

    fn place_of(&self, node: NodeId) -> Option<usize>
        ensures { result ≡ position (is_of node) self.now }
    {
        self.items.iter().position(|ack| ack.node.0 == node.0)
    }

    /// Whether the node is noted.
    pub fn has(&self, node: NodeId) -> bool
        ensures { result ≡ is_noted node self.now }
    {
        self.items.iter().any(|ack| ack.node.0 == node.0)
    }

    /// Whether each member of the view but `me` is noted.
    pub fn has_all(&self, me: NodeId, view: &View) -> bool
        ensures { result ≡ all_noted me view.now.members self.now }
    {
        view.members
            .as_slice()
            .iter()
            .all(|member| member.0 == me.0 || self.has(*member))
    }

    /// Whether each note is exact.
    pub fn are_exact(&self) -> bool
        ensures { result ≡ all_exact self.now }
    {
        self.items.iter().all(|ack| ack.exact)
    }

    /// Whether the other list notes the same nodes in the same order, each alike exact.
    pub fn is_same(&self, other: &Acks) -> bool
        ensures { result ≡ pointwise is_same_note self.now other.now }
    {
        self.items.as_slice() == other.items.as_slice()
    }

    fn add(&mut self, node: NodeId, exact: bool)
        requires { length self.old < MAX_ACKS }
        ensures { self.new ≡ self.old ++ record { node = node; exact = exact } ∷ [] }
    {
        self.items.push_reserved(Ack { node, exact });
    }

    /// Notes an acknowledgement of the node. It stays exact once it was.
    pub fn note(&mut self, node: NodeId, exact: bool)
        requires room { is_noted node self.old ≡ false → length self.old < MAX_ACKS }
        ensures exact { self.new ≡ note_in node exact self.old }
    {
        match self.place_of(node) {
            Some(at) => {
                let ack = self.items[at];
                let sharp = ack.exact || exact;
                self.items[at] = Ack {
                    node: ack.node,
                    exact: sharp,
                };
            }
            None => self.add(node, exact),
        }
    }

    /// Drops all notes, and keeps the room.
    pub fn clear(&mut self)
        ensures { self.new ≡ [] }
    {
        self.items.clear();
    }
}
