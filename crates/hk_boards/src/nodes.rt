//! The nodes whose numbers have a holder.

ghost use Rattle.std.specs.Prelude.{◌≡◌, ◌++◌, ℕ, Bool, map, filter, OnOk, IfOk};
ghost use Rattle.std.specs.List.{flat_map, list_any};
ghost use Rattle.std.specs.List.Sorted.{IsStrictlyIncreasing};
ghost use Rattle.hk_boards.specs.Heard.{tells_ready};
ghost use Rattle.hk_boards.specs.Holders.{is_held, AreHeld, AreReady};
ghost use Rattle.hk_boards.specs.Gathering.{numbers_of, numbers_in, held_among};

use crate::boards::Boards;
use crate::heard::{HeardBoard, tells_ready};
use hk_base::{Memory, NodeId};
use hk_inside::{BoardLine, Party};
use std::alloc::Global;

fn put_number(numbers: &mut Vec<u16>, line: &BoardLine) -> Result<(), Memory>
    ensures { OnOk result (numbers.new.items ≡ numbers.old.items ++ numbers_of line.now) }
{
    match line.party {
        Party::Node(node) => {
            numbers.push(node.0)?;
            Ok(())
        }
        Party::Manager(_) => Ok(()),
        Party::Neither => Ok(()),
    }
}

fn put_each_number(numbers: &mut Vec<u16>, lines: &[BoardLine]) -> Result<(), Memory>
    ensures { OnOk result (numbers.new.items ≡ numbers.old.items ++ flat_map numbers_of lines.now) }
{
    for line in lines {
        put_number(numbers, line)?;
    }
    Ok(())
}

fn put_numbers(numbers: &mut Vec<u16>, heard: &Option<HeardBoard>) -> Result<(), Memory>
    ensures { OnOk result (numbers.new.items ≡ numbers.old.items ++ numbers_in heard.now) }
{
    match heard {
        Some(heard) => put_each_number(numbers, heard.board.lines.as_slice()),
        None => Ok(()),
    }
}

// Each of the numbers once, in rising order.
fn risen(mut numbers: Vec<u16>) -> Vec<u16>
    ensures rising { IsStrictlyIncreasing result.items }
    ensures same { (test : ℕ → Bool) → list_any test result.items ≡ list_any test numbers.items }
{
    numbers.sort_unstable();
    numbers.dedup();
    numbers
}

impl Boards {
    fn numbers(&self, alloc: Global) -> Result<Vec<u16>, Memory>
        ensures { IfOk result (λ numbers. numbers.items ≡ flat_map numbers_in self.now) }
    {
        let mut numbers = Vec::new(alloc);
        for heard in &self.heard {
            put_numbers(&mut numbers, heard)?;
        }
        Ok(numbers)
    }

    fn is_held(&self, founding: u64, node: NodeId) -> bool
        ensures { result ≡ is_held founding self.now node }
    {
        self.holder(founding, node).is_some()
    }

    fn held_among(
        &self,
        alloc: Global,
        founding: u64,
        numbers: &[u16],
    ) -> Result<Vec<NodeId>, Memory>
        ensures { IfOk result (λ nodes. nodes.items ≡ held_among founding self.now numbers.now) }
    {
        let nodes = numbers
            .iter()
            .filter(|number| self.is_held(founding, NodeId(**number)))
            .map(|number| NodeId(*number))
            .collect(alloc)?;
        Ok(nodes)
    }

    /// The nodes whose numbers have a holder, in rising order.
    pub fn nodes(&self, alloc: Global, founding: u64) -> Result<Vec<NodeId>, Memory>
        ensures { IfOk result (λ nodes. AreHeld founding self.now nodes.items) }
    {
        let numbers = risen(self.numbers(alloc)?);
        self.held_among(alloc, founding, numbers.as_slice())
    }

    fn is_told_ready(&self, founding: u64, node: NodeId) -> bool
        ensures { result ≡ list_any (tells_ready founding node) self.now }
    {
        self.heard
            .iter()
            .any(|heard| tells_ready(heard, founding, node))
    }

    fn keep_ready(&self, founding: u64, nodes: &mut Vec<NodeId>)
        ensures { nodes.new.items ≡ filter (λ node. list_any (tells_ready founding node) self.now) nodes.old.items }
    {
        nodes.retain(|node| self.is_told_ready(founding, *node));
    }

    /// The nodes whose numbers have a holder and of which some manager tells that they are members, and ready, in rising order.
    pub fn ready_nodes(&self, alloc: Global, founding: u64) -> Result<Vec<NodeId>, Memory>
        ensures { IfOk result (λ nodes. AreReady founding self.now nodes.items) }
    {
        let mut nodes = self.nodes(alloc, founding)?;
        self.keep_ready(founding, &mut nodes);
        Ok(nodes)
    }
}
