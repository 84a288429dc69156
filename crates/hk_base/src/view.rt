//! Views, which say who the members of a group are, and the ballots by which managers agree on them.

ghost use Rattle.std.specs.Prelude.{◌≡◌, ◌≤◌, IfOk};
ghost use Rattle.hk_base.specs.View.{IsView, counted, first_view, is_member};

use crate::memory::Memory;
use crate::sequence::Sequence;
use crate::stamp::NodeId;
use std::alloc::Global;

/// The members of a view, in rising order.
pub type Members = Sequence<NodeId>;

/// Who the members are in an epoch, and the number that the next joiner takes.
#[derive(Drop)]
pub struct View {
    pub epoch: u64,
    pub members: Members,
    pub next: u32,
}

// So many numbers from 0 on.
fn counted(alloc: Global, nodes: u8) -> Result<Vec<NodeId>, Memory>
    ensures { IfOk result (λ ids. ids.items ≡ counted 0 nodes) }
{
    let mut ids = Vec::new(alloc);
    for number in 0..nodes {
        ids.push(NodeId(u16::from(number)))?;
    }
    Ok(ids)
}

impl View {
    /// The first view of a group of so many nodes: they are numbered from 0 on, and all are members.
    #[tactic(auto, using(crate::proofs::Counting::first_is_view))]
    pub fn first(alloc: Global, nodes: u8) -> Result<View, Memory>
        ensures exact { IfOk result (λ view. view ≡ first_view nodes) }
        ensures is_view { 1 ≤ nodes → nodes ≤ 16 → IfOk result IsView }
    {
        let members = counted(alloc, nodes)?;
        Ok(View {
            epoch: 1,
            members: Sequence::from_vec(members),
            next: u32::from(nodes),
        })
    }

    /// An equal view.
    pub fn copy(&self, alloc: Global) -> Result<View, Memory>
        ensures { IfOk result (λ view. view ≡ self.now) }
    {
        let members = self.members.as_slice().to_vec(alloc)?;
        Ok(View {
            epoch: self.epoch,
            members: Sequence::from_vec(members),
            next: self.next,
        })
    }

    /// Whether the node is a member.
    pub fn has_member(&self, node: NodeId) -> bool
        ensures { result ≡ is_member node self.now.members }
    {
        self.members.as_slice().contains(&node)
    }
}

/// An equal view, if there is one.
pub fn copy_view(alloc: Global, view: &Option<View>) -> Result<Option<View>, Memory>
    ensures { IfOk result (λ same. same ≡ view.now) }
{
    match view {
        Some(view) => {
            let same = view.copy(alloc)?;
            Ok(Some(same))
        }
        None => Ok(None),
    }
}

/// How the next view differs from the one before it.
#[derive(Clone, Copy, Debug, PartialEq, Eq)]
pub enum Change {
    /// This member leaves. Its number is never given again.
    Drop(NodeId),
    /// The node of the next number joins.
    Add,
}

/// The number of a proposal: by round, then by the manager that made it.
#[derive(Clone, Copy, Debug, PartialEq, Eq, PartialOrd, Ord)]
pub struct Ballot {
    pub round: u32,
    pub manager: u8,
}

/// A view that an acceptor accepted, and the ballot at which it did.
#[derive(Drop)]
pub struct Voted {
    pub ballot: Ballot,
    pub view: View,
}
