//! Views that are installed.

ghost use Rattle.std.specs.Prelude.{◌≡◌, length, true, ◌&&◌, Some, nat_lt, IfOk, OnOk, OnErr};
ghost use Rattle.hk_base.specs.View.{IsView, is_member};
ghost use Rattle.hk_node.specs.Node.{epoch_of};
ghost use Rattle.hk_node.specs.Steps.{installs};
ghost use Rattle.hk_node.specs.Outs.{IsOutOf};

use super::Node;
use crate::heard::share;
use crate::out::{NodeOut, StepReplies};
use crate::put::{give_rows_back, mend};
use crate::report::{Report, Undo};
use crate::viewed::view_rows;
use hk_base::{Memory, Sequence, View};
use std::alloc::Global;
use std::mem;

impl Node {
    /// Whether it is a later view that has the node as a member.
    pub(super) fn installs(&self, view: &View) -> bool
        ensures { result ≡ (nat_lt (epoch_of self.now) view.now.epoch && is_member self.now.id view.now.members) }
    {
        self.epoch() < view.epoch && view.has_member(self.id)
    }

    /// Installs such a view, and keeps these ACTIVATEs.
    pub(super) fn install_view(
        &mut self,
        alloc: Global,
        view: &View,
        activated: Sequence<u64>,
    ) -> Result<NodeOut, Memory>
        requires view { IsView view.now }
        requires activated { length activated ≡ self.old.managers }
        requires later { (nat_lt (epoch_of self.old) view.now.epoch && is_member self.old.id view.now.members) ≡ true }
        ensures node { OnOk result (self.new ≡ (installs (record self.old { activated = activated }) view.now).node) }
        ensures out { IfOk result (λ out. IsOutOf out self.old (installs (record self.old { activated = activated }) view.now)) }
        ensures err { OnErr result (self.new ≡ self.old) }
    {
        let epoch = self.epoch();
        let same = view.copy(alloc)?;
        mend(&mut self.index, self.whole, &self.rows)?;
        self.whole = true;
        let viewed = view_rows(&self.rows, &self.index, alloc, self.id, view)?;
        let view_before = mem::replace(&mut self.view, Some(same));
        let activated_before = mem::replace(&mut self.activated, activated);
        give_rows_back(&mut self.rows, viewed.fresh.into_vec());
        Ok(NodeOut {
            letters: viewed.letters,
            replies: StepReplies::many(viewed.replies),
            installed: Some(view.epoch),
            report: Report {
                epoch,
                readied: false,
                rows: viewed.prior,
            },
            undo: Undo::View {
                view: view_before,
                activated: activated_before,
            },
        })
    }

    /// Installs a later view that has the node as a member. Every pending update drops its acknowledgements and is sent
    /// again. Any other view is passed over.
    #[inline(never)]
    pub(super) fn install(&mut self, alloc: Global, view: &View) -> Result<NodeOut, Memory>
        requires { IsView view.now }
        ensures node { OnOk result (self.new ≡ (installs self.old view.now).node) }
        ensures out { IfOk result (λ out. IsOutOf out self.old (installs self.old view.now)) }
        ensures err { OnErr result (self.new ≡ self.old) }
    {
        if !self.installs(view) {
            return Ok(self.idle(alloc));
        }
        let activated = share(alloc, &self.activated)?;
        self.install_view(alloc, view, activated)
    }
}
