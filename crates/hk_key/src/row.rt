//! A row and its steps.

ghost use Rattle.std.specs.Prelude.{◌≡◌, Some, None, [], false, IfOk, IfSome, OnErr, OnOk};
ghost use Rattle.hk_base.specs.declared.call.State.TheVariants as of_state;
ghost use Rattle.hk_key.specs.Table.{sent_out, no_out};
ghost use Rattle.hk_key.specs.Notes.{all_noted};
ghost use Rattle.hk_key.specs.declared.out.Aim.TheVariants.{Others};
ghost use Rattle.hk_key.specs.declared.out.What.TheVariants.{Val};

use crate::acks::Acks;
use crate::boxed::BoxedPending;
use crate::out::{Aim, Out, Sending, What};
use hk_base::{
    Answer, Content, CopyItem, Kind, Memory, NodeId, Reply, Stamp, State, View, share_content,
};
use std::alloc::Global;
use std::cmp::Ordering;

/// An update that waits for acknowledgements.
#[derive(Drop)]
pub struct Pending {
    /// The call with its answer, kept from begin on. A replay has none.
    pub reply: Option<Reply>,
    pub stamp: Stamp,
    pub kind: Kind,
    /// What it leaves. Only a read-modify-write leaves nothing.
    pub content: Option<Content>,
    /// Who acknowledged it in this epoch.
    pub acks: Acks,
}

/// What a node has of one key. A key without a row counts as [`Row::first`].
// A store has a row for each key, and few of them wait: so the small fields stand together, and a pending update in a
// place of its own. A row takes 72 bytes.
#[derive(Drop)]
pub struct Row {
    pub state: State,
    /// The kind of the greatest update that was taken.
    pub kind: Kind,
    /// Whether VAL of the row's stamp came while the row was in Trans.
    pub kept_val: bool,
    /// The stamp of that update.
    pub stamp: Stamp,
    /// What it left. A row holds nothing at `0.0`, or where a read-modify-write took the content away.
    pub content: Option<Content>,
    /// At most one update of this node's own, or one that it replays.
    pub pending: Option<BoxedPending>,
}

fn sends(aim: Aim, what: What) -> Out
    ensures { result ≡ sent_out aim what }
{
    Out {
        send: Some(Sending { aim, what }),
        reply: None,
    }
}

fn nothing() -> Out
    ensures { result ≡ no_out }
{
    Out {
        send: None,
        reply: None,
    }
}

// An update of this stamp is complete and each of the others has it: VAL goes to them, and the call is answered.
fn settled(stamp: Stamp, reply: Reply) -> Out
    ensures { result ≡ record { send = Some (record { aim = Others; what = Val stamp }); reply = Some reply } }
{
    Out {
        send: Some(Sending {
            aim: Aim::Others,
            what: What::Val { stamp },
        }),
        reply: Some(reply),
    }
}

// Whether the view has no member but this node, so that an update is complete as it begins.
#[tactic(auto, using(crate::proofs::Alone::alone))]
fn is_alone(me: NodeId, view: &View) -> bool
    ensures { result ≡ all_noted me view.now.members [] }
{
    view.members
        .as_slice()
        .iter()
        .all(|member| member.0 == me.0)
}

impl Row {
    ghost use Rattle.hk_base.specs.View.{IsView};
    ghost use Rattle.hk_base.specs.Range.{IsWithin, Leaves};
    ghost use Rattle.hk_key.specs.Notes.{note_in, all_exact, all_noted};
    ghost use Rattle.hk_key.specs.Sound.{IsSound, IsOther};
    ghost use Rattle.hk_key.specs.Table.{first_row, still, completed, started, begin, replay, displaced, given_up, on_inv, on_ack, on_val, on_view, on_copy, resend};

    /// The row of a key that nothing has touched: Valid, `0.0`, kind Write, no content.
    pub fn first() -> Row
        ensures { result ≡ first_row }
    {
        Row {
            state: State::Valid,
            kind: Kind::Write,
            kept_val: false,
            stamp: Stamp {
                version: 0,
                node: 0,
            },
            content: None,
            pending: None,
        }
    }

    // The row takes an update, which is not pending yet.
    fn hold(&mut self, state: State, stamp: Stamp, kind: Kind, content: Option<Content>)
        ensures { self.new ≡ record { state = state; kind = kind; kept_val = false; stamp = stamp; content = content; pending = None } }
    {
        *self = Row {
            state,
            kind,
            kept_val: false,
            stamp,
            content,
            pending: None,
        };
    }

    // The pending update, which was taken out of the row, is complete.
    fn complete(&mut self, pending: BoxedPending) -> Out
        requires row { IsWithin self.old.stamp }
        requires pending { IsWithin pending.stamp }
        requires gone { self.old.pending ≡ None }
        ensures row { self.new ≡ (completed self.old pending).row }
        ensures out { result ≡ (completed self.old pending).out }
    {
        let pending = pending.into_inner();
        let own = self.stamp.tag() == pending.stamp.tag();
        let exact = pending.acks.are_exact();
        match (own, exact) {
            (true, true) => {
                self.state = State::Valid;
                Out {
                    send: Some(Sending {
                        aim: Aim::Others,
                        what: What::Val {
                            stamp: pending.stamp,
                        },
                    }),
                    reply: pending.reply,
                }
            }
            (true, false) => {
                self.state = State::Invalid;
                Out {
                    send: None,
                    reply: pending.reply,
                }
            }
            (false, _) => {
                self.state = if self.kept_val {
                    State::Valid
                } else {
                    State::Invalid
                };
                Out {
                    send: None,
                    reply: pending.reply,
                }
            }
        }
    }

    // The pending update goes out.
    fn start(&mut self, me: NodeId, view: &View, pending: BoxedPending) -> Out
        requires row { IsWithin self.old.stamp }
        requires pending { IsWithin pending.stamp }
        requires gone { self.old.pending ≡ None }
        ensures row { self.new ≡ (started me view.now.members self.old pending).row }
        ensures out { result ≡ (started me view.now.members self.old pending).out }
    {
        if pending.get().acks.has_all(me, view) {
            return self.complete(pending);
        }
        self.pending = Some(pending);
        sends(Aim::Others, What::InvPending)
    }

    /// Begins an update at its coordinator, `me`: its row is Valid and takes the new stamp, and INV goes to all others of
    /// the view. The reply is kept until the update completes, which it does at once where there are no others. Only a
    /// read-modify-write may leave no content.
    pub fn begin(
        &mut self,
        alloc: Global,
        me: NodeId,
        view: &View,
        reply: Reply,
        stamp: Stamp,
        kind: Kind,
        content: Option<Content>,
    ) -> Result<Out, Memory>
        requires valid { self.old.state ≡ of_state.Valid }
        requires sound { IsSound me view.now.members self.old }
        requires within { IsWithin stamp }
        requires leaves { Leaves kind content }
        ensures row { OnOk result (self.new ≡ (begin me view.now.members reply stamp kind content).row) }
        ensures out { IfOk result (λ out. out ≡ (begin me view.now.members reply stamp kind content).out) }
        ensures err { OnErr result (self.new ≡ self.old) }
    {
        if is_alone(me, view) {
            self.hold(State::Valid, stamp, kind, content);
            return Ok(settled(stamp, reply));
        }
        let acks = Acks::new(alloc)?;
        let same = share_content(&content)?;
        let pending = Pending {
            reply: Some(reply),
            stamp,
            kind,
            content: same,
            acks,
        };
        let pending = BoxedPending::new(alloc, pending)?;
        self.hold(State::Write, stamp, kind, content);
        Ok(self.start(me, view, pending))
    }

    /// Sends the update of an Invalid row again, as its coordinator did, with no call to answer. In another state it does
    /// nothing.
    pub fn replay(&mut self, alloc: Global, me: NodeId, view: &View) -> Result<Out, Memory>
        requires sound { IsSound me view.now.members self.old }
        ensures row { OnOk result (self.new ≡ (replay me view.now.members self.old).row) }
        ensures out { IfOk result (λ out. out ≡ (replay me view.now.members self.old).out) }
        ensures err { OnErr result (self.new ≡ self.old) }
    {
        match self.state {
            State::Invalid => {
                let acks = Acks::new(alloc)?;
                let content = share_content(&self.content)?;
                let pending = Pending {
                    reply: None,
                    stamp: self.stamp,
                    kind: self.kind,
                    content,
                    acks,
                };
                let pending = BoxedPending::new(alloc, pending)?;
                self.state = State::Replay;
                Ok(self.start(me, view, pending))
            }
            State::Valid | State::Write | State::Replay | State::Trans => Ok(nothing()),
        }
    }

    // An INV above the row: where the row's state and its pending update go, and whose call is given up.
    fn displace(&mut self, stamp: Stamp) -> Option<Reply>
        ensures row { self.new ≡ record self.old { state = (displaced self.old.state self.old.pending).0; pending = (displaced self.old.state self.old.pending).1 } }
        ensures reply { result ≡ given_up self.old.state self.old.pending stamp }
    {
        match (self.state, self.pending.take()) {
            (State::Trans, pending) => {
                self.pending = pending;
                None
            }
            (State::Write, Some(pending)) => match pending.get().kind {
                Kind::Write => {
                    self.state = State::Trans;
                    self.pending = Some(pending);
                    None
                }
                Kind::Rmw => {
                    self.state = State::Invalid;
                    pending.into_inner().reply.map(|reply| Reply {
                        call: reply.call,
                        answer: Answer::Aborted(stamp),
                    })
                }
            },
            (State::Write | State::Valid | State::Invalid | State::Replay, _) => {
                self.state = State::Invalid;
                None
            }
        }
    }

    /// Takes an INV of the node `from`. A stamp above the row's is taken and acknowledged; a plain write of this node that
    /// waits goes on in Trans, and a read-modify-write is answered Aborted. Of a lower stamp a write is acknowledged with
    /// the row's own stamp as top, and a read-modify-write is countered by INV of the row. Only a read-modify-write may leave
    /// no content.
    pub fn on_inv(
        &mut self,
        from: NodeId,
        stamp: Stamp,
        kind: Kind,
        content: Option<Content>,
    ) -> Out
        requires row { IsWithin self.old.stamp }
        requires within { IsWithin stamp }
        requires leaves { Leaves kind content }
        ensures row { self.new ≡ (on_inv self.old from stamp kind content).row }
        ensures out { result ≡ (on_inv self.old from stamp kind content).out }
    {
        match self.stamp.tag().cmp(&stamp.tag()) {
            Ordering::Less => {
                let reply = self.displace(stamp);
                self.stamp = stamp;
                self.kind = kind;
                self.content = content;
                self.kept_val = false;
                let what = What::Ack { stamp, top: stamp };
                Out {
                    send: Some(Sending {
                        aim: Aim::One(from),
                        what,
                    }),
                    reply,
                }
            }
            Ordering::Equal => sends(Aim::One(from), What::Ack { stamp, top: stamp }),
            Ordering::Greater => match kind {
                Kind::Write => {
                    let top = self.stamp;
                    sends(Aim::One(from), What::Ack { stamp, top })
                }
                Kind::Rmw => sends(Aim::One(from), What::InvRow),
            },
        }
    }

    /// Takes an ACK of the node `from`, which is another member of the view. Where it is of the pending update's stamp it
    /// is noted; after the last of the others the update completes: its call is answered, and the row becomes Valid and
    /// VAL goes to all others where each of them had the very stamp, the row still too.
    pub fn on_ack(&mut self, me: NodeId, view: &View, from: NodeId, stamp: Stamp, top: Stamp) -> Out
        requires view { IsView view.now }
        requires sound { IsSound me view.now.members self.old }
        requires other { IsOther me view.now.members from }
        requires stamp { IsWithin stamp }
        requires top { IsWithin top }
        ensures row { self.new ≡ (on_ack me view.now.members self.old from stamp top).row }
        ensures out { result ≡ (on_ack me view.now.members self.old from stamp top).out }
    {
        match self.pending.take() {
            Some(mut pending) => {
                if stamp.tag() != pending.get().stamp.tag() {
                    self.pending = Some(pending);
                    return nothing();
                }
                pending.note(from, top.tag() == stamp.tag());
                if pending.get().acks.has_all(me, view) {
                    return self.complete(pending);
                }
                self.pending = Some(pending);
                nothing()
            }
            None => nothing(),
        }
    }

    /// Takes a VAL: where it is of the row's stamp, an Invalid row becomes Valid, and a row in Trans keeps it for when its
    /// own update completes.
    pub fn on_val(&mut self, stamp: Stamp)
        requires row { IsWithin self.old.stamp }
        requires within { IsWithin stamp }
        ensures row { self.new ≡ on_val self.old stamp }
    {
        if self.stamp.tag() == stamp.tag() {
            match self.state {
                State::Invalid => self.state = State::Valid,
                State::Trans => self.kept_val = true,
                State::Valid | State::Write | State::Replay => {}
            }
        }
    }

    /// Sends INV of the pending update, if there is one, to each other that is not noted.
    pub fn resend(&self) -> Out
        ensures { result ≡ (resend self.now).out }
    {
        match self.pending {
            Some(_) => sends(Aim::NotAcked, What::InvPending),
            None => nothing(),
        }
    }

    /// A view was installed: the notes of a pending update are dropped, and INV goes to all others of the new view.
    pub fn on_view(&mut self, me: NodeId, view: &View) -> Out
        requires row { IsWithin self.old.stamp }
        requires pending { IfSome self.old.pending (λ p. IsWithin p.stamp) }
        ensures row { self.new ≡ (on_view me view.now.members self.old).row }
        ensures out { result ≡ (on_view me view.now.members self.old).out }
    {
        match self.pending.take() {
            Some(mut pending) => {
                pending.clear_notes();
                self.start(me, view, pending)
            }
            None => nothing(),
        }
    }

    /// Takes a row that a member copied, at a joiner, where no update is pending.
    pub fn on_copy(&mut self, item: CopyItem)
        requires idle { self.old.pending ≡ None }
        requires row { IsWithin self.old.stamp }
        requires within { IsWithin item.stamp }
        ensures row { self.new ≡ on_copy self.old item }
    {
        match self.stamp.tag().cmp(&item.stamp.tag()) {
            Ordering::Less => {
                self.state = if item.valid {
                    State::Valid
                } else {
                    State::Invalid
                };
                self.stamp = item.stamp;
                self.kind = item.kind;
                self.content = item.content;
                self.kept_val = false;
            }
            Ordering::Equal => {
                if item.valid && self.state == State::Invalid {
                    self.state = State::Valid;
                }
            }
            Ordering::Greater => {}
        }
    }
}
