//! Copies of rows, which share the contents.

ghost use Rattle.std.specs.Prelude.{◌≡◌, IfOk};

use crate::boxed::BoxedPending;
use crate::row::{Pending, Row};
use hk_base::{Memory, Reply, share_content};
use std::alloc::Global;

// The same answer of the same call, if there is one.
fn share_reply(reply: &Option<Reply>) -> Result<Option<Reply>, Memory>
    ensures { IfOk result (λ same. same ≡ reply.now) }
{
    match reply {
        Some(reply) => {
            let answer = reply.answer.share()?;
            Ok(Some(Reply {
                call: reply.call,
                answer,
            }))
        }
        None => Ok(None),
    }
}

fn copy_pending(
    alloc: Global,
    pending: &Option<BoxedPending>,
) -> Result<Option<BoxedPending>, Memory>
    ensures { IfOk result (λ same. same ≡ pending.now) }
{
    match pending {
        Some(pending) => {
            let same = pending.get().copy(alloc)?;
            let same = BoxedPending::new(alloc, same)?;
            Ok(Some(same))
        }
        None => Ok(None),
    }
}

impl Pending {
    /// An equal pending update, which shares the content.
    pub fn copy(&self, alloc: Global) -> Result<Pending, Memory>
        ensures { IfOk result (λ pending. pending ≡ self.now) }
    {
        let reply = share_reply(&self.reply)?;
        let content = share_content(&self.content)?;
        let acks = self.acks.copy(alloc)?;
        Ok(Pending {
            reply,
            stamp: self.stamp,
            kind: self.kind,
            content,
            acks,
        })
    }
}

impl Row {
    /// An equal row, which shares the contents.
    pub fn copy(&self, alloc: Global) -> Result<Row, Memory>
        ensures { IfOk result (λ row. row ≡ self.now) }
    {
        let content = share_content(&self.content)?;
        let pending = copy_pending(alloc, &self.pending)?;
        Ok(Row {
            state: self.state,
            kind: self.kind,
            kept_val: self.kept_val,
            stamp: self.stamp,
            content,
            pending,
        })
    }
}
