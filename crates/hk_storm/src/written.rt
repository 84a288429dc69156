//! Calls are within the bounds of what a line of a script can have, as all values of their types are.

ghost use Rattle.hk_script.specs.Grammar.{IsContent, IsOp, IsKeyBytes, IsWritten};
ghost use Rattle.hk_storm.specs.Tallied.{event_of, AreBytes};

use crate::calls::StormCall;
use hk_base::{Content, Key, Op};

fn key_is_written(key: &Key)
    ensures { IsKeyBytes key.now }
{
    let all = key.bytes();
    let _count = all.len();
}

fn content_is_written(content: &Content)
    ensures { IsContent content.now }
{
    let _flags = content.flags;
    let all = content.bytes.bytes();
    let _count = all.len();
}

fn op_is_written(op: &Op)
    ensures { IsOp op.now }
{
    match op {
        Op::Read => {}
        Op::Write(content) => content_is_written(content),
        Op::Cas { tag, content } => {
            let _tag = *tag;
            content_is_written(content);
        }
        Op::Incr(by) => {
            let _by = *by;
        }
        Op::Decr(by) => {
            let _by = *by;
        }
        Op::Add(content) => content_is_written(content),
        Op::Replace(content) => content_is_written(content),
        Op::Delete => {}
    }
}

/// A call is within these bounds. It does nothing at run time.
pub fn call_is_written(call: &StormCall)
    ensures { IsWritten (event_of call.now) }
{
    let _node = call.node.0;
    key_is_written(&call.key);
    op_is_written(&call.op);
}
