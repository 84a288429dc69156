//! Operations on a register.

ghost use Rattle.std.specs.Prelude.{◌≡◌, ◌+◌, ◌-◌, ◌%◌, ◌^◌, ℕ, IfOk, Some, None};
ghost use Rattle.hk_base.specs.Register.{Register, act, act_on, act_on_nothing, content_of_number};
ghost use Rattle.hk_rmw.specs.Held.{IsGiven};
ghost use Rattle.hk_rmw.specs.Turned.{acted_of};

use crate::number::{content_of_number, number_in};
use crate::outcome::Turn;
use hk_base::{Answer, Content, Memory, Op};
use std::alloc::Global;

/// What the operation does to the register that holds `now`, a content with its tag, or nothing. What holds nothing
/// may have any tag, since no operation looks at it there. A content that is written is shared, and a number is
/// written anew. Memory is the only error.
pub fn turn(alloc: Global, op: &Op, now: Option<(&Content, u64)>) -> Result<Turn, Memory>
    ensures { IfOk result (λ turn. (register : Register) → IsGiven now.entry register → (newtag : ℕ) →
        acted_of turn register newtag ≡ act op.now register newtag) }
{
    match now {
        None => turn_on_nothing(op),
        Some((held, tag)) => turn_on(alloc, op, held, tag),
    }
}

fn turn_on_nothing(op: &Op) -> Result<Turn, Memory>
    ensures { IfOk result (λ turn. (register : Register) (newtag : ℕ) → acted_of turn register newtag ≡ act_on_nothing op.now register newtag) }
{
    match op {
        Op::Read => Ok(Turn::Stay(Answer::Missing)),
        Op::Write(content) | Op::Add(content) => stored(content),
        Op::Replace(_) => Ok(Turn::Stay(Answer::NotStored)),
        Op::Cas { .. } | Op::Incr(_) | Op::Decr(_) | Op::Delete => {
            Ok(Turn::Stay(Answer::NotFound))
        }
    }
}

fn turn_on(alloc: Global, op: &Op, held: &Content, tag: u64) -> Result<Turn, Memory>
    ensures { IfOk result (λ turn. (newtag : ℕ) → let register : Register = record { content = Some held.now; tag = tag } in
        acted_of turn register newtag ≡ act_on op.now held.now register newtag) }
{
    match op {
        Op::Read => {
            let content = held.share()?;
            Ok(Turn::Stay(Answer::Found { content, tag }))
        }
        Op::Write(content) | Op::Replace(content) => stored(content),
        Op::Add(_) => Ok(Turn::Stay(Answer::NotStored)),
        Op::Delete => Ok(Turn::Change {
            content: None,
            answer: Answer::Deleted,
        }),
        Op::Cas {
            tag: wanted,
            content,
        } => {
            if *wanted == tag {
                stored(content)
            } else {
                Ok(Turn::Stay(Answer::Exists))
            }
        }
        Op::Incr(by) => match number_in(held.bytes.bytes()) {
            Some(number) => numbered(alloc, held, number.wrapping_add(*by)),
            None => Ok(Turn::Stay(Answer::NotNumber)),
        },
        Op::Decr(by) => match number_in(held.bytes.bytes()) {
            Some(number) => numbered(alloc, held, number.saturating_sub(*by)),
            None => Ok(Turn::Stay(Answer::NotNumber)),
        },
    }
}

// The content is written.
fn stored(content: &Content) -> Result<Turn, Memory>
    ensures { IfOk result (λ turn. turn ≡ Turn.Change (Some content.now) Answer.Stored) }
{
    let content = content.share()?;
    Ok(Turn::Change {
        content: Some(content),
        answer: Answer::Stored,
    })
}

// The number is written in place of what was held.
fn numbered(alloc: Global, held: &Content, number: u64) -> Result<Turn, Memory>
    ensures { IfOk result (λ turn. turn ≡ Turn.Change (Some (content_of_number held.now number)) (Answer.Number number)) }
{
    let content = content_of_number(alloc, held, number)?;
    Ok(Turn::Change {
        content: Some(content),
        answer: Answer::Number(number),
    })
}
