//! Calls of the store and what they are answered.

ghost use Rattle.std.specs.Prelude.{◌≡◌, IfOk};

use crate::data::Data;
use crate::memory::Memory;
use crate::sequence::Sequence;
use crate::stamp::Stamp;

/// The number of a call.
#[derive(Clone, Copy, Debug, PartialEq, Eq, PartialOrd, Ord)]
pub struct CallNo(pub u64);

/// What a key holds: the flags that its writer gave, which the store only keeps, and the data.
#[derive(PartialEq, Eq, Drop)]
pub struct Content {
    pub flags: u32,
    pub bytes: Data,
}

impl Content {
    /// The same content, which shares the bytes.
    pub fn share(&self) -> Result<Content, Memory>
        ensures { IfOk result (λ content. content ≡ self.now) }
    {
        let bytes = self.bytes.share()?;
        Ok(Content {
            flags: self.flags,
            bytes,
        })
    }
}

/// What a key holds, if it holds anything: the same, which shares the bytes.
pub fn share_content(content: &Option<Content>) -> Result<Option<Content>, Memory>
    ensures { IfOk result (λ same. same ≡ content.now) }
{
    match content {
        Some(content) => {
            let same = content.share()?;
            Ok(Some(same))
        }
        None => Ok(None),
    }
}

/// The state of a key at a node, as the Hermes protocol names them.
#[derive(Clone, Copy, Debug, PartialEq, Eq)]
pub enum State {
    /// No update is on its way here: the key may be read.
    Valid,
    /// An update was announced and is not known to be complete.
    Invalid,
    /// The node's own update waits for acknowledgements.
    Write,
    /// The node sends another's update again, and waits for acknowledgements.
    Replay,
    /// The node's own update waits, and a later one was announced meanwhile.
    Trans,
}

/// An operation on the register of a key.
#[derive(PartialEq, Eq, Drop)]
pub enum Op {
    Read,
    Write(Content),
    /// Writes the content where the register's tag is this one.
    Cas { tag: u64, content: Content },
    /// Adds to a decimal number, modulo 2^64.
    Incr(u64),
    /// Takes from a decimal number, down to 0.
    Decr(u64),
    /// Writes the content where the register holds nothing.
    Add(Content),
    /// Writes the content where the register holds something.
    Replace(Content),
    /// Takes the content away.
    Delete,
}

impl Op {
    /// The same operation, which shares the bytes.
    pub fn share(&self) -> Result<Op, Memory>
        ensures { IfOk result (λ op. op ≡ self.now) }
    {
        match self {
            Op::Read => Ok(Op::Read),
            Op::Write(content) => {
                let content = content.share()?;
                Ok(Op::Write(content))
            }
            Op::Cas { tag, content } => {
                let content = content.share()?;
                Ok(Op::Cas { tag: *tag, content })
            }
            Op::Incr(by) => Ok(Op::Incr(*by)),
            Op::Decr(by) => Ok(Op::Decr(*by)),
            Op::Add(content) => {
                let content = content.share()?;
                Ok(Op::Add(content))
            }
            Op::Replace(content) => {
                let content = content.share()?;
                Ok(Op::Replace(content))
            }
            Op::Delete => Ok(Op::Delete),
        }
    }
}

/// Why a call is refused for now. Nothing was begun, and it may be asked again.
#[derive(Clone, Copy, Debug, PartialEq, Eq)]
pub enum Why {
    /// The node's lease ends at `end` milliseconds, and by its clock, `now`, it may be over.
    Lease { end: u64, now: u64 },
    /// The key is not Valid at the node.
    Row { state: State, stamp: Stamp },
}

/// What a call is answered.
#[derive(PartialEq, Eq, Drop)]
pub enum Answer {
    /// The content that a read found, and its tag.
    Found { content: Content, tag: u64 },
    /// A read found nothing.
    Missing,
    /// A write is done, or a cas whose tag was right, an add where nothing was held or a replace where something was.
    Stored,
    /// The number that an incr or decr left.
    Number(u64),
    /// The tag of a cas was another.
    Exists,
    /// A cas, incr, decr or delete found nothing.
    NotFound,
    /// An incr or decr found data that is no number of 64 bits.
    NotNumber,
    /// An add found something, or a replace found nothing.
    NotStored,
    /// A delete took the content away.
    Deleted,
    /// Refused for now, with nothing begun.
    Busy(Why),
    /// The update was given up for one with this stamp. It may take effect yet, once.
    Aborted(Stamp),
    /// The version of this stamp can't be raised far enough. Nothing was begun.
    Exhausted(Stamp),
}

impl Answer {
    /// The same answer, which shares the bytes.
    pub fn share(&self) -> Result<Answer, Memory>
        ensures { IfOk result (λ answer. answer ≡ self.now) }
    {
        let answer = match self {
            Answer::Found { content, tag } => {
                let content = content.share()?;
                Answer::Found { content, tag: *tag }
            }
            Answer::Missing => Answer::Missing,
            Answer::Stored => Answer::Stored,
            Answer::Number(value) => Answer::Number(*value),
            Answer::Exists => Answer::Exists,
            Answer::NotFound => Answer::NotFound,
            Answer::NotNumber => Answer::NotNumber,
            Answer::NotStored => Answer::NotStored,
            Answer::Deleted => Answer::Deleted,
            Answer::Busy(why) => Answer::Busy(*why),
            Answer::Aborted(stamp) => Answer::Aborted(*stamp),
            Answer::Exhausted(stamp) => Answer::Exhausted(*stamp),
        };
        Ok(answer)
    }
}

/// A call's number with its answer.
#[derive(PartialEq, Eq, Drop)]
pub struct Reply {
    pub call: CallNo,
    pub answer: Answer,
}

/// Replies, the first one first.
pub type Replies = Sequence<Reply>;
