//! Why there is no run.

ghost use Rattle.std.specs.Prelude.{◌≡◌};

use hk_base::{Answer, CallNo, Letters, Memory, NodeId};
use hk_node::StepReplies;

/// What a step of the run gave.
#[derive(Drop)]
pub struct Given {
    pub letters: Letters,
    /// The replies, with the numbers that the run gave their calls.
    pub replies: StepReplies,
}

/// Why journals and notes come to no run.
#[derive(Drop)]
pub enum Gap {
    /// An allocation was refused.
    Memory,
    /// The entry of ticket `taken` takes a letter of which no equal one was sent at a lower ticket. `sent` is the least ticket at which an equal one was sent, if any was.
    Letter {
        taken: u64,
        sent: Option<u64>,
    },
    /// The entry of the node is none of a call, a receipt, a resend or a replay, or its letter is to another node: then nothing is given. Or its step gives other letters or
    /// answers than the entry has, namely these.
    Entry {
        node: NodeId,
        ticket: u64,
        given: Option<Given>,
    },
    /// What the note was told is not what a Read is answered directly behind the entry of that ticket, `kept`, or there is no such entry.
    Note {
        call: CallNo,
        ticket: u64,
        told: Answer,
        kept: Option<Answer>,
    },
}

impl From<Memory> for Gap {
    ghost use Rattle.hk_assemble.specs.declared.gap.Gap.TheVariants.{Memory as Wanting};

    ghost from_gives = { λ memory result. result ≡ Wanting };

    fn from(_error: Memory) -> Gap
        ensures from_gives { result ≡ Wanting }
    {
        Gap::Memory
    }
}
