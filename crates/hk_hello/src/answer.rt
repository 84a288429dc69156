//! An acceptor's answer to a hello.

ghost use Rattle.std.specs.Prelude.{◌≡◌, ◌++◌, OnOk};
ghost use Rattle.hk_hello.specs.Hellos.{answer_bytes};
ghost use Rattle.hk_hello.specs.Told.{IsAnswerRead};

use crate::fault::HelloFault;
use crate::mac::{PROOF_LEN, Proof};
use crate::refusal::HelloRefusal;
use hk_base::Memory;
use hk_fields::{put, put_byte};

/// What an acceptor says to a hello.
#[derive(Clone, Copy, Debug, PartialEq, Eq)]
pub enum Answer {
    /// It takes the connection, and shows that it knows the secret too.
    Welcome(Proof),
    /// It ends the connection.
    Refused(HelloRefusal),
}

/// Puts an answer behind other bytes. Where an allocation is refused, what stands there is of no use.
pub fn print_answer(out: &mut Vec<u8>, answer: Answer) -> Result<(), Memory>
    ensures { OnOk result (out.new.items ≡ out.old.items ++ answer_bytes answer) }
{
    match answer {
        Answer::Welcome(proof) => {
            put_byte(out, 0)?;
            put(out, &proof.0)
        }
        Answer::Refused(refusal) => put_byte(out, refusal.code()),
    }
}

/// The answer that begins the bytes, and its length: 33 bytes, or 1.
pub fn read_answer(bytes: &[u8]) -> Result<(Answer, usize), HelloFault>
    ensures { IsAnswerRead result bytes.now }
{
    let Some((code, rest)) = bytes.split_first() else {
        return Err(HelloFault::NeedMore);
    };
    if *code == 0 {
        return match rest.split_first_chunk::<32>() {
            Some((proof, _)) => Ok((Answer::Welcome(Proof(*proof)), 1 + PROOF_LEN)),
            None => Err(HelloFault::NeedMore),
        };
    }
    match HelloRefusal::of_code(*code) {
        Some(refusal) => Ok((Answer::Refused(refusal), 1)),
        None => Err(HelloFault::Malformed),
    }
}
