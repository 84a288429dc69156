//! Greetings, by who accepts.

ghost use Rattle.std.specs.Prelude.{◌≡◌};
ghost use Rattle.hk_hello.specs.Hellos.{IsSigned, challenge_bytes, answer_bytes};
ghost use Rattle.hk_greet.specs.Greeting.{Admits};
ghost use Rattle.hk_greet.specs.Steps.{Sends, AnswersHello};

use crate::buffered::Buffered;
use crate::fault::HearFault;
use crate::hear::hear;
use crate::limit::{Deadline, HELLO_MILLIS};
use hk_hello::{
    Answer, Challenge, Hello, HelloRefusal, JudgingFault, LookedUp, Ours, SignedHello, judge,
    print_answer, print_challenge, welcome,
};
use hk_hosts::Patient;
use hk_outside::Clock;
use std::alloc::Global;
use thiserror::Error;

/// Why a connection that was accepted is not taken.
#[derive(Clone, Copy, Debug, PartialEq, Eq, Error)]
pub enum AdmitFault {
    /// An allocation was refused.
    #[error("no memory")]
    Memory,
    /// Writing the challenge or the answer failed, or waited for too long: the count of the connection's faults rose.
    #[error("a write failed")]
    WriteFault,
    /// No hello was heard.
    #[error("no hello: {0}")]
    NoHello(HearFault),
    /// The hello is refused, and the dialler was told why.
    #[error("{0}")]
    Refused(HelloRefusal),
}

/// Tells what stands at this process, and who holds which number.
pub trait LookUp {
    ghost use Rattle.hk_hello.specs.declared.hello.Hello.{Hello};
    ghost use Rattle.hk_hello.specs.declared.judging.LookedUp.{LookedUp};

    /// What it may tell of a hello.
    ghost finds: { Self → Hello → LookedUp → Type 0 };

    /// What is to be known of this hello's actors and founding, as it stands now.
    fn look_up(&self, hello: &Hello) -> LookedUp
        ensures { finds self.now hello.now result };
}

// Sends the challenge.
fn send_challenge<C: Patient>(
    alloc: Global,
    conn: &mut Buffered<C>,
    challenge: Challenge,
) -> Result<(), AdmitFault>
    ensures { Sends result (challenge_bytes challenge) conn.old conn.new }
{
    let mut text = Vec::new(alloc);
    if print_challenge(&mut text, challenge).is_err() {
        return Err(AdmitFault::Memory);
    }
    match conn.say(&text) {
        Ok(()) => Ok(()),
        Err(_) => Err(AdmitFault::WriteFault),
    }
}

// Sends an answer.
fn send_answer<C: Patient>(
    alloc: Global,
    conn: &mut Buffered<C>,
    answer: Answer,
) -> Result<(), AdmitFault>
    ensures { Sends result (answer_bytes answer) conn.old conn.new }
{
    let mut text = Vec::new(alloc);
    if print_answer(&mut text, answer).is_err() {
        return Err(AdmitFault::Memory);
    }
    match conn.say(&text) {
        Ok(()) => Ok(()),
        Err(_) => Err(AdmitFault::WriteFault),
    }
}

// Answers a hello by what was looked up for it.
fn answer_hello<C: Patient>(
    alloc: Global,
    conn: &mut Buffered<C>,
    challenge: Challenge,
    ours: &Ours,
    signed: &SignedHello,
    looked: LookedUp,
) -> Result<(), AdmitFault>
    requires { IsSigned signed.now }
    ensures { AnswersHello result challenge ours.now signed.now looked conn.old conn.new }
{
    match judge(alloc, ours, challenge, signed, looked) {
        Ok(()) => {
            let right = welcome(ours.secret.as_slice(), challenge, signed.proof);
            send_answer(alloc, conn, Answer::Welcome(right))
        }
        Err(JudgingFault::Refused(refusal)) => {
            send_answer(alloc, conn, Answer::Refused(refusal))?;
            Err(AdmitFault::Refused(refusal))
        }
        Err(JudgingFault::Memory) => Err(AdmitFault::Memory),
    }
}

/// Greets who dialled: sends the challenge, hears a hello, which has to be whole within [`HELLO_MILLIS`] of the
/// beginning, and answers it by [`judge`], with what is looked up for it then. Gives the hello that is taken. What came
/// behind it is there for whoever reads next.
pub fn admit<C: Patient, T: Clock, L: LookUp>(
    alloc: Global,
    clock: &T,
    conn: &mut Buffered<C>,
    challenge: Challenge,
    ours: &Ours,
    lookup: &L,
) -> Result<Hello, AdmitFault>
    ensures { Admits (L.finds lookup.now) ours.now challenge result conn.old conn.new }
{
    let deadline = Deadline::of_greeting(clock);
    conn.wait_at_most(HELLO_MILLIS, HELLO_MILLIS);
    send_challenge(alloc, conn, challenge)?;
    let signed: SignedHello = match hear(alloc, conn, &deadline) {
        Ok(signed) => signed,
        Err(fault) => return Err(AdmitFault::NoHello(fault)),
    };
    let looked = lookup.look_up(&signed.hello);
    answer_hello(alloc, conn, challenge, ours, &signed, looked)?;
    Ok(signed.hello)
}
