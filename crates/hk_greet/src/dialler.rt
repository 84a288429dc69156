//! Greetings, by who dials.

ghost use Rattle.std.specs.Prelude.{◌≡◌};
ghost use Rattle.hk_hello.specs.Hellos.{IsHelloInRange};
ghost use Rattle.hk_greet.specs.Greeting.{Knocks};
ghost use Rattle.hk_greet.specs.Steps.{SendsHello, IsTaken};

use crate::buffered::Buffered;
use crate::fault::HearFault;
use crate::hear::hear;
use crate::limit::Deadline;
use hk_hello::{Answer, Challenge, Hello, HelloRefusal, Proof, print_hello, sign, welcome};
use hk_hosts::Patient;
use hk_outside::Clock;
use std::alloc::Global;
use thiserror::Error;

/// Why a connection that was dialled is not taken.
#[derive(Clone, Copy, Debug, PartialEq, Eq, Error)]
pub enum KnockFault {
    /// An allocation was refused. No byte of the hello was written.
    #[error("no memory")]
    Memory,
    /// Writing the hello failed, or waited for too long: the count of the connection's faults rose.
    #[error("a write failed")]
    WriteFault,
    /// No challenge was heard.
    #[error("no challenge: {0}")]
    NoChallenge(HearFault),
    /// The hello was sent, and no answer was heard.
    #[error("no answer: {0}")]
    NoAnswer(HearFault),
    /// The acceptor refuses.
    #[error("refused: {0}")]
    Refused(HelloRefusal),
    /// The acceptor did not show that it knows the secret.
    #[error("the acceptor has another secret")]
    Stranger,
}

// Sends the hello, and gives its proof.
fn send_hello<C: Patient>(
    alloc: Global,
    conn: &mut Buffered<C>,
    secret: &[u8],
    challenge: Challenge,
    hello: Hello,
) -> Result<Proof, KnockFault>
    requires { IsHelloInRange hello }
    ensures { SendsHello result secret.now challenge hello conn.old conn.new }
{
    let Ok(signed) = sign(alloc, secret, challenge, hello) else {
        return Err(KnockFault::Memory);
    };
    let mut text = Vec::new(alloc);
    if print_hello(alloc, &mut text, &signed).is_err() {
        return Err(KnockFault::Memory);
    }
    match conn.say(&text) {
        Ok(()) => Ok(signed.proof),
        Err(_) => Err(KnockFault::WriteFault),
    }
}

// What an answer comes to, where this would be the acceptor's proof.
fn taken(answer: Answer, right: Proof) -> Result<(), KnockFault>
    ensures { IsTaken result answer right.0 }
{
    match answer {
        Answer::Refused(refusal) => Err(KnockFault::Refused(refusal)),
        Answer::Welcome(proof) => {
            if proof == right {
                return Ok(());
            }
            Err(KnockFault::Stranger)
        }
    }
}

/// Greets who accepted a connection: hears its challenge, sends the hello, and hears its answer. All that has
/// [`HELLO_MILLIS`](crate::HELLO_MILLIS) together. What came behind the answer is there for whoever reads next.
pub fn knock<C: Patient, T: Clock>(
    alloc: Global,
    clock: &T,
    conn: &mut Buffered<C>,
    secret: &[u8],
    hello: Hello,
) -> Result<(), KnockFault>
    requires { IsHelloInRange hello }
    ensures { Knocks result secret.now hello conn.old conn.new }
{
    let deadline = Deadline::of_greeting(clock);
    let challenge: Challenge = match hear(alloc, conn, &deadline) {
        Ok(challenge) => challenge,
        Err(fault) => return Err(KnockFault::NoChallenge(fault)),
    };
    let proof = send_hello(alloc, conn, secret, challenge, hello)?;
    let answer: Answer = match hear(alloc, conn, &deadline) {
        Ok(answer) => answer,
        Err(fault) => return Err(KnockFault::NoAnswer(fault)),
    };
    taken(answer, welcome(secret, challenge, proof))
}
