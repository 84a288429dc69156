//! How two processes of a group greet each other: challenge, hello and answer as bytes, both ways, and what an acceptor
//! makes of a hello.
//!
//! Who accepts a connection sends a `Challenge`, 16 bytes that it drew for this connection. Who dialled answers by a
//! `Hello`: who it is, whom it wants, and of which group, with a proof that it knows the group's secret, made of the
//! challenge and of all that the hello says. The acceptor tells that it knows the secret too, or why it takes no
//! connection: `judge` has the reasons, of which `specs/Judging.antt` is the table.
//!
//! Each reader gives what begins some bytes, or that more of them are needed, or that none begins them, whatever
//! follows (`specs/Told.antt`). The laws: what was printed is read as what it was (`challenges_are_read_again`,
//! `hellos_are_read_again`, `answers_are_read_again`), and a front of a hello as nothing yet (`fronts_are_unfinished`).
//! A proof is HMAC with SHA-256, as `specs/Mac.antt` has it.
//!
//! The caller draws challenges and tickets, keeps the secret (16 to 128 bytes; any length is taken here), ends a
//! connection whose hello does not come in time, and looks up its own founding and whether the hello's actors are here, bound
//! and free.
#![tactic(auto)]

mod answer;
mod challenge;
mod fault;
mod fields;
mod hello;
mod hosts;
mod judging;
mod mac;
mod printing;
mod ranges;
mod reading;
mod refusal;
mod values;

ghost use Rattle.hk_hello.specs.Laws.{ChallengesAreReadAgain, HellosAreReadAgain, FrontsAreUnfinished, AnswersAreReadAgain};

pub use answer::{Answer, print_answer, read_answer};
pub use challenge::{CHALLENGE_LEN, Challenge, print_challenge, read_challenge};
pub use fault::HelloFault;
pub use hello::{GroupName, Hello, HostsDigest, Party, Purpose, SignedHello};
pub use hosts::hosts_digest;
pub use judging::{JudgingFault, LookedUp, Ours, judge};
pub use mac::{PROOF_LEN, Proof, hmac};
pub use printing::{print_hello, sign, welcome};
pub use ranges::{is_group_name, is_in_range};
pub use reading::{MAX_LENGTH, MIN_LENGTH, read_hello};
pub use refusal::HelloRefusal;

/// A challenge's bytes are read as that challenge, whatever follows.
pub fn challenges_are_read_again()
    ensures { ChallengesAreReadAgain }
{}

/// A hello's bytes are read as that hello, whatever follows.
pub fn hellos_are_read_again()
    ensures { HellosAreReadAgain }
{}

/// A front of a hello's bytes is read as nothing yet.
pub fn fronts_are_unfinished()
    ensures { FrontsAreUnfinished }
{}

/// An answer's bytes are read as that answer, whatever follows.
pub fn answers_are_read_again()
    ensures { AnswersAreReadAgain }
{}
