//! Messages as they come off a connection.

ghost use Rattle.std.specs.Prelude.{ℕ};
ghost use Rattle.hk_greet.specs.Hearing.{Kind, IsFront, IsFewer, challenges, hellos, answers, inquiries, responses};

use hk_hello::{
    Answer, Challenge, HelloFault, SignedHello, read_answer, read_challenge, read_hello,
};
use hk_inside::{Inquiry, MessageFault, Response, read_inquiry, read_response};
use std::alloc::Global;

// Why no message is read off the front of some bytes.
#[derive(Clone, Copy)]
pub enum FrontFault {
    Memory,
    // More bytes are wanting.
    Short,
    // No message begins the bytes, whatever follows.
    Malformed,
}

// What is read off the front of some bytes.
pub trait Message: Sized {
    ghost kind: { Kind Self };

    ghost most: { ℕ };

    // The message that begins the bytes, and its length.
    fn read_front(alloc: Global, bytes: &[u8]) -> Result<(Self, usize), FrontFault>
        ensures front { IsFront kind result bytes.now }
        ensures bounded { IsFewer most result bytes.now };
}

impl Message for Challenge {
    ghost kind = { challenges };

    ghost most = { 20 };

    fn read_front(_alloc: Global, bytes: &[u8]) -> Result<(Challenge, usize), FrontFault> {
        match read_challenge(bytes) {
            Ok((challenge, length)) => Ok((challenge, length)),
            Err(HelloFault::Memory) => Err(FrontFault::Memory),
            Err(HelloFault::NeedMore) => Err(FrontFault::Short),
            Err(HelloFault::Malformed) => Err(FrontFault::Malformed),
        }
    }
}

impl Message for SignedHello {
    ghost kind = { hellos };

    ghost most = { 114 };

    fn read_front(alloc: Global, bytes: &[u8]) -> Result<(SignedHello, usize), FrontFault> {
        match read_hello(alloc, bytes) {
            Ok((signed, length)) => Ok((signed, length)),
            Err(HelloFault::Memory) => Err(FrontFault::Memory),
            Err(HelloFault::NeedMore) => Err(FrontFault::Short),
            Err(HelloFault::Malformed) => Err(FrontFault::Malformed),
        }
    }
}

impl Message for Answer {
    ghost kind = { answers };

    ghost most = { 33 };

    fn read_front(_alloc: Global, bytes: &[u8]) -> Result<(Answer, usize), FrontFault> {
        match read_answer(bytes) {
            Ok((answer, length)) => Ok((answer, length)),
            Err(HelloFault::Memory) => Err(FrontFault::Memory),
            Err(HelloFault::NeedMore) => Err(FrontFault::Short),
            Err(HelloFault::Malformed) => Err(FrontFault::Malformed),
        }
    }
}

impl Message for Inquiry {
    ghost kind = { inquiries };

    ghost most = { 65540 };

    fn read_front(alloc: Global, bytes: &[u8]) -> Result<(Inquiry, usize), FrontFault> {
        match read_inquiry(alloc, bytes) {
            Ok((inquiry, length)) => Ok((inquiry, length)),
            Err(MessageFault::Memory) => Err(FrontFault::Memory),
            Err(MessageFault::Short { .. }) => Err(FrontFault::Short),
            Err(MessageFault::Malformed) => Err(FrontFault::Malformed),
        }
    }
}

impl Message for Response {
    ghost kind = { responses };

    ghost most = { 65540 };

    fn read_front(alloc: Global, bytes: &[u8]) -> Result<(Response, usize), FrontFault> {
        match read_response(alloc, bytes) {
            Ok((response, length)) => Ok((response, length)),
            Err(MessageFault::Memory) => Err(FrontFault::Memory),
            Err(MessageFault::Short { .. }) => Err(FrontFault::Short),
            Err(MessageFault::Malformed) => Err(FrontFault::Malformed),
        }
    }
}
