//! Requests behind a greeting.

ghost use Rattle.std.specs.Prelude.{◌≡◌};
ghost use Rattle.hk_inside.specs.Messages.{IsInquiryInRange, IsResponseInRange};
ghost use Rattle.hk_greet.specs.Exchange.{Asks, HearsNext, Responds};

use crate::buffered::Buffered;
use crate::fault::HearFault;
use crate::hear::hear;
use crate::limit::Unlimited;
use hk_inside::{Inquiry, PrintFault, Response, print_inquiry, print_response};
use hk_outside::Connection;
use std::alloc::Global;
use thiserror::Error;

/// Why an inquiry was not answered.
#[derive(Clone, Copy, Debug, PartialEq, Eq, Error)]
pub enum AskFault {
    /// An allocation was refused. Nothing was written.
    #[error("no memory")]
    Memory,
    /// Writing failed, or waited for too long: the count of the connection's faults rose. A front of the frame was
    /// written.
    #[error("a write failed")]
    WriteFault,
    /// The inquiry was sent, and no response was heard.
    #[error("no response: {0}")]
    NoResponse(HearFault),
}

/// Why a response was not sent.
#[derive(Clone, Copy, Debug, PartialEq, Eq, Error)]
pub enum RespondFault {
    /// An allocation was refused. Nothing was written.
    #[error("no memory")]
    Memory,
    /// The response is too long for a frame. Nothing was written.
    #[error("the response is too long")]
    TooLong,
    /// Writing failed, or waited for too long: the count of the connection's faults rose. A front of the frame was
    /// written.
    #[error("a write failed")]
    WriteFault,
}

/// Sends an inquiry and hears the response to it, which is the next that comes: so a connection is asked one thing at a
/// time, and nothing more once a response was not heard.
pub fn ask<C: Connection>(
    alloc: Global,
    conn: &mut Buffered<C>,
    inquiry: &Inquiry,
) -> Result<Response, AskFault>
    requires { IsInquiryInRange inquiry.now }
    ensures { Asks result inquiry.now conn.old conn.new }
{
    let Ok(frame) = print_inquiry(alloc, inquiry) else {
        return Err(AskFault::Memory);
    };
    let Ok(()) = conn.say(&frame) else {
        return Err(AskFault::WriteFault);
    };
    match hear(alloc, conn, &Unlimited) {
        Ok(response) => Ok(response),
        Err(fault) => Err(AskFault::NoResponse(fault)),
    }
}

/// The next inquiry that comes; none where the connection ends before another begins.
pub fn next_inquiry<C: Connection>(
    alloc: Global,
    conn: &mut Buffered<C>,
) -> Result<Option<Inquiry>, HearFault>
    ensures { HearsNext result conn.old conn.new }
{
    let fault = match hear(alloc, conn, &Unlimited) {
        Ok(inquiry) => return Ok(Some(inquiry)),
        Err(fault) => fault,
    };
    if fault == HearFault::Ended && conn.unread().is_empty() {
        return Ok(None);
    }
    Err(fault)
}

/// Sends a response.
pub fn respond<C: Connection>(
    alloc: Global,
    conn: &mut Buffered<C>,
    response: &Response,
) -> Result<(), RespondFault>
    requires { IsResponseInRange response.now }
    ensures { Responds result response.now conn.old conn.new }
{
    let frame = match print_response(alloc, response) {
        Ok(frame) => frame,
        Err(PrintFault::Memory) => return Err(RespondFault::Memory),
        Err(PrintFault::TooLong) => return Err(RespondFault::TooLong),
    };
    match conn.say(&frame) {
        Ok(()) => Ok(()),
        Err(_) => Err(RespondFault::WriteFault),
    }
}
