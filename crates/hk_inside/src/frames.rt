//! Messages in their frames, printed and read.

ghost use Rattle.std.specs.Prelude.{◌≡◌, ◌++◌, ◌+◌, ◌≤◌, ℕ, List, length, take, drop, IfOk, OnOk, Err};
ghost use Rattle.std.specs.Int.{w32, from_be_bytes};
ghost use Rattle.hk_inside.specs.declared.inquiry.Inquiry.{Inquiry};
ghost use Rattle.hk_inside.specs.declared.response.Response.{Response};
ghost use Rattle.hk_inside.specs.declared.fault.MessageFault.TheVariants.{Short};
ghost use Rattle.hk_inside.specs.Messages.{framed, inquiry_frame, IsInquiryInRange, IsInquiry, response_frame, IsResponseInRange, IsResponse};
ghost use Rattle.hk_inside.specs.Told.{frame_end, IsRead, IsReadAs, IsPrinted};

use crate::fault::{MessageFault, PrintFault};
use crate::inquiries::inquiry;
use crate::inquiry::Inquiry;
use crate::printing::{put_inquiry, put_response};
use crate::response::Response;
use crate::responses::response;
use crate::values::{inquiry_is_value, response_is_value};
use hk_base::Memory;
use hk_fields::{put, put_number32};
use std::alloc::Global;

/// The greatest length of what follows a frame's length, in bytes; the least is 1.
pub const MAX_LEN: usize = 65_535;

fn framed(alloc: Global, message: &[u8]) -> Result<Vec<u8>, Memory>
    requires { length message.now ≤ 65535 }
    ensures { IfOk result (λ frame. frame.items ≡ framed message.now) }
{
    let mut frame = Vec::new(alloc);
    put_number32(&mut frame, message.len() as u32)?;
    put(&mut frame, message)?;
    Ok(frame)
}

/// The frame of an inquiry. Each that is in range fits one.
pub fn print_inquiry(alloc: Global, inquiry: &Inquiry) -> Result<Vec<u8>, Memory>
    requires { IsInquiryInRange inquiry.now }
    ensures printed { IfOk result (λ frame. frame.items ≡ inquiry_frame inquiry.now) }
    // So the frame is read again, and no other inquiry has it: this is the premise of `read_inquiry` and of the laws.
    ensures is { IsInquiry inquiry.now }
{
    inquiry_is_value(inquiry);
    let mut message = Vec::new(alloc);
    put_inquiry(&mut message, inquiry)?;
    framed(alloc, &message)
}

/// The frame of a response. It is `TooLong` exactly where that takes more than 65,535 bytes behind its length.
pub fn print_response(alloc: Global, response: &Response) -> Result<Vec<u8>, PrintFault>
    requires { IsResponseInRange response.now }
    ensures { IsPrinted result response.now }
{
    response_is_value(response);
    let mut message = Vec::new(alloc);
    if put_response(&mut message, response).is_err() {
        return Err(PrintFault::Memory);
    }
    if MAX_LEN < message.len() {
        return Err(PrintFault::TooLong);
    }
    match framed(alloc, &message) {
        Ok(frame) => Ok(frame),
        Err(_) => Err(PrintFault::Memory),
    }
}

// The length of what follows, as a frame tells it.
fn told_length(bytes: &[u8]) -> usize
    requires { 4 ≤ length bytes.now }
    ensures { result ≡ from_be_bytes w32 (take 4 bytes.now) }
{
    let (front, _) = bytes.split_at(4);
    u32::from_be_bytes([front[0], front[1], front[2], front[3]]) as usize
}

// Where the frame ends that begins the bytes.
fn frame_end(bytes: &[u8]) -> Result<usize, MessageFault>
    ensures exact { result ≡ frame_end bytes.now }
    ensures within { IfOk result (λ end. (4 ≤ end) × (end ≤ length bytes.now)) }
{
    if bytes.len() < 4 {
        return Err(MessageFault::Short { wanted: 4 });
    }
    let told = told_length(bytes);
    if told < 1 {
        return Err(MessageFault::Malformed);
    }
    if MAX_LEN < told {
        return Err(MessageFault::Malformed);
    }
    let wanted = 4 + told;
    if bytes.len() < wanted {
        return Err(MessageFault::Short { wanted });
    }
    Ok(wanted)
}

// What a frame with this end has behind its length.
fn inside(end: usize, bytes: &[u8]) -> &[u8]
    requires low { 4 ≤ end }
    requires high { end ≤ length bytes.now }
    ensures { result.now ≡ drop 4 (take end bytes.now) }
{
    let (frame, _) = bytes.split_at(end);
    let (_, message) = frame.split_at(4);
    message
}

/// The inquiry whose frame begins the bytes, and how many bytes the frame takes.
pub fn read_inquiry(alloc: Global, bytes: &[u8]) -> Result<(Inquiry, usize), MessageFault>
    // Of bytes that are wanting it is told by the length alone, and before all else.
    ensures short { (wanted : ℕ) → frame_end bytes.now ≡ Err (Short wanted) → result ≡ Err (Short wanted) }
    ensures exact { IsRead inquiry_frame IsInquiry result bytes.now }
    // An inquiry whose frame begins the bytes is read, whatever follows, unless an allocation is refused.
    ensures only { (inquiry : Inquiry) (rest : List ℕ) → IsInquiry inquiry → bytes.now ≡ inquiry_frame inquiry ++ rest → IsReadAs inquiry_frame result inquiry }
{
    let end = frame_end(bytes)?;
    match inquiry(alloc, inside(end, bytes)) {
        Ok(inquiry) => Ok((inquiry, end)),
        Err(fault) => Err(MessageFault::from(fault)),
    }
}

/// The response whose frame begins the bytes, and how many bytes the frame takes.
pub fn read_response(alloc: Global, bytes: &[u8]) -> Result<(Response, usize), MessageFault>
    // Of bytes that are wanting it is told by the length alone, and before all else.
    ensures short { (wanted : ℕ) → frame_end bytes.now ≡ Err (Short wanted) → result ≡ Err (Short wanted) }
    ensures exact { IsRead response_frame IsResponse result bytes.now }
    // A response whose frame begins the bytes is read, whatever follows, unless an allocation is refused.
    ensures only { (response : Response) (rest : List ℕ) → IsResponse response → bytes.now ≡ response_frame response ++ rest → IsReadAs response_frame result response }
{
    let end = frame_end(bytes)?;
    match response(alloc, inside(end, bytes)) {
        Ok(response) => Ok((response, end)),
        Err(fault) => Err(MessageFault::from(fault)),
    }
}
