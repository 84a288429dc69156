//! Hearing messages.

ghost use Rattle.hk_greet.specs.Hearing.{Hears};

use crate::buffered::Buffered;
use crate::fault::HearFault;
use crate::limit::Limit;
use crate::message::{FrontFault, Message};
use hk_outside::Connection;
use std::alloc::Global;

// The message that comes next. What comes behind it is there for whoever reads next.
pub fn hear<M: Message, C: Connection, L: Limit<C>>(
    alloc: Global,
    conn: &mut Buffered<C>,
    limit: &L,
) -> Result<M, HearFault>
    ensures { Hears M.kind L.may_end result conn.old conn.new }
{
    loop {
        match M::read_front(alloc, conn.unread()) {
            Ok((message, length)) => {
                conn.skip(length);
                return Ok(message);
            }
            Err(FrontFault::Memory) => return Err(HearFault::Memory),
            Err(FrontFault::Malformed) => return Err(HearFault::Malformed),
            Err(FrontFault::Short) => {}
        }
        if limit.is_over(conn) {
            return Err(HearFault::Late);
        }
        let count = conn.fill()?;
        if count == 0 {
            return Err(HearFault::Ended);
        }
    }
}
