//! Putting fields behind other bytes. Where an allocation is refused, what stands there is of no use.

ghost use Rattle.std.specs.Prelude.{◌≡◌, ◌++◌, ◌∷◌, [], ◌<◌, length, OnOk};
ghost use Rattle.std.specs.Int.{w16, w32, w64, to_be_bytes};
ghost use Rattle.hk_fields.specs.Fields.{text_bytes, actor_bytes};

use crate::tickets::Ticket;
use hk_base::{Actor, Memory};

/// Puts bytes there.
pub fn put(out: &mut Vec<u8>, bytes: &[u8]) -> Result<(), Memory>
    ensures { OnOk result (out.new.items ≡ out.old.items ++ bytes.now) }
{
    out.extend_from_slice(bytes)?;
    Ok(())
}

/// Puts one byte.
pub fn put_byte(out: &mut Vec<u8>, byte: u8) -> Result<(), Memory>
    ensures { OnOk result (out.new.items ≡ out.old.items ++ byte ∷ []) }
{
    out.push(byte)?;
    Ok(())
}

/// Puts a number of 2 bytes.
pub fn put_number16(out: &mut Vec<u8>, number: u16) -> Result<(), Memory>
    ensures { OnOk result (out.new.items ≡ out.old.items ++ to_be_bytes w16 number) }
{
    put(out, &number.to_be_bytes())
}

/// Puts a number of 4 bytes.
pub fn put_number32(out: &mut Vec<u8>, number: u32) -> Result<(), Memory>
    ensures { OnOk result (out.new.items ≡ out.old.items ++ to_be_bytes w32 number) }
{
    put(out, &number.to_be_bytes())
}

/// Puts a number of 8 bytes.
pub fn put_number64(out: &mut Vec<u8>, number: u64) -> Result<(), Memory>
    ensures { OnOk result (out.new.items ≡ out.old.items ++ to_be_bytes w64 number) }
{
    put(out, &number.to_be_bytes())
}

/// Puts a ticket.
pub fn put_ticket(out: &mut Vec<u8>, ticket: Ticket) -> Result<(), Memory>
    ensures { OnOk result (out.new.items ≡ out.old.items ++ ticket.0) }
{
    put(out, &ticket.0)
}

/// Puts a text: its length in 1 byte, and its bytes.
pub fn put_text(out: &mut Vec<u8>, text: &[u8]) -> Result<(), Memory>
    requires { length text.now < 256 }
    ensures { OnOk result (out.new.items ≡ out.old.items ++ text_bytes text.now) }
{
    put_byte(out, text.len() as u8)?;
    put(out, text)
}

/// Puts an actor: its class in 1 byte, 0 for a node and 1 for a manager, and its number in 2.
pub fn put_actor(out: &mut Vec<u8>, actor: Actor) -> Result<(), Memory>
    ensures { OnOk result (out.new.items ≡ out.old.items ++ actor_bytes actor) }
{
    match actor {
        Actor::Node(node) => {
            put_byte(out, 0)?;
            put_number16(out, node.0)
        }
        Actor::Manager(manager) => {
            put_byte(out, 1)?;
            put_number16(out, u16::from(manager))
        }
    }
}
