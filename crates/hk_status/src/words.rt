//! Putting the words of a status behind other bytes. Where an allocation is refused, what stands there is of no use.

ghost use Rattle.std.specs.Prelude.{◌≡◌, ◌<◌, ◌++◌, OnOk, decimal};
ghost use Rattle.std.specs.List.{flat_map};
ghost use Rattle.hk_status.specs.Words.{field, number_text, known_field, address_text, hex_digit, hex_byte, founding_text, stage_text, shown_text};

use crate::status::NodeShown;
use hk_base::Memory;
use hk_fields::{put, put_byte};
use hk_inside::Stage;
use itoa::Buffer;

pub fn put_decimal(out: &mut Vec<u8>, number: u64) -> Result<(), Memory>
    ensures { OnOk result (out.new.items ≡ out.old.items ++ decimal number) }
{
    let mut buffer = Buffer::new();
    put(out, buffer.format(number).as_bytes())
}

pub fn put_field(out: &mut Vec<u8>, name: &[u8], number: u64) -> Result<(), Memory>
    ensures { OnOk result (out.new.items ≡ out.old.items ++ field name.now number) }
{
    put(out, name)?;
    put_decimal(out, number)
}

fn put_number(out: &mut Vec<u8>, number: Option<u64>) -> Result<(), Memory>
    ensures { OnOk result (out.new.items ≡ out.old.items ++ number_text number) }
{
    match number {
        Some(number) => put_decimal(out, number),
        None => put(out, b"-"),
    }
}

pub fn put_known_field(out: &mut Vec<u8>, name: &[u8], number: Option<u64>) -> Result<(), Memory>
    ensures { OnOk result (out.new.items ≡ out.old.items ++ known_field name.now number) }
{
    put(out, name)?;
    put_number(out, number)
}

pub fn put_address(out: &mut Vec<u8>, address: &[u8]) -> Result<(), Memory>
    ensures { OnOk result (out.new.items ≡ out.old.items ++ address_text address.now) }
{
    match address {
        [] => put(out, b"-"),
        _ => put(out, address),
    }
}

fn hex_digit(value: u8) -> u8
    requires { value < 16 }
    ensures { result ≡ hex_digit value }
{
    if value < 10 { 48 + value } else { 87 + value }
}

fn put_hex_byte(out: &mut Vec<u8>, byte: u8) -> Result<(), Memory>
    ensures { OnOk result (out.new.items ≡ out.old.items ++ hex_byte byte) }
{
    put_byte(out, hex_digit(byte / 16))?;
    put_byte(out, hex_digit(byte % 16))
}

fn put_hex(out: &mut Vec<u8>, bytes: &[u8]) -> Result<(), Memory>
    ensures { OnOk result (out.new.items ≡ out.old.items ++ flat_map hex_byte bytes.now) }
{
    for byte in bytes {
        put_hex_byte(out, *byte)?;
    }
    Ok(())
}

pub fn put_founding(out: &mut Vec<u8>, founding: Option<u64>) -> Result<(), Memory>
    ensures { OnOk result (out.new.items ≡ out.old.items ++ founding_text founding) }
{
    match founding {
        Some(founding) => {
            put(out, b" founding=")?;
            let bytes = founding.to_be_bytes();
            put_hex(out, &bytes)
        }
        None => put(out, b" founding=-"),
    }
}

pub fn put_stage(out: &mut Vec<u8>, stage: Stage) -> Result<(), Memory>
    ensures { OnOk result (out.new.items ≡ out.old.items ++ stage_text stage) }
{
    match stage {
        Stage::Empty => put(out, b" stage=empty"),
        Stage::Founded => put(out, b" stage=founded"),
        Stage::Open => put(out, b" stage=open"),
    }
}

pub fn put_shown(out: &mut Vec<u8>, state: NodeShown) -> Result<(), Memory>
    ensures { OnOk result (out.new.items ≡ out.old.items ++ shown_text state) }
{
    match state {
        NodeShown::Seated => put(out, b"seated"),
        NodeShown::Copying => put(out, b"copying"),
        NodeShown::Ready => put(out, b"ready"),
        NodeShown::Leaving => put(out, b"leaving"),
        NodeShown::Gone => put(out, b"gone"),
    }
}
