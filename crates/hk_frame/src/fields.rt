//! The fields of a frame, each read from the front of some bytes.

ghost use Rattle.std.specs.Prelude.{◌≡◌, ◌≤◌, length, IfOk};
ghost use Rattle.std.specs.Int.{w16, w32, w64};
ghost use Rattle.hk_frame.specs.Fields.{Gives, byte_at, number_at, within, bytes_at};

use crate::fault::Stop;

// One byte.
pub fn byte(bytes: &[u8]) -> Result<(u8, &[u8]), Stop>
    ensures { Gives (λ x. (x.0, x.1.now)) result (byte_at bytes.now) }
{
    match bytes.split_first() {
        Some((first, rest)) => Ok((*first, rest)),
        None => Err(Stop::Length),
    }
}

// A number of 2 bytes.
pub fn number16(bytes: &[u8]) -> Result<(u16, &[u8]), Stop>
    ensures { Gives (λ x. (x.0, x.1.now)) result (number_at w16 bytes.now) }
{
    if bytes.len() < 2 {
        return Err(Stop::Length);
    }
    let (front, rest) = bytes.split_at(2);
    Ok((u16::from_be_bytes([front[0], front[1]]), rest))
}

// A number of 4 bytes.
pub fn number32(bytes: &[u8]) -> Result<(u32, &[u8]), Stop>
    ensures { Gives (λ x. (x.0, x.1.now)) result (number_at w32 bytes.now) }
{
    if bytes.len() < 4 {
        return Err(Stop::Length);
    }
    let (front, rest) = bytes.split_at(4);
    let number = u32::from_be_bytes([front[0], front[1], front[2], front[3]]);
    Ok((number, rest))
}

// A number of 8 bytes.
pub fn number64(bytes: &[u8]) -> Result<(u64, &[u8]), Stop>
    ensures { Gives (λ x. (x.0, x.1.now)) result (number_at w64 bytes.now) }
{
    if bytes.len() < 8 {
        return Err(Stop::Length);
    }
    let (front, rest) = bytes.split_at(8);
    let number = u64::from_be_bytes([
        front[0], front[1], front[2], front[3], front[4], front[5], front[6], front[7],
    ]);
    Ok((number, rest))
}

// A byte from `least` to `most`.
pub fn byte_within(least: u8, most: u8, bytes: &[u8]) -> Result<(u8, &[u8]), Stop>
    ensures exact { Gives (λ x. (x.0, x.1.now)) result (within least most byte_at bytes.now) }
    ensures most { IfOk result (λ x. x.0 ≤ most) }
{
    let (value, rest) = byte(bytes)?;
    if least <= value && value <= most {
        return Ok((value, rest));
    }
    Err(Stop::Field { left: bytes.len() })
}

// A number of 2 bytes, from `least` to `most`.
pub fn number16_within(least: u32, most: u32, bytes: &[u8]) -> Result<(u16, &[u8]), Stop>
    ensures exact { Gives (λ x. (x.0, x.1.now)) result (within least most (number_at w16) bytes.now) }
    ensures most { IfOk result (λ x. x.0 ≤ most) }
{
    let (value, rest) = number16(bytes)?;
    if least <= u32::from(value) && u32::from(value) <= most {
        return Ok((value, rest));
    }
    Err(Stop::Field { left: bytes.len() })
}

// A number of 4 bytes, from `least` to `most`.
pub fn number32_within(least: u32, most: u32, bytes: &[u8]) -> Result<(u32, &[u8]), Stop>
    ensures exact { Gives (λ x. (x.0, x.1.now)) result (within least most (number_at w32) bytes.now) }
    ensures range { IfOk result (λ x. (least ≤ x.0) × (x.0 ≤ most)) }
{
    let (value, rest) = number32(bytes)?;
    if least <= value && value <= most {
        return Ok((value, rest));
    }
    Err(Stop::Field { left: bytes.len() })
}

// A number of 8 bytes, at most `most`.
pub fn number64_within(most: u64, bytes: &[u8]) -> Result<(u64, &[u8]), Stop>
    ensures { Gives (λ x. (x.0, x.1.now)) result (within 0 most (number_at w64) bytes.now) }
{
    let (value, rest) = number64(bytes)?;
    if value <= most {
        return Ok((value, rest));
    }
    Err(Stop::Field { left: bytes.len() })
}

// So many bytes, whatever they are.
pub fn take_bytes(len: usize, bytes: &[u8]) -> Result<(&[u8], &[u8]), Stop>
    ensures { Gives (λ x. (x.0.now, x.1.now)) result (bytes_at len bytes.now) }
{
    if bytes.len() < len {
        return Err(Stop::Length);
    }
    Ok(bytes.split_at(len))
}
