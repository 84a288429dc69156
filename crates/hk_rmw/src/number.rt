//! Decimal numbers, as `incr` and `decr` read and write them.

ghost use Rattle.std.specs.Prelude.{◌≡◌, ◌<◌, ◌^◌, length, nat_lt, true, None, Some, if◌then◌else◌, decimal, IfOk};
ghost use Rattle.std.specs.List.{list_all};
ghost use Rattle.std.specs.Char.{is_ascii_digit};
ghost use Rattle.std.specs.Str.Parse.{digits_value};
ghost use Rattle.hk_base.specs.Register.{number_in, content_of_number};

use hk_base::{Content, Data, DataFault, Memory};
use itoa::Buffer;
use std::alloc::Global;

// The most digits that a number below 2^64 has.
const MAX_DIGITS: usize = 20;

fn are_digits(bytes: &[u8]) -> bool
    ensures { result ≡ list_all is_ascii_digit bytes.now }
{
    bytes.iter().all(|byte| byte.is_ascii_digit())
}

// What digits are worth, where that is below 2^64.
fn value(digits: &[u8]) -> Option<u64>
    requires digits { list_all is_ascii_digit digits.now ≡ true }
    requires some { 0 < length digits.now }
    ensures { result ≡ (if nat_lt (digits_value 10 digits.now) (2 ^ 64) then Some (digits_value 10 digits.now) else None) }
{
    let Ok(text) = str::from_utf8(digits) else {
        return None;
    };
    text.parse::<u64>().ok()
}

/// The number that the bytes are: 1 to 20 digits, zeros in front among them, of a value below 2^64.
#[tactic(auto, using(crate::proofs::AllDigits::all_digits))]
pub fn number_in(bytes: &[u8]) -> Option<u64>
    ensures { result ≡ number_in bytes.now }
{
    if bytes.is_empty() {
        return None;
    }
    if bytes.len() > MAX_DIGITS {
        return None;
    }
    if !are_digits(bytes) {
        return None;
    }
    value(bytes)
}

/// The content that holds the number, without zeros in front, and the flags that the old content has.
pub fn content_of_number(alloc: Global, old: &Content, number: u64) -> Result<Content, Memory>
    ensures { IfOk result (λ content. content ≡ content_of_number old.now number) }
{
    let mut buffer = Buffer::new();
    match Data::read(alloc, buffer.format(number).as_bytes()) {
        Ok(bytes) => Ok(Content {
            flags: old.flags,
            bytes,
        }),
        Err(DataFault::Memory) => Err(Memory),
        Err(DataFault::TooLarge { .. }) => unreachable!(),
    }
}
