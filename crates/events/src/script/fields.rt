//! What follows the first word of a line: numbers of events, and keys.
ghost use Rattle.std.specs.Prelude.{◌≡◌, ◌<◌, ℕ, IfOk, IfSome, MatchOption};
ghost use Rattle.events.specs.Fields.{FindsBytes, IsCount, hex_digit, hex_pair};

use std::alloc::{AllocError, Global};

/// The most events of a line.
pub const MOST_EVENTS: u64 = 1_000_000_000;

/// The number of events that decimal digits write, if they are digits alone and it is at most
/// `MOST_EVENTS`.
pub fn count(digits: &[u8]) -> Option<u32>
    ensures { MatchOption result ((n : ℕ) → ¬ (IsCount digits.now n)) (IsCount digits.now) }
{
    if digits.is_empty() {
        return None;
    }
    let mut number = 0u64;
    for digit in digits {
        if !digit.is_ascii_digit() {
            return None;
        }
        number = number * 10 + u64::from(*digit - b'0');
        if number > MOST_EVENTS {
            return None;
        }
    }
    Some(number as u32)
}

// What a hexadecimal digit stands for; its letters are in lower case.
fn digit_value(code: u8) -> Option<u8>
    ensures value { result ≡ hex_digit code }
    ensures bound { IfSome result (λ value. value < 16) }
{
    match code {
        b'0'..=b'9' => Some(code - b'0'),
        b'a'..=b'f' => Some(code - b'a' + 10),
        _ => None,
    }
}

/// The byte that two hexadecimal digits write. Letters are in lower case.
pub fn pair_value(high: u8, low: u8) -> Option<u8>
    ensures { result ≡ hex_pair high low }
{
    match (digit_value(high), digit_value(low)) {
        (Some(high), Some(low)) => Some(16 * high + low),
        _ => None,
    }
}

/// The bytes that pairs of hexadecimal digits write, if the text is made of them. Letters are in
/// lower case.
pub fn bytes_of(alloc: Global, digits: &[u8]) -> Result<Option<Vec<u8>>, AllocError>
    ensures { IfOk result (FindsBytes digits.now) }
{
    if digits.len() % 2 != 0 {
        return Ok(None);
    }
    let mut bytes = Vec::new(alloc);
    for index in 0..digits.len() / 2 {
        match pair_value(digits[2 * index], digits[2 * index + 1]) {
            Some(byte) => bytes.push(byte)?,
            None => return Ok(None),
        }
    }
    Ok(Some(bytes))
}
