//! How numbers are written.
ghost use Rattle.std.specs.Prelude.{◌≤◌};

use crate::fault::Wrong;

/// The value of a digit; 36 where it is none.
fn digit_of(c: u8) -> u64
    ensures { result ≤ 36 }
{
    match c {
        b'0'..=b'9' => (c - b'0') as u64,
        b'A'..=b'Z' => (c - b'A') as u64 + 10,
        b'a'..=b'z' => (c - b'a') as u64 + 10,
        _ => 36,
    }
}

// The number that digits of a radix write, where 64 bits hold it.
fn digits_value(radix: u64, digits: &[u8]) -> Option<u64> {
    let mut value = 0u64;
    for c in digits {
        let digit = digit_of(*c);
        if digit >= radix {
            return None;
        }
        value = value.checked_mul(radix)?.checked_add(digit)?;
    }
    Some(value)
}

fn some_digits(radix: u64, digits: &[u8]) -> Result<u64, Wrong> {
    if digits.is_empty() {
        return Err(Wrong::Number);
    }
    match digits_value(radix, digits) {
        Some(value) => Ok(value),
        None => Err(Wrong::Number),
    }
}

/// The number that a text writes as C does: decimal, after 0x hexadecimal, after 0b binary, after 0 octal.
pub(crate) fn number_called(text: &[u8]) -> Result<u64, Wrong> {
    match text {
        [b'0', b'x' | b'X', digits @ ..] => some_digits(16, digits),
        [b'0', b'b' | b'B', digits @ ..] => some_digits(2, digits),
        [b'0', digits @ ..] if !digits.is_empty() => some_digits(8, digits),
        _ => some_digits(10, text),
    }
}
