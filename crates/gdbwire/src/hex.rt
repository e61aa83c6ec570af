//! Hexadecimal numbers, as the protocol has them: the highest digit first, and lower case letters where they are
//! written.
ghost use Rattle.std.specs.Prelude.{◌≡◌, ◌<◌, ◌++◌, None, Some, IfOk, IfSome, OnOk, if◌then◌else◌, option_map};
ghost use Rattle.gdbwire.specs.Hex.{bytes_of, hex_byte, hex_bytes, hex_digit, hex_number, hex_up_to, number_of};
ghost use Rattle.gdbwire.specs.Hex.{pair_of, value_of, with_digit};

use std::alloc::AllocError;

/// What a digit stands for; letters are of either case.
#[tactic(auto, unfolding(crate::specs::Hex::value_of))]
pub fn digit_value(code: u8) -> Option<u8>
    ensures value { result ≡ value_of code }
    ensures below { IfSome result (λ digit. digit < 16) }
{
    match code {
        b'0'..=b'9' => Some(code - b'0'),
        b'a'..=b'f' => Some(code - b'a' + 10),
        b'A'..=b'F' => Some(code - b'A' + 10),
        _ => None,
    }
}

// A number so far, with one digit more: None where that is no digit, or the number is 2 ^ 64 or more.
fn with_digit(number: u64, code: u8) -> Option<u64>
    ensures { result ≡ with_digit number (value_of code) }
{
    let digit = digit_value(code)?;
    if number < 1 << 60 {
        Some(16 * number + u64::from(digit))
    } else {
        None
    }
}

/// What digits stand for: None where there are none, where one is no digit, and where they stand for 2 ^ 64 or more.
pub fn number(digits: &[u8]) -> Option<u64>
    ensures { result ≡ number_of digits.now }
{
    if digits.is_empty() {
        return None;
    }
    let mut value = 0;
    for code in digits {
        value = with_digit(value, *code)?;
    }
    Some(value)
}

// The digit of a number below 16.
#[tactic(auto, unfolding(crate::specs::Hex::hex_digit))]
fn digit(value: u8) -> u8
    requires { value < 16 }
    ensures { result ≡ hex_digit value }
{
    if value < 10 {
        b'0' + value
    } else {
        b'a' - 10 + value
    }
}

/// Puts a byte at the end, as two digits. An error leaves at most the first of them.
#[tactic(auto, unfolding(crate::specs::Hex::hex_byte))]
pub fn push_byte(byte: u8, out: &mut Vec<u8>) -> Result<(), AllocError>
    ensures { OnOk result (out.new.items ≡ out.old.items ++ hex_byte byte) }
{
    out.extend_from_slice(&[digit(byte / 16), digit(byte % 16)])
}

/// Puts bytes at the end, as two digits each. An error leaves a beginning of them.
pub fn push_bytes(bytes: &[u8], out: &mut Vec<u8>) -> Result<(), AllocError>
    ensures { OnOk result (out.new.items ≡ out.old.items ++ hex_bytes bytes.now) }
{
    for byte in bytes {
        push_byte(*byte, out)?;
    }
    Ok(())
}

// Appends the digits of a number, at most `most` of them, the highest first.
fn push_up_to(most: u32, number: u64, out: &mut Vec<u8>) -> Result<(), AllocError>
    ensures { OnOk result (out.new.items ≡ out.old.items ++ hex_up_to most number) }
{
    if most == 0 {
        return Ok(());
    }
    if number < 16 {
        return out.extend_from_slice(&[digit(number as u8)]);
    }
    push_up_to(most - 1, number / 16, out)?;
    out.extend_from_slice(&[digit((number % 16) as u8)])
}

/// Puts a number at the end, with no more digits than it needs. An error leaves a beginning of them.
pub fn push_number(number: u64, out: &mut Vec<u8>) -> Result<(), AllocError>
    ensures { OnOk result (out.new.items ≡ out.old.items ++ hex_number number) }
{
    push_up_to(16, number, out)
}

// The byte that two digits stand for.
fn pair(high: u8, low: u8) -> Option<u8>
    ensures { result ≡ pair_of (value_of high) (value_of low) }
{
    let high = digit_value(high)?;
    let low = digit_value(low)?;
    Some(16 * high + low)
}

/// Puts the bytes that digits stand for at the end, two digits a byte, and returns whether they stand for bytes. Where
/// they don't, or memory fails, it leaves a beginning of them.
pub fn push_decoded(digits: &[u8], out: &mut Vec<u8>) -> Result<bool, AllocError>
    ensures { IfOk result (λ known. option_map (λ bytes. out.old.items ++ bytes) (bytes_of digits.now)
        ≡ (if known then Some out.new.items else None)) }
{
    let mut at = 0;
    while at < digits.len() {
        if at + 1 == digits.len() {
            return Ok(false);
        }
        let Some(byte) = pair(digits[at], digits[at + 1]) else {
            return Ok(false);
        };
        out.extend_from_slice(&[byte])?;
        at += 2;
    }
    Ok(true)
}
