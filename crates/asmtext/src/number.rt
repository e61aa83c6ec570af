//! Numbers as they are written, of any length.
ghost use Rattle.std.specs.Prelude.{◌≡◌, ◌≤◌, ◌<◌, ◌^◌, ◌&&◌, IfOk, Some, None, if◌then◌else◌, nat_le, neg_ℤ};
ghost use Rattle.std.specs.Prelude.{option_map, pos};
ghost use Rattle.std.specs.Char.{digit_value};
ghost use Rattle.std.specs.List.{list_all};
ghost use Rattle.std.specs.Str.Parse.{digits_value};
ghost use Rattle.unixmodel.specs.Numbers.{field};
ghost use Rattle.unixmodel.specs.Operands as the;
ghost use Rattle.asmtext.specs.Numbers.{base_of, field_within, natural_within, number_of, numeral_of, signed_of};

use std::alloc::{AllocError, Global};

#[derive(Clone, Copy)]
enum Radix {
    Decimal,
    Hexadecimal,
}

/// A sign and digits.
#[derive(Drop)]
pub struct Number {
    negative: bool,
    radix: Radix,
    digits: Vec<u8>,
}

impl Radix {
    fn base(self) -> u32
        ensures is { result ≡ base_of self }
        ensures fits { (2 ≤ result) × (result ≤ 16) }
    {
        match self {
            Radix::Decimal => 10,
            Radix::Hexadecimal => 16,
        }
    }
}

// Whether it is a digit, small where it is a letter.
fn is_small_digit(radix: u32, c: u8) -> bool
    requires { (2 ≤ radix) × (radix ≤ 16) }
    ensures { result ≡ the.is_small_digit radix c }
{
    char::from(c).is_digit(radix) && !c.is_ascii_uppercase()
}

fn are_digits(radix: u32, digits: &[u8]) -> bool
    requires { (2 ≤ radix) × (radix ≤ 16) }
    ensures { result ≡ list_all (the.is_small_digit radix) digits.now }
{
    digits.iter().all(|c| is_small_digit(radix, *c))
}

fn is_numeral(radix: u32, digits: &[u8]) -> bool
    requires { (2 ≤ radix) × (radix ≤ 16) }
    ensures { result ≡ the.is_numeral radix digits.now }
{
    !digits.is_empty() && are_digits(radix, digits)
}

fn signed(
    alloc: Global,
    negative: bool,
    radix: Radix,
    digits: &[u8],
) -> Result<Option<Number>, AllocError>
    ensures { IfOk result (λ found. option_map number_of found
        ≡ option_map (signed_of negative) (numeral_of radix digits.now)) }
{
    if !is_numeral(radix.base(), digits) {
        return Ok(None);
    }
    Ok(Some(Number {
        negative,
        radix,
        digits: Vec::from_slice(alloc, digits)?,
    }))
}

/// The number that a text writes: decimal digits, after a minus or not, or hexadecimal ones after 0x.
#[tactic(auto, unfolding(unixmodel::specs::Operands::number_called))]
pub fn number_called(alloc: Global, text: &[u8]) -> Result<Option<Number>, AllocError>
    ensures { IfOk result (λ found. option_map number_of found ≡ the.number_called text.now) }
{
    if let Some(digits) = text.strip_prefix(b"0x") {
        return signed(alloc, false, Radix::Hexadecimal, digits);
    }
    if let Some(digits) = text.strip_prefix(b"-") {
        return signed(alloc, true, Radix::Decimal, digits);
    }
    signed(alloc, false, Radix::Decimal, text)
}

// What a digit or a letter stands for, and 36 for any other character.
fn digit_of(c: u8) -> u32
    ensures { result ≡ digit_value c }
{
    match c {
        b'0'..=b'9' => (c - b'0') as u32,
        b'A'..=b'Z' => (c - b'A') as u32 + 10,
        b'a'..=b'z' => (c - b'a') as u32 + 10,
        _ => 36,
    }
}

// The number that digits write, where it is at most that.
fn magnitude(radix: u32, digits: &[u8], most: u64) -> Option<u64>
    requires { (2 ≤ radix) × (radix ≤ 16) }
    ensures { result ≡ (if nat_le (digits_value radix digits.now) most then Some (digits_value radix digits.now)
        else None) }
{
    let mut value = 0u64;
    for digit in digits {
        let next = value as u128 * radix as u128 + digit_of(*digit) as u128;
        if (most as u128) < next {
            return None;
        }
        value = next as u64;
    }
    Some(value)
}

// The field of `bits` bits that has the number -size.
#[tactic(auto, using(crate::proofs::NumberLemmas::field_negated))]
fn negated(size: u64, bits: u32) -> u64
    requires { (bits ≤ 64) × (size < 2 ^ bits) }
    ensures { result ≡ field bits (neg_ℤ (pos size)) }
{
    if size == 0 {
        return 0;
    }
    (2u128.pow(bits) - size as u128) as u64
}

impl Number {
    /// The field of `bits` bits that has the number, where it lies from -below to above.
    pub fn field_in(&self, below: u64, above: u64, bits: u32) -> Option<u64>
        requires { (bits ≤ 64) × (below < 2 ^ bits) × (above < 2 ^ bits) }
        ensures { result ≡ field_within below above bits (number_of self.now) }
    {
        if self.negative {
            let size = magnitude(self.radix.base(), &self.digits, below)?;
            return Some(negated(size, bits));
        }
        magnitude(self.radix.base(), &self.digits, above)
    }
    /// The number, where it lies from 0 to that.
    pub fn at_most(&self, most: u64) -> Option<u64>
        ensures { result ≡ natural_within most (number_of self.now) }
    {
        let most = if self.negative { 0 } else { most };
        magnitude(self.radix.base(), &self.digits, most)
    }
}
