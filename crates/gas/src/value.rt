//! The values of expressions: numbers of 64 bits, or addresses in a section.

use crate::fault::Wrong;
use crate::tokens::Mark;

/// The sections, in the order in which they lie in memory.
#[derive(Clone, Copy, PartialEq, Eq)]
pub enum Section {
    Text,
    ReadOnly,
    Data,
    Zeros,
    /// Zeros that `.comm` names.
    Commons,
    /// What is no part of a program.
    Dropped,
}

/// From where a value counts.
#[derive(Clone, Copy, PartialEq, Eq)]
pub enum Base {
    /// From 0: it is a number.
    Number,
    /// From a section's start, in a file.
    Section(Section, usize),
    /// It isn't known yet.
    Unknown,
}

#[derive(Clone, Copy)]
pub struct Value {
    pub base: Base,
    pub number: i64,
}

/// A number as a value.
pub(crate) fn number(number: i64) -> Value {
    Value {
        base: Base::Number,
        number,
    }
}

/// A value that isn't known yet.
pub const UNKNOWN: Value = Value {
    base: Base::Unknown,
    number: 0,
};

fn shift_of(number: i64) -> Option<u32> {
    match u32::try_from(number) {
        Ok(count) => { if count < 64 { Some(count) } else { None } }
        Err(_) => None,
    }
}

fn shifted_left(a: i64, b: i64) -> i64 {
    match shift_of(b) {
        Some(count) => a.wrapping_shl(count),
        None => 0,
    }
}

// As `as` shifts: without a sign.
fn shifted_right(a: i64, b: i64) -> i64 {
    match shift_of(b) {
        Some(count) => a.cast_unsigned().wrapping_shr(count).cast_signed(),
        None => 0,
    }
}

fn divided(a: i64, b: i64) -> Result<i64, Wrong> {
    if b == 0 {
        return Err(Wrong::Divisor);
    }
    Ok(a.wrapping_div(b))
}

fn remainder(a: i64, b: i64) -> Result<i64, Wrong> {
    if b == 0 {
        return Err(Wrong::Divisor);
    }
    Ok(a.wrapping_rem(b))
}

// An operation on two numbers.
fn calculated(mark: Mark, a: i64, b: i64) -> Result<i64, Wrong> {
    match mark {
        Mark::Plus => Ok(a.wrapping_add(b)),
        Mark::Minus => Ok(a.wrapping_sub(b)),
        Mark::Times => Ok(a.wrapping_mul(b)),
        Mark::Over => divided(a, b),
        Mark::Percent => remainder(a, b),
        Mark::Left => Ok(shifted_left(a, b)),
        Mark::Right => Ok(shifted_right(a, b)),
        Mark::And => Ok(a & b),
        Mark::Or => Ok(a | b),
        Mark::Xor => Ok(a ^ b),
        _ => Err(Wrong::Expression),
    }
}

// What the result of an operation counts from: a number may be added to an address or taken from it,
// and the way between two addresses of a section is a number.
fn joined(mark: Mark, a: Base, b: Base) -> Result<Base, Wrong> {
    match (mark, a, b) {
        (_, Base::Unknown, _) | (_, _, Base::Unknown) => Ok(Base::Unknown),
        (_, Base::Number, Base::Number) => Ok(Base::Number),
        (Mark::Plus, Base::Number, base) => Ok(base),
        (Mark::Plus | Mark::Minus, base, Base::Number) => Ok(base),
        (Mark::Minus, a, b) if a == b => Ok(Base::Number),
        _ => Err(Wrong::Mixed),
    }
}

/// The value of an operation on two values.
pub(crate) fn binary(mark: Mark, a: Value, b: Value) -> Result<Value, Wrong> {
    let base = joined(mark, a.base, b.base)?;
    if base == Base::Unknown {
        return Ok(UNKNOWN);
    }
    Ok(Value {
        base,
        number: calculated(mark, a.number, b.number)?,
    })
}

/// The value of a sign before a value.
pub(crate) fn unary(mark: Mark, a: Value) -> Result<Value, Wrong> {
    match mark {
        Mark::Plus => Ok(a),
        Mark::Minus => binary(Mark::Minus, number(0), a),
        _ => binary(Mark::Xor, number(-1), a),
    }
}
