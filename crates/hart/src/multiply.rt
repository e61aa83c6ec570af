//! Multiplication and division.
//!
//! From the RISC-V unprivileged manual, its chapter on the extension M. No division traps: by zero the quotient has all
//! bits 1 and the remainder is the dividend, and the least signed number by -1 gives itself and 0.
//!
//! What is called from the step stays out of line (`inline(never)`), so that the loop over steps is small.
ghost use Rattle.std.specs.Prelude.{◌≡◌, ◌*ℤ◌, ◌%◌, ◌^◌, pos};
ghost use Rattle.std.specs.Int.{cast_signed, w32, w64};
ghost use Rattle.unixmodel.specs.Meaning.{high, quotient, remainder};
ghost use Rattle.unixmodel.specs.Numbers.{extend, field};

use crate::bits::extend_u32;

/// The high half of a product.
#[inline]
fn high(product: i128) -> u64
    ensures { result ≡ high product }
{
    (product.cast_unsigned() >> 64) as u64
}

/// MULH: both numbers are signed.
#[inline(never)]
pub fn mulh(a: u64, b: u64) -> u64
    ensures { result ≡ high (cast_signed w64 a *ℤ cast_signed w64 b) }
{
    high(i128::from(a.cast_signed()) * i128::from(b.cast_signed()))
}

/// MULHSU: the first number is signed, and the second isn't.
#[inline(never)]
#[tactic(auto, using(crate::proofs::Products::mixed_fits))]
pub fn mulhsu(a: u64, b: u64) -> u64
    ensures { result ≡ high (cast_signed w64 a *ℤ pos b) }
{
    high(i128::from(a.cast_signed()) * i128::from(b))
}

/// MULHU: neither number is signed.
#[inline(never)]
pub fn mulhu(a: u64, b: u64) -> u64
    ensures { result ≡ high (pos a *ℤ pos b) }
{
    ((u128::from(a) * u128::from(b)) >> 64) as u64
}

/// DIV.
#[inline(never)]
pub fn div(a: u64, b: u64) -> u64
    ensures { result ≡ quotient 64 (cast_signed w64 a) (cast_signed w64 b) }
{
    if b == 0 {
        return u64::MAX;
    }
    a.cast_signed()
        .wrapping_div(b.cast_signed())
        .cast_unsigned()
}

/// DIVU.
#[inline(never)]
pub fn divu(a: u64, b: u64) -> u64
    ensures { result ≡ quotient 64 (pos a) (pos b) }
{
    if b == 0 { u64::MAX } else { a / b }
}

/// REM.
#[inline(never)]
pub fn rem(a: u64, b: u64) -> u64
    ensures { result ≡ remainder 64 (cast_signed w64 a) (cast_signed w64 b) }
{
    if b == 0 {
        return a;
    }
    a.cast_signed()
        .wrapping_rem(b.cast_signed())
        .cast_unsigned()
}

/// REMU.
#[inline(never)]
pub fn remu(a: u64, b: u64) -> u64
    ensures { result ≡ remainder 64 (pos a) (pos b) }
{
    if b == 0 { a } else { a % b }
}

/// MULW.
#[inline(never)]
pub fn mulw(a: u32, b: u32) -> u64
    ensures { result ≡ extend 32 (field 32 (pos a *ℤ pos b)) }
{
    extend_u32(a.wrapping_mul(b))
}

/// DIVW.
#[inline(never)]
pub fn divw(a: u32, b: u32) -> u64
    ensures { result ≡ extend 32 (quotient 32 (cast_signed w32 a) (cast_signed w32 b)) }
{
    if b == 0 {
        return u64::MAX;
    }
    let quotient = a.cast_signed().wrapping_div(b.cast_signed());
    extend_u32(quotient.cast_unsigned())
}

/// DIVUW.
#[inline(never)]
pub fn divuw(a: u32, b: u32) -> u64
    ensures { result ≡ extend 32 (quotient 32 (pos a) (pos b)) }
{
    if b == 0 { u64::MAX } else { extend_u32(a / b) }
}

/// REMW.
#[inline(never)]
pub fn remw(a: u32, b: u32) -> u64
    ensures { result ≡ extend 32 (remainder 32 (cast_signed w32 a) (cast_signed w32 b)) }
{
    if b == 0 {
        return extend_u32(a);
    }
    let remainder = a.cast_signed().wrapping_rem(b.cast_signed());
    extend_u32(remainder.cast_unsigned())
}

/// REMUW.
#[inline(never)]
pub fn remuw(a: u32, b: u32) -> u64
    ensures { result ≡ extend 32 (remainder 32 (pos a) (pos b)) }
{
    extend_u32(if b == 0 { a } else { a % b })
}
