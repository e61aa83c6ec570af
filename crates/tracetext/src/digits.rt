//! Hexadecimal digits, sixteen at once.
ghost use Rattle.std.specs.Prelude.{◌≡◌, ◌<◌, length, map};
ghost use Rattle.std.specs.Simd.Lanes.{Each1};
ghost use Rattle.tracetext.specs.Commits.{digit_of, low_digits, low_halves};

use std::simd::prelude::*;

// The digits of numbers below 16.
#[inline(always)]
fn spelled(numbers: u8x16) -> u8x16
    requires count { length numbers ≡ 16 }
    requires small { Each1 (λ x. x < 16) numbers }
    ensures { result ≡ map digit_of numbers }
{
    let above = numbers.simd_gt(u8x16::splat(9));
    let more = above.select(u8x16::splat(b'a' - b'0' - 10), u8x16::splat(0));
    numbers + u8x16::splat(b'0') + more
}

// The halves of the bytes of a number, the highest first.
#[inline(always)]
fn halves(n: u64) -> u8x16
    ensures { result ≡ low_halves 16 n }
{
    let bytes = u64x1::splat(n).to_le_bytes();
    let (upper, lower) = (bytes >> u8x8::splat(4), bytes & u8x8::splat(15));
    upper.shuffle(
        lower,
        [7, 15, 6, 14, 5, 13, 4, 12, 3, 11, 2, 10, 1, 9, 0, 8],
    )
}

/// All sixteen digits of a number.
#[inline(always)]
pub fn sixteen(n: u64) -> [u8; 16]
    ensures { result ≡ low_digits 16 n }
{
    spelled(halves(n)).to_array()
}
