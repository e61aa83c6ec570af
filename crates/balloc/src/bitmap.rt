//! The bits of one block of a bitmap.

ghost use Rattle.std.specs.Prelude.{◌≡◌, ◌≢◌, ℕ, ◌+◌, ◌*◌, ◌/◌, ◌%◌, ◌<◌, ◌≤◌, length, get_or};
ghost use Rattle.std.specs.Bool.{OnTrue, OnFalse};
ghost use Rattle.layout.specs.Image.{bit_in};
ghost use Rattle.balloc.specs.Bitmap.{lowest_clear};

use blockdev::Block;
use std::simd::prelude::*;

/// The lowest clear bit of a block, from `from` up to and without `to`.
pub fn first_clear(block: &Block, from: usize, to: usize) -> Option<usize>
    requires ordered { from ≤ to }
    requires within { to ≤ 8192 }
    ensures { result ≡ lowest_clear block.now from to }
{
    let mut i = from;
    'scan: while i < to {
        let set = set_bits(block, i);
        if set == 0 {
            return Some(i);
        }
        i += set;
    }
    None
}

// How many bits from bit `i` on are seen to be set at once: those of up to 64 bytes, of a byte, or one.
fn set_bits(block: &Block, i: usize) -> usize
    requires { i < 8192 }
    ensures within { i + result ≤ 8192 }
    ensures set { (k : ℕ) → i ≤ k → k < i + result → bit_in block.now k ≡ 1 }
    ensures clear { result ≡ 0 → bit_in block.now i ≡ 0 }
{
    if i % 512 == 0 {
        let full = full_bytes(&block[i / 8..]);
        if full > 0 {
            return 8 * full;
        }
    }
    if i % 8 == 0 && block[i / 8] == 0xff {
        return 8;
    }
    if is_set(block, i) { 1 } else { 0 }
}

// How many of the first 64 bytes are full, up to the first that isn't.
fn full_bytes(bytes: &[u8]) -> usize
    requires { 64 ≤ length bytes.now }
    ensures within { result ≤ 64 }
    ensures full { (k : ℕ) → k < result → get_or bytes.now k 0 ≡ 255 }
    ensures next { result < 64 → get_or bytes.now result 0 ≢ 255 }
{
    let lanes = u8x64::from_slice(bytes);
    let others = lanes.simd_ne(u8x64::splat(0xff)).to_bitmask();
    if others == 0 {
        return 64;
    }
    others.trailing_zeros() as usize
}

// Whether a bit of a block is set.
#[tactic(auto, unfolding(layout::specs::Image::bit_in))]
fn is_set(block: &Block, i: usize) -> bool
    requires { i < 8192 }
    ensures set { OnTrue result (bit_in block.now i ≡ 1) }
    ensures clear { OnFalse result (bit_in block.now i ≡ 0) }
{
    block[i / 8] >> (i % 8) & 1 == 1
}
