//! Whole frames, 64 bytes at a time.
ghost use Rattle.std.specs.Prelude.{◌≡◌, ℕ, ◌+◌, ◌*◌, ◌<◌, ◌≤◌, length, replicate};

use crate::FRAME_SIZE;
use std::simd::prelude::*;

/// Bytes that are read and written at a time.
const LANES: usize = 64;

/// Makes all bytes of a frame 0.
#[inline]
pub(crate) fn clear(frame: &mut [u8; FRAME_SIZE])
    ensures { frame.new ≡ replicate 4096 0 }
{
    for part in 0..FRAME_SIZE / LANES {
        let at = part * LANES;
        u8x64::splat(0).copy_to_slice(&mut frame[at..at + LANES]);
    }
}

/// Copies all bytes of a frame.
#[inline]
pub(crate) fn copy(from: &[u8; FRAME_SIZE], to: &mut [u8; FRAME_SIZE])
    ensures { to.new ≡ from.now }
{
    for part in 0..FRAME_SIZE / LANES {
        let at = part * LANES;
        let lanes = u8x64::from_slice(&from[at..at + LANES]);
        lanes.copy_to_slice(&mut to[at..at + LANES]);
    }
}
