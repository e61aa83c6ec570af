//! Programs of random words. Nearly all of them end at their first instruction.
use crate::runs::{Input, run_over_each};
use std::alloc::{AllocError, Global};

const WORDS: usize = 1024;

// The program of a seed: each word is the high half of the next number of a linear generator.
fn program(alloc: Global, seed: u64) -> Result<Vec<u8>, AllocError> {
    let mut x = seed;
    let mut bytes = Vec::new(alloc);
    for _ in 0..WORDS {
        x = x
            .wrapping_mul(6_364_136_223_846_793_005)
            .wrapping_add(1_442_695_040_888_963_407);
        bytes.extend_from_slice(&((x >> 32) as u32).to_le_bytes())?;
    }
    Ok(bytes)
}

// Whether the program of a seed does the same over each translator.
fn does_the_same(alloc: Global, seed: u64) -> bool {
    let Ok(program) = program(alloc, seed) else {
        return false;
    };
    let program = program.as_slice();
    run_over_each(alloc, Input { program, keys: b"" }).is_some()
}

/// The first of these seeds whose program doesn't do the same over each translator.
pub fn wrong(alloc: Global, from: u64, to: u64) -> Option<u64> {
    for seed in from..=to {
        if !does_the_same(alloc, seed) {
            return Some(seed);
        }
    }
    None
}
