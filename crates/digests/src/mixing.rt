//! How numbers and bytes go into a digest.
ghost use Rattle.std.specs.Prelude.{◌≡◌, ◌*◌, ◌<◌, ◌/◌, drop, length};
ghost use Rattle.std.specs.List.{fold};
ghost use Rattle.byteorder.specs.Endian.{little_number};
ghost use Rattle.digests.specs.Digest.{bytes_mixed, flag, mix, mixed, words_mixed};

use byteorder::{ByteOrder, LittleEndian};

/// An odd number, so that no two numbers of 64 bits have the same product in 64 bits.
const FACTOR: u64 = 0x9E37_79B9_7F4A_7C15;

/// How many bytes go in as one number.
const WORD: usize = 8;

/// One number goes in.
#[inline]
#[tactic(auto, unfolding(crate::specs::Digest::mix))]
pub fn mix(digest: u64, number: u64) -> u64
    ensures { result ≡ mix digest number }
{
    let product = (digest ^ number).wrapping_mul(FACTOR);
    product ^ (product >> 32)
}

/// A mark as a number.
pub fn flag(mark: bool) -> u64
    ensures { result ≡ flag mark }
{
    if mark { 1 } else { 0 }
}

/// Numbers go in, one after the other.
pub fn mix_numbers(digest: u64, numbers: &[u64]) -> u64
    ensures { result ≡ mixed digest numbers.now }
{
    let mut digest = digest;
    for number in numbers {
        digest = mix(digest, *number);
    }
    digest
}

/// Bytes go in, one after the other.
pub fn mix_each(digest: u64, bytes: &[u8]) -> u64
    ensures { result ≡ mixed digest bytes.now }
{
    let mut digest = digest;
    for byte in bytes {
        digest = mix(digest, u64::from(*byte));
    }
    digest
}

// The word with a number in bytes.
fn word(bytes: &[u8], k: usize) -> u64
    requires { k < length bytes.now / 8 }
    ensures { result ≡ little_number 8 (drop (8 * k) bytes.now) }
{
    LittleEndian::read_u64(&bytes[WORD * k..])
}

// The words of bytes go in.
fn mix_words(digest: u64, bytes: &[u8]) -> u64
    ensures { result ≡ words_mixed digest bytes.now }
{
    let mut digest = digest;
    for k in 0..bytes.len() / WORD {
        digest = mix(digest, word(bytes, k));
    }
    digest
}

/// Bytes go in as words of 8, and what is left after the last word by itself.
#[tactic(auto, unfolding(crate::specs::Digest::bytes_mixed))]
pub fn mix_bytes(digest: u64, bytes: &[u8]) -> u64
    ensures { result ≡ bytes_mixed digest bytes.now }
{
    let digest = mix_words(digest, bytes);
    mix_each(digest, &bytes[WORD * (bytes.len() / WORD)..])
}
