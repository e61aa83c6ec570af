//! Numbers and texts at the front of bytes: each is returned with the bytes after it.

/// The most bytes of a number in LEB128: those of one of 64 bits.
const MOST_LEB128: u8 = 10;

/// A number of one byte.
pub(crate) fn byte(bytes: &[u8]) -> Option<(u8, &[u8])> {
    let (byte, rest) = bytes.split_first()?;
    Some((*byte, rest))
}

/// A number of two bytes.
pub(crate) fn half(bytes: &[u8]) -> Option<(u16, &[u8])> {
    let (front, rest) = bytes.split_first_chunk::<2>()?;
    Some((u16::from_le_bytes(*front), rest))
}

/// A number of four bytes.
pub(crate) fn word(bytes: &[u8]) -> Option<(u32, &[u8])> {
    let (front, rest) = bytes.split_first_chunk::<4>()?;
    Some((u32::from_le_bytes(*front), rest))
}

/// A number of eight bytes.
pub(crate) fn double(bytes: &[u8]) -> Option<(u64, &[u8])> {
    let (front, rest) = bytes.split_first_chunk::<8>()?;
    Some((u64::from_le_bytes(*front), rest))
}

/// The first `length` bytes.
pub(crate) fn front(bytes: &[u8], length: u64) -> Option<(&[u8], &[u8])> {
    bytes.split_at_checked(usize::try_from(length).ok()?)
}

/// The bytes before a 0, and those after it.
pub(crate) fn text(bytes: &[u8]) -> Option<(&[u8], &[u8])> {
    for (length, byte) in bytes.iter().enumerate() {
        if *byte == 0 {
            return Some((&bytes[..length], &bytes[length + 1..]));
        }
    }
    None
}

// An unsigned number in LEB128, of at most `most` bytes.
fn unsigned_within(bytes: &[u8], most: u8) -> Option<(u64, &[u8])> {
    let (first, rest) = bytes.split_first()?;
    let low = u64::from(*first % 128);
    if *first < 128 {
        return Some((low, rest));
    }
    if most <= 1 {
        return None;
    }
    let (high, rest) = unsigned_within(rest, most - 1)?;
    Some((high.checked_mul(128)? + low, rest))
}

// A signed number in LEB128, of at most `most` bytes.
fn signed_within(bytes: &[u8], most: u8) -> Option<(i64, &[u8])> {
    let (first, rest) = bytes.split_first()?;
    let low = i64::from(*first % 128);
    if *first < 64 {
        return Some((low, rest));
    }
    if *first < 128 {
        return Some((low - 128, rest));
    }
    if most <= 1 {
        return None;
    }
    let (high, rest) = signed_within(rest, most - 1)?;
    Some((high.checked_mul(128)?.checked_add(low)?, rest))
}

/// An unsigned number in LEB128 (DWARF 5, section 7.6).
pub(crate) fn unsigned(bytes: &[u8]) -> Option<(u64, &[u8])> {
    unsigned_within(bytes, MOST_LEB128)
}

/// A signed number in LEB128 (DWARF 5, section 7.6).
pub(crate) fn signed(bytes: &[u8]) -> Option<(i64, &[u8])> {
    signed_within(bytes, MOST_LEB128)
}
