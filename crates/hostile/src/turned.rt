//! An image whose end is missing, or of which a bit is turned.

ghost use Rattle.std.specs.Prelude.{◌<◌};

use crate::images::{
    Change, DIRECTORY, FORMATS, Format, LARGE_FILE, SMALL_FILE, changed, disk_of, judged,
};
use image::ImageFault;
use std::alloc::Global;

// Whether a piece of an image is refused for its length: it has no whole blocks, or fewer than it says.
fn is_short(alloc: Global, piece: &[u8], format: Format) -> bool {
    if piece.len() % 1024 == 0 {
        judged(alloc, piece, format) == Some(Err(ImageFault::Length))
    } else {
        disk_of(alloc, piece).is_none()
    }
}

// The first length below the image's of which a piece isn't refused for it.
fn wrong_length(alloc: Global, format: Format) -> Option<u64> {
    let Some(image) = changed(alloc, format, &[]) else {
        return Some(0);
    };
    let image = image.as_slice();
    for length in 0..image.len() {
        if !is_short(alloc, image.get(..length).unwrap_or(&[]), format) {
            return Some(length as u64);
        }
    }
    None
}

/// The first length below an image's of which a piece isn't refused for it, in either format.
pub fn wrong_piece(alloc: Global) -> Option<u64> {
    for format in &FORMATS {
        if let Some(length) = wrong_length(alloc, *format) {
            return Some(length);
        }
    }
    None
}

// An image in a format, and the bytes whose bits are turned: from offset `from` up to `to`.
struct Part {
    format: Format,
    changes: &'static [Change],
    from: u16,
    to: u16,
}

// Blocks 1 to 4 and the root's of the image of a machine without a disk.
// Then the inodes and the entries of one with a directory, and the inodes and the block numbers of one with a file.
const PARTS: [Part; 8] = [
    Part {
        format: Format::Small,
        changes: &[],
        from: 1024,
        to: 6144,
    },
    Part {
        format: Format::Large,
        changes: &[],
        from: 1024,
        to: 6144,
    },
    Part {
        format: Format::Small,
        changes: &DIRECTORY,
        from: 2112,
        to: 2304,
    },
    Part {
        format: Format::Large,
        changes: &DIRECTORY,
        from: 5120,
        to: 6192,
    },
    Part {
        format: Format::Small,
        changes: &SMALL_FILE,
        from: 2112,
        to: 2304,
    },
    Part {
        format: Format::Large,
        changes: &LARGE_FILE,
        from: 2112,
        to: 2304,
    },
    Part {
        format: Format::Small,
        changes: &SMALL_FILE,
        from: 18432,
        to: 18448,
    },
    Part {
        format: Format::Large,
        changes: &LARGE_FILE,
        from: 18432,
        to: 18448,
    },
];

// Turns a bit.
fn turn(image: &mut [u8], bit: usize) {
    if let Some(byte) = image.get_mut(bit / 8) {
        *byte ^= 1 << (bit % 8);
    }
}

// The first bit of a part, of one in `stride`, after whose turn the check and the rules differ.
fn wrong_turn(alloc: Global, part: &Part, stride: usize) -> Option<u64>
    requires { 0 < stride }
{
    let Some(mut image) = changed(alloc, part.format, part.changes) else {
        return Some(0);
    };
    for bit in (8 * usize::from(part.from)..8 * usize::from(part.to)).step_by(stride) {
        turn(image.as_mut_slice(), bit);
        if judged(alloc, image.as_slice(), part.format).is_none() {
            return Some(bit as u64);
        }
        turn(image.as_mut_slice(), bit);
    }
    None
}

/// The first bit of any part, of one in `stride`, after whose turn the check and the rules differ.
pub fn wrong_bit(alloc: Global, stride: usize) -> Option<u64> {
    for part in &PARTS {
        if let Some(bit) = wrong_turn(alloc, part, stride.max(1)) {
            return Some(bit);
        }
    }
    None
}
