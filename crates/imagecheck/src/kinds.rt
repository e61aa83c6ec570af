//! The types and the sizes of inodes.

ghost use Rattle.std.specs.Prelude.{◌↔◌, IsTrue, ◌%◌, ◌<◌};
ghost use Rattle.imagerules.specs.Fields.{HasGeometry};
ghost use Rattle.layout.specs.Kinds.{kind_number};
ghost use Rattle.imagerules.specs.Pieces.{HasKinds, HasSizes, FitsKind};

use crate::blocks::format_of;
use crate::fields::{is_directory, is_known, kind, size};
use crate::slots::single;
use layout::{Geometry, Kind};

// Whether each type is known, and the root is a directory.
pub fn has_kinds(image: &[u8], geometry: Geometry) -> bool
    requires { HasGeometry image.now geometry }
    ensures { IsTrue result ↔ HasKinds image.now }
{
    for n in 1..geometry.inodes {
        if !is_known(image, n) {
            return false;
        }
    }
    is_directory(image, 1)
}

// Whether an inode of this kind may have this size in bytes, where `longest` is the longest of a file.
fn fits_kind(longest: usize, kind: Kind, size: usize) -> bool
    ensures { IsTrue result ↔ FitsKind longest (kind_number kind) size }
{
    match kind {
        Kind::Free => true,
        Kind::Directory => size >= 32 && size <= longest && size % 16 == 0,
        Kind::File => size <= longest,
        Kind::Device { .. } => size == 0,
    }
}

// Whether each inode has a size that its type may have.
pub fn has_sizes(image: &[u8], geometry: Geometry) -> bool
    requires geometry { HasGeometry image.now geometry }
    requires kinds { HasKinds image.now }
    ensures { IsTrue result ↔ HasSizes image.now }
{
    let longest = 1024 * single(format_of(image));
    for n in 1..geometry.inodes {
        if !fits_kind(longest, kind(image, n), size(image, n) as usize) {
            return false;
        }
    }
    true
}
