//! What an image uses.

ghost use Rattle.std.specs.Prelude.{◌≡◌, ◌+◌, ◌<◌, ◌≤◌, length};
ghost use Rattle.unixmodel.specs.Image.{named_blocks, numbers_in_use};
ghost use Rattle.imagerules.specs.Fields.{HasGeometry};
ghost use Rattle.imagerules.specs.Marks.{blocks_of};
ghost use Rattle.imagerules.specs.Pieces.{HasSizes};

use crate::blocks::{block_count, format_of};
use crate::fields::is_free;
use crate::slots::index_blocks;
use layout::Geometry;

// How many blocks an inode names. One that is free names none.
fn block_total(image: &[u8], geometry: Geometry, n: usize) -> usize
    requires geometry { HasGeometry image.now geometry }
    requires sizes { HasSizes image.now }
    requires low { 1 ≤ n }
    requires high { n < geometry.inodes }
    ensures total { result ≡ length (blocks_of image.now n) }
    ensures most { result ≤ 66061 }
{
    if is_free(image, n) {
        return 0;
    }
    let count = block_count(image, n);
    count + index_blocks(format_of(image), count)
}

// How many blocks all inodes name.
pub fn blocks_in_use(image: &[u8], geometry: Geometry) -> usize
    requires geometry { HasGeometry image.now geometry }
    requires sizes { HasSizes image.now }
    ensures { result ≡ length (named_blocks image.now) }
{
    let mut total = 0;
    for n in 1..geometry.inodes {
        total += block_total(image, geometry, n);
    }
    total
}

// How many inodes are in use.
pub fn inodes_in_use(image: &[u8], geometry: Geometry) -> usize
    requires { HasGeometry image.now geometry }
    ensures { result ≡ length (numbers_in_use image.now) }
{
    let mut total = 0;
    for n in 1..geometry.inodes {
        if !is_free(image, n) {
            total += 1;
        }
    }
    total
}
