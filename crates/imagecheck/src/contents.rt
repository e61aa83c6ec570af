//! The bytes of an inode.

ghost use Rattle.std.specs.Prelude.{◌≡◌, ◌≢◌, ◌+◌, ◌*◌, ◌<◌, ◌≤◌, ◌++◌, length, flat_map, OnOk};
ghost use Rattle.unixmodel.specs.Image.{block_at, contents_in, data_blocks, kind_in};
ghost use Rattle.imagerules.specs.Fields.{HasGeometry, HasInode, SuperRules};
ghost use Rattle.imagerules.specs.Pieces.{FitsAddresses};
ghost use Rattle.imagerules.specs.Rules.{BlockRules};
ghost use Rattle.imagecheck.specs.Reach.{IsDirectoryIn, first_block};

use crate::blocks::{block_count, number};
use crate::fields::{inode_place, number32, size};
use layout::Geometry;
use std::alloc::{AllocError, Allocator};

// Appends the bytes of the data blocks of an inode.
fn copy_blocks<A: Allocator>(
    image: &[u8],
    n: usize,
    bytes: &mut Vec<u8, A>,
) -> Result<(), AllocError>
    requires inode { HasInode image.now n }
    requires addresses { FitsAddresses image.now n }
    requires rules { SuperRules image.now }
    ensures { OnOk result (bytes.new.items ≡ bytes.old.items
        ++ flat_map (block_at image.now) (data_blocks image.now n)) }
{
    for k in 0..block_count(image, n) {
        let at = 1024 * number(image, n, k);
        bytes.extend_from_slice(&image[at..at + 1024])?;
    }
    Ok(())
}

// The offset of the first block of a directory.
pub fn front_place(image: &[u8], geometry: Geometry, n: usize) -> usize
    requires geometry { HasGeometry image.now geometry }
    requires blocks { BlockRules image.now }
    requires directory { IsDirectoryIn image.now n }
    ensures place { result ≡ 1024 * first_block image.now n }
    ensures inside { result + 1024 ≤ length image.now }
{
    1024 * number32(image, inode_place(n) + 12) as usize
}

/// Replaces `bytes` by the bytes of an inode.
pub fn read_contents<A: Allocator>(
    image: &[u8],
    geometry: Geometry,
    n: usize,
    bytes: &mut Vec<u8, A>,
) -> Result<(), AllocError>
    requires geometry { HasGeometry image.now geometry }
    requires blocks { BlockRules image.now }
    requires low { 1 ≤ n }
    requires high { n < geometry.inodes }
    requires used { kind_in image.now n ≢ 0 }
    ensures { OnOk result (bytes.new.items ≡ contents_in image.now n) }
{
    bytes.clear();
    copy_blocks(image, n, bytes)?;
    bytes.truncate(size(image, n) as usize);
    Ok(())
}
