//! Where a byte of a file lies, by the blocks that were used last: nothing is read and nothing copied for it.

ghost use Rattle.std.specs.Prelude.{◌≡◌, ◌+◌, ◌*◌, ◌/◌, ◌%◌, ◌<◌, IfSome, length};
ghost use Rattle.blockdev.specs.Blocks.{AreBlocks, block_at};
ghost use Rattle.blockdev.specs.Splice.{part};
ghost use Rattle.layout.specs.Image.{Asks, IsInode, slot_in};
ghost use Rattle.layout.specs.Inode.{Fits, inode_of};
ghost use Rattle.layout.specs.Sound.{HasParts, IsSound};
ghost use Rattle.inode.specs.Finding.{IsFound};
ghost use Rattle.inode.specs.Writing.{HasIndex};

use blockdev::BlockDev;
use cache::Cache;
use layout::{DIRECT, DiskInode, Geometry, read_number};

/// The block that a byte of a file lies in.
#[derive(Clone, Copy)]
pub struct Found {
    /// How many bytes the file has.
    pub size: usize,
    /// The number of the block.
    pub block: usize,
}

// The record of an inode, where it lies in a block that was used of late.
fn record_bytes<D: BlockDev>(disk: &Cache<D>, geometry: Geometry, number: usize) -> Option<&[u8]>
    requires parts { HasParts geometry disk.now.blocks }
    requires high { number < geometry.inodes }
    ensures bytes { IfSome result
        (λ bytes. bytes.now ≡ part (64 * (number % 16)) 64 (block_at disk.now.blocks (2 + number / 16))) }
    ensures size { IfSome result (λ bytes. length bytes.now ≡ 64) }
{
    let place = DiskInode::at(number);
    let Some(block) = disk.recent(place.block) else {
        return None;
    };
    Some(&block[place.offset..place.offset + 64])
}

// The number of a data block that the size asks for, where the record has it, or the single index block, if that was
// used of late.
fn number_of<D: BlockDev>(disk: &Cache<D>, bytes: &[u8], slot: usize) -> Option<usize>
    requires size { length bytes.now ≡ 64 }
    requires asked { Asks (inode_of bytes.now).size slot }
    requires sizes { AreBlocks disk.now.blocks }
    requires index { HasIndex disk.now.blocks (inode_of bytes.now) }
    ensures number { IfSome result (λ b. b ≡ slot_in disk.now.blocks (inode_of bytes.now) slot) }
    ensures fits { IfSome result (λ _. Fits (inode_of bytes.now)) }
{
    if slot < DIRECT {
        return Some(read_number(bytes, 3 + slot) as usize);
    }
    if slot >= DIRECT + 256 {
        return None;
    }
    let single = read_number(bytes, 3 + DIRECT) as usize;
    let Some(index) = disk.recent(single) else {
        return None;
    };
    Some(read_number(index, slot - DIRECT) as usize)
}

/// The block that byte `at` of a file lies in, up to the end of its last block. `None` says nothing.
#[inline(always)]
pub fn find<D: BlockDev>(
    disk: &Cache<D>,
    geometry: Geometry,
    number: usize,
    at: usize,
) -> Option<Found>
    requires sound { IsSound geometry disk.now.blocks }
    requires inode { IsInode disk.now.blocks geometry.inodes number }
    ensures { IfSome result (IsFound disk.now.blocks number at) }
{
    let Some(bytes) = record_bytes(disk, geometry, number) else {
        return None;
    };
    let size = read_number(bytes, 2) as usize;
    let slot = at / 1024;
    if slot >= size.div_ceil(1024) {
        return None;
    }
    let Some(block) = number_of(disk, bytes, slot) else {
        return None;
    };
    Some(Found { size, block })
}
