//! The records of inodes: an inode is free where its type is 0.

ghost use Rattle.std.specs.Prelude.{◌≡◌, ◌≢◌, ℕ, ◌+◌, ◌-◌, ◌*◌, ◌/◌, ◌%◌, ◌<◌, ◌≤◌, IfNone, IfSome, List, None, length};
ghost use Rattle.blockdev.specs.Splice.{part};
ghost use Rattle.cache.specs.Steps.{AsBefore, Reads, Steps};
ghost use Rattle.layout.specs.Inode.{Fits, inode_of};
ghost use Rattle.layout.specs.Image.{IsInode, inode_at};
ghost use Rattle.layout.specs.Sound.{HasParts, IsSound};
ghost use Rattle.layout.specs.Grow.{WritesInode};
ghost use Rattle.balloc.specs.Inodes.{FindsInode, IsRecord, IsUnused, SetsNode, TakesInode, TakesNode};

use blockdev::{Block, BlockDev, DeviceFault};
use cache::Cache;
use layout::{DiskInode, Geometry, Kind};

/// The record of an inode.
#[inline]
pub fn read_inode<D: BlockDev>(
    disk: &mut Cache<D>,
    geometry: Geometry,
    number: usize,
) -> Result<DiskInode, DeviceFault>
    requires parts { HasParts geometry disk.old.blocks }
    requires high { number < geometry.inodes }
    ensures { Reads D.identity disk.old disk.new result (IsRecord disk.old.blocks number) }
{
    let mut record = [0; 64];
    let place = DiskInode::at(number);
    disk.read_part(place.block, place.offset, &mut record)?;
    Ok(DiskInode::from_front(&record))
}

/// Writes the record of an inode.
pub fn write_inode<D: BlockDev>(
    disk: &mut Cache<D>,
    geometry: Geometry,
    number: usize,
    inode: &DiskInode,
) -> Result<(), DeviceFault>
    requires parts { HasParts geometry disk.old.blocks }
    requires high { number < geometry.inodes }
    requires fits { Fits inode.now }
    ensures { Steps D.identity disk.old disk.new result
        (λ _. WritesInode geometry disk.old.blocks disk.new.blocks number inode.now) }
{
    let place = DiskInode::at(number);
    disk.write(place.block, place.offset, &inode.to_bytes())
}

/// Takes the lowest free inode, for a node without bytes of this kind and number of links. `None` comes exactly where
/// none is free, and nothing is changed then.
pub fn take_inode<D: BlockDev>(
    disk: &mut Cache<D>,
    geometry: Geometry,
    kind: Kind,
    links: u16,
) -> Result<Option<usize>, DeviceFault>
    requires sound { IsSound geometry disk.old.blocks }
    ensures { Steps D.identity disk.old disk.new result
        (TakesInode geometry disk.old.blocks disk.new.blocks kind links) }
{
    let Some(number) = find_unused(disk, geometry)? else {
        return Ok(None);
    };
    take_inode_at(disk, geometry, number, kind, links)?;
    Ok(Some(number))
}

/// Takes an inode that is known to be free, for a node without bytes of this kind and number of links.
pub fn take_inode_at<D: BlockDev>(
    disk: &mut Cache<D>,
    geometry: Geometry,
    number: usize,
    kind: Kind,
    links: u16,
) -> Result<(), DeviceFault>
    requires sound { IsSound geometry disk.old.blocks }
    requires unused { IsUnused geometry disk.old.blocks number }
    ensures { Steps D.identity disk.old disk.new result (λ _.
        TakesNode geometry disk.old.blocks disk.new.blocks number kind links) }
{
    write_inode(disk, geometry, number, &DiskInode::new(kind, links))
}

/// Gives back an inode that has no bytes.
pub fn give_inode<D: BlockDev>(
    disk: &mut Cache<D>,
    geometry: Geometry,
    number: usize,
) -> Result<(), DeviceFault>
    requires sound { IsSound geometry disk.old.blocks }
    requires inode { IsInode disk.old.blocks geometry.inodes number }
    requires empty { (inode_at disk.old.blocks number).size ≡ 0 }
    ensures { Steps D.identity disk.old disk.new result
        (λ _. SetsNode geometry disk.old.blocks disk.new.blocks number None) }
{
    write_inode(disk, geometry, number, &DiskInode::new(Kind::Free, 0))
}

// The lowest number from 1 on whose type is 0.
fn find_unused<D: BlockDev>(
    disk: &mut Cache<D>,
    geometry: Geometry,
) -> Result<Option<usize>, DeviceFault>
    requires { HasParts geometry disk.old.blocks }
    ensures { Reads D.identity disk.old disk.new result (FindsInode geometry disk.old.blocks) }
{
    let mut n = 1;
    'scan: while n < geometry.inodes {
        let block = disk.read(DiskInode::at(n).block)?;
        let first = n / 16 * 16;
        let end = geometry.inodes.min(first + 16);
        if let Some(i) = first_unused(&block, n % 16, end - first) {
            return Ok(Some(first + i));
        }
        n = end;
    }
    Ok(None)
}

// The lowest record of a block in a range whose type is 0.
fn first_unused(block: &Block, from: usize, to: usize) -> Option<usize>
    requires { to ≤ 16 }
    ensures some { IfSome result (λ i. (from ≤ i) × (i < to) × ((inode_of (part (64 * i) 64 block.now)).kind ≡ 0)) }
    ensures lowest { IfSome result
        (λ i. (k : ℕ) → from ≤ k → k < i → (inode_of (part (64 * k) 64 block.now)).kind ≢ 0) }
    ensures none { IfNone result ((k : ℕ) → from ≤ k → k < to → (inode_of (part (64 * k) 64 block.now)).kind ≢ 0) }
{
    for i in from..to {
        if inode_in(block, i).kind == 0 {
            return Some(i);
        }
    }
    None
}

// Record `i` of a block.
fn inode_in(block: &Block, i: usize) -> DiskInode
    requires { i < 16 }
    ensures inode { result ≡ inode_of (part (64 * i) 64 block.now) }
    ensures fits { Fits result }
{
    let at = 64 * i;
    DiskInode::from_front(&block[at..at + 64])
}
