//! Free blocks and inodes: the lowest is taken first.

ghost use Rattle.std.specs.Prelude.{◌≤◌, OnOk};
ghost use Rattle.layout.specs.Sound.{HasParts, IsSound};

use crate::volume::{SMALL, disk_of};
use balloc::{first_clear, format, give_block, give_inode, take_block, take_inode};
use blockdev::{DeviceFault, FailAt, MemDisk};
use cache::Cache;
use layout::{Geometry, Kind};
use std::process::Abort;

// What is taken: the number of an inode, and three blocks, of which the second is given back before the third is taken.
type Taken = (Option<usize>, [Option<usize>; 3]);

// An inode is taken and given back.
fn use_inode(
    disk: &mut Cache<FailAt<MemDisk>>,
    geometry: Geometry,
) -> Result<Option<usize>, DeviceFault>
    requires sound { IsSound geometry disk.old.blocks }
    ensures sound { OnOk result (IsSound geometry disk.new.blocks) }
{
    let Some(number) = take_inode(disk, geometry, Kind::File, 1)? else {
        return Ok(None);
    };
    give_inode(disk, geometry, number)?;
    Ok(Some(number))
}

// A block is taken and given back.
fn use_block(
    disk: &mut Cache<FailAt<MemDisk>>,
    geometry: Geometry,
) -> Result<Option<usize>, DeviceFault>
    requires parts { HasParts geometry disk.old.blocks }
    ensures parts { OnOk result (HasParts geometry disk.new.blocks) }
{
    let Some(block) = take_block(disk, geometry)? else {
        return Ok(None);
    };
    give_block(disk, geometry, block)?;
    Ok(Some(block))
}

// One call of each, on a new file system.
fn use_all(disk: &mut Cache<FailAt<MemDisk>>, geometry: Geometry) -> Result<Taken, DeviceFault>
    requires parts { HasParts geometry disk.old.blocks }
    requires size { 32 ≤ geometry.size }
{
    format(disk, geometry)?;
    let number = use_inode(disk, geometry)?;
    let first = take_block(disk, geometry)?;
    let second = use_block(disk, geometry)?;
    let third = take_block(disk, geometry)?;
    disk.flush()?;
    Ok((number, [first, second, third]))
}

// What one call of each returns on a small disk of this byte, and whether an access failed, after `good` good ones.
fn use_small(
    rt: &(impl Abort + AllocGlobal),
    byte: u8,
    good: u64,
) -> (Result<Taken, DeviceFault>, bool) {
    let mut disk = disk_of(rt.alloc(), SMALL, byte, good).expect(rt, "a disk");
    let told = use_all(&mut disk, SMALL);
    (told, disk.into_device().has_failed())
}

// What is taken where nothing fails.
const TAKEN: Taken = (Some(1), [Some(5), Some(6), Some(6)]);

#[test]
fn finds_the_lowest_clear_bit(rt: HostRuntime) {
    for (byte, from, to, bit) in [
        (0xff, 0, 8192, Some(8191)),
        (0xff, 0, 8191, None),
        (0xff, 8191, 8191, None),
        (0xef, 0, 8192, Some(804)),
        (0xef, 805, 8192, Some(8191)),
    ] {
        let mut block = [0xff; 1024];
        block[1023] = 0x7f;
        block[100] = byte;
        assert!(rt; first_clear(&block, from, to) == bit, "from {from} to {to}");
    }
}

// A new file system of these numbers.
fn formatted(rt: &(impl Abort + AllocGlobal), geometry: Geometry) -> Cache<FailAt<MemDisk>>
    ensures { HasParts geometry result.blocks }
{
    let mut disk = disk_of(rt.alloc(), geometry, 0, u64::MAX).expect(rt, "a disk");
    assert!(rt; format(&mut disk, geometry).is_ok());
    disk
}

#[test]
fn tells_that_no_block_is_free(rt: HostRuntime) {
    let geometry = Geometry {
        size: 32,
        inodes: 447,
    };
    let mut disk = formatted(&rt, geometry);
    assert!(rt; take_block(&mut disk, geometry) == Ok(Some(31)));
    assert!(rt; take_block(&mut disk, geometry) == Ok(None));
}

#[test]
fn takes_the_lowest_or_tells_a_failure(rt: HostRuntime) {
    assert!(rt; use_small(&rt, 7, u64::MAX) == (Ok(TAKEN), false));
    // each of five blocks is written whole before it is read, so that it takes one access
    for good in 0..9 {
        let want = if good < 5 {
            (Err(DeviceFault), true)
        } else {
            (Ok(TAKEN), false)
        };
        assert!(rt; use_small(&rt, 0, good) == want, "after {good}");
    }
}
