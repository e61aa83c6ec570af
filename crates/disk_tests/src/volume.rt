//! A disk with files, on which a list of steps is walked. What each step gives is compared with what its row says.

ghost use Rattle.std.specs.Prelude.{◌≡◌, ◌<◌, ◌≤◌, IfOk, OnOk, false, is_some};
ghost use Rattle.std.specs.Bool.{OnTrue};
ghost use Rattle.inode.specs.Store.{has_failed, is_device};
ghost use Rattle.layout.specs.Sound.{HasParts};
ghost use Rattle.layout.specs.Super.{data_start_of};
ghost use Rattle.unixmodel.specs.Files.{slot};
ghost use Rattle.unixmodel.specs.Formats.{format};

use crate::devices::fail_after;
use balloc::format;
use blockdev::{BLOCK_SIZE, DeviceFault, FailAt, MemDisk};
use cache::Cache;
use inode::{FILE, InodeFault, Volume};
use layout::{Geometry, Kind, MOST_BLOCKS};
use std::alloc::Global;

/// The numbers of the smallest disk.
pub const SMALL: Geometry = Geometry {
    size: 32,
    inodes: 16,
};

/// A disk of this byte, of which one access fails, after `good` good ones.
pub fn disk_of(
    alloc: Global,
    geometry: Geometry,
    byte: u8,
    good: u64,
) -> Result<Cache<FailAt<MemDisk>>, DeviceFault>
    ensures parts { IfOk result (λ disk. HasParts geometry disk.blocks) }
    ensures size { OnOk result (32 ≤ geometry.size) }
{
    if !is_possible(geometry) {
        return Err(DeviceFault);
    }
    let Ok(bytes) = vec![in alloc; byte; BLOCK_SIZE * geometry.size] else {
        return Err(DeviceFault);
    };
    let Ok(disk) = MemDisk::new(bytes) else {
        return Err(DeviceFault);
    };
    let Ok(disk) = Cache::new(alloc, fail_after(disk, good)) else {
        return Err(DeviceFault);
    };
    if disk.blocks() != geometry.size {
        return Err(DeviceFault);
    }
    Ok(disk)
}

// Whether a disk can have these numbers.
fn is_possible(geometry: Geometry) -> bool
    ensures size { OnTrue result ((32 ≤ geometry.size) × (geometry.size ≤ format.most)) }
    ensures inodes { OnTrue result ((16 ≤ geometry.inodes) × (geometry.inodes ≤ 8192)) }
    ensures room { OnTrue result (data_start_of geometry.size geometry.inodes < geometry.size) }
{
    32 <= geometry.size
        && geometry.size <= MOST_BLOCKS as usize
        && 16 <= geometry.inodes
        && geometry.inodes <= 8192
        && geometry.data_start() < geometry.size
}

/// A step, and its expected result. Files are named by their numbers.
#[derive(Clone, Copy)]
pub enum Step {
    /// A new file gets this number; none is free where there is no number here.
    Create(Option<usize>),
    /// That many equal bytes are written from an offset on: this comes of it.
    Fill(usize, usize, usize, u8, Result<(), InodeFault>),
    /// These bytes are written from an offset on.
    Write(usize, usize, [u8; 5]),
    /// That many bytes are read from an offset on, into nine bytes of which each was 1.
    Read(usize, usize, usize, [u8; 9]),
    /// The file loses all its bytes.
    Empty(usize),
    /// The file gets another number of names. It had this number of names and size.
    Link(usize, u16, (u16, u32)),
}

/// Takes the steps on a new disk with files, and returns the first that gives anything else than its row says.
/// One access of the disk fails, after `good` good ones.
pub fn first_wrong(
    alloc: Global,
    geometry: Geometry,
    good: u64,
    steps: &[Step],
) -> Result<Option<usize>, InodeFault> {
    let mut disk = disk_of(alloc, geometry, 0, good)?;
    format(&mut disk, geometry)?;
    let mut volume = Volume::new(disk, geometry);
    for (row, step) in steps.iter().enumerate() {
        if !walk(&mut volume, alloc, *step)? {
            return Ok(Some(row));
        }
    }
    let (_disk, flushed) = volume.into_device();
    flushed?;
    Ok(None)
}

// A disk in memory with files, of which an access may fail.
type Files = Volume<FailAt<MemDisk>>;

// Takes a step, and returns whether it gives what its row says.
fn walk(volume: &mut Files, alloc: Global, step: Step) -> Result<bool, InodeFault>
    requires { volume.old.failed ≡ false }
    ensures { OnOk result (volume.new.failed ≡ false) }
{
    match step {
        Step::Create(number) => Ok(volume.take(Kind::File, 1)? == number),
        Step::Fill(number, at, count, byte, want) => {
            fill(volume, alloc, number, at, count, byte, want)
        }
        Step::Write(number, at, bytes) => write(volume, number, at, &bytes, Ok(())),
        Step::Read(number, at, count, bytes) => read(volume, number, at, count, bytes),
        Step::Empty(number) => empty(volume, number),
        Step::Link(number, links, before) => link(volume, number, links, before),
    }
}

// Whether a number names a node.
fn names(volume: &mut Files, number: usize) -> Result<bool, DeviceFault>
    requires { volume.old.failed ≡ false }
    ensures up { OnOk result (volume.new.failed ≡ false) }
    ensures named { IfOk result (λ named. named ≡ is_some (slot volume.new.nodes number)) }
{
    Ok(volume.look(number)?.is_some())
}

// Whether an access failed.
fn is_lost(told: &Result<(), InodeFault>) -> bool
    ensures { result ≡ has_failed is_device told.now }
{
    match told {
        Ok(()) => false,
        Err(fault) => *fault == InodeFault::Device,
    }
}

// Writes `count` equal bytes, and returns whether that gives what is wanted.
fn fill(
    volume: &mut Files,
    alloc: Global,
    number: usize,
    at: usize,
    count: usize,
    byte: u8,
    want: Result<(), InodeFault>,
) -> Result<bool, InodeFault>
    requires { volume.old.failed ≡ false }
    ensures { OnOk result (volume.new.failed ≡ false) }
{
    match vec![in alloc; byte; count] {
        Ok(bytes) => write(volume, number, at, &bytes, want),
        Err(_) => Err(InodeFault::Device),
    }
}

// Writes the bytes, and returns whether that gives what is wanted.
fn write(
    volume: &mut Files,
    number: usize,
    at: usize,
    bytes: &[u8],
    want: Result<(), InodeFault>,
) -> Result<bool, InodeFault>
    requires { volume.old.failed ≡ false }
    ensures { OnOk result (volume.new.failed ≡ false) }
{
    if !names(volume, number)? {
        return Ok(false);
    }
    let told = volume.write_at(number, at, bytes);
    if is_lost(&told) {
        return Err(InodeFault::Device);
    }
    Ok(told == want)
}

// Reads into nine bytes that were 1, and returns whether `count` were read and the nine are these.
fn read(
    volume: &mut Files,
    number: usize,
    at: usize,
    count: usize,
    bytes: [u8; 9],
) -> Result<bool, InodeFault>
    requires { volume.old.failed ≡ false }
    ensures { OnOk result (volume.new.failed ≡ false) }
{
    if !names(volume, number)? {
        return Ok(false);
    }
    let mut out = [1; 9];
    let read = volume.read_at(number, at, &mut out)?;
    Ok(read == count && out == bytes)
}

// The file loses all its bytes.
fn empty(volume: &mut Files, number: usize) -> Result<bool, InodeFault>
    requires { volume.old.failed ≡ false }
    ensures { OnOk result (volume.new.failed ≡ false) }
{
    if !names(volume, number)? {
        return Ok(false);
    }
    volume.truncate(number)?;
    Ok(true)
}

// Sets the number of names of a file that had this number of names and size.
fn link(
    volume: &mut Files,
    number: usize,
    links: u16,
    before: (u16, u32),
) -> Result<bool, InodeFault>
    requires { volume.old.failed ≡ false }
    ensures { OnOk result (volume.new.failed ≡ false) }
{
    if !names(volume, number)? {
        return Ok(false);
    }
    let told = volume.stat(number)?;
    volume.set_links(number, links)?;
    Ok(told.kind == FILE && (told.links, told.size) == before)
}
