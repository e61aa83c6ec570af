//! The making of an image from a manifest.
#![tactic(auto)]

ghost use Rattle.std.specs.Prelude.{◌≡◌, ◌<◌, ◌≤◌, ◌*◌, Err, IsOk, [], false, length, IfOk, IfErr, OnOk};
ghost use Rattle.blockdev.specs.Blocks.{blocks_of};
ghost use Rattle.unixmodel.specs.Files.{free_slots};
ghost use Rattle.unixmodel.specs.Manifest.{files_made, has_numbers};
ghost use Rattle.imagemake.specs.Added.{IsBlank, IsPossible};
ghost use Rattle.imagemake.specs.Begins.{CanBegin, PutsEntries};
ghost use Rattle.imagerules.specs.Content.{image_of};
ghost use Rattle.imagemake.specs.Making.{MakesImage, Refuses, meaning};

mod entry;
mod made;
mod maker;
mod manifest;
mod path;
mod store;

use balloc::format;
use blockdev::{BLOCK_SIZE, BlockDev, DeviceFault, MemDisk};
use cache::Cache;
use entry::add_entries;
use inode::Volume;
use layout::{Geometry, MOST_BLOCKS};
use made::Made;
pub use maker::Maker;
pub use manifest::{Entry, MakeFault, Manifest, Thing};
use std::alloc::Global;
use store::store_root;
use tree::Tree;

/// Makes an image of `blocks` blocks and `inodes` inodes.
pub fn make(
    alloc: Global,
    manifest: &Manifest,
    size: u32,
    inodes: u32,
) -> Result<Vec<u8>, MakeFault>
    ensures made { IfOk result (λ image. MakesImage (meaning manifest.now.entries.items) size inodes image.items) }
    ensures refused { IfErr result
        (λ fault. Refuses (files_made (meaning manifest.now.entries.items) size inodes) fault) }
{
    let geometry = Geometry {
        size: size as usize,
        inodes: inodes as usize,
    };
    if !is_possible(geometry) {
        return Err(MakeFault::Numbers);
    }
    let volume = blank(alloc, geometry)?;
    volume.is_whole();
    let mut tree = Tree::new(alloc, volume)?;
    let mut made = Made::with_capacity(alloc, geometry.inodes)?;
    put_files(&mut tree, &mut made, &manifest.entries)?;
    let (device, flushed) = tree.into_device();
    bytes_left(device, flushed)
}

// Whether an image can have these numbers.
fn is_possible(geometry: Geometry) -> bool
    ensures { result ≡ has_numbers geometry.size geometry.inodes }
{
    32 <= geometry.size
        && geometry.size <= MOST_BLOCKS as usize
        && 16 <= geometry.inodes
        && geometry.inodes <= 8192
        && geometry.data_start() < geometry.size
}

/// A disk without files, in memory. The fault is `NoMemory`.
pub fn blank(alloc: Global, geometry: Geometry) -> Result<Volume<MemDisk>, MakeFault>
    requires { IsPossible geometry }
    ensures blank { IfOk result (IsBlank geometry) }
    ensures only { IfErr result (λ fault. fault ≡ MakeFault.NoMemory) }
{
    let bytes = vec![in alloc; 0; BLOCK_SIZE * geometry.size]?;
    let Ok(device) = MemDisk::new(bytes) else {
        return Err(MakeFault::NoMemory);
    };
    let mut disk = Cache::new(alloc, device)?;
    let Ok(()) = format(&mut disk, geometry) else {
        return Err(MakeFault::NoMemory);
    };
    let volume = Volume::new(disk, geometry);
    Ok(volume)
}

// Puts the root and the entries among files of which there are none.
fn put_files<'a, D: BlockDev>(
    tree: &mut Tree<D>,
    made: &mut Made<'a>,
    entries: &'a [Entry],
) -> Result<(), MakeFault>
    requires able { CanBegin tree.old made.old }
    requires none { tree.old.files ≡ free_slots (length tree.old.files) }
    ensures { PutsEntries tree.old tree.new (meaning entries.now) result }
{
    let Ok(()) = store_root(tree) else {
        return Err(MakeFault::NoMemory);
    };
    add_entries(tree, made, entries)
}

/// The bytes that are left of a disk. The fault is `NoMemory`, and comes where an access failed.
pub fn bytes_left(device: MemDisk, flushed: Result<(), DeviceFault>) -> Result<Vec<u8>, MakeFault>
    ensures bytes { IfOk result (λ bytes. bytes.items ≡ image_of (blocks_of device.bytes)) }
    ensures flushed { OnOk result (IsOk flushed) }
    ensures only { IfErr result (λ fault. fault ≡ MakeFault.NoMemory) }
{
    let Ok(()) = flushed else {
        return Err(MakeFault::NoMemory);
    };
    Ok(device.into_bytes())
}
