//! An image of the format of small files becomes one of the format in use, with the same files.
#![tactic(auto)]

ghost use Rattle.migrate.specs.Copies.{IsMigrated};

mod copy;
mod fault;

use copy::copy_nodes;
pub use fault::MigrateFault;
use imagecheck::check1_bytes;
use imagemake::{blank, bytes_left};
use std::alloc::Global;

/// Makes of an image of the format of small files one of the format in use that denotes the same files, by the same
/// numbers.
/// It has as many blocks and inodes.
///
/// The fault is `Image` where the old one denotes no files of its format, and `Blocks` where the files take more blocks
/// than the new one has: a file of 12 blocks has an index block there, and one of 268 blocks three.
pub fn migrate(alloc: Global, old: &[u8]) -> Result<Vec<u8>, MigrateFault>
    ensures { IsMigrated old.now result }
{
    let geometry = check1_bytes(alloc, old)?;
    let Ok(mut volume) = blank(alloc, geometry) else {
        return Err(MigrateFault::NoMemory);
    };
    volume.is_whole();
    copy_nodes(alloc, &mut volume, geometry, old)?;
    let (device, flushed) = volume.into_device();
    let Ok(new) = bytes_left(device, flushed) else {
        return Err(MigrateFault::NoMemory);
    };
    Ok(new)
}
