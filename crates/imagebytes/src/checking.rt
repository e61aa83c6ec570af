//! Checks an image.
ghost use Rattle.std.specs.Prelude.{◌≡◌, ◌%◌, IfErr, IfOk, OnOk, length};
ghost use Rattle.imagecheck.specs.Faults.{Denies, Tells};
ghost use Rattle.imagerules.specs.Places.{files_in};
ghost use Rattle.unixmodel.specs.Formats.{format};
ghost use Rattle.unixmodel.specs.Image.{Denotes, named_blocks, numbers_in_use};

use blockdev::MemDisk;
use image::{ImageFault, Summary};
use std::alloc::Global;

/// The disk of an image: `Length` where its bytes are no whole number of blocks.
pub fn disk_of(alloc: Global, image: &[u8]) -> Result<MemDisk, ImageFault>
    ensures disk { IfOk result (λ disk. disk.bytes ≡ image.now) }
    ensures whole { IfOk result (λ disk. length disk.bytes % 1024 ≡ 0) }
    ensures refused { IfErr result (Tells format image.now) }
    ensures denied { IfErr result (Denies (Denotes image.now)) }
{
    let Ok(bytes) = Vec::from_slice(alloc, image) else {
        return Err(ImageFault::NoMemory);
    };
    match MemDisk::new(bytes) {
        Ok(disk) => Ok(disk),
        Err(_) => Err(ImageFault::Length),
    }
}

/// Tests that the bytes are an image, and returns what it uses. The fault is that of the first rule that they break.
pub fn check(alloc: Global, image: &[u8]) -> Result<Summary, ImageFault>
    ensures denotes { OnOk result (Denotes image.now (files_in image.now)) }
    ensures inodes { IfOk result (λ summary. summary.inodes ≡ length (numbers_in_use image.now)) }
    ensures blocks { IfOk result (λ summary. summary.blocks ≡ length (named_blocks image.now)) }
    ensures fault { IfErr result (Tells format image.now) }
    ensures refused { IfErr result (Denies (Denotes image.now)) }
{
    match disk_of(alloc, image) {
        Ok(mut disk) => image::check(alloc, &mut disk),
        Err(fault) => Err(fault),
    }
}
