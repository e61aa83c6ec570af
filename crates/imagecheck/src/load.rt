//! Reading an image from its device.

ghost use Rattle.std.specs.Prelude.{◌≡◌, ◌≤◌, length, IfOk, IfErr, IsErrOf};
ghost use Rattle.imagerules.specs.Content.{image_of};
ghost use Rattle.imagecheck.specs.Checks.{OnlyReads};
ghost use Rattle.imagecheck.specs.Faults.{IsOfImage, IsOutside, OfFront, TellsGeometry};
ghost use Rattle.layout.specs.Formats.{format_named};

use crate::ImageFault;
use blockdev::{BLOCK_SIZE, Block, BlockDev};
use layout::{Format, Geometry, LayoutFault, SuperBlock};
use std::alloc::Allocator;

// The geometry that the super block says of a device of `count` blocks, if its numbers and the length are right in the
// format.
pub fn geometry_in(format: Format, block: &Block, count: usize) -> Result<Geometry, ImageFault>
    requires { 2 ≤ count }
    ensures judged { OfFront count block.now (λ image. TellsGeometry (format_named format) image result) }
    ensures own { IfErr result IsOfImage }
{
    let numbers = SuperBlock::from_front(block);
    if numbers.size as usize != count {
        return Err(ImageFault::Length);
    }
    match numbers.test(format) {
        Ok(()) => Ok(Geometry {
            size: count,
            inodes: numbers.inodes as usize,
        }),
        Err(LayoutFault::Magic) => Err(ImageFault::Magic),
        Err(LayoutFault::Numbers) => Err(ImageFault::Numbers),
        Err(LayoutFault::Short) => Err(ImageFault::Length),
    }
}

// Reads the super block, and tests the length and its numbers in the format.
pub fn read_geometry<D: BlockDev>(format: Format, device: &mut D) -> Result<Geometry, ImageFault>
    ensures judged { TellsGeometry (format_named format) (image_of (D.content device.old)) result }
    ensures memory { IsErrOf result ImageFault.NoMemory → ⊥ }
    ensures reads { OnlyReads D.content D.identity D.failures device.old device.new result }
{
    let count = device.blocks();
    if count < 2 {
        return Err(ImageFault::Length);
    }
    let block = device.read(1)?;
    geometry_in(format, &block, count)
}

// Reads all blocks.
pub fn read_blocks<A: Allocator, D: BlockDev>(
    alloc: A,
    device: &mut D,
    count: usize,
) -> Result<Vec<u8, A>, ImageFault>
    requires count { count ≡ length (D.content device.old) }
    requires most { count ≤ 131072 }
    ensures bytes { IfOk result (λ image. image.items ≡ image_of (D.content device.old)) }
    ensures only { IfErr result IsOutside }
    ensures reads { OnlyReads D.content D.identity D.failures device.old device.new result }
{
    let mut image = Vec::with_capacity(alloc, BLOCK_SIZE * count)?;
    for n in 0..count {
        let block = device.read(n)?;
        image.extend_from_slice(&block)?;
    }
    Ok(image)
}
