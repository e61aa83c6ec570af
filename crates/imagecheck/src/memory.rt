//! The check of an image in memory.

ghost use Rattle.std.specs.Prelude.{◌≡◌, IfErr, IfOk, IsErrOf, OnOk, length};
ghost use Rattle.unixmodel.specs.Files.{Files};
ghost use Rattle.unixmodel.specs.Formats.{small};
ghost use Rattle.unixmodel.specs.Image.{DenotesIn, DenotesSmall, named_blocks, numbers_in_use};
ghost use Rattle.layout.specs.Formats.{format_named};
ghost use Rattle.imagerules.specs.Fields.{HasGeometry};
ghost use Rattle.imagerules.specs.Places.{files_in};
ghost use Rattle.imagecheck.specs.Faults.{Denies, DenotesOwn, IsOfImage, Tells, TellsGeometry};

use crate::load::geometry_in;
use crate::rules::summary_of;
use crate::{ImageFault, Summary};
use blockdev::BLOCK_SIZE;
use layout::{Format, Geometry};
use std::alloc::Allocator;

// The geometry that the super block says, if its numbers and the length are right in the format.
fn geometry_of(format: Format, image: &[u8]) -> Result<Geometry, ImageFault>
    ensures judged { TellsGeometry (format_named format) image.now result }
    ensures own { IfErr result IsOfImage }
{
    let count = image.len() / BLOCK_SIZE;
    if image.len() % BLOCK_SIZE != 0 || count < 2 {
        return Err(ImageFault::Length);
    }
    let mut front = [0; BLOCK_SIZE];
    front.copy_from_slice(&image[BLOCK_SIZE..2 * BLOCK_SIZE]);
    geometry_in(format, &front, count)
}

// Tests that an image denotes files in a format. No fault is `Device`.
pub fn check_bytes<A: Allocator>(
    alloc: A,
    format: Format,
    image: &[u8],
) -> Result<Summary, ImageFault>
    ensures denotes { OnOk result (DenotesOwn (format_named format) image.now) }
    ensures inodes { IfOk result (λ summary. summary.inodes ≡ length (numbers_in_use image.now)) }
    ensures blocks { IfOk result (λ summary. summary.blocks ≡ length (named_blocks image.now)) }
    ensures fault { IfErr result (λ fault. Tells (format_named format) image.now fault) }
    ensures refused { IfErr result (Denies (DenotesIn (format_named format) image.now)) }
    ensures device { IsErrOf result ImageFault.Device → ⊥ }
{
    let geometry = geometry_of(format, image)?;
    summary_of(alloc, image, geometry)
}

/// Tests bytes in memory as `check1` tests those of a device, and returns their geometry. No fault is
/// `Device`.
pub fn check1_bytes<A: Allocator>(alloc: A, image: &[u8]) -> Result<Geometry, ImageFault>
    ensures geometry { IfOk result (λ g. HasGeometry image.now g) }
    ensures denotes { OnOk result (DenotesSmall image.now (files_in image.now)) }
    ensures fault { IfErr result (λ fault. Tells small image.now fault) }
    ensures refused { IfErr result (λ fault. IsOfImage fault → (files : Files) → DenotesSmall image.now files → ⊥) }
    ensures device { IsErrOf result ImageFault.Device → ⊥ }
{
    let geometry = geometry_of(Format::Small, image)?;
    summary_of(alloc, image, geometry)?;
    Ok(geometry)
}
