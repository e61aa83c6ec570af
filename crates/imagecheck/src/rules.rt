//! The rules of an image, one after the other.

ghost use Rattle.std.specs.Prelude.{◌≡◌, [], length, IfErr, MatchResult};
ghost use Rattle.unixmodel.specs.Formats.{format, small};
ghost use Rattle.layout.specs.Formats.{format_named};
ghost use Rattle.imagecheck.specs.Checks.{Checks};
ghost use Rattle.imagecheck.specs.Faults.{Finds, IsOfImage};
ghost use Rattle.imagerules.specs.Rules.{BlockRules, HasInodes};
ghost use Rattle.imagerules.specs.Fields.{HasGeometry};
ghost use Rattle.imagerules.specs.Marks.{HasMarks};
ghost use Rattle.imagerules.specs.Pieces.{HasAddresses};
ghost use Rattle.imagecheck.specs.Summaries.{IsSummary};

use crate::ImageFault;
use crate::blocks::has_addresses;
use crate::files::test_files;
use crate::kinds::{has_kinds, has_sizes};
use crate::load::{read_blocks, read_geometry};
use crate::marks::{has_bitmap, names_once};
use crate::memory::check_bytes;
use crate::summary::{blocks_in_use, inodes_in_use};
use blockdev::BlockDev;
use layout::{CURRENT, Format, Geometry};
use std::alloc::Allocator;

/// What an image uses.
#[derive(Clone, Copy, Debug, PartialEq, Eq)]
pub struct Summary {
    /// The inodes in use.
    pub inodes: usize,
    /// The data blocks that they name.
    pub blocks: usize,
}

// Tests the inodes: the rules from the types to the addresses.
fn test_inodes(image: &[u8], geometry: Geometry) -> Result<(), ImageFault>
    requires { HasGeometry image.now geometry }
    ensures judged { MatchResult result (λ _. HasInodes image.now × HasAddresses image.now) (Finds image.now) }
    ensures own { IfErr result IsOfImage }
{
    if !has_kinds(image, geometry) {
        return Err(ImageFault::NodeType);
    }
    if !has_sizes(image, geometry) {
        return Err(ImageFault::Size);
    }
    if !has_addresses(image, geometry) {
        return Err(ImageFault::Address);
    }
    Ok(())
}

// Marks the blocks that the inodes name: tests that none is named twice, and that the bitmap marks the same.
fn test_marks(image: &[u8], geometry: Geometry, marks: &mut [bool]) -> Result<(), ImageFault>
    requires geometry { HasGeometry image.now geometry }
    requires inodes { HasInodes image.now }
    requires addresses { HasAddresses image.now }
    requires long { length marks.old ≡ geometry.size }
    requires fresh { HasMarks [] marks.old }
    ensures judged { MatchResult result (λ _. BlockRules image.now) (Finds image.now) }
    ensures own { IfErr result IsOfImage }
{
    if !names_once(image, geometry, marks) {
        return Err(ImageFault::SharedBlock);
    }
    if !has_bitmap(image, geometry, marks) {
        return Err(ImageFault::Bitmap);
    }
    Ok(())
}

// Tests the inodes and the blocks that they name: the rules from the types to the bitmap.
fn test_blocks<A: Allocator>(alloc: A, image: &[u8], geometry: Geometry) -> Result<(), ImageFault>
    requires { HasGeometry image.now geometry }
    ensures { MatchResult result (λ _. BlockRules image.now) (Finds image.now) }
{
    test_inodes(image, geometry)?;
    let mut marks = vec![in alloc; false; geometry.size]?;
    test_marks(image, geometry, &mut marks)
}

// Tests the inodes, their blocks and the files, the rules from the types on, and counts what is in use.
pub fn summary_of<A: Allocator>(
    alloc: A,
    image: &[u8],
    geometry: Geometry,
) -> Result<Summary, ImageFault>
    requires { HasGeometry image.now geometry }
    ensures { MatchResult result (IsSummary image.now) (Finds image.now) }
{
    test_blocks(&alloc, image, geometry)?;
    test_files(&alloc, image, geometry)?;
    Ok(Summary {
        inodes: inodes_in_use(image, geometry),
        blocks: blocks_in_use(image, geometry),
    })
}

// Tests that an image denotes files in a format: in the device's memory, if the device lends it, else in a copy.
fn check_in<A: Allocator, D: BlockDev>(
    alloc: A,
    device: &mut D,
    format: Format,
) -> Result<Summary, ImageFault>
    ensures { Checks (format_named format) D.content D.identity D.failures device.old device.new result }
{
    if let Some(image) = device.as_bytes() {
        return check_bytes(alloc, format, image);
    }
    let geometry = read_geometry(format, device)?;
    let image = read_blocks(&alloc, device, geometry.size)?;
    summary_of(&alloc, &image, geometry)
}

/// Tests that an image denotes files: its length, its super block, its inodes, the blocks that they name,
/// the slots of its directories, the counts of links, and that a path reaches each inode in use. What a device lends
/// in memory (`as_bytes`) is read there, with no access; else all blocks are read into a copy.
///
/// The fault is that of the first rule that the image breaks, in the order of `ImageFault`. An image that has
/// one denotes no files.
pub fn check<A: Allocator, D: BlockDev>(alloc: A, device: &mut D) -> Result<Summary, ImageFault>
    ensures { Checks format D.content D.identity D.failures device.old device.new result }
{
    check_in(alloc, device, CURRENT)
}

/// Tests that an image in the small format denotes files, by the rules of `check` and in their order. An
/// image of another format has the fault `Magic`.
pub fn check1<A: Allocator, D: BlockDev>(alloc: A, device: &mut D) -> Result<Summary, ImageFault>
    ensures { Checks small D.content D.identity D.failures device.old device.new result }
{
    check_in(alloc, device, Format::Small)
}
