//! Files and directories of an image.
ghost use Rattle.std.specs.Prelude.{◌≡◌, IfOk, OnOk, length};
ghost use Rattle.image_files.specs.Listed.{IsDirectoryOf};
ghost use Rattle.image_files.specs.Opened.{IsFileOf, IsPut};

use crate::checking::disk_of;
use image_files::{ListingFault, OpeningFault, read_file, write_directory, write_file};
use std::alloc::Global;

/// The bytes of the file that a path reaches from the root of an image, which is checked first.
pub fn get(alloc: Global, image: &[u8], path: &[u8]) -> Result<Vec<u8>, OpeningFault>
    ensures { IfOk result (λ bytes. IsFileOf image.now path.now bytes.items) }
{
    read_file(alloc, disk_of(alloc, image)?, path)
}

/// The image in which the file that a path reaches from the root has these bytes; it is made where there is none. The
/// image is checked first.
pub fn put(alloc: Global, image: &[u8], path: &[u8], bytes: &[u8]) -> Result<Vec<u8>, OpeningFault>
    ensures put { IfOk result (λ left. IsPut image.now path.now bytes.now left.items) }
    ensures length { IfOk result (λ left. length left.items ≡ length image.now) }
{
    let left = write_file(alloc, disk_of(alloc, image)?, path, bytes)?;
    Ok(left.into_bytes())
}

/// A line for each entry of the directory that a path reaches from the root of an image, which is checked first: its
/// name in 14 columns, its type, its number and its size.
pub fn list(alloc: Global, image: &[u8], path: &[u8]) -> Result<Vec<u8>, ListingFault>
    ensures { OnOk result (IsDirectoryOf image.now path.now) }
{
    let mut lines = Vec::new(alloc);
    write_directory(alloc, disk_of(alloc, image)?, path, &mut lines)?;
    Ok(lines)
}
