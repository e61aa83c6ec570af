//! The image of a machine without a disk.

ghost use Rattle.std.specs.Prelude.{◌≡◌, IfOk};
ghost use Rattle.imagemake.specs.Making.{meaning};
ghost use Rattle.mount.specs.Mounted.{IsFlat, IsFlatImage, console_manifest};

use crate::device::mount;
use blockdev::MemDisk;
use image::{Entry, ImageFault, MakeFault, Manifest, Thing, make};
use std::alloc::{AllocError, Global};
use tree::Tree;

// The console, and nothing else.
fn console(alloc: Global) -> Result<Manifest, AllocError>
    ensures { IfOk result (λ manifest. meaning manifest.entries.items ≡ console_manifest) }
{
    let mut entries = Vec::new(alloc);
    entries.push(Entry {
        path: Vec::from_slice(alloc, b"/console")?,
        thing: Thing::Device { major: 1, minor: 0 },
    })?;
    Ok(Manifest { entries })
}

/// An image of a root and the console.
pub fn flat_image(alloc: Global) -> Result<Vec<u8>, AllocError>
    ensures { IfOk result (λ image. IsFlatImage image.items) }
{
    let manifest = console(alloc)?;
    match make(alloc, &manifest, 32, 16) {
        Ok(image) => Ok(image),
        Err(fault) => match fault {
            MakeFault::NoMemory => Err(AllocError),
            _ => unreachable!(),
        },
    }
}

/// A root and the console, on a disk in memory: the files of a machine that boots without a disk. It fails only where
/// the host has no memory.
pub fn mount_flat(alloc: Global) -> Result<Tree<MemDisk>, AllocError>
    ensures { IfOk result IsFlat }
{
    let image = flat_image(alloc)?;
    let Ok(device) = MemDisk::new(image) else {
        unreachable!()
    };
    match mount(alloc, device) {
        Ok(tree) => Ok(tree),
        Err(fault) => match fault {
            ImageFault::NoMemory => Err(AllocError),
            _ => unreachable!(),
        },
    }
}
