//! Makes an image.
ghost use Rattle.imagebytes.specs.Made.{MakesOf};

use crate::entries::{EntryTold, manifest_of};
use image::MakeFault;
use std::alloc::{AllocError, AllocFailed, Global};

/// Why no image is made.
#[derive(Clone, Copy)]
pub enum MakingFault {
    /// An entry is of no kind, or the bytes are not those of the entries.
    Entry,
    /// What is wrong with the manifest.
    Make(MakeFault),
}

impl From<AllocError> for MakingFault {
    ghost use Rattle.std.specs.Prelude.{◌≡◌};
    ghost use Rattle.imagebytes.specs.declared.making.MakingFault.TheVariants.{Make};
    ghost use Rattle.imagemake.specs.declared.manifest.MakeFault.TheVariants.{NoMemory};

    ghost from_gives = { λ _ fault. fault ≡ Make NoMemory };

    fn from(_error: AllocError) -> MakingFault {
        MakingFault::Make(MakeFault::NoMemory)
    }
}

impl<T: Drop> From<AllocFailed<T>> for MakingFault {
    ghost use Rattle.std.specs.Prelude.{◌≡◌};
    ghost use Rattle.imagebytes.specs.declared.making.MakingFault.TheVariants.{Make};
    ghost use Rattle.imagemake.specs.declared.manifest.MakeFault.TheVariants.{NoMemory};

    ghost from_gives = { λ _ fault. fault ≡ Make NoMemory };

    fn from(_failed: AllocFailed<T>) -> MakingFault {
        MakingFault::Make(MakeFault::NoMemory)
    }
}

/// An image of that many blocks and inodes, with these entries: their paths and contents are the bytes, one after the
/// other.
pub fn make(
    alloc: Global,
    told: &[EntryTold],
    bytes: &[u8],
    size: u32,
    inodes: u32,
) -> Result<Vec<u8>, MakingFault>
    ensures { MakesOf told.now bytes.now size inodes result }
{
    let manifest = manifest_of(alloc, told, bytes)?;
    match image::make(alloc, &manifest, size, inodes) {
        Ok(image) => Ok(image),
        Err(fault) => Err(MakingFault::Make(fault)),
    }
}
