//! The check of a disk image: whether its bytes denote files.
#![tactic(auto)]

mod blocks;
mod contents;
mod directories;
mod entries;
mod fields;
mod files;
mod fronts;
mod kinds;
mod links;
mod load;
mod marks;
mod memory;
mod names;
mod namings;
mod reach;
mod rules;
mod slots;
mod summary;
mod tables;

use blockdev::DeviceFault;
pub use contents::read_contents;
pub use fields::{kind as inode_kind, links as inode_links};
pub use memory::check1_bytes;
pub use rules::{Summary, check, check1};
use std::alloc::AllocError;
use std::fmt;
use thiserror::Error;

/// Why an image is refused. Each rule is judged where those before it hold, in the order `Length`, `Magic`, `Numbers`,
/// `NodeType`, `Size`, `Address`, `SharedBlock`, `Bitmap`, `Entry`, `Links`, `Unreached`.
#[derive(Clone, Copy, Debug, PartialEq, Eq, Error)]
pub enum ImageFault {
    /// The device has another number of blocks than the super block says.
    Length,
    /// The magic number is wrong.
    Magic,
    /// The numbers of the super block don't fit one another.
    Numbers,
    /// An inode has an unknown type, or the root is no directory.
    NodeType,
    /// An inode's number names no data block, or isn't 0 where its size asks for none.
    Address,
    /// A block is named twice.
    SharedBlock,
    /// The bitmap doesn't mark the blocks that are in use.
    Bitmap,
    /// An inode has a size that its type can't have.
    Size,
    /// A slot of a directory is wrong.
    Entry,
    /// A count of links is wrong.
    Links,
    /// An inode in use isn't reached from the root.
    Unreached,
    /// A device access failed.
    Device,
    /// No memory.
    NoMemory,
}

impl ImageFault {
    // The message for a person.
    fn text(&self) -> &'static str {
        match self {
            Self::Length => "the device has another number of blocks than the super block says",
            Self::Magic => "the magic number is wrong",
            Self::Numbers => "the numbers of the super block don't fit one another",
            Self::NodeType => "an inode has an unknown type, or the root is no directory",
            Self::Address =>
                "an inode's number names no data block, or isn't 0 where its size asks for none",
            Self::SharedBlock => "a block is named twice",
            Self::Bitmap => "the bitmap doesn't mark the blocks that are in use",
            Self::Size => "an inode has a size that its type can't have",
            Self::Entry => "an entry of a directory is wrong",
            Self::Links => "a count of links is wrong",
            Self::Unreached => "an inode in use isn't reached from the root",
            Self::Device => "a device access failed",
            Self::NoMemory => "no memory",
        }
    }
}

impl fmt::Display for ImageFault {
    fn fmt<W: fmt::Write>(&self, f: &mut fmt::Formatter<W>) -> fmt::Result {
        f.write_str(self.text())
    }
}

impl From<DeviceFault> for ImageFault {
    ghost use Rattle.std.specs.Prelude.{◌≡◌};
    ghost use Rattle.imagecheck.specs.declared.ImageFault.TheVariants.{Device};

    ghost from_gives = { λ _ fault. fault ≡ Device };

    fn from(_fault: DeviceFault) -> ImageFault {
        ImageFault::Device
    }
}

impl From<AllocError> for ImageFault {
    ghost use Rattle.std.specs.Prelude.{◌≡◌};
    ghost use Rattle.imagecheck.specs.declared.ImageFault.TheVariants.{NoMemory};

    ghost from_gives = { λ _ fault. fault ≡ NoMemory };

    fn from(_error: AllocError) -> ImageFault {
        ImageFault::NoMemory
    }
}
