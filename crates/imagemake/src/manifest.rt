//! What an image is made of.

ghost use Rattle.std.specs.Prelude.{◌≡◌};
ghost use Rattle.imagemake.specs.Making.{makes_directory};

use std::alloc::AllocError;
use std::fmt;
use thiserror::Error;

/// A path, and what it names.
#[derive(Debug, Drop)]
pub struct Entry {
    /// A slash and names, with a slash between two.
    pub path: Vec<u8>,
    /// What is at the path.
    pub thing: Thing,
}

/// What an entry makes.
#[derive(Debug, Drop)]
pub enum Thing {
    /// A directory.
    Directory,
    /// A file of these bytes.
    File(Vec<u8>),
    /// A device.
    Device {
        /// Which driver it has.
        major: u16,
        /// Which of the driver's devices it is.
        minor: u16,
    },
}

impl Thing {
    /// Whether it is a directory.
    pub fn is_directory(&self) -> bool
        ensures { result ≡ makes_directory self.now }
    {
        match self {
            Thing::Directory => true,
            Thing::File(_) | Thing::Device { .. } => false,
        }
    }
}

/// What an image has besides its root, in the order of the numbers: a directory comes before what is in it.
#[derive(Debug, Drop)]
pub struct Manifest {
    /// The entries.
    pub entries: Vec<Entry>,
}

/// Why no image is made.
#[derive(Clone, Copy, Debug, PartialEq, Eq, Error)]
pub enum MakeFault {
    /// The path doesn't begin with a slash, or one of its names is none.
    Name = 1,
    /// The name is there already.
    Twice,
    /// A file or a directory would be too long, or the blocks don't suffice.
    Blocks,
    /// No number is left.
    Inodes,
    /// The directory above is neither the root nor an earlier entry.
    Parent,
    /// The size or the count of inodes isn't one of an image.
    Numbers,
    /// The host has no memory left.
    NoMemory,
}

impl MakeFault {
    // What it says to a person.
    fn text(&self) -> &'static str {
        match self {
            Self::Name => "a path or a name in it is wrong",
            Self::Twice => "a name is there twice",
            Self::Blocks => "the blocks don't suffice",
            Self::Inodes => "the inodes don't suffice",
            Self::Parent => "a directory isn't there",
            Self::Numbers => "the numbers fit no image",
            Self::NoMemory => "no memory",
        }
    }
}

impl fmt::Display for MakeFault {
    fn fmt<W: fmt::Write>(&self, f: &mut fmt::Formatter<W>) -> fmt::Result {
        f.write_str(self.text())
    }
}

impl From<AllocError> for MakeFault {
    ghost use Rattle.std.specs.Prelude.{◌≡◌};
    ghost use Rattle.imagemake.specs.declared.manifest.MakeFault.TheVariants.{NoMemory};

    ghost from_gives = { λ _ fault. fault ≡ NoMemory };

    fn from(_error: AllocError) -> MakeFault {
        MakeFault::NoMemory
    }
}
