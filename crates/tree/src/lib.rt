//! Files by name: the slots of directories, and how names are made and removed.
#![tactic(auto)]

mod entering;
mod making;
mod path;
mod place;
mod removing;
mod step;
mod sweeping;
mod tree;

use blockdev::DeviceFault;
pub use entering::Gap;
pub use inode::{DEVICE, DIRECTORY, FILE};
pub use making::Leaf;
pub use place::Found;
use thiserror::Error;
pub use tree::Tree;

/// Why a call on names is refused.
#[derive(Clone, Copy, Debug, PartialEq, Eq, Error)]
pub enum TreeFault {
    #[error("it is not found")]
    NotFound = 1,
    #[error("it is no directory")]
    NotDir,
    #[error("the name is there already")]
    Exists,
    #[error("it is a directory")]
    IsDir,
    #[error("the directory has entries")]
    NotEmpty,
    #[error("the name is a dot or two")]
    DotName,
    #[error("the directory has no links")]
    DeadDir,
    #[error("no link is left")]
    Links,
    #[error("no block is free")]
    Blocks,
    #[error("no inode is free")]
    Inodes,
    #[error("the directory is full")]
    Full,
    #[error("a device access failed")]
    Device,
}

impl From<DeviceFault> for TreeFault {
    ghost use Rattle.std.specs.Prelude.{◌≡◌};
    ghost use Rattle.tree.specs.declared.TreeFault.TheVariants.{Device};

    ghost from_gives = { λ _ fault. fault ≡ Device };

    fn from(_fault: DeviceFault) -> TreeFault {
        TreeFault::Device
    }
}
