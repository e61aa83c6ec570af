//! Why an image is not migrated.

use blockdev::DeviceFault;
use imagecheck::ImageFault;
use inode::InodeFault;
use std::alloc::AllocError;
use thiserror::Error;

/// Why an image is not migrated.
#[derive(Clone, Copy, Debug, PartialEq, Eq, Error)]
pub enum MigrateFault {
    /// The old image denotes no files of its format.
    #[error("the old image is wrong")]
    Image(ImageFault),
    /// The new image has too few blocks for the files.
    #[error("the blocks don't suffice")]
    Blocks,
    /// The host has no memory left.
    #[error("no memory")]
    NoMemory,
}

impl From<AllocError> for MigrateFault {
    ghost use Rattle.std.specs.Prelude.{◌≡◌};
    ghost use Rattle.migrate.specs.declared.fault.MigrateFault.TheVariants.{NoMemory};

    ghost from_gives = { λ _ fault. fault ≡ NoMemory };

    fn from(_error: AllocError) -> MigrateFault {
        MigrateFault::NoMemory
    }
}

// A disk in memory doesn't fail: the lack of memory stands for a failed access.
impl From<DeviceFault> for MigrateFault {
    ghost use Rattle.std.specs.Prelude.{◌≡◌};
    ghost use Rattle.migrate.specs.declared.fault.MigrateFault.TheVariants.{NoMemory};

    ghost from_gives = { λ _ fault. fault ≡ NoMemory };

    fn from(_fault: DeviceFault) -> MigrateFault {
        MigrateFault::NoMemory
    }
}

// Bytes that don't go need more blocks than there are.
impl From<InodeFault> for MigrateFault {
    ghost use Rattle.std.specs.Prelude.{◌≡◌};
    ghost use Rattle.migrate.specs.Copies.{write_fault};

    ghost from_gives = { λ told fault. fault ≡ write_fault told };

    fn from(fault: InodeFault) -> MigrateFault {
        match fault {
            InodeFault::Device => MigrateFault::NoMemory,
            _ => MigrateFault::Blocks,
        }
    }
}

impl From<ImageFault> for MigrateFault {
    ghost use Rattle.std.specs.Prelude.{◌≡◌};
    ghost use Rattle.migrate.specs.Copies.{image_fault};

    ghost from_gives = { λ told fault. fault ≡ image_fault told };

    fn from(fault: ImageFault) -> MigrateFault {
        match fault {
            ImageFault::NoMemory => MigrateFault::NoMemory,
            fault => MigrateFault::Image(fault),
        }
    }
}
