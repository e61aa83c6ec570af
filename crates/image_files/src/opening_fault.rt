//! Why an image isn't opened, or not written.

use blockdev::DeviceFault;
use image::ImageFault;
use std::alloc::AllocError;
use tree::TreeFault;

/// Why a file isn't taken out of an image, or not put into one.
#[derive(Clone, Copy)]
pub enum OpeningFault {
    /// The image is refused.
    Image(ImageFault),
    /// The path is no file's, or none can be there.
    Tree(TreeFault),
    /// The host has no memory for the file.
    NoMemory,
}

impl From<ImageFault> for OpeningFault {
    fn from(fault: ImageFault) -> OpeningFault {
        OpeningFault::Image(fault)
    }
}

impl From<TreeFault> for OpeningFault {
    fn from(fault: TreeFault) -> OpeningFault {
        OpeningFault::Tree(fault)
    }
}

impl From<DeviceFault> for OpeningFault {
    fn from(_fault: DeviceFault) -> OpeningFault {
        OpeningFault::Tree(TreeFault::Device)
    }
}

impl From<AllocError> for OpeningFault {
    fn from(_failed: AllocError) -> OpeningFault {
        OpeningFault::NoMemory
    }
}
