//! Why a machine doesn't boot.

use image::ImageFault;
use thiserror::Error;

/// Why a machine doesn't boot.
#[derive(Clone, Copy, PartialEq, Eq, Debug, Error)]
pub enum BootFault {
    /// The disk's image denotes no files.
    #[error("the image: {0}")]
    Image(ImageFault),
    /// Fewer than 64 frames, or more than 32768.
    #[error("the number of frames is not from 64 to 32768")]
    FrameCount,
    /// An access of the device failed.
    #[error("the device failed")]
    Device,
    /// The host has no memory.
    #[error("no memory")]
    NoMemory,
    /// The first program can't be executed: of an image there is no file `/init`, or it is no program; or the frames
    /// don't suffice.
    #[error("the first program cannot be executed")]
    NoInit,
}
