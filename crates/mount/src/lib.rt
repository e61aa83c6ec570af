//! The files of an image, in use: of the image that a device has, or of one that is made in memory.
#![tactic(auto)]

mod device;
mod flat;

pub use device::{mount, unmount};
pub use flat::{flat_image, mount_flat};
