//! A host's files and disk images, and what is reported of a job that is not done.
#![tactic(auto)]

mod host;
mod host_files;
mod images;
mod report;

pub use host::{Front, Host, HostFault, InUse, NoScreen, Screen, Why};
pub use host_files::{append, hold, make_folder, read, read_front, read_marked, write};
pub use images::{bytes_of, disk_of, read_image};
pub use report::{End, Failure, print, refuse, tell};
