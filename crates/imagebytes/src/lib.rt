//! Images as bytes: they are made, checked, listed, read and written in memory, with no file of a host.
#![tactic(auto)]

mod checking;
mod entries;
mod files;
mod making;

pub use checking::check;
pub use entries::EntryTold;
pub use files::{get, list, put};
pub use image::{ImageFault, MakeFault, MigrateFault, Summary, migrate};
pub use image_files::{ListingFault, OpeningFault};
pub use making::{MakingFault, make};
pub use tree::TreeFault;
