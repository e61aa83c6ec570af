//! Disk images: their making of a manifest or of an image of the small format, the check whether their bytes denote
//! files, and that these are no others.
#![tactic(auto)]

pub use imagecheck::{ImageFault, Summary, check, check1};
pub use imagemake::{Entry, MakeFault, Maker, Manifest, Thing, make};
pub use imagerules::image_denotes_one_list;
pub use migrate::{MigrateFault, migrate};
