//! The commands on disk images and program files, done over a host's files, and what `--explain` adds.
#![tactic(auto)]

pub mod assembling;
mod explaining;
pub mod images;
pub mod openings;
pub mod program_files;

pub use explaining::{explain, explain_words};
