//! What the program takes out of images and files: the entries of directories, the bytes of files and the instructions
//! of programs. It puts files into images, too.
#![tactic(auto)]

mod directory;
mod found;
mod getting;
mod missing;
mod opening_fault;
mod program;
mod putting;
mod walk;

pub use directory::{ListingFault, write_directory};
pub use getting::read_file;
pub use missing::{Missing, first_missing};
pub use opening_fault::OpeningFault;
pub use program::{ProgramFault, segments, write_program};
pub use putting::write_file;
pub use walk::write_tree;
